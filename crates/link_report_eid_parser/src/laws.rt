//! Laws of the texts of endpoint IDs, over the definitions alone.

ghost use Rattle.link_report_eid_parser.specs.TextOf.{TextDeterminesEid};

/// No two endpoint IDs have the same text, except the null endpoint and the dtn name `none`.
pub fn one_text()
    ensures { TextDeterminesEid }
{}
