//! Laws of `pack_more`, over the definitions alone.
//!
//! The functions do nothing when they run. Their contracts are the laws.

ghost use Rattle.std.specs.Prelude.{ℕ, List};
ghost use Rattle.link_tool_option_types.specs.declared.pack.PackOptions.{PackOptions};
ghost use Rattle.link_tool_pack.specs.MoreLaws.{IsPreludeThenPackMore, HasNoMoreBundlesThanBytes, HasLinesFromFirst, SegmentsDifferOnlyInIds};
ghost use Rattle.link_tool_pack.specs.declared.more.MoreOptions.{MoreOptions};

/// What `pack` writes is the contact header and SESS_INIT, then what `pack_more` writes with the
/// first ID 0, and then SESS_TERM, if it was asked for.
///
/// With another first ID, the segments are the same except for their IDs, if all IDs fit in 64
/// bits.
pub fn more_of_pack()
    ensures packed { (options : PackOptions) (bytes : List ℕ)
        → IsPreludeThenPackMore options bytes }
    ensures moved { SegmentsDifferOnlyInIds }
{}

/// If the sum of the first ID and the length of the input is below 2^64, all IDs fit in 64 bits.
///
/// An input has no more bundles than bytes. If all IDs fit, the lines of the report have the IDs
/// from the first one on.
pub fn more_ids()
    ensures few { (limit : ℕ) (bytes : List ℕ) → HasNoMoreBundlesThanBytes limit bytes }
    ensures lines { (options : MoreOptions) (bytes : List ℕ) → HasLinesFromFirst options bytes }
{}
