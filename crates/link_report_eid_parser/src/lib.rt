//! Reading the texts of endpoint IDs, as the lines of this toolkit show them.
//!
//! [`read_eid_text`] is the inverse of [`put_eid`](link_report::put_eid): it accepts exactly the
//! texts that are written, and returns what they were written from. The one text that is written of
//! two endpoint IDs, `dtn:none`, is read as the null endpoint, and not as the dtn name `none`.
#![tactic(auto)]

mod decimal;
pub mod laws;
mod name;
mod prefix;
mod text;

pub use text::{TextFault, read_eid_text};
