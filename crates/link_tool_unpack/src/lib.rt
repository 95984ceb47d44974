//! `unpack`: extracts, names and judges the bundles of a recorded TCPCLv4 session (RFC 9174).
//!
//! [`unpack`] does the whole run. [`unpack_run`] makes the same run for a caller that takes the
//! steps. [`Wanted`] selects the data that is written.
//!
//! ```ignore
//! let wanted = Wanted { only: None, payload: false, keep_going: false };
//! let end = unpack(wanted, reader, output, report);
//! ```
#![tactic(auto)]

mod transfer;
mod unpacker;

pub use link_bundle::part_in;
pub use link_run_judge::{TransferJudge, is_bundle, tell_order};
pub use link_tool_option_types::Wanted;
pub use unpacker::{UnpackRun, Unpacker, unpack, unpack_run};
