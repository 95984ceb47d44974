//! `list`: the contents of a recorded TCPCLv4 session (RFC 9174), message by message.
//!
//! [`list`] does the whole run. [`list_run`] makes the same run for a caller that takes the steps.
//!
//! ```ignore
//! let end = list(reader, output, report);
//! ```
#![tactic(auto)]

mod listing;

pub use listing::{ListRun, Listing, list, list_run};
