//! Reads the command line of `tcpclkit`: the tool, its options and its input.
//!
//! ```ignore
//! match options(alloc, words) {
//!     Ok(invocation) => run(invocation),
//!     Err(fault) => end(usage_exit(&fault)),
//! }
//! ```
#![tactic(auto)]

mod command;
mod invocation;
mod reading;
mod usage;

pub use invocation::Invocation;
pub use reading::options;
pub use usage::{UsageFault, usage_exit};
