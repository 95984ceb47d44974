//! `pack`: writes bundles as the stream of a TCPCLv4 sender (RFC 9174), within a peer's limits.
//!
//! [`pack`] does the whole run. [`pack_run`] makes the same run for a caller that takes the steps.
//! [`PackOptions`] describes the sender, and has the limits of the peer.
//!
//! ```ignore
//! let memory = cutter_for(alloc, &options);
//! let end = pack(memory, options, reader, output, report);
//! ```
//!
//! [`pack_more`] is for a session that is open. It writes the segments alone, without the contact
//! header, SESS_INIT and SESS_TERM. The transfer of the first bundle has the ID
//! [`MoreOptions::first`], and each transfer after it the next ID. [`more_run`] makes the same run.
//!
//! ```ignore
//! let memory = cutter_for(alloc, &options.pack);
//! let end = pack_more(memory, options, reader, output, report);
//! ```
#![tactic(auto)]

pub mod laws;
mod more;
mod packer;
mod segment_text;
mod segments;

pub use link_tool_option_types::PackOptions;
pub use more::{MoreOptions, MorePacker, MoreRun, more_run, pack_more};
pub use packer::{PackRun, Packer, cutter_for, pack, pack_run};
