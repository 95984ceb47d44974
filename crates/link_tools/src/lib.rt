//! The tools `list`, `unpack`, `blocks`, `check` and `pack` for recorded TCPCLv4 sessions (RFC
//! 9174).
//!
//! Each tool reads an input device step by step, and writes an output and a report. [`Job::new`]
//! makes the tool of the given options ready to run, and [`run_tool`] runs it to its end.
//! [`run_exit`] returns the exit status and the message with which a program ends after the run.
//!
//! ```ignore
//! let job = Job::new(alloc, Options::List);
//! let end = run_tool(job, reader, output, report);
//! let (status, message) = run_exit(&end.answer);
//! ```
#![tactic(auto)]

mod exit;
mod options;

pub use exit::run_exit;
pub use link_run::{Progress, Ran, Run, RunEnd, Status};
pub use link_tool_blocks::{
    BlocksRun, BundleBlocksRun, blocks, blocks_run, bundle_blocks, bundle_blocks_run,
};
pub use link_tool_check::{
    BundleCheckRun, CheckRun, bundle_check, bundle_check_run, check, check_run,
};
pub use link_tool_list::{ListRun, list, list_run};
pub use link_tool_option_types::{
    BlockOptions, BundleCheckOptions, CheckOptions, NodeId, Options, PackOptions, PeerLimits,
    Wanted,
};
pub use link_tool_pack::{PackRun, cutter_for, pack, pack_run};
pub use link_tool_unpack::{UnpackRun, unpack, unpack_run};
pub use options::{Job, run_tool};
