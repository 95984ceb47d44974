//! `blocks`: shows the blocks of the bundles of a recorded TCPCLv4 session (RFC 9174, RFC 9171).
//!
//! [`blocks`] does the whole run. [`blocks_run`] makes the same run for a caller that takes the
//! steps. [`BlockOptions`] selects the transfers that are shown.
//!
//! ```ignore
//! let options = BlockOptions { only: None, keep_going: false };
//! let end = blocks(options, reader, output, report);
//! ```
//!
//! [`bundle_blocks`] and [`bundle_blocks_run`] do the same for an input that has one bundle after
//! another.
#![tactic(auto)]

mod block_lines;
mod bundles;
pub mod laws;
mod lister;
mod transfer;

pub use bundles::{BundleBlocksRun, BundleLister, bundle_blocks, bundle_blocks_run};
pub use link_bundle_data_in_pieces::DataReader;
pub use link_tool_option_types::BlockOptions;
pub use lister::{BlockLister, BlocksRun, blocks, blocks_run};
