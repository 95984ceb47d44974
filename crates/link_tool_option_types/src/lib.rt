//! The options of the tools, as plain types.
//!
//! [`Options`] is a tool with its options. [`Wanted`] has those of `unpack`, and [`BlockOptions`]
//! those of `blocks`. [`CheckOptions`] and [`BundleCheckOptions`] are those of `check`, and
//! [`PackOptions`] those of `pack`. All three have a [`NodeId`].
//!
//! The crates of the tools export these types too, so that their callers need not name this crate.
//! Code that only makes options, such as the command line, needs no tool.
//!
//! ```ignore
//! let wanted = Wanted { only: None, payload: true, keep_going: false };
//! let options = Options::Unpack(wanted);
//! ```
#![tactic(auto)]

mod blocks;
mod check;
mod limits;
mod node;
mod options;
mod pack;
mod wanted;

pub use blocks::BlockOptions;
pub use check::{BundleCheckOptions, CheckOptions};
pub use limits::PeerLimits;
pub use node::{MAX_NODE_ID, NodeId};
pub use options::Options;
pub use pack::PackOptions;
pub use wanted::Wanted;
