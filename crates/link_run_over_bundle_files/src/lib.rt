//! The walk over bundles (RFC 9171) that an input has one after another.
//!
//! A tool over bundles is a [`BundleConsumer`]: the walk tells it of each stretch of bytes that it
//! accepts, of each bundle that is whole, and of the end of the input. The walk does the rest. It
//! reads the input, judges the bundles, and reports the fault at which it stops.
//!
//! A tool over the blocks of a bundle is a [`BlockConsumer`]. [`tell_run`] tells it of the block
//! with which a stretch of bytes ends, if the walk stops at each block. [`tell_piece`] tells it of
//! the blocks in any piece of a bundle.
//!
//! ```ignore
//! let end = bundle_walk_run(options, consumer, reader, output, report).run();
//! ```
#![tactic(auto)]

mod blocks;
mod consumer;
mod current;
mod walk;

pub use blocks::{BlockConsumer, tell_piece, tell_run};
pub use consumer::{BundleConsumer, RunView, WholeView};
pub use walk::{BundleWalk, BundleWalkRun, bundle_walk_run};
