//! The walk over the transfers of a recorded TCPCLv4 session (RFC 9174).
//!
//! A tool over transfers is a [`Consumer`]: the walk tells it of each head that begins or ends a
//! transfer, of the data, and of the end of each transfer. The walk does the rest. It reads the
//! session, judges the order of its messages, and joins segments to transfers.
//!
//! ```ignore
//! let end = walk_run(options, consumer, reader, output, report).run();
//! ```
#![tactic(auto)]

mod consumer;
mod head;
mod walk;

pub use consumer::{Consumer, EventView, Manner};
pub use head::HeadView;
pub use walk::{Walk, WalkRun, walk_run};
