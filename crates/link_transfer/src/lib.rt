//! The transfers of a TCPCLv4 session (RFC 9174 section 5.2), in both directions.
//!
//! For a recorded session it judges how the messages follow each other. For bundles that are sent
//! it cuts them into the data of segments.
//!
//! A [`Joiner`] judges the order of the messages that one entity sent. It keeps two flags and one
//! transfer ID. [`announced`] returns the length that the first segment of a transfer announces.
//!
//! ```ignore
//! let mut joiner = Joiner::new();
//! match joiner.message(&message)? {
//!     Turn::Begin { abandoned, last } => ..,
//!     Turn::Continue { last } => ..,
//!     Turn::Other => ..,
//! }
//! ```
//!
//! A [`Cutter`] holds the bytes of a bundle until they make a chunk. It allocates its buffer once.
//!
//! ```ignore
//! let mut cutter = Cutter::new(alloc, 65_536, 0)?;
//! cutter.push(byte, is_last);
//! while let Some(cut) = cutter.cut() {
//!     // cut.first is START, cut.last is END
//!     write_segment(cut, cutter.bytes())?;
//! }
//! ```
#![tactic(auto)]

mod announcement;
mod cut;
mod cutter;
mod event;
mod fault;
mod held;
mod joiner;
pub mod laws;
mod length;

pub use announcement::Announced;
pub use cut::Cut;
pub use cutter::Cutter;
pub use event::Event;
pub use fault::OrderFault;
pub use joiner::{Joiner, Taken, Turn};
pub use length::announced;
