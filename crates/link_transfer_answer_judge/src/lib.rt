//! Judging the answers of a peer, XFER_ACK and XFER_REFUSE, to one transfer that the caller sends.
//!
//! ```ignore
//! let mut sent = Sent::new(id);
//! for chunk in chunks {
//!     send(chunk)?;
//!     sent.length += chunk.len() as u64;
//!     sent.whole = chunk.is_last();
//!     while let Some(answer) = received()? {
//!         sent.judge(answer)?;
//!     }
//! }
//! ```
#![tactic(auto)]

mod answers;

pub use answers::{Answer, AnswerFault, Sent};
