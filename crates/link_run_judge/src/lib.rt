//! The judgement on the transfers of a recorded TCPCLv4 session (RFC 9174).
//!
//! Every tool over transfers judges them in the same way, with a [`TransferJudge`]. The definition
//! of `unpack` is here too, since `blocks` has the transfers and the status of `unpack`, and also
//! [`tell_order`], which writes the line of a message out of order for both.
//!
//! ```ignore
//! judge.begin(head.message);
//! judge.take(piece);
//! let good = is_bundle(&judge.judgement(abandoned));
//! ```
#![tactic(auto)]

mod judge;
mod order;

pub use judge::{TransferJudge, is_bundle};
pub use order::tell_order;
