//! The report lines of a recorded TCPCLv4 session.
//!
//! There are lines for its contact header, for each message, each transfer and each packed bundle,
//! and for a fault.
//!
//! A [`Line`] has room for every line. Each call writes a whole line into an empty one. Clear the
//! line before the next call:
//!
//! ```text
//! let mut line = Line::new();
//! contact_line(&mut line, &Contact { flags: 0 });
//! // line: "0 contact version=4 flags=00\n"
//! line.clear();
//! fault_line(&mut line, &Fault::Wire(6, WireFault::Truncated));
//! // line: "tcpclkit: byte 6: truncated\n"
//! ```
//!
//! [`transfer_view_line`] and [`packed_view_line`] make a line from references. [`transfer_line`]
//! and [`packed_line`] make the same line from values. [`MessageText`], [`TransferText`] and
//! [`PackedText`] are the same lines as texts, which are written directly into the output or the
//! report.
//!
//! A crate with lines of its own makes them of the pieces that the `write_` calls put into a page.
//! Each of these calls takes the index where its piece begins and returns the index after it. The
//! `put_` calls append such pieces to a [`Line`].
//!
//! [`reason_name`] is the name of a reason alone, as the lines have it.
#![tactic(auto)]

mod bundle_fault;
mod fault;
mod identity;
mod judgement;
mod kept_digits;
mod message;
mod packed;
mod page;
mod put;
mod reason;
mod transfer;

pub use bundle_fault::{code_of, words_of};
pub use fault::{Fault, fault_line, order_words, put_wire};
pub use identity::{EID_MAX, FRAGMENT_MAX, put_eid, write_eid, write_fragment};
pub use judgement::{Judgement, JudgementView, OUTCOME_MAX, judge, judge_view, write_outcome};
pub use kept_digits::KeptDigits;
pub use message::{MessageText, contact_line, message_line};
pub use packed::{PackedEntry, PackedText, PackedView, packed_line, packed_view_line};
pub use page::{write_bytes, write_decimal, write_hex2, write_number, write_text};
pub use put::{LINE_MAX, Line, put_decimal, put_escaped, put_hex2, put_hex4, put_text};
pub use reason::{ReasonOf, reason_name};
pub use transfer::{TransferEntry, TransferText, TransferView, transfer_line, transfer_view_line};
