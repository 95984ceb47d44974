//! Writing a contact header, the heads of messages, and extension items (RFC 9174) into slices.
//!
//! Each call writes to the start of a slice, and returns the number of bytes. The inverse of
//! [`message_in`](link_wire::message_in) is [`write_message`]. It writes the head of a segment
//! alone, since the data follows as the caller sends it:
//!
//! ```ignore
//! let mut items = [0; ITEM_HEAD + 8];
//! let count = write_item(0, 1, &total.to_be_bytes(), &mut items)?;
//! let fields = Fields::Segment { flags: START | END, id: 0, length: total };
//! let size = write_message(fields, b"", &items[..count], &mut head)?;
//! send(&head[..size])?;
//! send(bundle)?;
//! ```
//!
//! What the readers refuse is not written: a list of more than 65,536 bytes or 64 items, bytes that
//! are no list of items, a node ID of more than 1,024 bytes.
#![tactic(auto)]

mod codes;
mod items;
pub mod laws;
mod message;
mod room;

pub use items::write_item;
pub use link_wire::{Fields, ListOf};
pub use link_writing::WriteFault;
pub use message::{write_contact, write_message};
pub use room::{
    ACK_LENGTH, CONTACT_LENGTH, ITEM_HEAD, KEEPALIVE_LENGTH, MESSAGE_LENGTH, MSG_REJECT_LENGTH,
    REFUSE_LENGTH, SEGMENT_LENGTH, SESS_INIT_LENGTH, SESS_TERM_LENGTH, START_LENGTH,
};
