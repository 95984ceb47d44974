//! The wire format of recorded TCPCLv4 sessions (RFC 9174, without TLS).
//!
//! A [`Session`] reads the byte stream of one entity, message by message. The `put_` functions
//! append a contact header, a SESS_INIT, the head of an XFER_SEGMENT or a SESS_TERM to a buffer.
//!
//! ```
//! let mut session = Session::new(Source::new(Reader::new(stdin)));
//! let contact = session.open()?;
//! let mut message = MessageBuffer::new();
//! while let Some(offset) = session.next(&mut message)? {
//!     // the data of a segment comes before the next message
//!     while session.load()? > 0 {
//!         let data = session.loaded();
//!         // .. all of it, or a prefix
//!         session.pass(data.len());
//!     }
//! }
//! ```
#![tactic(auto)]

mod codes;
mod fault;
mod halt;
mod head;
mod here;
pub mod laws;
mod list;
mod message;
mod parts;
mod plain;
mod quiet;
mod session;
mod slices;
mod spelling;

pub use codes::{END, START};
pub use fault::{Stop, WireFault};
pub use link_io::{
    BufferedReader, DeviceFault, Filled, INPUT_LIMIT, InDevice, IoFault, OutDevice, Reader, Source,
    TEXT_MAX, Text, TextWriter, WINDOW, Writer, copy_into, write_whole,
};
pub use link_tool_option_types::{MAX_NODE_ID, NodeId};
pub use message::{
    Contact, Fields, Item, Items, ListOf, MAX_ITEMS, MAX_LIST_LENGTH, Message, MessageBuffer,
    SegmentHead,
};
pub use session::Session;
pub use slices::{ItemAt, MessageAt, Span, contact_in, item_in, message_in};
pub use spelling::{
    HEAD_MAX, HeadBuf, put_contact, put_segment_head, put_sess_init, put_sess_term,
};
