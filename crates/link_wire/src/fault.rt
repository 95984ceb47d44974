//! The faults of a stream, and the reasons why the reading of a session stops.

use link_io::IoFault;
use thiserror::Error;

/// The first fault of a byte stream that is not a recorded session.
///
/// The format of a session is that of RFC 9174 sections 4.2, 4.5, 4.6, 4.8, 5.1, 5.2 and 6.1. The
/// limits are this crate's own.
#[derive(Clone, Copy, Debug, PartialEq, Eq, Error)]
pub enum WireFault {
    /// The stream ends inside the contact header, a message's head or a segment's data.
    #[error("truncated")]
    Truncated,
    /// The stream does not begin with `dtn!`.
    #[error("not a contact header")]
    BadMagic,
    /// The contact header has this version instead of 4.
    #[error("unsupported version {0}")]
    BadVersion(u8),
    /// No message has this type byte.
    #[error("unknown message type {0:02x}")]
    UnknownType(u8),
    /// A node ID has this many bytes, more than `MAX_NODE_ID`.
    #[error("node id too long: {0}")]
    NodeIdTooLong(u16),
    /// An extension list has this many bytes, more than `MAX_LIST_LENGTH`.
    #[error("extension list too long: {0}")]
    ListTooLong(u32),
    /// An extension list has more than `MAX_ITEMS` items.
    #[error("too many extension items")]
    TooManyItems,
    /// An extension item extends past the end of its list.
    #[error("extension items overrun their list")]
    ItemsOverrun,
}

/// Why a session has stopped: it gives nothing more.
#[derive(Clone, Copy, Debug, PartialEq, Eq, Error)]
pub enum Stop {
    /// A device failed, or the input is longer than its limit.
    #[error("{0}")]
    Io(IoFault),
    /// The offset of the first byte of a message, or 0 for the contact header, and the fault in it.
    #[error("byte {0}: {1}")]
    Wire(u64, WireFault),
}
