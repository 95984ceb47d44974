//! The constants of the wire format (RFC 9174).

/// The first four bytes of a contact header: `dtn!` (section 4.2).
pub(crate) const MAGIC: u32 = 0x6474_6e21;

/// The version that is read and written (section 4.2).
pub(crate) const VERSION: u8 = 4;

/// The type byte of XFER_SEGMENT; section 4.5 has the types of all messages.
pub(crate) const XFER_SEGMENT: u8 = 1;

pub(crate) const XFER_ACK: u8 = 2;

pub(crate) const XFER_REFUSE: u8 = 3;

pub(crate) const KEEPALIVE: u8 = 4;

pub(crate) const SESS_TERM: u8 = 5;

pub(crate) const MSG_REJECT: u8 = 6;

pub(crate) const SESS_INIT: u8 = 7;

/// The flag END of an XFER_SEGMENT: its transfer ends (RFC 9174 section 5.2.2).
pub const END: u8 = 1;

/// The flag START of an XFER_SEGMENT: its transfer begins (RFC 9174 section 5.2.2).
pub const START: u8 = 2;

/// The bytes of an extension item before its value: flags, type and length (section 4.8).
pub(crate) const ITEM_HEAD: u32 = 5;

/// The type of a Transfer Length item (section 5.2.5.1).
pub(crate) const TRANSFER_LENGTH: u16 = 1;

/// The length of a Transfer Length item's value, in bytes.
pub(crate) const TOTAL_SIZE: u16 = 8;
