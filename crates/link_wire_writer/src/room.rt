//! The room that each kind needs.

/// The length of a contact header, in bytes (RFC 9174 section 4.2).
pub const CONTACT_LENGTH: usize = 6;

/// The length of a SESS_INIT without the bytes of its node ID and of its items (section 4.6).
pub const SESS_INIT_LENGTH: usize = 25;

/// The length of the head of an XFER_SEGMENT without START (section 5.2.2).
pub const SEGMENT_LENGTH: usize = 18;

/// The length of the head of an XFER_SEGMENT with START, without the bytes of its items.
pub const START_LENGTH: usize = 22;

/// The length of an XFER_ACK (section 5.2.3).
pub const ACK_LENGTH: usize = 18;

/// The length of an XFER_REFUSE (section 5.2.4).
pub const REFUSE_LENGTH: usize = 10;

/// The length of a KEEPALIVE (section 5.1.1).
pub const KEEPALIVE_LENGTH: usize = 1;

/// The length of a SESS_TERM (section 6.1).
pub const SESS_TERM_LENGTH: usize = 3;

/// The length of a MSG_REJECT (section 5.1.2).
pub const MSG_REJECT_LENGTH: usize = 3;

/// The length of an extension item without its value (section 4.8).
pub const ITEM_HEAD: usize = 5;

/// The greatest length of a message that is written, without the data of a segment.
pub const MESSAGE_LENGTH: usize = 66_585;
