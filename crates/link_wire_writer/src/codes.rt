//! The type bytes of messages (RFC 9174 section 4.5).

pub(crate) const XFER_SEGMENT: u8 = 1;

pub(crate) const XFER_ACK: u8 = 2;

pub(crate) const XFER_REFUSE: u8 = 3;

pub(crate) const KEEPALIVE: u8 = 4;

pub(crate) const SESS_TERM: u8 = 5;

pub(crate) const MSG_REJECT: u8 = 6;

pub(crate) const SESS_INIT: u8 = 7;
