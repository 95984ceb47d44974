//! The faults in the order of a session's messages.

use thiserror::Error;

/// The reason why a message is out of order (RFC 9174 sections 4, 4.7, 5.1.2, 5.2 and 6.1).
#[derive(Clone, Copy, Debug, PartialEq, Eq, Error)]
pub enum OrderFault {
    /// A SESS_INIT after a SESS_INIT.
    #[error("second session initiation")]
    SecondSessInit,
    /// A segment with no SESS_INIT before it.
    #[error("segment before session initiation")]
    SegmentBeforeSessInit,
    /// A segment without START whose transfer ID is not that of the open transfer.
    #[error("no such open transfer")]
    NoSuchOpenTransfer,
    /// A segment with START whose transfer ID is that of the open transfer.
    #[error("start repeats the open transfer")]
    StartRepeatsOpenId,
    /// A segment with START after a SESS_TERM.
    #[error("start after session termination")]
    StartAfterSessTerm,
}
