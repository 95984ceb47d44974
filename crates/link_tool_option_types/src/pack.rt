//! The options of `pack`.

ghost use Rattle.std.specs.Prelude.{◌≤◌};

use crate::node::NodeId;

/// What the stream announces about its sender, and the limits of the peer that receives it.
#[derive(Debug, Drop, PartialEq, Eq)]
pub struct PackOptions {
    /// The sender's node ID.
    pub node: NodeId,
    /// The keepalive interval of SESS_INIT, in seconds (RFC 9174 section 4.6).
    pub keepalive: u16,
    /// The longest segment that the sender takes, in bytes of data.
    pub segment_mru: u64,
    /// The longest transfer that the sender takes, in bytes.
    pub transfer_mru: u64,
    /// The longest segment that the peer takes, in bytes of data: 1 or more. A segment of the
    /// stream never has more than 65,536 bytes of data.
    pub peer_segment: u64,
    /// The longest transfer that the peer takes, in bytes.
    pub peer_transfer: u64,
    /// The longest bundle, in bytes, whose length is announced (RFC 9174 section 5.2.5.1). It is at
    /// most 1,048,576, and 0 announces none. A bundle of one segment is never announced.
    pub announce: u64,
    /// Whether the stream ends with SESS_TERM (RFC 9174 section 6.1).
    pub send_term: bool,
    ghost some: { 1 ≤ peer_segment },
    ghost hold: { announce ≤ 1048576 },
}
