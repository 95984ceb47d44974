//! The options of `pack` in a form that tables of tests can hold.

use link_tools::PackOptions;
use link_wire::NodeId;

/// The options of a run of `pack`, as numbers and bytes.
#[derive(Clone, Copy)]
pub struct Packing {
    pub node: &'static [u8],
    pub keepalive: u16,
    pub segment_mru: u64,
    pub transfer_mru: u64,
    pub peer_segment: u64,
    pub peer_transfer: u64,
    pub announce: u64,
    pub send_term: bool,
}

impl Packing {
    /// The same options in the type that `pack` takes.
    ///
    /// No row has values that this type cannot hold: a node ID of more than 1,024 bytes, segments
    /// without data, or announced lengths above 1,048,576.
    pub fn options(&self) -> PackOptions {
        PackOptions {
            node: NodeId::try_from(self.node).unwrap_or_default(),
            keepalive: self.keepalive,
            segment_mru: self.segment_mru,
            transfer_mru: self.transfer_mru,
            peer_segment: self.peer_segment.max(1),
            peer_transfer: self.peer_transfer,
            announce: self.announce.min(1_048_576),
            send_term: self.send_term,
        }
    }
}

/// The sender of `SESSION`, and a peer without limits.
pub const DEFAULTS: Packing = Packing {
    node: b"ipn:1.0",
    keepalive: 60,
    segment_mru: 65_536,
    transfer_mru: 1_048_576,
    peer_segment: 65_536,
    peer_transfer: u64::MAX,
    announce: 0,
    send_term: false,
};
