//! What the peer of a node receives.

/// The limits of a node's peer (RFC 9174 section 4.6), as far as they are known.
#[derive(Clone, Copy, Debug, PartialEq, Eq)]
pub struct PeerLimits {
    /// The Segment MRU: the greatest length of a segment's data.
    pub segment: Option<u64>,
    /// The Transfer MRU: the greatest length of a transfer's data.
    pub transfer: Option<u64>,
}
