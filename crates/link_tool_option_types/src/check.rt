//! What is judged, and which broken rules have a line.

use crate::limits::PeerLimits;
use crate::node::NodeId;

/// Which broken rules have a line, whose bundles are judged, and the limits of the node's peer.
#[derive(Debug, Drop, PartialEq, Eq)]
pub struct CheckOptions {
    /// Whether only rules of level `must` have a line. The others do not count then.
    pub must: bool,
    /// The node ID of the node whose bundles and security blocks are judged. If it is empty, those
    /// of every node are.
    pub own: NodeId,
    /// The limits of the peer. A limit that is not known is not judged.
    pub peer: PeerLimits,
}

/// Which broken rules have a line, and whose bundles are judged, in an input of bundles.
#[derive(Debug, Drop, PartialEq, Eq)]
pub struct BundleCheckOptions {
    /// Whether only rules of level `must` have a line. The others do not count then.
    pub must: bool,
    /// The node ID of the node whose bundles and security blocks are judged. If it is empty, those
    /// of every node are.
    pub own: NodeId,
}
