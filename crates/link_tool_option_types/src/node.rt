//! The node ID of an entity (RFC 9174 section 4.6).

use arrayvec::ArrayVec;

/// The greatest length of a node ID that is read, in bytes: no report line shows a longer one.
pub const MAX_NODE_ID: usize = 1024;

/// The bytes of a node ID's text; there are none if no node ID is given.
pub type NodeId = ArrayVec<u8, MAX_NODE_ID>;
