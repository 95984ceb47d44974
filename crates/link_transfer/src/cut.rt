//! The description of a chunk.

/// A chunk of a bundle that becomes the data of a segment (RFC 9174 section 5.2.2).
#[derive(Clone, Copy, Debug, PartialEq, Eq)]
pub struct Cut {
    /// Whether it is the bundle's first chunk, whose segment has START.
    pub first: bool,
    /// Whether it is the bundle's last chunk, whose segment has END.
    pub last: bool,
    /// The bundle's length in bytes, to be announced with this chunk (RFC 9174 section 5.2.5.1).
    ///
    /// Only the first chunk of a bundle can have it.
    pub announce: Option<u64>,
}
