//! The length that the extension items of a transfer announce.

/// The length of a transfer that its first segment announces (RFC 9174 section 5.2.5.1).
#[derive(Clone, Copy, Debug, PartialEq, Eq)]
pub enum Announced {
    /// No Transfer Length item: no length is announced.
    Absent,
    /// One Transfer Length item, which announces this many bytes.
    Total(u64),
    /// More than one Transfer Length item, or one whose value does not have 8 bytes.
    Malformed,
}
