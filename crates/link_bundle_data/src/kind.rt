//! The kinds of block data.

/// A kind of block data that is read.
///
/// The type of a block determines it. For the payload, the flags of the bundle do.
#[derive(Clone, Copy, Debug, PartialEq, Eq)]
pub enum DataKind {
    /// The node that forwarded the bundle, block type 6 (RFC 9171 section 4.4.1): an endpoint ID.
    PreviousNode,
    /// The age of the bundle, block type 7 (RFC 9171 section 4.4.2): an unsigned integer.
    BundleAge,
    /// The hop limit and the hop count, block type 10 (RFC 9171 section 4.4.3): an array of both.
    HopCount,
    /// The beginning of an abstract security block, block types 11 and 12 (RFC 9172 section 3.6).
    ///
    /// It is an array of unsigned integers, the targets, an integer and an unsigned integer, the ID
    /// and the flags of the security context, and an endpoint ID, the security source.
    Security,
    /// An administrative record (RFC 9171 section 6.1), which is the payload of its bundle.
    ///
    /// It is an array of a type code and a content.
    Record,
}
