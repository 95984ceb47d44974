//! What a part that this toolkit does not know may have changed in a bundle.

/// What a part that this toolkit does not know may have changed in a bundle. A rule that rests on
/// it is at most a `should`.
#[derive(Clone, Copy, Debug, PartialEq, Eq)]
pub enum Doubt {
    /// Nothing.
    Nothing,
    /// The data of blocks.
    ///
    /// A block of an unknown type may be a security block that encrypted it (RFC 9172 section 10).
    BlockData,
    /// The whole bundle.
    ///
    /// An extension item of an unknown type may say that the data of the transfer is no plain
    /// bundle (RFC 9174 sections 5.2.5 and 8.4).
    WholeBundle,
}
