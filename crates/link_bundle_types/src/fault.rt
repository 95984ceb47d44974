//! The faults of bundles, and the states of a scan.
use thiserror::Error;

/// The reason why bytes are no bundle.
///
/// A scan reports it with an offset, counted from the bundle's first byte. For `Cut` that is the
/// number of bytes seen, and for `Trailing` the bundle's length. For every other fault it is the
/// offset of the head that was judged.
#[derive(Clone, Copy, Debug, PartialEq, Eq, Error)]
pub enum BundleFault {
    /// B1: the bytes end inside the bundle.
    #[error("input ends inside a bundle")]
    Cut,
    /// B2: a byte follows the closing break.
    #[error("bytes after the bundle")]
    Trailing,
    /// B3: the first byte does not open an array of indefinite length (RFC 9171 section 4.1).
    #[error("not a bundle")]
    NotABundle,
    /// B4: no well-formed CBOR head (RFC 8949 section 3).
    #[error("ill-formed head")]
    BadHead,
    /// B5: a CBOR item of another kind than that of the field.
    #[error("wrong kind of item")]
    WrongKind,
    /// B5 in place of a block's data: no byte string of definite length (RFC 9171 section 4.3.2).
    #[error("wrong kind of item")]
    WrongDataKind,
    /// B5 in place of a check value: no byte string of definite length (RFC 9171 section 4.2.2).
    #[error("wrong kind of item")]
    WrongCheckKind,
    /// B6: an array with another number of elements than its block or field has.
    #[error("wrong number of elements")]
    BadCount,
    /// B7: a version other than 7 (RFC 9171 section 4.3.1).
    #[error("unsupported bundle version")]
    BadVersion,
    /// B8: a check type above 2 (RFC 9171 section 4.2.1).
    #[error("unknown check type")]
    BadCheckType,
    /// B9: an endpoint scheme other than dtn and ipn (RFC 9171 section 4.2.5.1).
    #[error("unknown endpoint scheme")]
    BadScheme,
    /// B10: a scheme-specific part that the scheme does not have.
    #[error("wrong scheme-specific part")]
    BadSpecificPart,
    /// B11: a dtn specific part of more than [`EID_LIMIT`](crate::EID_LIMIT) bytes.
    #[error("endpoint id too long")]
    EidTooLong,
    /// B12: a check field whose length is not that of its check type.
    #[error("wrong check length")]
    BadCheckLength,
    /// B13: a check field that differs from the check of its block.
    #[error("check differs")]
    CheckDiffers,
    /// B14: a wrong block number (RFC 9171 section 4.1).
    ///
    /// No block has number 0. Number 1 is that of the payload block, type 1, and of no other block.
    #[error("wrong block number")]
    BadBlockNumber,
    /// B15: the number of an earlier block, repeated.
    #[error("repeated block number")]
    RepeatedBlockNumber,
    /// B16: more canonical blocks than [`BLOCK_LIMIT`](crate::BLOCK_LIMIT).
    #[error("too many blocks")]
    TooManyBlocks,
    /// B17: no payload block, or another item than the break after it (RFC 9171 section 4.1).
    #[error("no payload block at the end")]
    NoPayloadLast,
}

/// The state of a scan.
#[derive(Clone, Copy, Debug, PartialEq, Eq)]
pub enum State {
    /// The seen bytes are no whole bundle and show no fault, so more are needed.
    Going,
    /// The seen bytes are a whole bundle.
    Ended,
    /// The seen bytes are no bundle, whatever bytes follow: the fault and its offset.
    Failed(BundleFault, u64),
}
