//! Reads the parts of a bundle where they lie in a slice, and tells the fault of each bad part.
//!
//! Each function has the name of its definition in specs/, and accepts every spelling of a head.
#![tactic(auto, unfolding(crate::specs::Reading::row_at))]

ghost use Rattle.std.specs.Prelude.{◌≡◌, ◌+◌, ◌<◌, ◌≤◌, IfOk, length};
ghost use Rattle.link_bundle_heads.specs.Rows as row;
ghost use Rattle.link_bundle_blocks.specs.Reading.{head_at, outcome_at, row_at, bytes_at};
ghost use Rattle.link_bundle_blocks.specs.Exact.{reading_by, reading_of};

mod block;
mod eid;
mod primary;

pub use self::block::{break_at, check_field_at, next_block_at};
pub use self::primary::{OPENING, primary_at, primary_fields};
use link_bundle_heads::row;
use link_bundle_types::BundleFault;
use link_cbor::{CheckKind, Head};

/// A fault in a part of a bundle that lies in a slice, and its offset in the slice.
///
/// For `Cut` the offset is the length of the slice. For every other fault it is the offset of the
/// head that was judged.
#[derive(Clone, Copy, Debug, PartialEq, Eq)]
pub struct PartFault {
    /// The fault.
    pub fault: BundleFault,
    /// The offset of the fault, counted from the start of the slice.
    pub offset: usize,
}

impl PartFault {
    /// The fault of a part that the bytes cut short.
    pub(crate) fn cut(bytes: &[u8]) -> PartFault
        ensures fault { result.fault ≡ BundleFault.Cut }
        ensures offset { result.offset ≡ length bytes.now }
    {
        PartFault {
            fault: BundleFault::Cut,
            offset: bytes.len(),
        }
    }
}

/// Reads the head at an offset, and returns it with the offset after it.
#[inline(always)]
#[tactic(auto, using(crate::proofs::ExactReading::heads))]
pub(crate) fn head_at(bytes: &[u8], offset: usize) -> Result<(Head, usize), PartFault>
    ensures read { reading_of result ≡ head_at bytes.now offset }
    ensures after { IfOk result (λ read. offset < read.1) }
    ensures within { IfOk result (λ read. read.1 ≤ length bytes.now) }
{
    if offset >= bytes.len() {
        return Err(PartFault::cut(bytes));
    }
    let rest = &bytes[offset..];
    match Head::front(rest) {
        Some((head, size)) => Ok((head, offset + size)),
        None if Head::is_cut(rest) => Err(PartFault::cut(bytes)),
        None => Err(PartFault {
            fault: BundleFault::BadHead,
            offset,
        }),
    }
}

/// Returns the outcome of judging a head, with an offset.
///
/// The head begins at `offset`, and `next` is the offset after it. A value is returned with `next`,
/// and a fault with `offset`.
#[inline(always)]
pub(crate) fn outcome_at<T>(
    offset: usize,
    next: usize,
    outcome: Result<T, BundleFault>,
) -> Result<(T, usize), PartFault>
    ensures read { reading_of result ≡ outcome_at offset next outcome }
    ensures value { IfOk result (λ read. outcome ≡ Ok read.0) }
{
    match outcome {
        Ok(value) => Ok((value, next)),
        Err(fault) => Err(PartFault { fault, offset }),
    }
}

/// Reads an unsigned integer.
#[inline(always)]
pub(crate) fn unsigned_at(bytes: &[u8], offset: usize) -> Result<(u64, usize), PartFault>
    ensures { reading_of result ≡ row_at row.unsigned bytes.now offset }
{
    let (head, next) = head_at(bytes, offset)?;
    outcome_at(offset, next, row::unsigned(head))
}

/// Reads the head of an array of two elements, and returns 2.
#[inline(always)]
pub(crate) fn pair_at(bytes: &[u8], offset: usize) -> Result<(u64, usize), PartFault>
    ensures { reading_of result ≡ row_at row.pair bytes.now offset }
{
    let (head, next) = head_at(bytes, offset)?;
    outcome_at(offset, next, row::pair(head))
}

/// Reads the head of the check field of a block that has a check of this kind. Returns the length
/// of the field's content in bytes, and the offset after the head.
pub(crate) fn check_head_at(
    kind: CheckKind,
    bytes: &[u8],
    offset: usize,
) -> Result<(u64, usize), PartFault>
    ensures read { reading_of result ≡ row_at (row.check_field kind) bytes.now offset }
    ensures after { IfOk result (λ read. offset < read.1) }
    ensures within { IfOk result (λ read. read.1 ≤ length bytes.now) }
{
    let (head, next) = head_at(bytes, offset)?;
    outcome_at(offset, next, row::check_field(kind, head))
}

/// Reads `size` bytes from `offset` on, and returns them and the offset after them.
#[tactic(auto, unfolding(crate::specs::Reading::bytes_at))]
pub(crate) fn bytes_at(size: u64, bytes: &[u8], offset: usize) -> Result<(&[u8], usize), PartFault>
    ensures read { reading_by (λ value. value.now) result ≡ bytes_at size bytes.now offset }
    ensures size { IfOk result (λ read. length read.0.now ≡ size) }
    ensures within { IfOk result (λ read. offset + size ≤ length bytes.now) }
{
    if offset > bytes.len() || size > (bytes.len() - offset) as u64 {
        return Err(PartFault::cut(bytes));
    }
    let next = offset + size as usize;
    Ok((&bytes[offset..next], next))
}
