//! Reads the heads of a canonical block, a check field and the break (RFC 9171 section 4).
#![tactic(auto, unfolding(crate::specs::Reading::row_at))]

ghost use Rattle.std.specs.Prelude.{◌≡◌, ℕ, ◌<◌, ◌≤◌, true, false, List, None, Ok, Err, IfOk, MatchResult, length};
ghost use Rattle.link_bundle_types.specs.Faults.{lasts};
ghost use Rattle.link_cbor.specs.Pushed.{IsCheckAt};
ghost use Rattle.link_bundle_heads.specs.Rows as row;
ghost use Rattle.link_bundle_blocks.specs.Canonical.{heads_at};
ghost use Rattle.link_bundle_blocks.specs.Exact.{passed_of, reading_of};
ghost use Rattle.link_bundle_blocks.specs.Parts.{any_field, field_from, next_block_at};
ghost use Rattle.link_bundle_blocks.specs.Reading.{row_at, stopped};

use super::{PartFault, bytes_at, check_head_at, head_at, outcome_at, unsigned_at};
use crate::block::CanonicalBlock;
use crate::whole::{number_of, padded_check_of};
use link_bundle_heads::row;
use link_bundle_types::{BlockNumbers, BundleFault};
use link_cbor::{Check, CheckKind};

/// Reads the head of a canonical block's array, and returns its number of elements.
fn count_at(bytes: &[u8], offset: usize) -> Result<(u64, usize), PartFault>
    ensures { reading_of result ≡ row_at row.block bytes.now offset }
{
    let (head, next) = head_at(bytes, offset)?;
    outcome_at(offset, next, row::block(head))
}

/// Reads the number of a block of this type, after blocks with these numbers.
fn number_at(
    block_type: u64,
    numbers: &[u64],
    bytes: &[u8],
    offset: usize,
) -> Result<(u64, usize), PartFault>
    ensures { reading_of result
        ≡ row_at (row.block_number block_type numbers.now) bytes.now offset }
{
    let (head, next) = head_at(bytes, offset)?;
    outcome_at(offset, next, row::block_number(block_type, numbers, head))
}

/// Reads the check type of a canonical block whose array has `count` elements.
fn check_type_at(
    count: u64,
    bytes: &[u8],
    offset: usize,
) -> Result<(Option<CheckKind>, usize), PartFault>
    ensures { reading_of result ≡ row_at (row.block_check_type count) bytes.now offset }
{
    let (head, next) = head_at(bytes, offset)?;
    outcome_at(offset, next, row::block_check_type(count, head))
}

/// Reads the head of a block's data, and returns the length of the data in bytes.
fn data_length_at(bytes: &[u8], offset: usize) -> Result<(u64, usize), PartFault>
    ensures { reading_of result ≡ row_at row.block_data bytes.now offset }
{
    let (head, next) = head_at(bytes, offset)?;
    outcome_at(offset, next, row::block_data(head))
}

/// Reads a canonical block up to its data (RFC 9171 section 4.3.2), from its first byte on.
///
/// `numbers` are the numbers of the blocks before it. Returns the offset of its data too.
#[tactic(auto, unfolding(crate::specs::Canonical::heads_at))]
fn heads_at(numbers: &[u64], bytes: &[u8]) -> Result<(CanonicalBlock, usize), PartFault>
    ensures read { reading_of result ≡ heads_at numbers.now bytes.now 0 }
    ensures start { IfOk result (λ read. read.0.start ≡ 0) }
    ensures data { IfOk result (λ read. read.0.data_start ≡ read.1) }
    ensures end { IfOk result (λ read. read.0.end ≡ None) }
{
    let (count, offset) = count_at(bytes, 0)?;
    let (block_type, offset) = unsigned_at(bytes, offset)?;
    let (number, offset) = number_at(block_type, numbers, bytes, offset)?;
    let (flags, offset) = unsigned_at(bytes, offset)?;
    let (check, offset) = check_type_at(count, bytes, offset)?;
    let (data_length, offset) = data_length_at(bytes, offset)?;
    let block = CanonicalBlock {
        start: 0,
        block_type,
        number,
        flags,
        check,
        data_start: offset as u64,
        data_length,
        end: None,
    };
    Ok((block, offset))
}

/// Reads the next canonical block up to its data (RFC 9171 section 4.3.2), from its first byte on.
///
/// `numbers` are the numbers of the blocks before it. The offsets of the block are counted from its
/// first byte. Returns the offset of its data too.
///
/// # Errors
///
/// The first fault of the heads. If `numbers` is full, only the first head is read. If this head
/// begins another block, the fault is `TooManyBlocks` at offset 0.
#[tactic(auto, unfolding(crate::specs::Parts::next_block_at, crate::specs::Reading::row_at, link_bundle_heads::specs::Rows::block_too_many))]
pub fn next_block_at(
    numbers: &BlockNumbers,
    bytes: &[u8],
) -> Result<(CanonicalBlock, usize), PartFault>
    ensures room { IfOk result (λ _. length numbers.now < 64) }
    ensures read { reading_of result ≡ next_block_at numbers.now bytes.now 0 }
    ensures start { IfOk result (λ read. read.0.start ≡ 0) }
    ensures data { IfOk result (λ read. read.0.data_start ≡ read.1) }
    ensures end { IfOk result (λ read. read.0.end ≡ None) }
{
    if numbers.is_full() {
        count_at(bytes, 0)?;
        return Err(PartFault {
            fault: BundleFault::TooManyBlocks,
            offset: 0,
        });
    }
    heads_at(numbers.as_slice(), bytes)
}

/// Reads the check field of a block that has a check of this kind (RFC 9171 section 4.2.2).
///
/// The bytes of the block before its check field were pushed to `check`. Returns the offset after
/// the field.
///
/// # Errors
///
/// The first fault of the field. If its content is not the check value of the block, that is
/// `CheckDiffers` at offset 0.
#[tactic(auto, unfolding(crate::specs::Parts::field_from, crate::specs::Parts::any_field))]
pub fn check_field_at(kind: CheckKind, check: Check, bytes: &[u8]) -> Result<usize, PartFault>
    ensures read { (before : List ℕ) → IsCheckAt kind check before
        → passed_of result ≡ field_from kind before bytes.now }
    // `any_field` has the same offset, or the same fault if that does not last.
    ensures size { MatchResult result (λ next. any_field kind bytes.now ≡ Ok (true, next))
        (λ stop. lasts stop.fault ≡ false
        → any_field kind bytes.now ≡ Err (stopped stop.fault stop.offset)) }
{
    let (_, content) = check_head_at(kind, bytes, 0)?;
    let (stored, next) = bytes_at(row::check_width(kind), bytes, content)?;
    if number_of(kind, stored) != padded_check_of(kind, check, &bytes[..content]) {
        return Err(PartFault {
            fault: BundleFault::CheckDiffers,
            offset: 0,
        });
    }
    Ok(next)
}

/// Reads the break after the payload block (RFC 9171 section 4.1), and returns the offset after it.
///
/// # Errors
///
/// `Cut` if the bytes are empty or end inside a head. `BadHead` at offset 0 if they begin with no
/// well-formed head. `NoPayloadLast` at offset 0 if they begin with another head than the break.
#[tactic(auto, unfolding(crate::specs::Reading::row_at, link_bundle_heads::specs::Rows::closing))]
pub fn break_at(bytes: &[u8]) -> Result<usize, PartFault>
    ensures { passed_of result ≡ row_at row.closing bytes.now 0 }
{
    let (head, next) = head_at(bytes, 0)?;
    let (_, next) = outcome_at(0, next, row::closing(head))?;
    Ok(next)
}
