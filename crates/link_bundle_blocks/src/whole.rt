//! Reads the blocks of a bundle that lies whole in a slice.
//!
//! Each function has the name of its definition in specs/. An error means only that no bundle was
//! read: it is cut or has a fault, or a head in it is spelled at greater length than it has to be.
//! The scan then finds out which, part by part.
ghost use Rattle.std.specs.Prelude.{◌≡◌, ℕ, List, ◌<◌, ◌++◌, [], length, replicate, true, Some, Ok, IfOk};
ghost use Rattle.link_bundle_types.specs.EidView.{viewed_eid};
ghost use Rattle.link_bundle_types.specs.ShortNames.{HasNoLongName};
ghost use Rattle.link_cbor.specs.Crc.{crc};
ghost use Rattle.link_cbor.specs.Pushed.{IsCheckAt};
ghost use Rattle.link_bundle_heads.specs.Rows.{check_width};
ghost use Rattle.link_bundle_blocks.specs.EndpointId.{eid_at, specific_at};
ghost use Rattle.link_bundle_blocks.specs.CheckField.{number_from, field_at};
ghost use Rattle.link_bundle_blocks.specs.Canonical.{heads_at, content_at};
ghost use Rattle.link_bundle_blocks.specs.Primary.{fragment_at};
ghost use Rattle.link_bundle_blocks.specs.Blocks.{Primary, Block};
ghost use Rattle.link_bundle_blocks.specs.Bundle.{blocks_at};
ghost use Rattle.link_bundle_blocks.specs.Whole.{whole_canonical, bundle_with};
ghost use Rattle.link_bundle_heads.specs.declared.endpoint.Scheme.TheVariants.{Dtn, Ipn};

use crate::block::CanonicalBlock;
use crate::item::{bytes_at, closing_at, item_at, pair_at, small_at, unsigned_at};
use byteorder::{BigEndian, ByteOrder};
use link_bundle_heads::{Scheme, row};
use link_bundle_types::{BlockNumbers, BundleFault, EidView};
use link_cbor::{Check, CheckKind};

/// The first three bytes of an ipn endpoint ID of two numbers: an array, the scheme, an array.
const IPN: u32 = 0x82_02_82;

/// The bytes of `dtn:none`: an array, the scheme, the number 0.
const DTN_NONE: u32 = 0x82_01_00;

/// Reads an endpoint ID (RFC 9171 section 4.2.5.1).
///
/// Nearly all are ipn endpoint IDs of two numbers, or `dtn:none`. Their first three bytes say so.
/// They are loaded with the byte after them, so fewer than four bytes are an error.
#[inline(always)]
pub fn eid_at(bytes: &[u8], offset: usize) -> Result<(EidView<'_>, usize), BundleFault>
    ensures read { IfOk result (λ read. eid_at bytes.now offset ≡ Ok (viewed_eid read.0, read.1)) }
    ensures short { IfOk result (λ read. HasNoLongName (viewed_eid read.0)) }
{
    if bytes.len().saturating_sub(offset) < 4 {
        return Err(BundleFault::Cut);
    }
    match BigEndian::read_u32(&bytes[offset..]) >> 8 {
        IPN => {
            let (node, offset) = unsigned_at(bytes, offset + 3)?;
            let (service, offset) = unsigned_at(bytes, offset)?;
            Ok((EidView::Ipn(node, service), offset))
        }
        DTN_NONE => Ok((EidView::DtnNone, offset + 3)),
        _ => any_eid_at(bytes, offset),
    }
}

/// Reads an endpoint ID, head by head.
#[cold]
#[inline(never)]
#[tactic(auto, using(crate::proofs::Heads::heads), unfolding(crate::specs::EndpointId::eid_at))]
fn any_eid_at(bytes: &[u8], offset: usize) -> Result<(EidView<'_>, usize), BundleFault>
    ensures read { IfOk result (λ read. eid_at bytes.now offset ≡ Ok (viewed_eid read.0, read.1)) }
    ensures short { IfOk result (λ read. HasNoLongName (viewed_eid read.0)) }
{
    let offset = pair_at(bytes, offset)?;
    let (head, offset) = small_at(row::UNSIGNED, bytes, offset)?;
    match row::scheme(head)? {
        Scheme::Dtn => dtn_at(bytes, offset),
        Scheme::Ipn => ipn_at(bytes, offset),
    }
}

/// Reads the specific part of scheme dtn.
#[tactic(auto, using(crate::proofs::Heads::heads), unfolding(crate::specs::EndpointId::specific_at, crate::specs::EndpointId::dtn_at))]
fn dtn_at(bytes: &[u8], offset: usize) -> Result<(EidView<'_>, usize), BundleFault>
    ensures read { IfOk result (λ read. specific_at Dtn bytes.now offset
        ≡ Ok (viewed_eid read.0, read.1)) }
    ensures short { IfOk result (λ read. HasNoLongName (viewed_eid read.0)) }
{
    let (head, offset) = item_at(row::TEXT_STRING, bytes, offset)?;
    match row::dtn_part(head)? {
        None => Ok((EidView::DtnNone, offset)),
        Some(size) => {
            let (name, offset) = bytes_at(size, bytes, offset)?;
            Ok((EidView::Dtn(name), offset))
        }
    }
}

/// Reads the specific part of scheme ipn.
#[tactic(auto, using(crate::proofs::Heads::heads), unfolding(crate::specs::EndpointId::specific_at, crate::specs::EndpointId::ipn_at))]
fn ipn_at(bytes: &[u8], offset: usize) -> Result<(EidView<'_>, usize), BundleFault>
    ensures read { IfOk result (λ read. specific_at Ipn bytes.now offset
        ≡ Ok (viewed_eid read.0, read.1)) }
    ensures short { IfOk result (λ read. HasNoLongName (viewed_eid read.0)) }
{
    let (head, offset) = small_at(row::ARRAY, bytes, offset)?;
    let count = row::ipn_part(head)?;
    let (first, offset) = unsigned_at(bytes, offset)?;
    let (second, offset) = unsigned_at(bytes, offset)?;
    if count != 3 {
        return Ok((EidView::Ipn(first, second), offset));
    }
    let (third, offset) = unsigned_at(bytes, offset)?;
    Ok((EidView::Ipn3(first, second, third), offset))
}

/// Reads the fragment offset and the total length, if the bundle is a fragment.
#[inline(always)]
#[tactic(auto, unfolding(crate::specs::Primary::fragment_at, crate::specs::Primary::fragment_elements))]
pub fn fragment_at(
    is_fragment: bool,
    bytes: &[u8],
    offset: usize,
) -> Result<(Option<(u64, u64)>, usize), BundleFault>
    ensures { IfOk result (λ read. fragment_at is_fragment bytes.now offset ≡ Ok read) }
{
    if !is_fragment {
        return Ok((None, offset));
    }
    let (fragment_offset, offset) = unsigned_at(bytes, offset)?;
    let (total, offset) = unsigned_at(bytes, offset)?;
    Ok((Some((fragment_offset, total)), offset))
}

/// The number that the content of a check field of this kind spells.
#[inline(always)]
pub fn number_of(kind: CheckKind, stored: &[u8]) -> u32
    requires { length stored.now ≡ check_width kind }
    ensures { result ≡ number_from 0 stored.now }
{
    match kind {
        CheckKind::Crc16 => u32::from(BigEndian::read_u16(stored)),
        CheckKind::Crc32 => BigEndian::read_u32(stored),
    }
}

/// The check value of a block, from its bytes before the content of its check field.
///
/// The content counts as zeros.
pub fn check_of(kind: CheckKind, block: &[u8]) -> u32
    ensures { result ≡ crc kind (block.now ++ replicate (check_width kind) 0) }
{
    padded_check_of(kind, Check::new(kind), block)
}

/// The check value of a block, from a check to which its first bytes were pushed.
///
/// `rest` are its other bytes before the content of its check field. The content counts as zeros.
pub(crate) fn padded_check_of(kind: CheckKind, mut check: Check, rest: &[u8]) -> u32
    ensures { (before : List ℕ) → IsCheckAt kind check before
        → result ≡ crc kind (before ++ rest.now ++ replicate (check_width kind) 0) }
{
    check.push_slice(rest);
    match kind {
        CheckKind::Crc16 => check.push_slice(&[0; 2]),
        CheckKind::Crc32 => check.push_slice(&[0; 4]),
    }
    check.value()
}

/// Reads the check field of a block, if it has one (RFC 9171 section 4.2.2).
///
/// The block begins at `start`. Returns the offset after the field, or `offset` itself if the block
/// has no check. The definition also returns a value, which is always `true`.
#[inline(always)]
#[tactic(auto, unfolding(crate::specs::CheckField::field_at))]
pub fn field_at(
    check: Option<CheckKind>,
    start: usize,
    bytes: &[u8],
    offset: usize,
) -> Result<usize, BundleFault>
    ensures { IfOk result (λ next. field_at check start bytes.now offset ≡ Ok (true, next)) }
{
    match check {
        None => Ok(offset),
        Some(kind) => stored_at(kind, start, bytes, offset),
    }
}

/// Reads the check field at `offset`, and compares it with the check value of the block.
///
/// The block begins at `start`, and has a check of this kind. Returns the offset after the field,
/// or `CheckDiffers` if the two values differ. The definition also returns a value, which is always
/// `true`.
#[inline(always)]
fn stored_at(
    kind: CheckKind,
    start: usize,
    bytes: &[u8],
    offset: usize,
) -> Result<usize, BundleFault>
    ensures { IfOk result (λ next. field_at (Some kind) start bytes.now offset ≡ Ok (true, next)) }
{
    let (head, content) = small_at(row::BYTE_STRING, bytes, offset)?;
    row::check_field(kind, head)?;
    let (stored, next) = bytes_at(row::check_width(kind), bytes, content)?;
    if start > content || number_of(kind, stored) != check_of(kind, &bytes[start..content]) {
        return Err(BundleFault::CheckDiffers);
    }
    Ok(next)
}

/// Reads the data of a canonical block, `size` bytes from `offset` on, and the check field after
/// it.
///
/// The block begins at `start`, and its check value covers the bytes from there on. Returns the
/// offset after the block. The definition also returns a value, which is always `true`.
#[inline(always)]
#[tactic(auto, unfolding(crate::specs::Canonical::content_at))]
fn content_at(
    size: u64,
    check: Option<CheckKind>,
    start: usize,
    bytes: &[u8],
    offset: usize,
) -> Result<usize, BundleFault>
    ensures { IfOk result (λ next. content_at size check start bytes.now offset ≡ Ok (true, next)) }
{
    let (_, offset) = bytes_at(size, bytes, offset)?;
    field_at(check, start, bytes, offset)
}

/// Reads a canonical block up to its data (RFC 9171 section 4.3.2).
///
/// `numbers` are the numbers of the blocks before it. Returns the offset of its data too.
#[tactic(auto, using(crate::proofs::Heads::heads), unfolding(crate::specs::Canonical::heads_at, crate::specs::Reading::row_at))]
#[inline(always)]
fn heads_at(
    numbers: &[u64],
    bytes: &[u8],
    start: usize,
) -> Result<(CanonicalBlock, usize), BundleFault>
    ensures read { IfOk result (λ read. heads_at numbers.now bytes.now start ≡ Ok read) }
    ensures start { IfOk result (λ read. read.0.start ≡ start) }
    ensures data { IfOk result (λ read. read.0.data_start ≡ read.1) }
{
    let (head, offset) = small_at(row::ARRAY, bytes, start)?;
    let count = row::block(head)?;
    let (block_type, offset) = unsigned_at(bytes, offset)?;
    let (number_head, offset) = item_at(row::UNSIGNED, bytes, offset)?;
    let (flags, offset) = unsigned_at(bytes, offset)?;
    let (head, offset) = small_at(row::UNSIGNED, bytes, offset)?;
    let check = row::block_check_type(count, head)?;
    let (head, offset) = item_at(row::BYTE_STRING, bytes, offset)?;
    let data_length = row::block_data(head)?;
    // The number's head was read above, but it is judged last: the loop over the earlier numbers
    // may be long, and few values are in use across it here. Which fault is found first does not
    // matter, since an error of this module says only that no bundle was read.
    let number = row::block_number(block_type, numbers, number_head)?;
    let block = CanonicalBlock {
        start: start as u64,
        block_type,
        number,
        flags,
        check,
        data_start: offset as u64,
        data_length,
        end: None,
    };
    Ok((block, offset))
}

/// Reads a canonical block with its data and its check field.
///
/// `numbers` are the numbers of the blocks before it. If they are full, the block is one too many,
/// which is a fault. Returns the offset after the block too.
#[tactic(auto, unfolding(crate::specs::Whole::whole_canonical))]
#[inline(always)]
pub fn whole_canonical(
    numbers: &BlockNumbers,
    bytes: &[u8],
    start: usize,
) -> Result<(CanonicalBlock, usize), BundleFault>
    ensures room { IfOk result (λ _. length numbers.now < 64) }
    ensures read { IfOk result (λ read. whole_canonical numbers.now bytes.now start ≡ Ok read) }
    ensures start { IfOk result (λ read. read.0.start ≡ start) }
{
    if numbers.is_full() {
        return Err(BundleFault::TooManyBlocks);
    }
    let (block, offset) = heads_at(numbers.as_slice(), bytes, start)?;
    let next = content_at(block.data_length, block.check, start, bytes, offset)?;
    Ok((block, next))
}

/// Reads the canonical blocks, and the break after the payload block.
///
/// `numbers` is empty before the call, and then contains the numbers of the blocks, at most 64.
/// Returns the offset and the length of the payload, and the offset after the break. The definition
/// also takes the primary block. None of the three values depends on it.
#[inline(always)]
pub fn blocks_at(
    numbers: &mut BlockNumbers,
    bytes: &[u8],
    offset: usize,
) -> Result<((u64, u64), usize), BundleFault>
    requires { numbers.old ≡ [] }
    ensures { IfOk result (λ read. (blocks : List Block) × ((primary : Primary)
        → blocks_at 64 [] primary bytes.now offset
        ≡ Ok (bundle_with primary (length numbers.new) read.0 read.1 blocks))) }
{
    let mut start = offset;
    loop {
        let (block, next) = whole_canonical(numbers, bytes, start)?;
        numbers.push(block.number);
        if block.block_type == row::PAYLOAD_TYPE {
            let end = closing_at(bytes, next)?;
            return Ok(((block.data_start, block.data_length), end));
        }
        start = next;
    }
}
