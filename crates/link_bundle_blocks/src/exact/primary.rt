//! Reads a primary block (RFC 9171 section 4.3.1), and keeps the fields before its first fault.
//!
//! The block so far has 0, `None` or `dtn:none` in each field that is not read yet.
#![tactic(auto, unfolding(crate::specs::Reading::row_at))]

ghost use Rattle.std.specs.Prelude.{◌≡◌, ◌<◌, Ok, Err, true, IfOk, IfErr};
ghost use Rattle.link_bundle_heads.specs.Rows as row;
ghost use Rattle.link_bundle_heads.specs.Rows.{is_fragment};
ghost use Rattle.link_bundle_blocks.specs.Blocks.{viewed_primary, HasShortEids};
ghost use Rattle.link_bundle_blocks.specs.Bundle.{opening_at};
ghost use Rattle.link_bundle_blocks.specs.CheckField.{field_at};
ghost use Rattle.link_bundle_blocks.specs.Primary.{no_primary, first_elements, fragment_elements, primary_elements};
ghost use Rattle.link_bundle_blocks.specs.PrimaryFields as fields;
ghost use Rattle.link_bundle_blocks.specs.PrimaryView.{viewed_fields};
ghost use Rattle.link_bundle_blocks.specs.Reading.{row_at};
ghost use Rattle.link_bundle_blocks.specs.Whole.{whole_primary};
ghost use Rattle.link_bundle_blocks.specs.Exact.{reading_of, passed_of, primary_reading, known_fields, elements_by};

use super::eid::eid_at;
use super::{PartFault, bytes_at, check_head_at, head_at, outcome_at, pair_at, unsigned_at};
use crate::block::PrimaryBlock;
use crate::primary_view::PrimaryView;
use crate::whole::{check_of, number_of};
use link_bundle_heads::row;
use link_bundle_types::{BundleFault, EidView};
use link_cbor::CheckKind;

/// The first byte of a bundle (RFC 9171 section 4.1).
pub const OPENING: u8 = 0x9f;

/// The fields before the first fault of a primary block, and the fault.
type Known<'a> = (PrimaryView<'a>, PartFault);

/// A block of which no field was read.
fn no_fields<'a>() -> PrimaryBlock<'a>
    ensures { viewed_primary result ≡ no_primary }
{
    PrimaryBlock {
        flags: 0,
        check: None,
        destination: EidView::DtnNone,
        source: EidView::DtnNone,
        report_to: EidView::DtnNone,
        time: 0,
        sequence: 0,
        lifetime: 0,
        fragment: None,
        end: 0,
    }
}

/// Returns `reading`. If it is a fault, the first `count` elements of `block` are returned with it.
/// They come before the part that was read.
#[inline(always)]
fn after<'a, T>(
    count: u64,
    block: &PrimaryBlock<'a>,
    reading: Result<T, PartFault>,
) -> Result<T, Known<'a>>
    ensures read { IfOk result (λ value. reading ≡ Ok value) }
    ensures fault { IfErr result (λ known. reading ≡ Err known.1) }
    ensures fields { IfErr result (λ known. viewed_fields known.0
        ≡ first_elements count (viewed_primary block.now)) }
{
    match reading {
        Ok(value) => Ok(value),
        Err(fault) => Err((PrimaryView::first(count, *block), fault)),
    }
}

/// Reads the first byte of a bundle, [`OPENING`], and returns the offset after it.
#[tactic(auto, using(std::proofs::lemmas::List::nil_from_length, std::proofs::lemmas::Slice::first_rest), unfolding(crate::specs::Bundle::opening_at))]
fn opening_at(bytes: &[u8]) -> Result<usize, PartFault>
    ensures read { passed_of result ≡ opening_at bytes.now }
    ensures next { IfOk result (λ next. next ≡ 1) }
{
    if bytes.is_empty() {
        return Err(PartFault::cut(bytes));
    }
    if bytes[0] != OPENING {
        return Err(PartFault {
            fault: BundleFault::NotABundle,
            offset: 0,
        });
    }
    Ok(1)
}

/// Reads the head of the block's array, and returns its number of elements.
fn primary_block_at(bytes: &[u8], offset: usize) -> Result<(u64, usize), PartFault>
    ensures { reading_of result ≡ row_at row.primary_block bytes.now offset }
{
    let (head, next) = head_at(bytes, offset)?;
    outcome_at(offset, next, row::primary_block(head))
}

/// Reads the version.
fn version_at(bytes: &[u8], offset: usize) -> Result<(u64, usize), PartFault>
    ensures { reading_of result ≡ row_at row.version bytes.now offset }
{
    let (head, next) = head_at(bytes, offset)?;
    outcome_at(offset, next, row::version(head))
}

/// Reads the check type of a block with these flags, whose array has `count` elements.
fn check_type_at(
    count: u64,
    flags: u64,
    bytes: &[u8],
    offset: usize,
) -> Result<(Option<CheckKind>, usize), PartFault>
    ensures { reading_of result ≡ row_at (row.primary_check_type count flags) bytes.now offset }
{
    let (head, next) = head_at(bytes, offset)?;
    outcome_at(offset, next, row::primary_check_type(count, flags, head))
}

/// Reads the fragment offset and the total length, if the bundle is a fragment.
///
/// `block` contains the elements before them. Until the total length is read, it is 0 in `block`.
#[tactic(auto, unfolding(crate::specs::Primary::fragment_elements))]
fn fragment_elements<'a>(
    mut block: PrimaryBlock<'a>,
    bytes: &'a [u8],
    offset: usize,
) -> Result<(Option<(u64, u64)>, usize), Known<'a>>
    ensures { elements_by (λ fragment. fragment) result ≡ fragment_elements
        (is_fragment block.entry.flags) (viewed_primary block.entry) bytes.now offset }
{
    if !row::is_fragment(block.flags) {
        return Ok((None, offset));
    }
    let (start, offset) = after(8, &block, unsigned_at(bytes, offset))?;
    block.fragment = Some((start, 0));
    let (total, offset) = after(9, &block, unsigned_at(bytes, offset))?;
    Ok((Some((start, total)), offset))
}

/// Reads the block up to its check field.
#[tactic(auto, unfolding(crate::specs::Primary::primary_elements))]
fn primary_elements(bytes: &[u8], offset: usize) -> Result<(PrimaryBlock<'_>, usize), Known<'_>>
    ensures read { elements_by (λ block. (viewed_primary block, block.check)) result
        ≡ primary_elements bytes.now offset }
    ensures short { IfOk result (λ read. HasShortEids (viewed_primary read.0)) }
{
    let mut block = no_fields();
    let (count, offset) = after(0, &block, primary_block_at(bytes, offset))?;
    let (_, offset) = after(0, &block, version_at(bytes, offset))?;
    let (flags, offset) = after(1, &block, unsigned_at(bytes, offset))?;
    block.flags = flags;
    let (check, offset) = after(2, &block, check_type_at(count, flags, bytes, offset))?;
    block.check = check;
    let (destination, offset) = after(3, &block, eid_at(bytes, offset))?;
    block.destination = destination;
    let (source, offset) = after(4, &block, eid_at(bytes, offset))?;
    block.source = source;
    let (report_to, offset) = after(5, &block, eid_at(bytes, offset))?;
    block.report_to = report_to;
    let (_, offset) = after(6, &block, pair_at(bytes, offset))?;
    let (time, offset) = after(6, &block, unsigned_at(bytes, offset))?;
    let (sequence, offset) = after(6, &block, unsigned_at(bytes, offset))?;
    block.time = time;
    block.sequence = sequence;
    let (lifetime, offset) = after(7, &block, unsigned_at(bytes, offset))?;
    block.lifetime = lifetime;
    let (fragment, offset) = fragment_elements(block, bytes, offset)?;
    block.fragment = fragment;
    Ok((block, offset))
}

/// Reads the check field, if any, and returns the offset after it. The block begins at offset 1.
#[tactic(auto, unfolding(crate::specs::CheckField::field_at))]
fn field_at(check: Option<CheckKind>, bytes: &[u8], offset: usize) -> Result<usize, PartFault>
    ensures { passed_of result ≡ field_at check 1 bytes.now offset }
{
    match check {
        None => Ok(offset),
        Some(kind) => stored_at(kind, bytes, offset),
    }
}

/// Reads the check field at `offset`, and compares it with the check value of the block. The block
/// begins at offset 1, and has a check of this kind.
///
/// Returns the offset after the field. If the two values differ, the fault is `CheckDiffers` at
/// `offset`.
#[tactic(auto, unfolding(crate::specs::CheckField::field_at, crate::specs::CheckField::check_of))]
fn stored_at(kind: CheckKind, bytes: &[u8], offset: usize) -> Result<usize, PartFault>
    ensures { passed_of result ≡ field_at (Some kind) 1 bytes.now offset }
{
    let (_, content) = check_head_at(kind, bytes, offset)?;
    let (stored, next) = bytes_at(row::check_width(kind), bytes, content)?;
    if number_of(kind, stored) != check_of(kind, &bytes[1..content]) {
        return Err(PartFault {
            fault: BundleFault::CheckDiffers,
            offset,
        });
    }
    Ok(next)
}

/// Reads the first byte of a bundle and its primary block with its check field.
///
/// The error is the first fault, with the fields before it.
#[tactic(auto, using(crate::proofs::Elements::whole_block), unfolding(crate::specs::PrimaryFields::whole_elements, crate::specs::PrimaryFields::primary_fields))]
pub fn primary_at(bytes: &[u8]) -> Result<PrimaryBlock<'_>, (PrimaryView<'_>, PartFault)>
    ensures reads { primary_reading result ≡ whole_primary bytes.now }
    ensures fields { known_fields result ≡ fields.primary_fields bytes.now }
    ensures short { IfOk result (λ block. HasShortEids (viewed_primary block)) }
{
    let offset = after(0, &no_fields(), opening_at(bytes))?;
    let (block, offset) = primary_elements(bytes, offset)?;
    let end = after(
        block.elements(),
        &block,
        field_at(block.check, bytes, offset),
    )?;
    Ok(PrimaryBlock {
        end: end as u64,
        ..block
    })
}

/// The fields of a primary block up to its first fault. `bytes` begins with the first byte of the
/// bundle.
pub fn primary_fields(bytes: &[u8]) -> PrimaryView<'_>
    ensures { viewed_fields result ≡ fields.primary_fields bytes.now }
{
    match primary_at(bytes) {
        Ok(block) => PrimaryView::of(block),
        Err((fields, _)) => fields,
    }
}
