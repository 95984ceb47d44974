//! Check fields (RFC 9171 section 4.2.2).

ghost use Rattle.std.specs.Prelude.{◌≡◌, ℕ, List, Some};
ghost use Rattle.link_cbor.specs.Pushed.{IsCheckAt};
ghost use Rattle.link_bundle_heads.specs.Rows.{check_elements};
ghost use Rattle.link_bundle_writer.specs.NewBlocks.{check_type, check_field, check_bytes};
ghost use Rattle.link_writing.specs.Writes.{WritesIntoSlice};

use arrayvec::ArrayVec;
use link_cbor::{Check, CheckKind};
use link_writing::{WriteFault, put_u8, put_u16, put_u32, write_bytes};

/// A room for every check field.
pub const CHECK_MAX: usize = 5;

/// The bytes of a check field.
pub(crate) type Field = ArrayVec<u8, CHECK_MAX>;

/// The heads of the two check fields: byte strings of two and of four bytes.
const TWO_BYTES: u8 = 0x42;

const FOUR_BYTES: u8 = 0x44;

/// The check type of a block, which is 0 if the block has no check (RFC 9171 section 4.2.1).
pub(crate) fn check_type(check: Option<CheckKind>) -> u64
    ensures { result ≡ check_type check }
{
    match check {
        None => 0,
        Some(CheckKind::Crc16) => 1,
        Some(CheckKind::Crc32) => 2,
    }
}

/// The number of elements that a check field adds to its block.
pub(crate) fn check_elements(check: Option<CheckKind>) -> u64
    ensures { result ≡ check_elements check }
{
    match check {
        None => 0,
        Some(_) => 1,
    }
}

/// The check field of a block. All bytes of the block before this field were pushed into `check`.
///
/// The check value covers the whole block, where the content of the field counts as zeros.
#[tactic(auto, unfolding(crate::specs::NewBlocks::check_field, crate::specs::Heads::head_bytes))]
pub(crate) fn check_field(kind: CheckKind, mut check: Check) -> Field
    ensures { (block : List ℕ) → IsCheckAt kind check block
        → result.items ≡ check_field kind block }
{
    let mut field = Field::new();
    match kind {
        CheckKind::Crc16 => {
            check.push_slice(&[TWO_BYTES, 0, 0]);
            put_u8(&mut field, TWO_BYTES);
            put_u16(&mut field, (check.value() & 0xffff) as u16);
        }
        CheckKind::Crc32 => {
            check.push_slice(&[FOUR_BYTES, 0, 0, 0, 0]);
            put_u8(&mut field, FOUR_BYTES);
            put_u32(&mut field, check.value());
        }
    }
    field
}

/// The check field of a block whose bytes before the field are `block`. It is empty if the block
/// has no check.
pub(crate) fn field_of(check: Option<CheckKind>, block: &[u8]) -> Field
    ensures { result.items ≡ check_bytes check block.now }
{
    match check {
        None => Field::new(),
        Some(kind) => {
            let mut sum = Check::new(kind);
            sum.push_slice(block);
            check_field(kind, sum)
        }
    }
}

/// Writes the check field of a block to the start of the slice.
///
/// `check` is of this kind. All bytes of the block before the field were pushed to it: the head of
/// the block and its data. The check value also covers the field, where zeros stand in for the
/// value (RFC 9171 section 4.2.2). Returns the number of bytes written.
///
/// # Errors
///
/// The slice is too small. The field has three bytes for a CRC-16, and five for a CRC-32.
pub fn write_check(kind: CheckKind, check: &Check, slice: &mut [u8]) -> Result<usize, WriteFault>
    ensures { (block : List ℕ) → IsCheckAt kind check.now block
        → WritesIntoSlice (Some (check_field kind block)) slice.old slice.new result }
{
    write_bytes(check_field(kind, *check).as_slice(), slice)
}
