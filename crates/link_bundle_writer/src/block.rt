//! The heads of canonical blocks (RFC 9171 section 4.3.2).

ghost use Rattle.std.specs.Prelude.{◌≡◌};
ghost use Rattle.link_bundle_heads.specs.Rows.{fits_type};
ghost use Rattle.link_bundle_writer.specs.NewBlocks.{block_head_of};
ghost use Rattle.link_writing.specs.Writes.{WritesIntoSlice};

use crate::check::{check_elements, check_type};
use crate::head::{BYTE_STRING, put_array, put_head, put_unsigned};
use arrayvec::ArrayVec;
use link_cbor::CheckKind;
use link_writing::{WriteFault, write_bytes};

/// A room for the head of every canonical block: six heads of CBOR.
pub const BLOCK_HEAD_MAX: usize = 54;

/// The type code of the payload block, and its number (RFC 9171 section 4.1).
const PAYLOAD: u64 = 1;

/// The fields of a canonical block that is to be written, and the length of its data.
#[derive(Clone, Copy, Debug, PartialEq, Eq)]
pub struct BlockHead {
    /// The block type code (RFC 9171 section 4.3.2).
    pub block_type: u64,
    /// The block number (RFC 9171 section 4.1): 1 for the payload block, and no other. No block has
    /// number 0.
    pub number: u64,
    /// The block processing control flags (RFC 9171 section 4.2.4).
    pub flags: u64,
    /// The kind of the block's check, if it has one (RFC 9171 section 4.2.1).
    pub check: Option<CheckKind>,
    /// The length of the block-type-specific data, in bytes.
    pub data_length: u64,
}

/// Whether a block of this type may have this number.
fn fits_type(block_type: u64, number: u64) -> bool
    ensures { result ≡ fits_type block_type number }
{
    number != 0 && (block_type == PAYLOAD) == (number == PAYLOAD)
}

/// Writes a canonical block up to its data to the start of the slice. Returns the number of bytes.
///
/// # Errors
///
/// The block number is 0. Or a payload block has another number than 1, or a block of another type
/// has the number 1. Or the slice is too small.
#[tactic(auto, unfolding(crate::specs::NewBlocks::block_head))]
pub fn write_block_head(head: &BlockHead, slice: &mut [u8]) -> Result<usize, WriteFault>
    ensures { WritesIntoSlice (block_head_of head.now.block_type head.now.number head.now.flags
        head.now.check head.now.data_length) slice.old slice.new result }
{
    if !fits_type(head.block_type, head.number) {
        return Err(WriteFault::OutOfRange);
    }
    let mut bytes: ArrayVec<u8, BLOCK_HEAD_MAX> = ArrayVec::new();
    put_array(&mut bytes, 5 + check_elements(head.check));
    put_unsigned(&mut bytes, head.block_type);
    put_unsigned(&mut bytes, head.number);
    put_unsigned(&mut bytes, head.flags);
    put_unsigned(&mut bytes, check_type(head.check));
    put_head(&mut bytes, BYTE_STRING, head.data_length);
    write_bytes(bytes.as_slice(), slice)
}
