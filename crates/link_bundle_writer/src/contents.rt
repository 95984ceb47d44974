//! The data of blocks (RFC 9171 section 4.4).

ghost use Rattle.link_bundle_writer.specs.NewData.{age_bytes, hop_count_bytes};
ghost use Rattle.link_writing.specs.Writes.{WritesIntoSlice};

use crate::head::{put_array, put_unsigned};
use arrayvec::ArrayVec;
use link_writing::{WriteFault, write_bytes};

/// A room for the data of every bundle age block.
pub const AGE_MAX: usize = 9;

/// A room for the data of every hop count block.
pub const HOP_COUNT_MAX: usize = 27;

/// Writes the data of a bundle age block (RFC 9171 section 4.4.2) to the start of the slice.
/// Returns the number of bytes.
///
/// `age` is in milliseconds.
///
/// # Errors
///
/// The slice is too small.
#[tactic(auto, unfolding(crate::specs::NewData::age_bytes))]
pub fn write_age(age: u64, slice: &mut [u8]) -> Result<usize, WriteFault>
    ensures { WritesIntoSlice (Some (age_bytes age)) slice.old slice.new result }
{
    let mut bytes: ArrayVec<u8, AGE_MAX> = ArrayVec::new();
    put_unsigned(&mut bytes, age);
    write_bytes(bytes.as_slice(), slice)
}

/// Writes the data of a hop count block (RFC 9171 section 4.4.3) to the start of the slice: the hop
/// limit and the hop count. Returns the number of bytes.
///
/// # Errors
///
/// The slice is too small.
#[tactic(auto, unfolding(crate::specs::NewData::hop_count_bytes))]
pub fn write_hop_count(limit: u64, count: u64, slice: &mut [u8]) -> Result<usize, WriteFault>
    ensures { WritesIntoSlice (Some (hop_count_bytes limit count)) slice.old slice.new result }
{
    let mut bytes: ArrayVec<u8, HOP_COUNT_MAX> = ArrayVec::new();
    put_array(&mut bytes, 2);
    put_unsigned(&mut bytes, limit);
    put_unsigned(&mut bytes, count);
    write_bytes(bytes.as_slice(), slice)
}
