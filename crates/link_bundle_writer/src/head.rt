//! Heads of CBOR items, as short as they can be (RFC 8949 section 4.2.1).

ghost use Rattle.std.specs.Prelude.{◌≡◌, ◌+◌, ◌<◌, ◌≤◌, [], ◌∷◌, ◌++◌};
ghost use Rattle.arrayvec.specs.ArrayVec.{array_vec_len};
ghost use Rattle.link_bundle_writer.specs.Heads.{head_bytes, first_byte, unsigned, array};

use arrayvec::ArrayVec;
use link_writing::{put_u8, put_u16, put_u32, put_u64};

/// The most bytes of a head.
pub(crate) const HEAD_MAX: usize = 9;

/// The major types of heads in a bundle (RFC 8949 section 3.1).
pub(crate) const UNSIGNED: u8 = 0;

pub(crate) const BYTE_STRING: u8 = 2;

pub(crate) const TEXT_STRING: u8 = 3;

pub(crate) const ARRAY: u8 = 4;

/// Appends the first byte of a head.
fn put_first<const N: usize>(buffer: &mut ArrayVec<u8, N>, major: u8, information: u8)
    requires room { array_vec_len buffer.old + 1 ≤ N }
    requires major { major < 8 }
    requires information { information < 32 }
    ensures items { buffer.new.items ≡ buffer.old.items ++ first_byte major information ∷ [] }
    ensures len { array_vec_len buffer.new ≡ array_vec_len buffer.old + 1 }
{
    buffer.push(major * 32 + information);
}

/// Appends the head of this major type whose argument is `value`.
#[tactic(auto, unfolding(crate::specs::Heads::head_bytes))]
pub(crate) fn put_head<const N: usize>(buffer: &mut ArrayVec<u8, N>, major: u8, value: u64)
    requires room { array_vec_len buffer.old + HEAD_MAX ≤ N }
    requires major { major < 8 }
    ensures items { buffer.new.items ≡ buffer.old.items ++ head_bytes major value }
    ensures len { array_vec_len buffer.new ≤ array_vec_len buffer.old + HEAD_MAX }
{
    if value < 24 {
        put_first(buffer, major, value as u8);
    } else if value < 1 << 8 {
        put_first(buffer, major, 24);
        put_u8(buffer, value as u8);
    } else if value < 1 << 16 {
        put_first(buffer, major, 25);
        put_u16(buffer, value as u16);
    } else if value < 1 << 32 {
        put_first(buffer, major, 26);
        put_u32(buffer, value as u32);
    } else {
        put_first(buffer, major, 27);
        put_u64(buffer, value);
    }
}

/// Appends an unsigned integer.
pub(crate) fn put_unsigned<const N: usize>(buffer: &mut ArrayVec<u8, N>, value: u64)
    requires { array_vec_len buffer.old + HEAD_MAX ≤ N }
    ensures items { buffer.new.items ≡ buffer.old.items ++ unsigned value }
    ensures len { array_vec_len buffer.new ≤ array_vec_len buffer.old + HEAD_MAX }
{
    put_head(buffer, UNSIGNED, value);
}

/// Appends the head of an array of that many elements.
pub(crate) fn put_array<const N: usize>(buffer: &mut ArrayVec<u8, N>, count: u64)
    requires { array_vec_len buffer.old + HEAD_MAX ≤ N }
    ensures items { buffer.new.items ≡ buffer.old.items ++ array count }
    ensures len { array_vec_len buffer.new ≤ array_vec_len buffer.old + HEAD_MAX }
{
    put_head(buffer, ARRAY, count);
}
