//! Appending to a buffer that has room.

ghost use Rattle.std.specs.Prelude.{◌≡◌, ◌+◌, ◌≤◌, ◌++◌, length};
ghost use Rattle.arrayvec.specs.ArrayVec.{array_vec_len};
ghost use Rattle.link_writing.specs.Numbers.{be};

use arrayvec::ArrayVec;
use byteorder::{BigEndian, ByteOrder};

/// Appends these bytes.
pub fn put_bytes<const N: usize>(buffer: &mut ArrayVec<u8, N>, bytes: &[u8])
    requires { array_vec_len buffer.old + length bytes.now ≤ N }
    ensures items { buffer.new.items ≡ buffer.old.items ++ bytes.now }
    ensures len { array_vec_len buffer.new ≡ array_vec_len buffer.old + length bytes.now }
{
    buffer.try_extend_from_slice(bytes).unwrap();
}

/// Appends one byte.
pub fn put_u8<const N: usize>(buffer: &mut ArrayVec<u8, N>, number: u8)
    requires { array_vec_len buffer.old + 1 ≤ N }
    ensures items { buffer.new.items ≡ buffer.old.items ++ be 1 number }
    ensures len { array_vec_len buffer.new ≡ array_vec_len buffer.old + 1 }
{
    put_bytes(buffer, &number.to_be_bytes());
}

/// Appends two bytes, big-endian.
pub fn put_u16<const N: usize>(buffer: &mut ArrayVec<u8, N>, number: u16)
    requires { array_vec_len buffer.old + 2 ≤ N }
    ensures items { buffer.new.items ≡ buffer.old.items ++ be 2 number }
    ensures len { array_vec_len buffer.new ≡ array_vec_len buffer.old + 2 }
{
    let mut bytes = [0; 2];
    BigEndian::write_u16(&mut bytes, number);
    put_bytes(buffer, &bytes);
}

/// Appends four bytes, big-endian.
pub fn put_u32<const N: usize>(buffer: &mut ArrayVec<u8, N>, number: u32)
    requires { array_vec_len buffer.old + 4 ≤ N }
    ensures items { buffer.new.items ≡ buffer.old.items ++ be 4 number }
    ensures len { array_vec_len buffer.new ≡ array_vec_len buffer.old + 4 }
{
    let mut bytes = [0; 4];
    BigEndian::write_u32(&mut bytes, number);
    put_bytes(buffer, &bytes);
}

/// Appends eight bytes, big-endian.
pub fn put_u64<const N: usize>(buffer: &mut ArrayVec<u8, N>, number: u64)
    requires { array_vec_len buffer.old + 8 ≤ N }
    ensures items { buffer.new.items ≡ buffer.old.items ++ be 8 number }
    ensures len { array_vec_len buffer.new ≡ array_vec_len buffer.old + 8 }
{
    let mut bytes = [0; 8];
    BigEndian::write_u64(&mut bytes, number);
    put_bytes(buffer, &bytes);
}
