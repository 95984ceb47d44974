//! Writing bytes to the start of a slice that may be too small.

ghost use Rattle.std.specs.Prelude.{◌≡◌, ◌+◌, ◌^◌, ◌<◌, ◌≤◌, ◌++◌, Some, length, take, drop};
ghost use Rattle.link_writing.specs.Writes.{WritesIntoSlice};

use crate::fault::WriteFault;

/// Writes the bytes to the start of the slice, and returns their number. If the slice has no room
/// for all of them, it writes nothing and returns their number in [`WriteFault::TooSmall`].
pub fn write_bytes(bytes: &[u8], slice: &mut [u8]) -> Result<usize, WriteFault>
    ensures { WritesIntoSlice (Some bytes.now) slice.old slice.new result }
{
    let size = bytes.len();
    if slice.len() < size {
        return Err(WriteFault::TooSmall(size));
    }
    slice[..size].copy_from_slice(bytes);
    Ok(size)
}

/// Copies the bytes into the slice after its first `at` bytes.
fn copy_at(slice: &mut [u8], at: usize, bytes: &[u8])
    requires { at + length bytes.now ≤ length slice.old }
    ensures { slice.new ≡ take at slice.old ++ bytes.now
        ++ drop (at + length bytes.now) slice.old }
{
    slice[at..at + bytes.len()].copy_from_slice(bytes);
}

/// Writes three pieces to the start of the slice, one after another, as [`write_bytes`] writes one.
pub fn write_parts(
    first: &[u8],
    second: &[u8],
    third: &[u8],
    slice: &mut [u8],
) -> Result<usize, WriteFault>
    requires { length first.now + length second.now + length third.now < 2 ^ 64 }
    ensures { WritesIntoSlice
        (Some (first.now ++ second.now ++ third.now)) slice.old slice.new result }
{
    let middle = first.len() + second.len();
    let size = middle + third.len();
    if slice.len() < size {
        return Err(WriteFault::TooSmall(size));
    }
    copy_at(slice, 0, first);
    copy_at(slice, first.len(), second);
    copy_at(slice, middle, third);
    Ok(size)
}
