//! Reads the parts of a bundle where they lie in a slice, for a bundle that is read at once.
//!
//! The major type of each head is known. So one look at its first byte shows whether it is one of
//! the frequent heads. An error means only that it is not, or that the slice ends.
ghost use Rattle.std.specs.Prelude.{◌≡◌, ◌+◌, ◌*◌, ◌-◌, ◌^◌, ◌<◌, ◌≤◌, length, get_or, true, Ok, IfOk};
ghost use Rattle.link_bundle_heads.specs.Rows.{unsigned, pair, closing};
ghost use Rattle.link_bundle_blocks.specs.Reading.{head_at, row_at, bytes_at};

use byteorder::{BigEndian, ByteOrder};
use link_bundle_heads::row;
use link_bundle_types::BundleFault;
use link_cbor::Head;

/// The head of an array of two elements, encoded in one byte.
const PAIR: u8 = 0x82;

/// The break (RFC 8949 section 3.2.1).
const BREAK: u8 = 0xff;

/// The greatest length of a head in bytes (RFC 8949 section 3).
const LONGEST: usize = 9;

/// The additional information of the head at an offset, if the head has this major type. It is
/// below 32. For any other major type, the result is at least 32. If no byte is at the offset, the
/// result is an error.
#[inline(always)]
fn information_at(major: u8, bytes: &[u8], offset: usize) -> Result<u8, BundleFault>
    requires { major < 8 }
    ensures within { IfOk result (λ _. offset < length bytes.now) }
    ensures first { IfOk result (λ information. information < 32
        → get_or bytes.now offset 0 ≡ 32 * major + information) }
{
    if offset >= bytes.len() {
        return Err(BundleFault::Cut);
    }
    Ok(bytes[offset].wrapping_sub(32 * major))
}

/// Reads a head of one byte, which has this major type and a value.
#[inline(always)]
pub fn small_at(major: u8, bytes: &[u8], offset: usize) -> Result<(Head, usize), BundleFault>
    requires { major < 8 }
    ensures { IfOk result (λ read. head_at bytes.now offset ≡ Ok read) }
{
    let information = information_at(major, bytes, offset)?;
    if information >= 24 {
        return Err(BundleFault::WrongKind);
    }
    let value = Some(u64::from(information));
    Ok((Head { major, value }, offset + 1))
}

/// The length of the argument after a first byte with this additional information. There is none
/// below 24, nor from 28 on.
#[inline(always)]
fn argument_size(information: u8) -> Result<usize, BundleFault>
    ensures least { IfOk result (λ _. 24 ≤ information) }
    ensures below { IfOk result (λ _. information < 28) }
    ensures size { IfOk result (λ size. size ≡ 2 ^ (information - 24)) }
    ensures most { IfOk result (λ size. size ≤ 8) }
{
    match information {
        24 => Ok(1),
        25 => Ok(2),
        26 => Ok(4),
        27 => Ok(8),
        _ => Err(BundleFault::WrongKind),
    }
}

/// Reads the head of an item that has this major type and a value.
///
/// A head of more than one byte is read from nine bytes, whatever its length. If there are fewer,
/// the result is an error. A bundle hardly ever ends so soon after such a head: its payload block
/// and a break come last.
#[inline(always)]
pub fn item_at(major: u8, bytes: &[u8], offset: usize) -> Result<(Head, usize), BundleFault>
    requires { major < 7 }
    ensures { IfOk result (λ read. head_at bytes.now offset ≡ Ok read) }
{
    let information = information_at(major, bytes, offset)?;
    if information < 24 {
        let value = Some(u64::from(information));
        return Ok((Head { major, value }, offset + 1));
    }
    if bytes.len() < offset + LONGEST {
        return Err(BundleFault::Cut);
    }
    let size = argument_size(information)?;
    let argument = BigEndian::read_u64(&bytes[offset + 1..]) >> (64 - 8 * size);
    let value = Some(argument);
    Ok((Head { major, value }, offset + 1 + size))
}

/// Reads an unsigned integer.
#[inline(always)]
#[tactic(auto, using(crate::proofs::Heads::heads))]
pub fn unsigned_at(bytes: &[u8], offset: usize) -> Result<(u64, usize), BundleFault>
    ensures { IfOk result (λ read. row_at unsigned bytes.now offset ≡ Ok read) }
{
    let (head, next) = item_at(row::UNSIGNED, bytes, offset)?;
    Ok((row::unsigned(head)?, next))
}

/// Reads the head of an array of two elements, and returns the offset after it.
#[inline(always)]
#[tactic(auto, using(crate::proofs::Items::one_byte))]
pub fn pair_at(bytes: &[u8], offset: usize) -> Result<usize, BundleFault>
    ensures { IfOk result (λ next. row_at pair bytes.now offset ≡ Ok (2, next)) }
{
    if offset >= bytes.len() {
        return Err(BundleFault::Cut);
    }
    if bytes[offset] != PAIR {
        return Err(BundleFault::WrongKind);
    }
    Ok(offset + 1)
}

/// Reads the break after the payload block, and returns the offset after it. The definition also
/// returns a value, which is always `true`.
#[inline(always)]
#[tactic(auto, using(crate::proofs::Items::one_byte))]
pub fn closing_at(bytes: &[u8], offset: usize) -> Result<usize, BundleFault>
    ensures { IfOk result (λ next. row_at closing bytes.now offset ≡ Ok (true, next)) }
{
    if offset >= bytes.len() {
        return Err(BundleFault::Cut);
    }
    if bytes[offset] != BREAK {
        return Err(BundleFault::NoPayloadLast);
    }
    Ok(offset + 1)
}

/// Reads `size` bytes from `offset` on, and returns them and the offset after them.
#[tactic(auto, using(crate::proofs::Readings::whole_bytes))]
#[inline(always)]
pub fn bytes_at(size: u64, bytes: &[u8], offset: usize) -> Result<(&[u8], usize), BundleFault>
    ensures read { IfOk result (λ read. bytes_at size bytes.now offset ≡ Ok (read.0.now, read.1)) }
    ensures size { IfOk result (λ read. length read.0.now ≡ size) }
    ensures within { IfOk result (λ read. offset + size ≤ length bytes.now) }
{
    if offset > bytes.len() || size > (bytes.len() - offset) as u64 {
        return Err(BundleFault::Cut);
    }
    let next = offset + size as usize;
    Ok((&bytes[offset..next], next))
}
