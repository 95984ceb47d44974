//! Reading the fields of a message: bytes, and unsigned numbers in big-endian order.

ghost use Rattle.std.specs.Prelude.{length};
ghost use Rattle.link_io.specs.Source.{IsLive};
ghost use Rattle.link_wire.specs.Part.{bytes_at, number_at};
ghost use Rattle.link_wire.specs.Getting.{ReadsPart, with_value};

use crate::fault::WireFault;
use crate::halt::Halt;
use byteorder::{BigEndian, ByteOrder};
use link_io::{Filled, InDevice, Source};

/// Reads as many of the next bytes as the slice has room for.
///
/// If the input ends before that, the fault is [`WireFault::Truncated`].
#[inline]
pub fn bytes<R: InDevice>(source: &mut Source<R>, field: &mut [u8]) -> Result<(), Halt>
    ensures { IsLive R.state source.old
        → ReadsPart R.state (bytes_at (length field.new)) source.old source.new
        (with_value field.new result) }
{
    match source.fill(field) {
        Ok(Filled::Whole) => Ok(()),
        Ok(Filled::Ended(_)) => Err(Halt::Wire(WireFault::Truncated)),
        Err(fault) => Err(Halt::Io(fault)),
    }
}

/// Reads the next `N` bytes.
#[inline]
pub fn field<const N: usize, R: InDevice>(source: &mut Source<R>) -> Result<[u8; N], Halt>
    ensures { IsLive R.state source.old
        → ReadsPart R.state (bytes_at N) source.old source.new result }
{
    let mut field = [0; N];
    bytes(source, &mut field)?;
    Ok(field)
}

/// Reads the next byte.
#[inline]
pub fn number8<R: InDevice>(source: &mut Source<R>) -> Result<u8, Halt>
    ensures { IsLive R.state source.old
        → ReadsPart R.state (number_at 1) source.old source.new result }
{
    Ok(field::<1, R>(source)?[0])
}

/// Reads the next two bytes as a number.
#[inline]
pub fn number16<R: InDevice>(source: &mut Source<R>) -> Result<u16, Halt>
    ensures { IsLive R.state source.old
        → ReadsPart R.state (number_at 2) source.old source.new result }
{
    Ok(BigEndian::read_u16(&field::<2, R>(source)?))
}

/// Reads the next four bytes as a number.
#[inline]
pub fn number32<R: InDevice>(source: &mut Source<R>) -> Result<u32, Halt>
    ensures { IsLive R.state source.old
        → ReadsPart R.state (number_at 4) source.old source.new result }
{
    Ok(BigEndian::read_u32(&field::<4, R>(source)?))
}

/// Reads the next eight bytes as a number.
#[inline]
pub fn number64<R: InDevice>(source: &mut Source<R>) -> Result<u64, Halt>
    ensures { IsLive R.state source.old
        → ReadsPart R.state (number_at 8) source.old source.new result }
{
    Ok(BigEndian::read_u64(&field::<8, R>(source)?))
}
