//! Writing all bytes of a slice.

ghost use Rattle.std.specs.Prelude.{◌≡◌, ◌<◌, ◌≤◌, true, length, take, drop, ℕ, OnOk, OnErr, IfErr, MatchResult};
ghost use Rattle.std.specs.Io.KnownBytes.{Appends};
ghost use Rattle.link_io.specs.Writing.{WrittenWhole, WrittenPrefix};

use crate::device::{DeviceFault, OutDevice};
use crate::fault::IoFault;

/// Writes all of the bytes, with as many writes as are needed.
///
/// If a write fails, it returns [`IoFault::Write`]. Only a proper prefix of the bytes was written.
#[inline(always)]
pub fn write_whole<W: OutDevice>(out: &mut W, bytes: &[u8]) -> Result<(), IoFault>
    ensures ok { OnOk result (WrittenWhole W.state out.old out.new bytes.now) }
    ensures err { IfErr result (WrittenPrefix W.state out.old out.new bytes.now) }
{
    if bytes.is_empty() {
        return Ok(());
    }
    match out.write(bytes) {
        Ok(n) if n == bytes.len() => Ok(()),
        Ok(n) => write_rest(out, &bytes[n..]),
        Err(_) => Err(IoFault::Write),
    }
}

/// Writes the bytes that the first write of `write_whole` left.
#[cold]
#[inline(never)]
fn write_rest<W: OutDevice>(out: &mut W, bytes: &[u8]) -> Result<(), IoFault>
    ensures ok { OnOk result (WrittenWhole W.state out.old out.new bytes.now) }
    ensures err { IfErr result (WrittenPrefix W.state out.old out.new bytes.now) }
{
    match write_out(out, bytes) {
        (_, Ok(())) => Ok(()),
        (_, Err(_)) => Err(IoFault::Write),
    }
}

/// Writes the bytes until all are written or a write fails. Returns how many were written, and the
/// fault of the write that failed, if one did.
pub(crate) fn write_out<W: OutDevice>(out: &mut W, bytes: &[u8]) -> (usize, Result<(), DeviceFault>)
    ensures bound { result.0 ≤ length bytes.now }
    ensures all { OnOk result.1 (result.0 ≡ length bytes.now) }
    ensures part { OnErr result.1 (result.0 < length bytes.now) }
    ensures written { Appends (W.state out.old).written (W.state out.new).written
        (take result.0 bytes.now) }
    ensures failed { MatchResult result.1
        (λ _. (W.state out.new).failed ≡ (W.state out.old).failed)
        (λ _. (W.state out.new).failed ≡ true) }
{
    let mut at = 0;
    while at < bytes.len() {
        match out.write(&bytes[at..]) {
            Ok(n) => at += n,
            Err(fault) => return (at, Err(fault)),
        }
    }
    (at, Ok(()))
}
