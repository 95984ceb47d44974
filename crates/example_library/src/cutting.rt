//! Writes a bundle as the segments of a transfer.

ghost use Rattle.std.specs.Prelude.{◌≡◌, false, OnOk};
ghost use Rattle.link_transfer.specs.Cutter.{has_ready_chunk};

use link_transfer::{Cut, Cutter};
use link_wire::{END, HeadBuf, START, put_segment_head};
use std::alloc::AllocError;

/// Appends a segment of the transfer with this ID: its head, and the chunk as its data.
fn put_segment(stream: &mut Vec<u8>, id: u64, cut: Cut, chunk: &[u8]) -> Result<(), AllocError> {
    let mut head = HeadBuf::new();
    let end = if cut.last { END } else { 0 };
    let size = chunk.len() as u64;
    if cut.first {
        put_segment_head(&mut head, START | end, id, size, cut.announce);
    } else {
        put_segment_head(&mut head, end, id, size, None);
    }
    stream.extend_from_slice(head.as_slice())?;
    stream.extend_from_slice(chunk)
}

/// Appends a bundle as the segments of the transfer with this ID.
///
/// An error is a refused request for memory.
pub fn put_transfer(
    stream: &mut Vec<u8>,
    cutter: &mut Cutter,
    id: u64,
    bundle: &[u8],
) -> Result<(), AllocError>
    requires { has_ready_chunk cutter.old ≡ false }
    ensures { OnOk result (has_ready_chunk cutter.new ≡ false) }
{
    let mut taken = 0;
    while taken < bundle.len() {
        taken += cutter.push_slice(&bundle[taken..], true);
        while let Some(cut) = cutter.cut() {
            put_segment(stream, id, cut, cutter.bytes())?;
        }
    }
    Ok(())
}
