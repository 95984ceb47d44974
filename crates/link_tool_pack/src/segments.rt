//! The segments of a bundle, written as its chunks are cut.

ghost use Rattle.std.specs.Prelude.{◌≡◌, ◌≤◌, false, length, OnOk};
ghost use Rattle.link_run.specs.Writers.{AfterWrite, on_output};
ghost use Rattle.link_transfer.specs.Cutting.{Cutting, with_bytes};
ghost use Rattle.link_transfer.specs.Cutter.{IsCutterAt, has_ready_chunk, wanted_by};
ghost use Rattle.link_tool_pack.specs.PackRun.{Sends};
ghost use Rattle.link_tool_pack.specs.Segments.{segment_bytes};

use crate::segment_text::{CHUNK_MAX, HeadText, SegmentText};
use link_run::Writers;
use link_transfer::{Cut, Cutter};
use link_wire::{IoFault, OutDevice};

/// Writes a chunk as a segment of the transfer with this ID.
///
/// A short chunk is written in one go with the head of the segment.
#[inline(always)]
fn write_segment<W: OutDevice, E: OutDevice>(
    id: u64,
    cut: Cut,
    chunk: &[u8],
    writers: &mut Writers<W, E>,
) -> Result<(), IoFault>
    ensures gives { AfterWrite W.state E.state writers.old writers.new
        (on_output (segment_bytes id cut chunk.now)) result }
{
    if chunk.len() > CHUNK_MAX {
        return write_long(&HeadText { id, cut, chunk }, writers);
    }
    writers.write_text(&SegmentText { id, cut, chunk })
}

/// Writes a head, and then its chunk.
#[inline(never)]
fn write_long<W: OutDevice, E: OutDevice>(
    head: &HeadText<'_>,
    writers: &mut Writers<W, E>,
) -> Result<(), IoFault>
    ensures gives { AfterWrite W.state E.state writers.old writers.new
        (on_output (segment_bytes head.now.id head.now.cut head.now.chunk.now)) result }
{
    writers.write_text(head)?;
    writers.write_output(head.chunk)
}

/// Writes each chunk that is ready as a segment of the transfer with this ID.
#[inline(never)]
fn write_segments<W: OutDevice, E: OutDevice>(
    id: u64,
    cutter: &mut Cutter,
    writers: &mut Writers<W, E>,
) -> Result<(), IoFault>
    ensures gives { (so_far : Cutting) → IsCutterAt cutter.old so_far
        → Sends W.state E.state id so_far writers.old writers.new cutter.new result }
    ensures quiet { OnOk result (has_ready_chunk cutter.new ≡ false) }
{
    while let Some(cut) = cutter.cut() {
        write_segment(id, cut, cutter.bytes(), writers)?;
    }
    Ok(())
}

/// Writes the segments that become due with a run of bytes.
///
/// The run has no more bytes than the next chunk needs. `last` is whether the run ends with the
/// bundle's last byte. If the run is a whole chunk, it is written from where it lies.
#[inline(always)]
pub fn write_run<W: OutDevice, E: OutDevice>(
    id: u64,
    run: &[u8],
    last: bool,
    cutter: &mut Cutter,
    writers: &mut Writers<W, E>,
) -> Result<(), IoFault>
    requires quiet { has_ready_chunk cutter.old ≡ false }
    ensures gives { (so_far : Cutting) → IsCutterAt cutter.old so_far
        → length run.now ≤ wanted_by cutter.old
        → Sends W.state E.state id (with_bytes run.now last so_far) writers.old writers.new
        cutter.new result }
    ensures quiet { OnOk result (has_ready_chunk cutter.new ≡ false) }
{
    match cutter.cut_slice(run, last) {
        Some(cut) => write_segment(id, cut, run, writers),
        None => {
            cutter.push_slice(run, last);
            write_segments(id, cutter, writers)
        }
    }
}
