//! Tests that unpack the worked streams, at each pace of the devices and step by step.

ghost use Rattle.std.specs.Prelude.{◌<◌, ◌≤◌, length};

use crate::transfers::{
    ABANDONED, ABANDONING, EMPTY_END, FAULTS, PARTS, PAYLOADS, Row, WHOLE, WHOLE_BUNDLES,
};
use link_tools::Run;
use std::alloc::Global;
use std::test::Fail;
use tests_common::rows::{ALL, BUNDLE_REPORT, TRANSFER, TWO_BUNDLES};
use tests_common::running::{
    Expected, Tool, ended_in_place, gives_at_each_pace, gives_held, gives_in_place,
};
use tests_common::stepping::{TestUnpackRun, is_done, test_unpack_run, unpacks_on};
use tests_common::stream::{EDGE, PLAIN, SESSION, built, joined, put_segment};

/// The result of unpacking that the row says, in these texts of the row.
fn expected<'a>(row: &Row, output: &'a [u8], report: &'a [u8]) -> Expected<'a> {
    Expected {
        tool: Tool::Unpack(row.wanted),
        output,
        report,
        status: row.status,
    }
}

/// Checks that unpacking the stream gives the result of the row.
pub fn row_gives(alloc: Global, row: &Row, stream: &[u8]) -> Result<(), Fail> {
    let output = joined(alloc, row.output)?;
    let report = joined(alloc, row.report)?;
    let want = expected(row, &output, &report);
    gives_at_each_pace(alloc, row.name, stream, &want)
}

/// Checks that unpacking the stream gives the result of the row, if the reader holds the stream.
pub fn row_gives_in_place(alloc: Global, row: &Row, stream: &[u8]) -> Result<(), Fail> {
    let output = joined(alloc, row.output)?;
    let report = joined(alloc, row.report)?;
    let want = expected(row, &output, &report);
    gives_in_place(alloc, row.name, stream, &want)
}

/// Checks that unpacking the stream gives the result of the row, if reads of a window fill it.
///
/// The reader holds what follows the window.
fn row_gives_held(alloc: Global, row: &Row, stream: &[u8]) -> Result<(), Fail> {
    let output = joined(alloc, row.output)?;
    let report = joined(alloc, row.report)?;
    let want = expected(row, &output, &report);
    gives_held(alloc, row.name, stream, usize::MAX, usize::MAX, &want)
}

/// Checks the result of unpacking for each row, also if the reader holds the stream.
pub fn all_given(alloc: Global, rows: &[Row]) -> Result<(), Fail> {
    for row in rows {
        let stream = built(alloc, row.stream)?;
        row_gives(alloc, row, &stream)?;
        row_gives_in_place(alloc, row, &stream)?;
    }
    Ok(())
}

#[test]
fn whole_streams(rt: HostRuntime) -> Result<(), Fail> {
    all_given(rt.alloc(), &WHOLE)
}

#[test]
fn wanted_parts(rt: HostRuntime) -> Result<(), Fail> {
    all_given(rt.alloc(), &PARTS)
}

#[test]
fn faults(rt: HostRuntime) -> Result<(), Fail> {
    all_given(rt.alloc(), &FAULTS)
}

/// The stream with keepalives after its first 38 bytes, so many that its rest is at this offset.
pub fn with_keepalives(alloc: Global, whole: &[u8], offset: usize) -> Result<Vec<u8>, Fail>
    requires { 38 ≤ length whole.now }
{
    let (session, rest) = whole.split_at(38);
    let mut stream = joined(alloc, &[session])?;
    stream.resize(offset, 4)?;
    stream.extend_from_slice(rest)?;
    Ok(stream)
}

/// Two transfers follow keepalives, and the first read ends at each offset of them in turn.
#[test]
fn after_keepalives(rt: HostRuntime) -> Result<(), Fail> {
    let whole = built(rt.alloc(), TWO_BUNDLES)?;
    assert_eq!(rt; whole.len(), 186);
    for offset in EDGE - 148..=EDGE {
        let stream = with_keepalives(rt.alloc(), &whole, offset)?;
        row_gives(rt.alloc(), &WHOLE_BUNDLES, &stream)?;
        row_gives(rt.alloc(), &PAYLOADS, &stream)?;
    }
    Ok(())
}

/// The same streams. The reader holds what follows the window when a read of 8,192 bytes fills it.
#[test]
fn after_keepalives_in_place(rt: HostRuntime) -> Result<(), Fail> {
    let whole = built(rt.alloc(), TWO_BUNDLES)?;
    assert_eq!(rt; whole.len(), 186);
    for offset in EDGE - 148..=EDGE {
        let stream = with_keepalives(rt.alloc(), &whole, offset)?;
        row_gives_held(rt.alloc(), &WHOLE_BUNDLES, &stream)?;
    }
    Ok(())
}

/// Over a reader that holds all bytes, the first is read, and the others are taken without a read.
#[test]
fn held_bytes_are_taken(rt: HostRuntime) -> Result<(), Fail> {
    let stream = built(rt.alloc(), TWO_BUNDLES)?;
    let end = ended_in_place(rt.alloc(), Tool::Unpack(ALL), &stream, usize::MAX, 1);
    assert_eq!(rt; (end.reader.given(), end.reader.passed()), (1, 185));
    Ok(())
}

/// Checks that the stream is unpacked as one transfer, whose data is the bundle.
fn gives_the_bundle(alloc: Global, name: &str, stream: &[u8]) -> Result<(), Fail> {
    let output = joined(alloc, PLAIN)?;
    let report = joined(alloc, BUNDLE_REPORT)?;
    let want = Expected {
        tool: Tool::Unpack(ALL),
        output: &output,
        report: &report,
        status: 0,
    };
    gives_at_each_pace(alloc, name, stream, &want)
}

/// Appends an empty segment, and then each byte in a segment of its own with an empty one after it.
fn put_bytes(stream: &mut Vec<u8>, bundle: &[u8]) -> Result<(), Fail> {
    put_segment(stream, 2, 0, &[])?;
    let mut left = bundle.len();
    for byte in bundle {
        left = left.saturating_sub(1);
        put_segment(stream, 0, 0, &[&[*byte]])?;
        put_segment(stream, if left == 0 { 1 } else { 0 }, 0, &[])?;
    }
    Ok(())
}

#[test]
fn byte_segments_and_empty_ones(rt: HostRuntime) -> Result<(), Fail> {
    let bundle = joined(rt.alloc(), PLAIN)?;
    let mut stream = joined(rt.alloc(), SESSION)?;
    put_bytes(&mut stream, &bundle)?;
    gives_the_bundle(rt.alloc(), "bytes and empty segments", &stream)
}

/// A stream with the bundle in segments of this size; the last may be shorter.
fn in_segments(alloc: Global, size: usize) -> Result<Vec<u8>, Fail>
    requires { 0 < size }
{
    let bundle = joined(alloc, PLAIN)?;
    let mut stream = joined(alloc, SESSION)?;
    let mut given: usize = 0;
    for data in bundle.chunks(size) {
        let start = if given == 0 { 2 } else { 0 };
        given = given.saturating_add(data.len());
        let end = if given == bundle.len() { 1 } else { 0 };
        put_segment(&mut stream, start | end, 0, &[data])?;
    }
    Ok(stream)
}

#[test]
fn segments_of_each_size(rt: HostRuntime) -> Result<(), Fail> {
    for size in 1..=34 {
        gives_the_bundle(rt.alloc(), "segments", &in_segments(rt.alloc(), size)?)?;
    }
    Ok(())
}

/// Checks that unpacking a prefix of `TRANSFER` writes the data that is there, and no line.
fn cut_data_is_written(alloc: Global, prefix: &[u8]) -> Result<(), Fail> {
    let want = Expected {
        tool: Tool::Unpack(ALL),
        output: prefix.get(60..).ok_or("less than its head")?,
        report: b"tcpclkit: byte 38: truncated\n",
        status: 3,
    };
    gives_at_each_pace(alloc, "a prefix of one transfer", prefix, &want)
}

/// The data of a cut segment is written as far as it is there. Its transfer has no line.
#[test]
fn cut_data(rt: HostRuntime) -> Result<(), Fail> {
    let stream = joined(rt.alloc(), TRANSFER)?;
    for size in 60..=93 {
        cut_data_is_written(
            rt.alloc(),
            stream.get(..size).ok_or("more than the stream")?,
        )?;
    }
    Ok(())
}

/// Steps a run that goes on, and checks the texts after the step: the first pieces of the row's.
fn row_goes_on(
    alloc: Global,
    run: &mut TestUnpackRun<'_>,
    row: &Row,
    written: (usize, usize),
) -> Result<(), Fail> {
    let (of_output, of_report) = written;
    let output = row.output.get(..of_output).ok_or("more than the output")?;
    let report = row.report.get(..of_report).ok_or("more than the report")?;
    let output = joined(alloc, output)?;
    let report = joined(alloc, report)?;
    unpacks_on(run, &output, &report)
}

/// Steps through a stream with the texts of the row, and checks them after each step but the last.
///
/// Each entry of `written` is for one step: how many pieces of the row's output, and how many of
/// its report, are written after it.
pub fn after_each_step(
    alloc: Global,
    row: &Row,
    stream: &[u8],
    written: &[(usize, usize)],
) -> Result<(), Fail> {
    let mut run = test_unpack_run(alloc, row.wanted, stream);
    for pieces in written {
        row_goes_on(alloc, &mut run, row, *pieces)?;
    }
    is_done(run.step(), row.status)
}

/// An open transfer is abandoned in the step that takes the head of the next one's first segment.
#[test]
fn abandoned_step_by_step(rt: HostRuntime) -> Result<(), Fail> {
    let written = [(0, 0), (0, 0), (0, 0), (1, 0), (1, 1), (3, 3)];
    let stream = built(rt.alloc(), ABANDONED)?;
    after_each_step(rt.alloc(), &ABANDONING, &stream, &written)
}

/// A last segment without data closes its transfer in the step that takes its head.
#[test]
fn empty_end_step_by_step(rt: HostRuntime) -> Result<(), Fail> {
    let written = [(0, 0), (0, 0), (0, 0), (2, 0), (2, 2)];
    let stream = built(rt.alloc(), EMPTY_END.stream)?;
    after_each_step(rt.alloc(), &EMPTY_END, &stream, &written)
}

/// A transfer of 100 segments of 1,000 zeros each, and the number of zeros written after each step.
///
/// A piece of data ends where a read of 8,192 bytes ends.
fn hundred_segments(alloc: Global) -> Result<(Vec<u8>, Vec<usize>), Fail> {
    let mut stream = joined(alloc, SESSION)?;
    // The steps of the contact header and of the SESS_INIT.
    let mut written = Vec::from_slice(alloc, &[0, 0])?;
    for count in 0..100 {
        let flags = match count {
            0 => 2,
            99 => 1,
            _ => 0,
        };
        put_segment(&mut stream, flags, 0, &[&[0; 1000]])?;
        let (before, after) = (count * 1000, count * 1000 + 1000);
        written.push(before)?;
        let past_edge = stream.len() % EDGE;
        if 0 < past_edge && past_edge < 1000 {
            written.push(after - past_edge)?;
        }
        written.push(after)?;
    }
    Ok((stream, written))
}

/// Checks that a run goes on for as many steps, with so many bytes of the output after each.
///
/// The report is written with the last byte of the output.
fn goes_on(
    run: &mut TestUnpackRun<'_>,
    written: &[usize],
    want: &Expected<'_>,
) -> Result<(), Fail> {
    for size in written {
        let output = want.output.get(..*size).ok_or("more than the data")?;
        let is_whole = output.len() == want.output.len();
        let report = if is_whole { want.report } else { b"" };
        unpacks_on(run, output, report)?;
    }
    is_done(run.step(), want.status)
}

/// After each step the output is the data given so far. The line is written with the last of it.
#[test]
fn long_transfer_step_by_step(rt: HostRuntime) -> Result<(), Fail> {
    let (stream, written) = hundred_segments(rt.alloc())?;
    assert_eq!(rt; written.len(), 213);
    let zeros = vec![in rt.alloc(); 0u8; 100_000]?;
    let want = Expected {
        tool: Tool::Unpack(ALL),
        output: &zeros,
        report: b"transfer 0 start=0 written=100000 length=100000 bad=B3 byte=0\n",
        status: 1,
    };
    goes_on(
        &mut test_unpack_run(rt.alloc(), ALL, &stream),
        &written,
        &want,
    )?;
    gives_at_each_pace(rt.alloc(), "100 segments of 1,000 bytes", &stream, &want)
}
