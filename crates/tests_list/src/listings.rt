//! Tests that list the worked streams, at each pace of the devices.

ghost use Rattle.std.specs.Prelude.{◌<◌};

use crate::rows::{FAULTS, MESSAGE_LINES, MESSAGES, Row, SESSIONS, TRANSFERS};
use std::alloc::Global;
use std::test::Fail;
use tests_common::rows::TRANSFER;
use tests_common::running::{
    Expected, Tool, ended_in_place, ended_over, gives, gives_at_each_pace, gives_in_place,
};
use tests_common::stream::{
    CONTACT, CONTACT_LINE, NO_ITEMS, NODE, PARAMETERS, SESSION_LINE, SESSION_WORDS, WHOLE_TRANSFER,
    joined,
};

/// Checks the result of listing for a row, also if the reader holds the stream.
fn row_given(alloc: Global, row: &Row) -> Result<(), Fail> {
    let stream = joined(alloc, row.stream)?;
    let output = joined(alloc, row.output)?;
    let want = Expected {
        tool: Tool::List,
        output: &output,
        report: row.report,
        status: row.status,
    };
    gives_at_each_pace(alloc, row.name, &stream, &want)?;
    gives_in_place(alloc, row.name, &stream, &want)
}

fn all_given(alloc: Global, rows: &[Row]) -> Result<(), Fail> {
    for row in rows {
        row_given(alloc, row)?;
    }
    Ok(())
}

/// The result of listing a stream with these lines. The report is a fault line, or empty.
pub fn listing<'a>(output: &'a [u8], report: &'a [u8]) -> Expected<'a> {
    Expected {
        tool: Tool::List,
        output,
        report,
        status: if report.is_empty() { 0 } else { 3 },
    }
}

#[test]
fn sessions(rt: HostRuntime) -> Result<(), Fail> {
    all_given(rt.alloc(), &SESSIONS)
}

#[test]
fn transfers(rt: HostRuntime) -> Result<(), Fail> {
    all_given(rt.alloc(), &TRANSFERS)
}

#[test]
fn faults(rt: HostRuntime) -> Result<(), Fail> {
    all_given(rt.alloc(), &FAULTS)
}

/// The lines of a session whose node ID is as many bytes `ff`.
fn lines_with_escapes(alloc: Global, node: &[u8]) -> Result<Vec<u8>, Fail> {
    let mut output = joined(alloc, &[CONTACT_LINE, SESSION_WORDS, b" node="])?;
    for _ in 0..node.len() {
        output.extend_from_slice(b"\\xff")?;
    }
    output.extend_from_slice(b" items=0\n")?;
    Ok(output)
}

/// A node ID of 1,024 bytes, all of them escaped.
#[test]
fn longest_node(rt: HostRuntime) -> Result<(), Fail> {
    let node = [0xff; 1024];
    let stream = joined(
        rt.alloc(),
        &[CONTACT, PARAMETERS, b"\x04\x00", &node, NO_ITEMS],
    )?;
    let output = lines_with_escapes(rt.alloc(), &node)?;
    assert_eq!(rt; output.len(), CONTACT_LINE.len() + 4174);
    let want = listing(&output, b"");
    gives_at_each_pace(rt.alloc(), "the longest node ID", &stream, &want)
}

/// An item that fills an extension list of 4,096 bytes.
#[test]
fn long_item(rt: HostRuntime) -> Result<(), Fail> {
    let list = b"\x00\x00\x10\x00\x00\xab\xcd\x0f\xfb";
    let stream = joined(rt.alloc(), &[CONTACT, PARAMETERS, NODE, list, &[0; 4091]])?;
    let line = b" node=ipn:1.0 items=1 item=00:abcd:4091\n";
    let output = joined(rt.alloc(), &[CONTACT_LINE, SESSION_WORDS, line])?;
    gives_at_each_pace(rt.alloc(), "a long item", &stream, &listing(&output, b""))
}

/// The offset of the fault at the end of a prefix of the stream with the longest list.
///
/// There is none if the prefix ends after the contact header.
fn cut_at(size: usize) -> Option<usize> {
    match size {
        0..6 => Some(0),
        6 => None,
        _ => Some(6),
    }
}

/// A stream with an item that fills the longest extension list.
fn with_longest_list(alloc: Global) -> Result<Vec<u8>, Fail> {
    let list = b"\x00\x01\x00\x00\x00\xab\xcd\xff\xfb";
    let mut stream = joined(alloc, &[CONTACT, PARAMETERS, NODE, list])?;
    stream.resize(65_574, 0)?;
    Ok(stream)
}

#[test]
fn longest_list(rt: HostRuntime) -> Result<(), Fail> {
    let stream = with_longest_list(rt.alloc())?;
    let line = b" node=ipn:1.0 items=1 item=00:abcd:65531\n";
    let output = joined(rt.alloc(), &[CONTACT_LINE, SESSION_WORDS, line])?;
    gives_at_each_pace(
        rt.alloc(),
        "the longest list",
        &stream,
        &listing(&output, b""),
    )
}

/// The fault line of a prefix of the stream with the longest list, or no byte if it has none.
fn report_of_the_cut(alloc: Global, size: usize) -> Result<String, Fail> {
    match cut_at(size) {
        Some(offset) => Ok(format!(in alloc; "tcpclkit: byte {offset}: truncated\n")?),
        None => Ok(String::new(alloc)),
    }
}

/// Checks the result for a prefix of the stream with the longest list.
fn prefix_given(alloc: Global, prefix: &[u8]) -> Result<(), Fail> {
    let report = report_of_the_cut(alloc, prefix.len())?;
    let output: &[u8] = if prefix.len() < 6 { b"" } else { CONTACT_LINE };
    let want = listing(output, report.as_bytes());
    gives_at_each_pace(alloc, "a prefix of the longest list", prefix, &want)
}

/// The prefixes are those of at most 100 bytes, and the one without the last byte.
#[test]
fn longest_list_cut(rt: HostRuntime) -> Result<(), Fail> {
    let stream = with_longest_list(rt.alloc())?;
    for size in 0..=100 {
        prefix_given(
            rt.alloc(),
            stream.get(..size).ok_or("more than the stream")?,
        )?;
    }
    prefix_given(
        rt.alloc(),
        stream.get(..65_573).ok_or("more than the stream")?,
    )
}

/// A segment with more data than a run holds at once, and a message after it.
fn with_long_segment(alloc: Global) -> Result<Vec<u8>, Fail> {
    let length_9000 = b"\x00\x00\x00\x00\x00\x00\x23\x28";
    let data = [0xa5; 9000];
    let segment: &[&[u8]] = &[WHOLE_TRANSFER, length_9000, &data, b"\x04"];
    let mut stream = joined(alloc, &[CONTACT, PARAMETERS, NODE, NO_ITEMS])?;
    stream.extend_from_slice(&joined(alloc, segment)?)?;
    Ok(stream)
}

#[test]
fn long_segment(rt: HostRuntime) -> Result<(), Fail> {
    let stream = with_long_segment(rt.alloc())?;
    let line = b"38 xfer-segment flags=03 id=0 items=0 length=9000\n";
    let output = joined(
        rt.alloc(),
        &[CONTACT_LINE, SESSION_LINE, line, b"9060 keepalive\n"],
    )?;
    let want = listing(&output, b"");
    gives_at_each_pace(rt.alloc(), "a long segment", &stream, &want)?;
    gives_in_place(rt.alloc(), "a long segment", &stream, &want)
}

/// The offsets at which the contact header and each of the messages end.
static ENDS: [usize; 8] = [6, 38, 56, 66, 67, 70, 73, 76];

/// The lines of the whole messages in a prefix of `MESSAGES`, and the offset at which they end.
fn whole_lines(alloc: Global, size: usize) -> Result<(Vec<u8>, usize), Fail> {
    let mut lines = Vec::new(alloc);
    let mut end = 0;
    for (message_end, line) in ENDS.iter().zip(MESSAGE_LINES) {
        if *message_end <= size {
            lines.extend_from_slice(line)?;
            end = *message_end;
        }
    }
    Ok((lines, end))
}

/// Checks the result for a prefix of `MESSAGES`.
///
/// The lines of the whole messages are listed, and a fault line if a message is cut.
fn messages_given(alloc: Global, prefix: &[u8]) -> Result<(), Fail> {
    let (output, start) = whole_lines(alloc, prefix.len())?;
    let is_whole = prefix.len() > 0 && start == prefix.len();
    let fault = format!(in alloc; "tcpclkit: byte {start}: truncated\n")?;
    let report: &[u8] = if is_whole { b"" } else { fault.as_bytes() };
    let want = listing(&output, report);
    gives(alloc, "a prefix of every message", prefix, 1, &want)
}

#[test]
fn every_prefix(rt: HostRuntime) -> Result<(), Fail> {
    let stream = joined(rt.alloc(), MESSAGES)?;
    assert_eq!(rt; stream.len(), 76);
    for size in 0..=76 {
        messages_given(rt.alloc(), &stream[..size])?;
    }
    Ok(())
}

/// The number of calls of the reader, and the number of bytes that it gives.
///
/// The devices move at most `per_call` bytes a call.
fn reads(alloc: Global, stream: &[u8], per_call: usize) -> (usize, usize)
    requires { 0 < per_call }
{
    let end = ended_over(alloc, Tool::List, stream, per_call);
    (end.reader.calls(), end.reader.given())
}

/// Over a reader that holds all bytes, the first is read, and the others are taken without a read.
#[test]
fn held_bytes_are_taken(rt: HostRuntime) -> Result<(), Fail> {
    let stream = joined(rt.alloc(), TRANSFER)?;
    let end = ended_in_place(rt.alloc(), Tool::List, &stream, usize::MAX, 1);
    assert_eq!(rt; (end.reader.given(), end.reader.passed()), (1, 93));
    Ok(())
}

/// Each read asks for a whole window of 8,192 bytes. At the end the reader is called once more.
#[test]
fn counted_reads(rt: HostRuntime) -> Result<(), Fail> {
    let mut stream = joined(rt.alloc(), TRANSFER)?;
    assert_eq!(rt; reads(rt.alloc(), &stream, usize::MAX), (2, 94));
    assert_eq!(rt; reads(rt.alloc(), &stream, 1), (95, 94));
    for &(size, calls) in &[(8191, 2), (8192, 2), (8193, 3), (16_384, 3), (16_385, 4)] {
        // keepalives after the transfer
        stream.resize(size, 4)?;
        assert_eq!(rt; reads(rt.alloc(), &stream, usize::MAX), (calls, size));
    }
    Ok(())
}
