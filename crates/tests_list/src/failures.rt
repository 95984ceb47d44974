//! Tests in which each device of `list` fails at each of its calls in turn.

use crate::rows::MESSAGES;
use std::alloc::Global;
use std::test::Fail;
use tests_common::checks::{counted, reported, wrote};
use tests_common::failures::{each_fails, each_fails_at_each_pace, reads_before_failure};
use tests_common::rows::TRANSFER;
use tests_common::running::{End, Tool, ended_over};
use tests_common::stream::{
    CONTACT, CONTACT_LINE, NODE, PARAMETERS, SESSION_WORDS, WHOLE_TRANSFER, joined,
};

#[test]
fn every_message(rt: HostRuntime) -> Result<(), Fail> {
    let mut stream = joined(rt.alloc(), MESSAGES)?;
    each_fails_at_each_pace(rt.alloc(), Tool::List, &stream)?;
    // The fault gives the report a line.
    stream.push(0x16)?;
    each_fails_at_each_pace(rt.alloc(), Tool::List, &stream)
}

/// A SESS_INIT whose extension list is longer than two windows, a segment, and a fault.
fn long_list(alloc: Global) -> Result<Vec<u8>, Fail> {
    let value = [0xa5; 9000];
    let list: &[&[u8]] = &[
        b"\x00\x00\x46\x5a",
        b"\x01\x12\x34\x23\x28",
        &value,
        b"\x00\xab\xcd\x23\x28",
        &value,
    ];
    let mut stream = joined(alloc, &[CONTACT, PARAMETERS, NODE])?;
    stream.extend_from_slice(&joined(alloc, list)?)?;
    let segment: &[&[u8]] = &[
        WHOLE_TRANSFER,
        b"\x00\x00\x00\x00\x00\x00\x00\x05",
        b"hello",
    ];
    stream.extend_from_slice(&joined(alloc, segment)?)?;
    stream.push(0x16)?;
    Ok(stream)
}

/// Checks the texts of listing the long list, and how often its reader is called.
fn long_list_is_listed(alloc: Global, end: &End<'_>) -> Result<(), Fail> {
    let lines: &[&[u8]] = &[
        CONTACT_LINE,
        SESSION_WORDS,
        b" node=ipn:1.0 items=2 item=01:1234:9000 item=00:abcd:9000\n",
        b"18048 xfer-segment flags=03 id=0 items=0 length=5\n",
    ];
    wrote("a long list", end.output.written(), &joined(alloc, lines)?)?;
    let fault = b"tcpclkit: byte 18075: unknown message type 16\n";
    reported("a long list", end.report.written(), fault)?;
    counted("calls of the reader", end.reader.calls(), 3)
}

#[test]
fn long_list_at_once(rt: HostRuntime) -> Result<(), Fail> {
    let stream = long_list(rt.alloc())?;
    let end = ended_over(rt.alloc(), Tool::List, &stream, usize::MAX);
    long_list_is_listed(rt.alloc(), &end)?;
    each_fails(rt.alloc(), Tool::List, &stream, usize::MAX, 1)
}

#[test]
fn long_list_by_sevens(rt: HostRuntime) -> Result<(), Fail> {
    each_fails(rt.alloc(), Tool::List, &long_list(rt.alloc())?, 7, 1)
}

#[test]
fn long_list_byte_by_byte(rt: HostRuntime) -> Result<(), Fail> {
    each_fails(rt.alloc(), Tool::List, &long_list(rt.alloc())?, 1, 31)
}

/// A run writes what the bytes so far determine before it takes any byte after them.
///
/// The text is the first line.
#[test]
fn reads_no_further_than_it_writes(rt: HostRuntime) -> Result<(), Fail> {
    let stream = joined(rt.alloc(), TRANSFER)?;
    reads_before_failure(rt.alloc(), Tool::List, &stream, 0, 6)
}
