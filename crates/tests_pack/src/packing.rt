//! Tests that pack the worked bundles, at each pace of the devices and step by step.

use crate::packings::{ANNOUNCED, FAULTS, HELD, IN_HALVES, NOT_HELD, PAST_LIMIT, Row, WHOLE};
use link_tools::Run;
use std::alloc::Global;
use std::test::Fail;
use tests_common::packing::{DEFAULTS, Packing};
use tests_common::rows::{ALL, BUNDLE_REPORT, TWO_BUNDLES_REPORT};
use tests_common::running::{
    Expected, Tool, ended_in_place, ended_over, gives_at_each_pace, gives_in_place, steps_alike,
};
use tests_common::stepping::{TestPackRun, is_done, packs_on, test_pack_run};
use tests_common::stream::{
    CONTACT_LINE, PLAIN, SESSION, SESSION_LINE, built, joined, put_segment,
};

/// Checks that packing the input gives this result at each pace, in one call and in steps.
fn gives_in_steps(
    alloc: Global,
    name: &str,
    input: &[u8],
    want: &Expected<'_>,
) -> Result<(), Fail> {
    gives_at_each_pace(alloc, name, input, want)?;
    steps_alike(alloc, want.tool, input, 7)?;
    steps_alike(alloc, want.tool, input, 1)
}

/// Checks the result of packing the input for a row, also if the reader holds the input.
fn row_given(alloc: Global, row: &Row, input: &[u8]) -> Result<(), Fail> {
    let output = built(alloc, row.output)?;
    let report = joined(alloc, row.report)?;
    let want = Expected {
        tool: Tool::Pack(row.packing),
        output: &output,
        report: &report,
        status: row.status,
    };
    gives_in_steps(alloc, row.name, input, &want)?;
    gives_in_place(alloc, row.name, input, &want)
}

fn all_given(alloc: Global, rows: &[Row]) -> Result<(), Fail> {
    for row in rows {
        row_given(alloc, row, &joined(alloc, row.input)?)?;
    }
    Ok(())
}

#[test]
fn whole_bundles(rt: HostRuntime) -> Result<(), Fail> {
    all_given(rt.alloc(), &WHOLE)
}

#[test]
fn faults(rt: HostRuntime) -> Result<(), Fail> {
    all_given(rt.alloc(), &FAULTS)
}

/// Over a reader that holds all bytes, the first is read, and the others are passed over in place.
#[test]
fn bundles_in_place(rt: HostRuntime) -> Result<(), Fail> {
    let input = joined(rt.alloc(), IN_HALVES.input)?;
    let tool = Tool::Pack(IN_HALVES.packing);
    let end = ended_in_place(rt.alloc(), tool, &input, usize::MAX, usize::MAX);
    assert_eq!(rt; (end.reader.given(), end.reader.passed()), (1, 67));
    Ok(())
}

/// Checks that a prefix of a bundle leads to a fault, and that only the start of a session is
/// written.
fn prefix_given(alloc: Global, session: &[u8], prefix: &[u8]) -> Result<(), Fail> {
    let size = prefix.len();
    let report = format!(in alloc;
        "tcpclkit: bundle 0 byte {size}: B1 input ends inside a bundle\n"
    )?;
    let want = Expected {
        tool: Tool::Pack(DEFAULTS),
        output: session,
        report: report.as_bytes(),
        status: 3,
    };
    gives_in_steps(alloc, "a prefix of a bundle", prefix, &want)
}

/// A bundle that is cut after each of its bytes but the last.
#[test]
fn every_prefix(rt: HostRuntime) -> Result<(), Fail> {
    let bundle = joined(rt.alloc(), PLAIN)?;
    let session = joined(rt.alloc(), SESSION)?;
    for size in 1..=33 {
        let prefix = bundle.get(..size).ok_or("more than the bundle")?;
        prefix_given(rt.alloc(), &session, prefix)?;
    }
    Ok(())
}

/// Steps a run that goes on this often, and checks what it has written after each step.
fn packs_on_for(
    run: &mut TestPackRun<'_>,
    steps: usize,
    output: &[u8],
    report: &[u8],
) -> Result<(), Fail> {
    for _ in 0..steps {
        packs_on(run, output, report)?;
    }
    Ok(())
}

/// Checks a number of steps of a run that goes on: how many bytes of the output and how many lines
/// of the row's report are written after each of them.
fn row_goes_on(
    alloc: Global,
    run: &mut TestPackRun<'_>,
    row: &Row,
    output: &[u8],
    written: (usize, usize, usize),
) -> Result<(), Fail> {
    let (steps, size, lines) = written;
    let output = output.get(..size).ok_or("more than the output")?;
    let report = row.report.get(..lines).ok_or("more than the report")?;
    packs_on_for(run, steps, output, &joined(alloc, report)?)
}

/// Packs a row's input in steps, over a reader of one byte a call.
///
/// Each entry of `written` is a number of steps, and how many bytes of the output and lines of the
/// report are written after each of these steps. The step after all of them is the last.
fn byte_by_byte(alloc: Global, row: &Row, written: &[(usize, usize, usize)]) -> Result<(), Fail> {
    let input = joined(alloc, row.input)?;
    let output = built(alloc, row.output)?;
    let mut run = test_pack_run(alloc, &row.packing, &input)?;
    for steps in written {
        row_goes_on(alloc, &mut run, row, &output, *steps)?;
    }
    is_done(run.step(), row.status)
}

/// A chunk is written in the step that takes its last byte.
///
/// The line of a bundle is written in the same step as its last chunk.
#[test]
fn two_bundles_step_by_step(rt: HostRuntime) -> Result<(), Fail> {
    let written = [
        (17, 38, 0),
        (17, 77, 0),
        (17, 112, 1),
        (17, 151, 1),
        (1, 186, 2),
    ];
    byte_by_byte(rt.alloc(), &IN_HALVES, &written)
}

/// A bundle whose length may still be announced is written at its end.
#[test]
fn announced_step_by_step(rt: HostRuntime) -> Result<(), Fail> {
    byte_by_byte(rt.alloc(), &ANNOUNCED, &[(34, 38, 0), (1, 125, 1)])
}

/// The chunks of a bundle are written once its length can no longer be announced.
///
/// They are written in the step that takes the first byte past the longest length that is
/// announced. If no length is announced, a chunk is written as soon as it is full.
#[test]
fn past_the_limit_step_by_step(rt: HostRuntime) -> Result<(), Fail> {
    byte_by_byte(rt.alloc(), &HELD, &[(34, 38, 0)])?;
    byte_by_byte(rt.alloc(), &NOT_HELD, &[(33, 38, 0), (1, 126, 0)])?;
    let written = [(10, 38, 0), (10, 70, 0), (10, 98, 0), (4, 126, 0)];
    byte_by_byte(rt.alloc(), &PAST_LIMIT, &written)
}

/// The stream that a row's input is packed into.
fn packed(alloc: Global, row: &Row) -> Result<Vec<u8>, Fail> {
    let input = joined(alloc, row.input)?;
    let end = ended_over(alloc, Tool::Pack(row.packing), &input, usize::MAX);
    joined(alloc, &[end.output.written()])
}

/// Checks that unpacking the packed stream returns the bundles, with these lines.
fn comes_back(alloc: Global, row: &Row, report: &[&[u8]]) -> Result<(), Fail> {
    let input = joined(alloc, row.input)?;
    let report = joined(alloc, report)?;
    let want = Expected {
        tool: Tool::Unpack(ALL),
        output: &input,
        report: &report,
        status: 0,
    };
    gives_at_each_pace(alloc, row.name, &packed(alloc, row)?, &want)
}

#[test]
fn unpacked_again(rt: HostRuntime) -> Result<(), Fail> {
    comes_back(rt.alloc(), &IN_HALVES, TWO_BUNDLES_REPORT)?;
    comes_back(rt.alloc(), &ANNOUNCED, BUNDLE_REPORT)
}

#[test]
fn announced_length_listed(rt: HostRuntime) -> Result<(), Fail> {
    let lines: &[&[u8]] = &[
        CONTACT_LINE,
        SESSION_LINE,
        b"38 xfer-segment flags=02 id=0 items=1 item=00:0001:8 length=17\n",
        b"90 xfer-segment flags=01 id=0 length=17\n",
    ];
    let lines = joined(rt.alloc(), lines)?;
    let want = Expected {
        tool: Tool::List,
        output: &lines,
        report: b"",
        status: 0,
    };
    let stream = packed(rt.alloc(), &ANNOUNCED)?;
    gives_at_each_pace(rt.alloc(), "an announced length", &stream, &want)
}

/// A bundle of 70,033 bytes whose payload is zeros.
fn long_bundle(alloc: Global) -> Result<Vec<u8>, Fail> {
    let mut bundle = joined(alloc, PLAIN)?;
    bundle.truncate(27);
    bundle.extend_from_slice(b"\x5a\x00\x01\x11\x70")?;
    bundle.resize(70_032, 0)?;
    bundle.push(0xff)?;
    Ok(bundle)
}

/// A stream with the bundle in a segment of 65,536 bytes and one with the rest.
fn with_longest_segment(alloc: Global, bundle: &[u8]) -> Result<Vec<u8>, Fail> {
    let (first, last) = bundle
        .split_at_checked(65_536)
        .ok_or("less than a segment")?;
    let mut output = joined(alloc, SESSION)?;
    put_segment(&mut output, 2, 0, &[first])?;
    put_segment(&mut output, 1, 0, &[last])?;
    Ok(output)
}

/// No segment has more than 65,536 bytes of data, whatever the peer takes.
#[test]
fn longest_segment(rt: HostRuntime) -> Result<(), Fail> {
    let bundle = long_bundle(rt.alloc())?;
    let output = with_longest_segment(rt.alloc(), &bundle)?;
    let packing = Packing {
        peer_segment: u64::MAX,
        ..DEFAULTS
    };
    let want = Expected {
        tool: Tool::Pack(packing),
        output: &output,
        report: b"bundle 0 segments=2 length=70033 source=ipn:1.1 time=0 sequence=0 destination=ipn:2.1 payload=70000\n",
        status: 0,
    };
    gives_at_each_pace(rt.alloc(), "a long bundle", &bundle, &want)
}
