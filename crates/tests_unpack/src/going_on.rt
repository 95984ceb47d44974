//! Tests that unpack streams with messages out of order, and go on after each of them.

use crate::disorder::{
    EACH_FAULT, ENDED, GOING_ON, STRAY_BETWEEN, STRAY_CUT, STRAY_FIRST, TOGETHER,
};
use crate::transfers::{PARTS, Row, WHOLE};
use crate::unpacking::{
    after_each_step, all_given, row_gives, row_gives_in_place, with_keepalives,
};
use link_tools::Wanted;
use std::alloc::Global;
use std::test::Fail;
use tests_common::rows::BUNDLE_REPORT;
use tests_common::running::{Expected, Tool, gives_at_each_pace};
use tests_common::stream::{EDGE, PLAIN, SESSION, built, joined, put_segment};

#[test]
fn each_fault(rt: HostRuntime) -> Result<(), Fail> {
    all_given(rt.alloc(), &EACH_FAULT)
}

#[test]
fn faults_together(rt: HostRuntime) -> Result<(), Fail> {
    all_given(rt.alloc(), &TOGETHER)
}

#[test]
fn faults_of_the_wire(rt: HostRuntime) -> Result<(), Fail> {
    all_given(rt.alloc(), &ENDED)
}

/// Checks that each row has the same result if the run is to go on: no row has a fault of the
/// order.
fn all_unchanged(alloc: Global, rows: &[Row]) -> Result<(), Fail> {
    for row in rows {
        let wanted = Wanted {
            keep_going: true,
            ..row.wanted
        };
        row_gives(alloc, &Row { wanted, ..*row }, &built(alloc, row.stream)?)?;
    }
    Ok(())
}

#[test]
fn without_a_fault(rt: HostRuntime) -> Result<(), Fail> {
    all_unchanged(rt.alloc(), &WHOLE)?;
    all_unchanged(rt.alloc(), &PARTS)
}

/// A fault line for a segment of no open transfer at this offset, and then the line of the bundle.
fn stray_report(alloc: Global, fault: usize) -> Result<Vec<u8>, Fail> {
    let line = format!(in alloc; "tcpclkit: byte {fault}: no such open transfer\n")?;
    let mut report = joined(alloc, &[line.as_bytes()])?;
    report.extend_from_slice(&joined(alloc, BUNDLE_REPORT)?)?;
    Ok(report)
}

/// Checks the result for three segments that begin at this offset. The one between is of no open
/// transfer.
fn stray_is_left_out(alloc: Global, stream: &[u8], offset: usize) -> Result<(), Fail> {
    let output = joined(alloc, PLAIN)?;
    let report = stray_report(alloc, offset.saturating_add(39))?;
    let want = Expected {
        tool: Tool::Unpack(GOING_ON),
        output: &output,
        report: &report,
        status: 1,
    };
    gives_at_each_pace(alloc, "segments after keepalives", stream, &want)
}

/// The first read ends at each offset of three segments in turn.
#[test]
fn after_keepalives(rt: HostRuntime) -> Result<(), Fail> {
    let whole = built(rt.alloc(), STRAY_BETWEEN)?;
    assert_eq!(rt; whole.len(), 164);
    for offset in EDGE - 126..=EDGE {
        let stream = with_keepalives(rt.alloc(), &whole, offset)?;
        stray_is_left_out(rt.alloc(), &stream, offset)?;
    }
    Ok(())
}

/// A segment of no open transfer with 10,000 bytes of data, and then a transfer.
fn long_stray(alloc: Global) -> Result<Vec<u8>, Fail> {
    let mut stream = joined(alloc, SESSION)?;
    put_segment(&mut stream, 1, 5, &[&[0; 10_000]])?;
    put_segment(&mut stream, 3, 0, PLAIN)?;
    Ok(stream)
}

/// The fault line is written in the step of the head. The data is passed over in further steps: of
/// 4,096 bytes, of those up to the end of the first read, and of the rest.
#[test]
fn long_stray_step_by_step(rt: HostRuntime) -> Result<(), Fail> {
    let stream = long_stray(rt.alloc())?;
    row_gives(rt.alloc(), &STRAY_FIRST, &stream)?;
    let written = [
        (0, 0),
        (0, 0),
        (0, 1),
        (0, 1),
        (0, 1),
        (0, 1),
        (0, 1),
        (2, 3),
    ];
    after_each_step(rt.alloc(), &STRAY_FIRST, &stream, &written)
}

/// The data of a segment of no open transfer may end at any byte, also of what the reader holds.
#[test]
fn cut_stray(rt: HostRuntime) -> Result<(), Fail> {
    let stream = long_stray(rt.alloc())?;
    for size in &[56, 57, 4151, 4152, 4153, 8191, 8192, 8193, 10_055] {
        let prefix = stream.get(..*size).ok_or("more than the stream")?;
        row_gives(rt.alloc(), &STRAY_CUT, prefix)?;
        row_gives_in_place(rt.alloc(), &STRAY_CUT, prefix)?;
    }
    Ok(())
}
