//! Tests in which each device of `unpack` fails at each of its calls in turn.

use crate::disorder::{
    EARLY_TRANSFER, ENDED, LATE_TRANSFERS, REPEATED_START, SECOND_SESS_INIT, STRAY_SEGMENTS,
};
use crate::transfers::{ABANDONED, PAYLOAD, Row};
use std::alloc::Global;
use std::test::Fail;
use tests_common::failures::{each_fails_at_each_pace, reads_before_failure};
use tests_common::rows::{ALL, TRANSFER, TWO_BUNDLES};
use tests_common::running::Tool;
use tests_common::stream::{CHANGED_BACK, FRONT, Part, SESSION, built, joined};

#[test]
fn two_bundles(rt: HostRuntime) -> Result<(), Fail> {
    let stream = built(rt.alloc(), TWO_BUNDLES)?;
    each_fails_at_each_pace(rt.alloc(), Tool::Unpack(ALL), &stream)
}

/// A payload whose check differs.
#[test]
fn changed_payload(rt: HostRuntime) -> Result<(), Fail> {
    let parts = [
        Part::Bytes(SESSION),
        Part::Segment(3, 0, &[FRONT, CHANGED_BACK]),
    ];
    let stream = built(rt.alloc(), &parts)?;
    each_fails_at_each_pace(rt.alloc(), Tool::Unpack(PAYLOAD), &stream)
}

/// A transfer that another abandons, without a fault after it and with one.
#[test]
fn abandoned_transfer(rt: HostRuntime) -> Result<(), Fail> {
    let mut stream = built(rt.alloc(), ABANDONED)?;
    each_fails_at_each_pace(rt.alloc(), Tool::Unpack(ALL), &stream)?;
    stream.push(0x16)?;
    each_fails_at_each_pace(rt.alloc(), Tool::Unpack(ALL), &stream)
}

/// Checks runs over the stream of the row in which a device fails.
fn row_fails(alloc: Global, row: &Row) -> Result<(), Fail> {
    let stream = built(alloc, row.stream)?;
    each_fails_at_each_pace(alloc, Tool::Unpack(row.wanted), &stream)
}

#[test]
fn second_sess_init(rt: HostRuntime) -> Result<(), Fail> {
    row_fails(rt.alloc(), &SECOND_SESS_INIT)
}

#[test]
fn early_transfer(rt: HostRuntime) -> Result<(), Fail> {
    row_fails(rt.alloc(), &EARLY_TRANSFER)
}

#[test]
fn stray_segments(rt: HostRuntime) -> Result<(), Fail> {
    row_fails(rt.alloc(), &STRAY_SEGMENTS)
}

#[test]
fn repeated_start(rt: HostRuntime) -> Result<(), Fail> {
    row_fails(rt.alloc(), &REPEATED_START)
}

#[test]
fn late_transfers(rt: HostRuntime) -> Result<(), Fail> {
    row_fails(rt.alloc(), &LATE_TRANSFERS)
}

/// A fault of the wire after one of the order.
#[test]
fn fault_of_the_wire(rt: HostRuntime) -> Result<(), Fail> {
    for row in &ENDED {
        row_fails(rt.alloc(), row)?;
    }
    Ok(())
}

/// A run writes what the bytes so far determine before it takes any byte after them.
///
/// The text is the first byte of data.
#[test]
fn reads_no_further_than_it_writes(rt: HostRuntime) -> Result<(), Fail> {
    let stream = joined(rt.alloc(), TRANSFER)?;
    reads_before_failure(rt.alloc(), Tool::Unpack(ALL), &stream, 0, 61)
}
