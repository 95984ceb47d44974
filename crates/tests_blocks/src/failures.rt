//! Tests in which each device of `blocks` fails at each of its calls in turn.

use crate::rows::{ABANDONING, CHECK_DIFFERS, DISORDER, EVERY_TYPE, FAULTS, Row};
use std::alloc::Global;
use std::test::Fail;
use tests_common::failures::{each_fails, each_fails_at_each_pace};
use tests_common::stream::built;

/// Checks runs over the input of the row in which a device fails.
fn row_fails(alloc: Global, row: &Row) -> Result<(), Fail> {
    let input = built(alloc, row.input)?;
    each_fails_at_each_pace(alloc, row.tool, &input)
}

fn all_fail(alloc: Global, rows: &[Row]) -> Result<(), Fail> {
    for row in rows {
        row_fails(alloc, row)?;
    }
    Ok(())
}

/// The devices move all bytes in a call, and then seven bytes.
#[test]
fn every_type(rt: HostRuntime) -> Result<(), Fail> {
    let alloc = rt.alloc();
    let input = built(alloc, EVERY_TYPE.input)?;
    each_fails(alloc, EVERY_TYPE.tool, &input, usize::MAX, 1)?;
    each_fails(alloc, EVERY_TYPE.tool, &input, 7, 29)
}

#[test]
fn abandoned_transfer(rt: HostRuntime) -> Result<(), Fail> {
    row_fails(rt.alloc(), &ABANDONING)
}

#[test]
fn faults(rt: HostRuntime) -> Result<(), Fail> {
    all_fail(rt.alloc(), &FAULTS)
}

#[test]
fn going_on(rt: HostRuntime) -> Result<(), Fail> {
    all_fail(rt.alloc(), &DISORDER)
}

#[test]
fn bundles(rt: HostRuntime) -> Result<(), Fail> {
    row_fails(rt.alloc(), &CHECK_DIFFERS)
}
