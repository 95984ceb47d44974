//! Tests that show the blocks of worked inputs, at each pace of the devices and step by step.

use crate::rows::{BUNDLES, DISORDER, EVERY_TYPE, FAULTS, Row, TWO_GOOD, WHOLE};
use std::alloc::Global;
use std::test::Fail;
use tests_common::running::{Expected, gives, gives_at_each_pace, gives_held, gives_in_place};
use tests_common::stream::{EDGE, built, joined};

/// The result of the row, in these texts of the row.
fn expected<'a>(row: &Row, output: &'a [u8], report: &'a [u8]) -> Expected<'a> {
    Expected {
        tool: row.tool,
        output,
        report,
        status: row.status,
    }
}

/// Checks the result of the row, also if the reader holds the input.
fn row_given(alloc: Global, row: &Row) -> Result<(), Fail> {
    let input = built(alloc, row.input)?;
    let output = joined(alloc, row.output)?;
    let report = joined(alloc, row.report)?;
    let want = expected(row, &output, &report);
    gives_at_each_pace(alloc, row.name, &input, &want)?;
    gives_in_place(alloc, row.name, &input, &want)
}

fn all_given(alloc: Global, rows: &[Row]) -> Result<(), Fail> {
    for row in rows {
        row_given(alloc, row)?;
    }
    Ok(())
}

#[test]
fn whole_recordings(rt: HostRuntime) -> Result<(), Fail> {
    all_given(rt.alloc(), &WHOLE)
}

#[test]
fn faults(rt: HostRuntime) -> Result<(), Fail> {
    all_given(rt.alloc(), &FAULTS)
}

#[test]
fn going_on(rt: HostRuntime) -> Result<(), Fail> {
    all_given(rt.alloc(), &DISORDER)
}

#[test]
fn bundles(rt: HostRuntime) -> Result<(), Fail> {
    all_given(rt.alloc(), &BUNDLES)
}

/// The transfers of a row follow keepalives. The first window ends at each offset of them in turn.
fn row_after_keepalives(alloc: Global, row: &Row) -> Result<(), Fail> {
    let whole = built(alloc, row.input)?;
    let (session, transfers) = whole.split_at_checked(38).ok_or("no session")?;
    let output = joined(alloc, row.output)?;
    let want = expected(row, &output, &[]);
    for size in EDGE.saturating_sub(transfers.len())..=EDGE {
        let mut stream = joined(alloc, &[session])?;
        stream.resize(size, 4)?;
        stream.extend_from_slice(transfers)?;
        gives(alloc, row.name, &stream, usize::MAX, &want)?;
        gives_held(alloc, row.name, &stream, usize::MAX, usize::MAX, &want)?;
    }
    Ok(())
}

#[test]
fn after_keepalives(rt: HostRuntime) -> Result<(), Fail> {
    row_after_keepalives(rt.alloc(), &TWO_GOOD)?;
    row_after_keepalives(rt.alloc(), &EVERY_TYPE)
}
