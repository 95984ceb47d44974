//! Tests that check worked inputs, at each pace of the devices and step by step.

use crate::rows::nodes::{OWN, SENDERS, UNKNOWN};
use crate::rows::{
    BETWEEN, BUNDLES, FAULTS, MOST_LINES, NOT_READ, ONE_BUNDLE, OUT_OF_ORDER, Row, WHOLE,
};
use std::alloc::Global;
use std::test::Fail;
use tests_common::running::{Expected, gives, gives_at_each_pace, gives_in_place};
use tests_common::stream::{built, joined};

/// The result of the row, in these texts of the row.
fn expected<'a>(row: &Row, output: &'a [u8], report: &'a [u8]) -> Expected<'a> {
    Expected {
        tool: row.tool,
        output,
        report,
        status: row.status,
    }
}

/// Checks the result of the row, also if the reader holds the input.
fn row_given(alloc: Global, row: &Row) -> Result<(), Fail> {
    let input = built(alloc, row.input)?;
    let output = joined(alloc, row.output)?;
    let report = joined(alloc, row.report)?;
    let want = expected(row, &output, &report);
    gives_at_each_pace(alloc, row.name, &input, &want)?;
    gives_in_place(alloc, row.name, &input, &want)
}

fn all_given(alloc: Global, rows: &[Row]) -> Result<(), Fail> {
    for row in rows {
        row_given(alloc, row)?;
    }
    Ok(())
}

#[test]
fn whole_recordings(rt: HostRuntime) -> Result<(), Fail> {
    all_given(rt.alloc(), &WHOLE)
}

#[test]
fn the_most_lines_of_a_step(rt: HostRuntime) -> Result<(), Fail> {
    all_given(rt.alloc(), &MOST_LINES)
}

#[test]
fn messages_out_of_order(rt: HostRuntime) -> Result<(), Fail> {
    all_given(rt.alloc(), &OUT_OF_ORDER)
}

#[test]
fn faults(rt: HostRuntime) -> Result<(), Fail> {
    all_given(rt.alloc(), &FAULTS)
}

#[test]
fn bundles(rt: HostRuntime) -> Result<(), Fail> {
    all_given(rt.alloc(), &BUNDLES)
}

#[test]
fn of_one_node(rt: HostRuntime) -> Result<(), Fail> {
    all_given(rt.alloc(), &OWN)
}

#[test]
fn of_the_sender(rt: HostRuntime) -> Result<(), Fail> {
    all_given(rt.alloc(), &SENDERS)
}

#[test]
fn beside_unknown_parts(rt: HostRuntime) -> Result<(), Fail> {
    all_given(rt.alloc(), &UNKNOWN)
}

/// Checks the result of the row if the input comes in pieces of each size. Those of half of it or
/// more are two pieces.
fn row_in_pieces(alloc: Global, row: &Row) -> Result<(), Fail> {
    let input = built(alloc, row.input)?;
    let output = joined(alloc, row.output)?;
    let want = expected(row, &output, &[]);
    for size in 0..input.len() {
        gives(alloc, row.name, &input, size.saturating_add(1), &want)?;
    }
    Ok(())
}

#[test]
fn in_pieces(rt: HostRuntime) -> Result<(), Fail> {
    row_in_pieces(rt.alloc(), &BETWEEN)?;
    row_in_pieces(rt.alloc(), &NOT_READ)?;
    row_in_pieces(rt.alloc(), &ONE_BUNDLE)
}
