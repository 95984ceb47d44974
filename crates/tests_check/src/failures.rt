//! Tests in which each device of `check` fails at each of its calls in turn.

use crate::rows::{BAD_BUNDLE, BEGINNING, BETWEEN, CUT, MOST_RULES, RECORD, Row};
use std::alloc::Global;
use std::test::Fail;
use tests_common::failures::each_fails_at_each_pace;
use tests_common::stream::built;

/// Checks runs over the input of the row in which a device fails.
fn row_fails(alloc: Global, row: &Row) -> Result<(), Fail> {
    let input = built(alloc, row.input)?;
    each_fails_at_each_pace(alloc, row.tool, &input)
}

#[test]
fn beginning(rt: HostRuntime) -> Result<(), Fail> {
    row_fails(rt.alloc(), &BEGINNING)
}

#[test]
fn most_rules(rt: HostRuntime) -> Result<(), Fail> {
    row_fails(rt.alloc(), &MOST_RULES)
}

#[test]
fn between_segments(rt: HostRuntime) -> Result<(), Fail> {
    row_fails(rt.alloc(), &BETWEEN)
}

#[test]
fn cut_segment(rt: HostRuntime) -> Result<(), Fail> {
    row_fails(rt.alloc(), &CUT)
}

#[test]
fn record(rt: HostRuntime) -> Result<(), Fail> {
    row_fails(rt.alloc(), &RECORD)
}

#[test]
fn bad_bundle(rt: HostRuntime) -> Result<(), Fail> {
    row_fails(rt.alloc(), &BAD_BUNDLE)
}
