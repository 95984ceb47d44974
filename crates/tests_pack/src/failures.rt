//! Tests in which each device of `pack` fails at each of its calls in turn.

use crate::packings::{ANNOUNCED, IN_HALVES, PAST_LIMIT, Row};
use std::alloc::Global;
use std::test::Fail;
use tests_common::failures::{each_fails_at_each_pace, reads_before_failure};
use tests_common::running::Tool;
use tests_common::stream::joined;

/// Each device fails in turn while the bundles of a row are packed.
fn each_fails_in_the_row(alloc: Global, row: &Row) -> Result<(), Fail> {
    let input = joined(alloc, row.input)?;
    each_fails_at_each_pace(alloc, Tool::Pack(row.packing), &input)
}

#[test]
fn two_bundles_packed(rt: HostRuntime) -> Result<(), Fail> {
    each_fails_in_the_row(rt.alloc(), &IN_HALVES)
}

/// No segment is written before the bundle has ended.
#[test]
fn announced_bundle(rt: HostRuntime) -> Result<(), Fail> {
    each_fails_in_the_row(rt.alloc(), &ANNOUNCED)
}

/// Segments without END, and a fault.
#[test]
fn bundle_past_the_limit(rt: HostRuntime) -> Result<(), Fail> {
    each_fails_in_the_row(rt.alloc(), &PAST_LIMIT)
}

/// A run writes what the bytes so far determine before it takes any byte after them.
///
/// The text is the first segment, after the beginning of the session.
#[test]
fn reads_no_further_than_it_writes(rt: HostRuntime) -> Result<(), Fail> {
    let bundles = joined(rt.alloc(), IN_HALVES.input)?;
    let tool = Tool::Pack(IN_HALVES.packing);
    reads_before_failure(rt.alloc(), tool, &bundles, 38, 17)
}
