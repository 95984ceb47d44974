//! Tests of runs of `pack` whose one request for memory may be refused.
//!
//! This request is the first one of each of these tests, so `rt try --test --fail-alloc 1` refuses
//! it. The tests pass whether it is refused or not.

ghost use Rattle.std.specs.Prelude.{◌≡◌, false};

use crate::packings::{ANNOUNCED, IN_HALVES, Row};
use link_tools::{cutter_for, pack, run_exit};
use link_wire::{HeadBuf, InDevice, OutDevice};
use std::alloc::Global;
use std::process::Abort;
use std::test::Fail;
use tests_common::running::End;
use tests_common::stream::{built, joined};
use tests_common::{Failing, TestReader, TestWriter};

/// The pieces, joined without a request for memory.
fn in_place(pieces: &[&[u8]]) -> Result<HeadBuf, Fail> {
    let mut bytes = HeadBuf::new();
    for piece in pieces {
        bytes.try_extend_from_slice(piece)?;
    }
    Ok(bytes)
}

/// A reader that never fails.
fn reader<'a>(bytes: &'a [u8]) -> TestReader<'a>
    ensures { (⟦<TestReader<'a> as InDevice>⟧.state result).failed ≡ false }
{
    TestReader::new(bytes, usize::MAX, Failing::Never)
}

/// A writer that never fails. It takes no memory before it is written to.
fn writer(alloc: Global) -> TestWriter
    ensures { (⟦<TestWriter as OutDevice>⟧.state result).failed ≡ false }
{
    TestWriter::new(alloc, usize::MAX, Failing::Never)
}

/// Checks that a run without memory has read nothing and written nothing, and no device has failed.
fn is_untouched(rt: &impl Abort, end: &End<'_>) -> Result<(), Fail> {
    assert_eq!(rt; run_exit(&end.answer), (4, "tcpclkit: out of memory"));
    let (reader, output, report) = (&end.reader, &end.output, &end.report);
    assert_eq!(rt; (reader.calls(), reader.given()), (0, 0));
    has_nothing(rt, output);
    has_nothing(rt, report);
    assert!(rt; !(reader.failed() || output.failed() || report.failed()));
    Ok(())
}

/// Checks that nothing was written to a writer, and that it was not called.
fn has_nothing(rt: &impl Abort, writer: &TestWriter) {
    assert_eq!(rt; (writer.calls(), writer.written().len()), (0, 0));
}

/// Checks that the run has the result of the row.
fn is_packed(rt: &(impl Abort + AllocGlobal), row: &Row, end: &End<'_>) -> Result<(), Fail> {
    let output = built(rt.alloc(), row.output)?;
    let report = joined(rt.alloc(), row.report)?;
    assert!(rt; end.output.written() == output.as_slice());
    assert!(rt; end.report.written() == report.as_slice());
    assert_eq!(rt; run_exit(&end.answer), (row.status, ""));
    Ok(())
}

/// Checks that the whole call has the result of the row, or does nothing at all.
fn packs(rt: &(impl Abort + AllocGlobal), row: &Row) -> Result<(), Fail> {
    let input = in_place(row.input)?;
    let options = row.packing.options();
    let memory = cutter_for(rt.alloc(), &options);
    let refused = memory.is_err();
    let end = pack(
        memory,
        options,
        reader(&input),
        writer(rt.alloc()),
        writer(rt.alloc()),
    );
    if refused {
        return is_untouched(rt, &end);
    }
    is_packed(rt, row, &end)
}

#[test]
fn two_bundles(rt: HostRuntime) -> Result<(), Fail> {
    packs(&rt, &IN_HALVES)
}

#[test]
fn announced_bundle(rt: HostRuntime) -> Result<(), Fail> {
    packs(&rt, &ANNOUNCED)
}
