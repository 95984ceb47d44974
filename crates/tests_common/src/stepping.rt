//! Runs of the tools, step by step.

use crate::checks::{reported, wrote};
use crate::packing::Packing;
use crate::{Failing, TestReader, TestWriter};
use link_tools::{
    PackRun, Progress, Run, RunEnd, Status, UnpackRun, Wanted, cutter_for, pack_run, unpack_run,
};
use link_wire::{InDevice, IoFault, OutDevice};
use std::alloc::Global;
use std::test::Fail;

/// Steps a run to its end, and returns its result. `None`: it has not ended after `steps` steps.
fn stepped<R: InDevice, W: OutDevice, E: OutDevice, T: Run<R, W, E>>(
    run: &mut T,
    steps: usize,
) -> Option<Result<Status, IoFault>> {
    for _ in 0..steps {
        match run.step() {
            Ok(Progress::More) => {}
            Ok(Progress::Done(status)) => return Some(Ok(status)),
            Err(fault) => return Some(Err(fault)),
        }
    }
    None
}

/// Steps a run to its end, and then three times more. Each of these steps returns the same.
///
/// The run fails the check if it has not ended after `steps` steps.
pub fn ended<R: InDevice, W: OutDevice, E: OutDevice, T: Run<R, W, E> + Drop>(
    run: T,
    steps: usize,
) -> Result<RunEnd<R, W, E>, Fail> {
    let mut run = run;
    let answer = stepped(&mut run, steps).ok_or("no end")?;
    steps_on(&mut run, &answer)?;
    Ok(run.into_end(answer))
}

/// Steps a run three times more after its end. Each of these steps returns what the end returned.
fn steps_on<R: InDevice, W: OutDevice, E: OutDevice, T: Run<R, W, E>>(
    run: &mut T,
    answer: &Result<Status, IoFault>,
) -> Result<(), Fail> {
    for _ in 0..3 {
        let again = stepped(run, 1).ok_or("more after the end")?;
        if again != *answer {
            return Err(Fail::new(format_args!("{again:?} after {answer:?}")));
        }
    }
    Ok(())
}

/// Checks what a step of a run returns.
fn returns(answer: Result<Progress, IoFault>, want: Progress) -> Result<(), Fail> {
    if answer == Ok(want) {
        return Ok(());
    }
    Err(Fail::new(format_args!("a step returns {answer:?} and not {want:?}")))
}

/// Checks that a step of a run was the last, and ended with this status.
pub fn is_done(answer: Result<Progress, IoFault>, status: u8) -> Result<(), Fail> {
    returns(answer, Progress::Done(Status(status)))
}

/// A run of `unpack` over test devices.
pub type TestUnpackRun<'a> = UnpackRun<TestReader<'a>, TestWriter, TestWriter>;

/// A run of `unpack` over devices that move all bytes at once.
pub fn test_unpack_run<'a>(alloc: Global, wanted: Wanted, stream: &'a [u8]) -> TestUnpackRun<'a> {
    unpack_run(
        wanted,
        TestReader::new(stream, usize::MAX, Failing::Never),
        TestWriter::new(alloc, usize::MAX, Failing::Never),
        TestWriter::new(alloc, usize::MAX, Failing::Never),
    )
}

/// Steps a run of `unpack` that goes on, and checks what it has written after the step.
pub fn unpacks_on(run: &mut TestUnpackRun<'_>, output: &[u8], report: &[u8]) -> Result<(), Fail> {
    returns(run.step(), Progress::More)?;
    wrote("a step", run.output().written(), output)?;
    reported("a step", run.report().written(), report)
}

/// A run of `pack` over test devices.
pub type TestPackRun<'a> = PackRun<TestReader<'a>, TestWriter, TestWriter>;

/// A run of `pack` over a reader of one byte a call.
pub fn test_pack_run<'a>(
    alloc: Global,
    packing: &Packing,
    input: &'a [u8],
) -> Result<TestPackRun<'a>, Fail> {
    let options = packing.options();
    let cutter = cutter_for(alloc, &options)?;
    Ok(pack_run(
        cutter,
        options,
        TestReader::new(input, 1, Failing::Never),
        TestWriter::new(alloc, usize::MAX, Failing::Never),
        TestWriter::new(alloc, usize::MAX, Failing::Never),
    ))
}

/// Steps a run of `pack` that goes on, and checks what it has written after the step.
pub fn packs_on(run: &mut TestPackRun<'_>, output: &[u8], report: &[u8]) -> Result<(), Fail> {
    returns(run.step(), Progress::More)?;
    wrote("a step", run.output().written(), output)?;
    reported("a step", run.report().written(), report)
}
