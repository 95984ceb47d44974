//! Tests of what a run does after a write has failed: it calls no writer again, and reads nothing.
//!
//! These devices go on after a failure. So a run that calls one of them again does not pass.

ghost use Rattle.std.specs.Prelude.{◌≡◌, ◌<◌, true, false, [], None, MatchResult};

use link_tools::{BlockOptions, Status};
use link_wire::{DeviceFault, InDevice, IoFault, OutDevice};
use std::alloc::Global;
use std::cell::Cell;
use std::test::Fail;
use tests_common::checks::exits;
use tests_common::judging::{ALL_RULES, ALL_RULES_OF_BUNDLES};
use tests_common::packing::{DEFAULTS, Packing};
use tests_common::rows::ALL;
use tests_common::running::Tool;
use tests_common::stream::{
    BACK, CONTACT, FRONT, LENGTH_34, NO_ITEMS, NODE, PARAMETERS, WHOLE_TRANSFER, joined,
};

/// What the devices of a run have done together.
#[derive(Drop)]
struct Done {
    /// The bytes that the reader has given.
    given: Cell<usize>,
    /// The calls of both writers, to write and to hand on.
    calls: Cell<usize>,
    /// The call that fails, counted from 1.
    failing_at: usize,
    /// The bytes that the reader had given when that call failed.
    given_then: Cell<usize>,
}

/// Nothing is done yet, and this call will fail.
fn none_done(failing_at: usize) -> Done {
    Done {
        given: Cell::new(0),
        calls: Cell::new(0),
        failing_at,
        given_then: Cell::new(0),
    }
}

/// A reader of bytes in memory, at most `per_call` of them a call.
#[derive(Drop)]
struct CountedReader<'a> {
    left: &'a [u8],
    per_call: usize,
    done: &'a Done,
}

// No clause says which bytes these are, since the test asks only how many were read.
impl InDevice for CountedReader<'_> {
    ghost state = { λ _. record { left = None; failed = false; held = [] } };

    fn read(&mut self, buffer: &mut [u8]) -> Result<usize, DeviceFault> {
        let count = buffer.len().min(self.left.len()).min(self.per_call);
        let (given, left) = self.left.split_at(count);
        buffer[..count].copy_from_slice(given);
        self.left = left;
        self.done
            .given
            .set(self.done.given.get().saturating_add(count));
        Ok(count)
    }

    fn failed(&self) -> bool {
        false
    }

    fn held(&self) -> &[u8] {
        &[]
    }

    fn pass_held(&mut self, count: usize) {
        let _ = count;
    }
}

/// A writer that drops its bytes.
#[derive(Drop)]
struct CountedWriter<'a> {
    done: &'a Done,
    failed: bool,
}

impl CountedWriter<'_> {
    /// Counts a call, which may be the one that fails.
    fn call(&mut self) -> Result<(), DeviceFault>
        ensures { MatchResult result
            (λ _. self.new.failed ≡ self.old.failed)
            (λ _. self.new.failed ≡ true) }
    {
        let calls = self.done.calls.get().saturating_add(1);
        self.done.calls.set(calls);
        if calls == self.done.failing_at {
            self.done.given_then.set(self.done.given.get());
            self.failed = true;
            return Err(DeviceFault);
        }
        Ok(())
    }
}

impl OutDevice for CountedWriter<'_> {
    ghost state = { λ w. record { written = None; failed = w.failed; handed = None } };

    fn write(&mut self, bytes: &[u8]) -> Result<usize, DeviceFault> {
        match self.call() {
            Ok(()) => Ok(bytes.len()),
            Err(fault) => Err(fault),
        }
    }

    fn failed(&self) -> bool {
        self.failed
    }

    fn settle(&mut self) -> Result<(), DeviceFault> {
        self.call()
    }
}

fn reader<'a>(left: &'a [u8], per_call: usize, done: &'a Done) -> CountedReader<'a>
    ensures { (⟦<CountedReader<'a> as InDevice>⟧.state result).failed ≡ false }
{
    CountedReader {
        left,
        per_call,
        done,
    }
}

fn writer<'a>(done: &'a Done) -> CountedWriter<'a>
    ensures { (⟦<CountedWriter<'a> as OutDevice>⟧.state result).failed ≡ false }
{
    CountedWriter {
        done,
        failed: false,
    }
}

/// A run of a tool over an input, whose reader gives at most `per_call` bytes a call.
#[derive(Clone, Copy)]
struct Trial<'a> {
    tool: Tool,
    input: &'a [u8],
    per_call: usize,
}

/// Whether a writer was called, or a byte was read, after the call that failed.
fn went_on(done: &Done) -> bool {
    done.calls.get() != done.failing_at || done.given.get() != done.given_then.get()
}

/// Checks that the run ended at the call that failed.
fn ended_there(done: &Done, answer: &Result<Status, IoFault>) -> Result<(), Fail> {
    exits("a failed write", answer, (4, "tcpclkit: write failed"))?;
    if !went_on(done) {
        return Ok(());
    }
    Err(Fail::new(format_args!(
        "call {} failed, after {} bytes: {} calls, {} bytes",
        done.failing_at,
        done.given_then.get(),
        done.calls.get(),
        done.given.get()
    )))
}

/// Runs the tool in one call, which fails at the call of `done`, and checks that it stops there.
fn stops(alloc: Global, trial: &Trial<'_>, done: &Done) -> Result<(), Fail> {
    let end = trial.tool.run(
        alloc,
        reader(trial.input, trial.per_call, done),
        writer(done),
        writer(done),
    );
    ended_there(done, &end.answer)
}

/// The same in steps, and in three more steps after the end.
fn stops_in_steps(alloc: Global, trial: &Trial<'_>, done: &Done) -> Result<(), Fail> {
    let end = trial.tool.step_through(
        alloc,
        usize::MAX,
        reader(trial.input, trial.per_call, done),
        writer(done),
        writer(done),
    )?;
    ended_there(done, &end.answer)
}

/// How often a run calls its writers if no call fails.
fn calls_of(alloc: Global, trial: &Trial<'_>) -> usize {
    let done = none_done(usize::MAX);
    let end = trial.tool.run(
        alloc,
        reader(trial.input, trial.per_call, &done),
        writer(&done),
        writer(&done),
    );
    drop(end);
    done.calls.get()
}

/// The first ten calls of the writers fail in turn, and then some ten of the later calls.
fn each_stops(alloc: Global, trial: &Trial<'_>) -> Result<(), Fail> {
    let calls = calls_of(alloc, trial);
    for call in 1..=calls {
        if call <= 10 || call % (calls / 10 + 1) == 0 {
            stops(alloc, trial, &none_done(call))?;
            stops_in_steps(alloc, trial, &none_done(call))?;
        }
    }
    Ok(())
}

/// Tries the tool over a reader that gives a whole window in a call, and over one that gives less.
fn stops_at_each_pace(alloc: Global, tool: Tool, input: &[u8]) -> Result<(), Fail> {
    for &per_call in &[usize::MAX, 500] {
        let trial = Trial {
            tool,
            input,
            per_call,
        };
        each_stops(alloc, &trial)?;
    }
    Ok(())
}

/// These pieces, and then others so often that they fill more than three windows.
fn filled(alloc: Global, pieces: &[&[u8]], again: &[&[u8]]) -> Result<Vec<u8>, Fail> {
    let mut bytes = joined(alloc, pieces)?;
    let more = joined(alloc, again)?;
    for _ in 0..800 {
        bytes.extend_from_slice(&more)?;
    }
    Ok(bytes)
}

static OVER_STREAMS: [Tool; 4] = [
    Tool::List,
    Tool::Unpack(ALL),
    Tool::Blocks(BlockOptions {
        only: None,
        keep_going: false,
    }),
    Tool::Check(ALL_RULES),
];

static OVER_BUNDLES: [Tool; 4] = [
    Tool::BundleBlocks,
    Tool::BundleCheck(ALL_RULES_OF_BUNDLES),
    Tool::Pack(DEFAULTS),
    Tool::Pack(Packing {
        peer_segment: 20,
        announce: 34,
        ..DEFAULTS
    }),
];

#[test]
fn tools_over_streams(rt: HostRuntime) -> Result<(), Fail> {
    let session: &[&[u8]] = &[CONTACT, PARAMETERS, NODE, NO_ITEMS];
    let transfer: &[&[u8]] = &[WHOLE_TRANSFER, LENGTH_34, FRONT, BACK];
    let stream = filled(rt.alloc(), session, transfer)?;
    for tool in &OVER_STREAMS {
        stops_at_each_pace(rt.alloc(), *tool, &stream)?;
    }
    Ok(())
}

#[test]
fn tools_over_bundles(rt: HostRuntime) -> Result<(), Fail> {
    let bundles = filled(rt.alloc(), &[], &[FRONT, BACK])?;
    for tool in &OVER_BUNDLES {
        stops_at_each_pace(rt.alloc(), *tool, &bundles)?;
    }
    Ok(())
}

/// A call of a writer after the failure is found, and so is a read.
#[test]
fn going_on_is_found(rt: HostRuntime) {
    let done = none_done(2);
    let mut output = writer(&done);
    assert_eq!(rt; output.write(b"tcpclkit"), Ok(8));
    assert_eq!(rt; output.write(b"tcpclkit"), Err(DeviceFault));
    assert!(rt; !went_on(&done));
    let mut input = reader(b"tcpclkit", 1, &done);
    assert_eq!(rt; input.read(&mut [0; 4]), Ok(1));
    assert!(rt; went_on(&done));
    let again = none_done(1);
    let mut report = writer(&again);
    assert_eq!(rt; report.settle(), Err(DeviceFault));
    assert!(rt; !went_on(&again));
    assert_eq!(rt; report.settle(), Ok(()));
    assert!(rt; went_on(&again));
}
