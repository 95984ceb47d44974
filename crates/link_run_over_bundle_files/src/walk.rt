//! The stages of a walk over bundles.

ghost use Rattle.std.specs.Prelude.{◌≡◌, ◌<◌, ◌≤◌, ◌&&◌, true, nat_le, if◌then◌else◌, IsTrue, List, length, ℕ};
ghost use Rattle.link_bundle.specs.Scan.{scan_size};
ghost use Rattle.link_run.specs.Made.{tool_of};
ghost use Rattle.link_run.specs.Reading.{feed_of, CallWaitsAtMostOnce};
ghost use Rattle.link_run.specs.Run.{Devices, devices, looks, NoneFailed};
ghost use Rattle.link_run.specs.NewRun.{IsNewRun};
ghost use Rattle.link_run.specs.Stages.{AfterStage, IsNotLastResult, IsRunAt};
ghost use Rattle.link_run.specs.Writers.{place_of};
ghost use Rattle.link_run_over_bundle_files.specs.Telling.{SoFar, none_yet, told_of};
ghost use Rattle.link_run_over_bundle_files.specs.BundleRun.{BytesCome, AddsToSeenCount, WritesEnd, HasCome, AfterJudge, IsBundleWalkAt, WritesFound, before_last, cut_at};

use crate::consumer::{BundleConsumer, RunView};
use crate::current::{Current, Found};
use link_run::{Input, PIECE, Progress, Run, Stages, Status, ToolRun, Writers};
use link_wire::{InDevice, IoFault, OutDevice, Source, WINDOW};

/// What the next step of a walk over bundles does.
#[derive(Clone, Copy, Debug, PartialEq, Eq)]
enum Stage {
    /// Write what comes before the first bundle.
    Begin,
    /// Read bytes of bundles.
    Bundles,
}

/// What is known of the bundles so far.
#[derive(Drop)]
struct Walker<C> {
    current: Current,
    consumer: C,
}

/// A walk over the bundles of an input: its stage, and what it keeps between two steps.
#[derive(Drop)]
pub struct BundleWalk<C: BundleConsumer> {
    options: C::Options,
    stage: Stage,
    walker: Walker<C>,
}

/// A run of a tool over bundles, step by step.
pub type BundleWalkRun<R, W, E, C> = ToolRun<Source<R>, W, E, BundleWalk<C>>;

impl<R: InDevice, W: OutDevice, E: OutDevice, C: BundleConsumer> Stages<Source<R>, W, E>
    for BundleWalk<C> {
    ghost use Rattle.link_run_over_bundle_files.specs.BundleRun.{by_stage, has_begun, IsBundleWalkAtStage};

    ghost made = { λ tool. told_of (C.telling tool.options) };

    ghost begun = { λ tool. has_begun tool.stage };

    ghost fits = { λ tool input. C.fits tool.walker.consumer
        && nat_le (C.read tool.walker.consumer) (scan_size tool.walker.current.scan) };

    ghost knows = { λ tool source history. IsBundleWalkAtStage R.state (C.telling tool.options)
        (C.knows tool.options tool.walker.consumer) tool.walker.current source history tool.stage };

    ghost most = { λ tool. by_stage 0 4096 tool.stage };

    fn stage(
        &mut self,
        input: &mut Input<Source<R>, W, E>,
        writers: &mut Writers<W, E>,
    ) -> Result<Progress, IoFault> {
        match self.stage {
            Stage::Begin => {
                self.stage = Stage::Bundles;
                Progress::after(self.walker.consumer.begin(&self.options, writers))
            }
            Stage::Bundles => take_bytes(PIECE, &self.options, input, writers, &mut self.walker),
        }
    }

    /// Does the step that writes what comes before the first bundle, or a step that is given at
    /// most a window of bytes.
    #[inline(always)]
    fn stride(
        &mut self,
        input: &mut Input<Source<R>, W, E>,
        writers: &mut Writers<W, E>,
    ) -> Result<Progress, IoFault> {
        match self.stage {
            Stage::Begin => self.stage(input, writers),
            Stage::Bundles => {
                take_bytes(WINDOW, &self.options, input, writers, &mut self.walker)
            }
        }
    }
}

/// Takes bytes of one bundle, at most `most` and no more than the consumer wants, and tells the
/// consumer of them. At the end of the input, ends the run.
fn take_bytes<R: InDevice, W: OutDevice, E: OutDevice, C: BundleConsumer>(
    most: usize,
    options: &C::Options,
    input: &mut Input<Source<R>, W, E>,
    writers: &mut Writers<W, E>,
    walker: &mut Walker<C>,
) -> Result<Progress, IoFault>
    requires some { 0 < most }
    requires fits { IsTrue (C.fits walker.old.consumer) }
    requires read { C.read walker.old.consumer ≤ scan_size walker.old.current.scan }
    ensures fits { IsNotLastResult result → IsTrue (C.fits walker.new.consumer) }
    ensures read { IsNotLastResult result
        → C.read walker.new.consumer ≤ scan_size walker.new.current.scan }
    ensures gives { (start : Devices R W E) (history : List ℕ)
        → IsRunAt (looks R.state W.state E.state) (told_of (C.telling options.now)) start true
        (place_of (feed_of input.old) writers.old) history
        → IsBundleWalkAt R.state (C.telling options.now) (C.knows options.now walker.old.consumer)
        walker.old.current (feed_of input.old) history
        → AfterStage (looks R.state W.state E.state) (told_of (C.telling options.now)) start true
        (place_of (feed_of input.old) writers.old) (place_of (feed_of input.new) writers.new)
        (IsBundleWalkAt R.state (C.telling options.now) (C.knows options.now walker.new.consumer)
        walker.new.current (feed_of input.new)) most history result }
    ensures waits { CallWaitsAtMostOnce (looks R.state W.state E.state) (λ source. source)
        input.old input.new writers.old }
{
    let ready = match input.ready_bytes(writers) {
        Ok(0) => return Progress::ended(finish(options, writers, walker)),
        Ok(ready) => ready.min(most),
        Err(fault) => return Err(fault),
    };
    let piece = &input.front()[..ready];
    let wanted = walker.consumer.wanted();
    let before = walker.current.size();
    let (count, found) = walker
        .current
        .judge(C::by_blocks(), C::limit(options), wanted, piece);
    let run = &piece[..count];
    let progress = go_on(
        found,
        before,
        run,
        options,
        writers,
        &mut walker.current,
        &mut walker.consumer,
    );
    input.give(count);
    progress
}

/// Tells the consumer of new bytes of the current bundle, which follow its first `before` bytes.
/// `found` is what the bytes show.
///
/// If the bundle is whole, it then begins the next one. If the bundle is refused, the last byte
/// shows the fault. Then the consumer is told only of the bytes before that byte, and the line of
/// the fault is written.
#[inline(always)]
fn go_on<W: OutDevice, E: OutDevice, C: BundleConsumer>(
    found: Found,
    before: u64,
    bytes: &[u8],
    options: &C::Options,
    writers: &mut Writers<W, E>,
    current: &mut Current,
    consumer: &mut C,
) -> Result<Progress, IoFault>
    requires fits { IsTrue (C.fits consumer.old) }
    requires few { length bytes.now ≤ C.wants consumer.old }
    requires counts { AddsToSeenCount before (length bytes.now) (scan_size current.old.scan) found }
    requires read { C.read consumer.old ≤ before }
    ensures fits { IsNotLastResult result → IsTrue (C.fits consumer.new) }
    ensures read { IsNotLastResult result → C.read consumer.new ≤ scan_size current.new.scan }
    ensures gives { (so_far : SoFar) → C.knows options.now consumer.old so_far
        → BytesCome (C.telling options.now).limit current.old so_far before bytes.now
        → AfterJudge (C.telling options.now).limit C.tells_blocks current.old so_far.begun
        bytes.now found
        → WritesFound W.state E.state (C.telling options.now) writers.old writers.new so_far
        (C.knows options.now consumer.new) current.new bytes.now found result }
{
    match found {
        Found::Part => {
            let run = RunView {
                number: current.number,
                before,
                bytes,
                scan: &current.scan,
                whole: None,
            };
            Progress::after(consumer.run(options, &run, writers))
        }
        Found::Whole => {
            let Some(whole) = current.whole() else {
                // This never happens: a bundle that was found whole has a view.
                return Ok(Progress::More);
            };
            let run = RunView {
                number: current.number,
                before,
                bytes,
                scan: &current.scan,
                whole: Some(whole),
            };
            let told = consumer.run(options, &run, writers);
            current.next();
            Progress::after(told)
        }
        Found::Refused(fault) => {
            match consumer.stop(options, current.number, before_last(bytes), writers) {
                Ok(()) => Progress::ended(writers.report_fault(&fault)),
                Err(fault) => Err(fault),
            }
        }
    }
}

/// The bytes of a run before its last byte, which shows a fault.
fn before_last(run: &[u8]) -> &[u8]
    ensures { result.now ≡ before_last run.now }
{
    &run[..run.len().saturating_sub(1)]
}

/// Ends the run at the end of the input. It is a fault if the input ends inside a bundle.
///
/// In `WritesEnd`, the first `now` is what had come before the call, and the second is what has
/// come at its end. They are the same, since no byte comes in this call.
#[inline(never)]
fn finish<W: OutDevice, E: OutDevice, C: BundleConsumer>(
    options: &C::Options,
    writers: &mut Writers<W, E>,
    walker: &mut Walker<C>,
) -> Result<Status, IoFault>
    ensures { (now : SoFar) → HasCome (C.telling options.now).limit
        (C.knows options.now walker.old.consumer) walker.old.current now
        → WritesEnd W.state E.state (C.telling options.now) writers.old writers.new now now
        (cut_at (C.telling options.now).limit walker.old.current.number now.begun) result }
{
    if let Some(fault) = walker.current.cut_short() {
        return writers.report_fault(&fault);
    }
    let status = status(walker.consumer.is_good(options));
    walker.consumer.end(options, writers).and(Ok(status))
}

/// The status of a run that ends without a fault. `good` is whether all bundles are good.
fn status(good: bool) -> Status
    ensures { result.0 ≡ (if good then 0 else 1) }
{
    if good {
        Status::CLEAN
    } else {
        Status::NOT_GOOD
    }
}

/// Makes a run of a tool over bundles that has read and written nothing.
pub fn bundle_walk_run<R: InDevice, W: OutDevice, E: OutDevice, C: BundleConsumer + Drop>(
    options: C::Options,
    consumer: C,
    reader: R,
    output: W,
    report: E,
) -> BundleWalkRun<R, W, E, C>
    requires knows { C.knows options consumer none_yet }
    requires fits { IsTrue (C.fits consumer) }
    requires read { C.read consumer ≡ 0 }
    requires sound { NoneFailed (looks R.state W.state E.state) (devices reader output report) }
    ensures { IsNewRun ⟦<BundleWalkRun<R, W, E, C> as Run<R, W, E>>⟧
        (tool_of (told_of (C.telling options))) (devices reader output report) result }
{
    let walk = BundleWalk {
        options,
        stage: Stage::Begin,
        walker: Walker {
            current: Current::new(),
            consumer,
        },
    };
    ToolRun::new(walk, Source::new(reader), output, report)
}
