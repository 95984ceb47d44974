//! The stages of a tool, and the run that goes through them by steps or by strides.

ghost use Rattle.std.specs.Prelude.{◌≡◌, ◌<◌, ℕ, Bool, false, List, [], IsTrue, Err, None};
ghost use Rattle.link_wire.specs.declared.IoFault.{IoFault};
ghost use Rattle.link_run.specs.Run.{Devices, looks, IsLastResult};
ghost use Rattle.link_run.specs.Made.{Made, tool_of};
ghost use Rattle.link_run.specs.Reading.{feed_of, waits_of, CallWaitsAtMostOnce};
ghost use Rattle.link_run.specs.Stages.{IsRunAt, AfterStage, AfterStageStride, IsNotLastResult, IsEndedRunWith};
ghost use Rattle.link_run.specs.Writers.{place_of};

use crate::input::{Feed, Input};
use crate::log::{Log, Ran};
use crate::run::{Progress, Run, RunEnd, Status};
use crate::writers::Writers;
use link_wire::{InDevice, IoFault, OutDevice};

/// The most bytes of data that one step of a tool is given.
pub const PIECE: usize = 4096;

/// A tool, stage by stage: what it does in each step, and what it keeps between two steps.
pub trait Stages<S: Feed, W: OutDevice, E: OutDevice>: Sized {
    /// What the tool makes of the bytes of an input.
    ghost made: { Self → List ℕ → Made };

    /// Whether the tool has begun to write. If not, its next step is given no bytes.
    ghost begun: { Self → Bool };

    /// Whether the input permits the calls of the next step.
    ghost fits: { Self → S → Bool };

    /// The input has given exactly these bytes, and the tool's fields have what follows from them.
    ghost knows: { Self → S → List ℕ → Type 0 };

    /// The bound of the next step: it is given at most this many bytes. If the bound is 0, the step
    /// is given none.
    ghost most: { Self → ℕ };

    /// Does the next step.
    fn stage(
        &mut self,
        input: &mut Input<S, W, E>,
        writers: &mut Writers<W, E>,
    ) -> Result<Progress, IoFault>
        requires { IsTrue (fits self.old (feed_of input.old)) }
        ensures made { made self.new ≡ made self.old }
        ensures fits { IsNotLastResult result → IsTrue (fits self.new (feed_of input.new)) }
        ensures gives { (start : Devices S.Reader W E) (history : List ℕ)
            → IsRunAt (looks S.Reader.state W.state E.state) (made self.old) start
            (begun self.old) (place_of (S.source (feed_of input.old)) writers.old) history
            → knows self.old (feed_of input.old) history
            → AfterStage (looks S.Reader.state W.state E.state) (made self.old) start
            (begun self.new) (place_of (S.source (feed_of input.old)) writers.old)
            (place_of (S.source (feed_of input.new)) writers.new)
            (knows self.new (feed_of input.new)) (most self.old) history result }
        // If the bound of the next step is 0, this step was the last.
        ensures goes_on { most self.new ≡ 0 → IsLastResult result }
        ensures waits { (history : List ℕ) → knows self.old (feed_of input.old) history
            → CallWaitsAtMostOnce (looks S.Reader.state W.state E.state) S.source
            input.old input.new writers.old }
        // A tool that has not begun to write does not wait.
        ensures begins { begun self.old ≡ false → waits_of input.new ≡ waits_of input.old };

    /// Does at least one step, and as many more as the bytes at hand allow.
    ///
    /// A tool without a faster way does one step.
    #[inline(always)]
    fn stride(
        &mut self,
        input: &mut Input<S, W, E>,
        writers: &mut Writers<W, E>,
    ) -> Result<Progress, IoFault>
        requires { IsTrue (fits self.old (feed_of input.old)) }
        ensures made { made self.new ≡ made self.old }
        ensures fits { IsNotLastResult result → IsTrue (fits self.new (feed_of input.new)) }
        ensures gives { (start : Devices S.Reader W E) (history : List ℕ)
            → IsRunAt (looks S.Reader.state W.state E.state) (made self.old) start
            (begun self.old) (place_of (S.source (feed_of input.old)) writers.old) history
            → knows self.old (feed_of input.old) history
            → AfterStageStride (looks S.Reader.state W.state E.state) (made self.old) start
            (begun self.new) (place_of (S.source (feed_of input.old)) writers.old)
            (place_of (S.source (feed_of input.new)) writers.new)
            (knows self.new (feed_of input.new)) (most self.old) history result }
        // If the bound of the next step is 0, this stride was the last.
        ensures goes_on { most self.new ≡ 0 → IsLastResult result }
        ensures waits { (history : List ℕ) → knows self.old (feed_of input.old) history
            → CallWaitsAtMostOnce (looks S.Reader.state W.state E.state) S.source
            input.old input.new writers.old }
        // A tool that has not begun to write does not wait.
        ensures begins { begun self.old ≡ false → waits_of input.new ≡ waits_of input.old }
    {
        self.stage(input, writers)
    }
}

/// A run of a tool: its input, its writers, the tool, and the answer once the run has ended.
#[derive(Drop)]
pub struct ToolRun<S: Feed, W: OutDevice, E: OutDevice, T: Stages<S, W, E>> {
    input: Input<S, W, E>,
    writers: Writers<W, E>,
    tool: T,
    answer: Option<Result<Status, IoFault>>,
    ghost fits: { answer ≡ None → IsTrue (T.fits tool input.feed) },
}

impl<S: Feed, W: OutDevice, E: OutDevice, T: Stages<S, W, E> + Drop> ToolRun<S, W, E, T> {
    ghost use Rattle.link_wire.specs.Source.{is_fresh, reader_of};
    ghost use Rattle.link_run.specs.Run.{NoneFailed, devices};
    ghost use Rattle.link_run.specs.Stages.{HasEmptyStartLastingFaults};
    ghost use Rattle.link_run.specs.NewRun.{IsNewRun};

    /// Makes a run that has read and written nothing.
    pub fn new(tool: T, feed: S, output: W, report: E) -> ToolRun<S, W, E, T>
        requires fits { IsTrue (T.fits tool feed) }
        requires knows { T.knows tool feed [] }
        requires begins { HasEmptyStartLastingFaults (T.made tool) (T.begun tool) }
        requires fresh { IsTrue (is_fresh (S.source feed)) }
        requires sound { NoneFailed (looks S.Reader.state W.state E.state)
            (devices (reader_of (S.source feed)) output report) }
        ensures { IsNewRun ⟦<ToolRun<S, W, E, T> as Run<S::Reader, W, E>>⟧
            (tool_of (T.made tool)) (devices (reader_of (S.source feed)) output report) result }
    {
        let log = Log::new(&feed, &output, &report);
        ToolRun {
            input: Input::new(feed, log),
            writers: Writers::new(output, report),
            tool,
            answer: None,
        }
    }

    /// Where the output goes.
    pub fn output(&self) -> &W
        ensures { result.now
            ≡ (⟦<ToolRun<S, W, E, T> as Run<S::Reader, W, E>>⟧.place self.now).output }
    {
        &self.writers.output
    }

    /// Where the report goes.
    pub fn report(&self) -> &E
        ensures { result.now
            ≡ (⟦<ToolRun<S, W, E, T> as Run<S::Reader, W, E>>⟧.place self.now).report }
    {
        &self.writers.report
    }
}

impl<S: Feed, W: OutDevice, E: OutDevice, T: Stages<S, W, E> + Drop> Run<S::Reader, W, E>
    for ToolRun<S, W, E, T> {
    ghost use Rattle.link_wire.specs.Source.{reader_of};
    ghost use Rattle.link_run.specs.Run.{waits_by};
    ghost use Rattle.link_run.specs.Stages.{most_unless_ended};

    ghost tool = { λ run. tool_of (T.made run.tool) };

    ghost place = { λ run. place_of (S.source (feed_of run.input)) run.writers };

    ghost stands = { λ run start history. (run.answer ≡ None)
        × (IsRunAt (looks S.Reader.state W.state E.state) (T.made run.tool) start
        (T.begun run.tool) (place_of (S.source (feed_of run.input)) run.writers) history
        × T.knows run.tool (feed_of run.input) history) };

    ghost most = { λ run. most_unless_ended run.answer (T.most run.tool) };

    ghost waits = { λ run. waits_by (λ feed. reader_of (S.source feed)) (waits_of run.input) };

    ghost has_ended = { λ run. IsEndedRunWith run.answer };

    #[inline(always)]
    fn step(&mut self) -> Result<Progress, IoFault> {
        if let Some(answer) = self.answer {
            return Progress::ended(answer);
        }
        let progress = self.tool.stage(&mut self.input, &mut self.writers);
        keep(&mut self.answer, progress);
        progress
    }

    #[inline(always)]
    fn stride(&mut self) -> Result<Progress, IoFault> {
        if let Some(ended) = self.answer {
            return Progress::ended(ended);
        }
        let progress = self.tool.stride(&mut self.input, &mut self.writers);
        keep(&mut self.answer, progress);
        progress
    }

    /// Takes the run apart. The result gets the argument `answer`. The field `answer` and the tool
    /// are dropped.
    fn into_end(self, answer: Result<Status, IoFault>) -> RunEnd<S::Reader, W, E> {
        let ToolRun {
            input,
            writers,
            tool: _,
            answer: _,
        } = self;
        let (feed, log) = input.into_parts();
        let (output, report) = writers.into_parts();
        let reader = feed.into_source().into_reader();
        let ran = Ran::new(&log, &reader, &output, &report);
        RunEnd {
            reader,
            output,
            report,
            answer,
            ran,
        }
    }
}

/// If the step that returned `progress` was the last of its run, keeps the answer of the run in
/// `answer`. If not, does nothing.
#[inline(always)]
fn keep(answer: &mut Option<Result<Status, IoFault>>, progress: Result<Progress, IoFault>)
    ensures more { IsNotLastResult progress → answer.new ≡ answer.old }
    ensures going { answer.new ≡ None → IsNotLastResult progress }
    ensures ends { IsLastResult progress → IsEndedRunWith answer.new progress }
{
    match progress {
        Ok(Progress::More) => {}
        Ok(Progress::Done(status)) => *answer = Some(Ok(status)),
        Err(fault) => *answer = Some(Err(fault)),
    }
}
