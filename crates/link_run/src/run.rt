//! The trait of runs: a single step, a stride of several steps, and the loop over the strides.

ghost use Rattle.std.specs.Prelude.{◌≡◌, ◌<◌, ℕ, List, [], Result, Err};
ghost use Rattle.link_wire.specs.declared.IoFault.{IoFault};
ghost use Rattle.link_run.specs.Run.{Tool, Devices, DevicesInRun, WaitLog, answer_of, devices, devices_at, looks, reach_at, AfterStep, AfterStride, IsLastResult, StepWaitsAtMostOnce};
ghost use Rattle.link_run.specs.WholeRun.{AfterRunFrom, IsLogOf, devices_of, ran_of};
ghost use Rattle.link_run.specs.declared.run.Progress.{Progress};

use crate::log::{Log, Ran};
use link_wire::{InDevice, IoFault, OutDevice};

/// How a run ended, as the program's exit status: 0, 1 or 3.
#[derive(Clone, Copy, Debug, PartialEq, Eq)]
pub struct Status(pub u8);

impl Status {
    /// The input was read to its end, and nothing was wrong.
    pub const CLEAN: Status = Status(0);
    /// The input was read to its end, but not everything in it is good.
    pub const NOT_GOOD: Status = Status(1);
    /// A fault stopped the run. The last line of the report describes it.
    pub const FAULT: Status = Status(3);
}

/// What a step of a run returns.
#[derive(Clone, Copy, Debug, PartialEq, Eq)]
pub enum Progress {
    /// There is more to do.
    More,
    /// The run has ended.
    Done(Status),
}

impl Progress {
    ghost use Rattle.link_run.specs.Run.{answer_of, progress_after};

    /// Turns the result of a step's write into the result of the step. If the write failed, the
    /// step is the last of its run. Otherwise it is not.
    #[inline(always)]
    pub fn after(written: Result<(), IoFault>) -> Result<Progress, IoFault>
        ensures { result ≡ progress_after written }
    {
        match written {
            Ok(()) => Ok(Progress::More),
            Err(fault) => Err(fault),
        }
    }

    /// Turns the answer of a run into the result of its last step.
    #[inline(always)]
    pub fn ended(answer: Result<Status, IoFault>) -> Result<Progress, IoFault>
        ensures { result ≡ answer_of answer }
    {
        match answer {
            Ok(status) => Ok(Progress::Done(status)),
            Err(fault) => Err(fault),
        }
    }
}

/// The devices and the answer of a run that has ended.
#[derive(Drop)]
pub struct RunEnd<R, W, E> {
    /// Where the input came from.
    pub reader: R,
    /// Where the output went.
    pub output: W,
    /// Where the report went.
    pub report: E,
    /// The exit status, or the failure that stopped the run.
    pub answer: Result<Status, IoFault>,
    /// The log of the run.
    pub(crate) ran: Ran<R, W, E>,
}

impl<R, W, E> RunEnd<R, W, E> {
    /// The devices as they were and a fault, for a run that could not begin.
    ///
    /// No clause says what the log in the field `ran` is. So no caller can prove from this value
    /// that a run took place.
    pub fn unbegun(reader: R, output: W, report: E, fault: IoFault) -> RunEnd<R, W, E>
        ensures devices { devices_of result ≡ devices reader output report }
        ensures answer { result.answer ≡ Err fault }
    {
        let log = Log::new(&reader, &output, &report);
        let ran = Ran::new(&log, &reader, &output, &report);
        RunEnd {
            reader,
            output,
            report,
            answer: Err(fault),
            ran,
        }
    }

    /// Returns the devices, the answer and the log, which only proofs read.
    #[inline(always)]
    pub fn into_parts(self) -> (R, W, E, Result<Status, IoFault>, Ran<R, W, E>)
        ensures reader { result.0 ≡ self.reader }
        ensures output { result.1 ≡ self.output }
        ensures report { result.2 ≡ self.report }
        ensures answer { result.3 ≡ self.answer }
        ensures ran { result.4 ≡ ran_of self }
    {
        let RunEnd {
            reader,
            output,
            report,
            answer,
            ran,
        } = self;
        (reader, output, report, answer, ran)
    }
}

/// A run of a tool over an input, step by step.
pub trait Run<R: InDevice, W: OutDevice, E: OutDevice>: Sized {
    // the texts and the status that an input determines
    ghost tool: { Self → Tool };

    // its source, its output and its report
    ghost place: { Self → DevicesInRun R W E };

    // Since its devices were in this state, the run was given exactly these bytes, and has written
    // exactly what they determine.
    ghost stands: { Self → Devices R W E → List ℕ → Type 0 };

    // The bound of the next step: it is given at most this many bytes. If the bound is 0, the step
    // is given none.
    ghost most: { Self → ℕ };

    // with which devices it was made, and when it had to wait for its input
    ghost waits: { Self → WaitLog R W E };

    // the run has ended, and each further step returns this
    ghost has_ended: { Self → Result Progress IoFault → Type 0 };

    /// Reads the next bytes of the input, and writes what the given bytes determine.
    ///
    /// Before a read that may have to wait, it hands on what was written. So a reader of the output
    /// and the report sees the texts that the bytes so far determine. After the end or a failure,
    /// each call returns the same result and does no I/O.
    ///
    /// # Errors
    ///
    /// A device failed, or the input has more than 2^63 - 1 bytes.
    fn step(&mut self) -> Result<Progress, IoFault>
        ensures tool { tool self.new ≡ tool self.old }
        ensures gives { (start : Devices R W E) (history : List ℕ) → stands self.old start history
            → AfterStep (looks R.state W.state E.state) (tool self.old) start (place self.old)
            (place self.new) (stands self.new start) (most self.old) history result }
        ensures waits { (start : Devices R W E) (history : List ℕ) → stands self.old start history
            → StepWaitsAtMostOnce (looks R.state W.state E.state) (tool self.old) start history
            (place self.old) (place self.new) (waits self.old) (waits self.new) }
        // If the bound of the next step is 0, this step was the last.
        ensures goes_on { most self.new ≡ 0 → IsLastResult result }
        ensures ends { IsLastResult result → has_ended self.new result }
        ensures again { (answer : _) → has_ended self.old answer
            → (self.new ≡ self.old) × (result ≡ answer) };

    /// Does at least one step, and as many more as the bytes at hand allow: a *stride*.
    ///
    /// After it, the texts are those that the given bytes determine, as after a step. A stride
    /// waits at most once, before it is given a byte and before it writes. It is given at most the
    /// bytes that were at hand when the wait had ended, and as many more as one step may be given.
    ///
    /// # Errors
    ///
    /// A device failed, or the input has more than 2^63 - 1 bytes.
    fn stride(&mut self) -> Result<Progress, IoFault>
        ensures tool { tool self.new ≡ tool self.old }
        ensures gives { (start : Devices R W E) (history : List ℕ) → stands self.old start history
            → AfterStride (looks R.state W.state E.state) (tool self.old) start (place self.old)
            (place self.new) (stands self.new start) (most self.old) history result }
        ensures waits { (start : Devices R W E) (history : List ℕ) → stands self.old start history
            → StepWaitsAtMostOnce (looks R.state W.state E.state) (tool self.old) start history
            (place self.old) (place self.new) (waits self.old) (waits self.new) }
        // If the bound of the next step is 0, this stride was the last.
        ensures goes_on { most self.new ≡ 0 → IsLastResult result }
        ensures ends { IsLastResult result → has_ended self.new result }
        ensures again { (answer : _) → has_ended self.old answer
            → (self.new ≡ self.old) × (result ≡ answer) };

    /// Returns the devices with this answer, which is that of the last step. Bytes that were read
    /// ahead and not given are dropped.
    ///
    /// The contract says what the log is only if the run has ended.
    fn into_end(self, answer: Result<Status, IoFault>) -> RunEnd<R, W, E>
        ensures devices { devices_of result ≡ devices_at (place self) }
        ensures answer { result.answer ≡ answer }
        ensures ran { has_ended self (answer_of answer)
            → IsLogOf (waits self) (devices_of result) (ran_of result) };

    /// Takes strides until the run has ended.
    final fn run(self) -> RunEnd<R, W, E>
        requires { stands self (devices_at (place self)) [] }
        ensures { AfterRunFrom (looks R.state W.state E.state) (tool self)
            (devices_at (place self)) (reach_at R.state (place self).source) (waits self)
            result }
    {
        let mut run = self;
        'strides: loop {
            match run.stride() {
                Ok(Progress::More) => {}
                Ok(Progress::Done(status)) => return run.into_end(Ok(status)),
                Err(fault) => return run.into_end(Err(fault)),
            }
        }
    }
}
