//! Runs in which a device fails: each one in turn, at each of its calls.

ghost use Rattle.std.specs.Prelude.{◌≡◌, ◌<◌, false};

use crate::checks::{counted, exits, reported, wrote};
use crate::running::{End, Tool, alike, ended_over};
use crate::{Failing, TestReader, TestWriter};
use link_wire::{InDevice, OutDevice};
use std::alloc::Global;
use std::test::Fail;

#[derive(Clone, Copy, PartialEq, Eq)]
enum Device {
    Reader,
    Output,
    Report,
}

impl Device {
    /// The exit status and the message of the program when this device has failed.
    fn exit(self) -> (u8, &'static str) {
        match self {
            Device::Reader => (4, "tcpclkit: read failed"),
            Device::Output | Device::Report => (4, "tcpclkit: write failed"),
        }
    }
}

/// A run over devices that move at most `per_call` bytes a call, and one of them fails.
#[derive(Drop)]
struct Trial<'a> {
    tool: Tool,
    stream: &'a [u8],
    per_call: usize,
    device: Device,
    failing: Failing,
    ghost moves: { 0 < per_call },
}

impl<'a> Trial<'a> {
    fn failing(&self, device: Device) -> Failing {
        if device == self.device {
            self.failing
        } else {
            Failing::Never
        }
    }

    /// The same trial, with the failure at this call.
    fn failing_at(&self, call: usize) -> Trial<'a> {
        Trial {
            tool: self.tool,
            stream: self.stream,
            per_call: self.per_call,
            device: self.device,
            failing: Failing::AtCall(call),
        }
    }

    fn reader(&self) -> TestReader<'a>
        ensures { (⟦<TestReader<'a> as InDevice>⟧.state result).failed ≡ false }
    {
        TestReader::new(self.stream, self.per_call, self.failing(Device::Reader))
    }

    fn writer(&self, alloc: Global, device: Device) -> TestWriter
        ensures { (⟦<TestWriter as OutDevice>⟧.state result).failed ≡ false }
    {
        TestWriter::new(alloc, self.per_call, self.failing(device))
    }

    /// Runs the tool in one call.
    fn run(&self, alloc: Global) -> End<'a> {
        self.tool.run(
            alloc,
            self.reader(),
            self.writer(alloc, Device::Output),
            self.writer(alloc, Device::Report),
        )
    }

    /// Runs the tool in steps, and three more after the end.
    fn step_through(&self, alloc: Global) -> Result<End<'a>, Fail> {
        self.tool.step_through(
            alloc,
            self.stream.len().saturating_add(2),
            self.reader(),
            self.writer(alloc, Device::Output),
            self.writer(alloc, Device::Report),
        )
    }
}

/// Whether the device fails in this trial; `whole` is the run in which no device fails.
///
/// If it fails, each later step returns the same and does no I/O. The run in one call stops where
/// the steps did.
fn fails(alloc: Global, trial: &Trial<'_>, whole: &End<'_>) -> Result<bool, Fail> {
    let end = trial.step_through(alloc)?;
    if end.answer.is_ok() {
        return Ok(false);
    }
    stops(alloc, trial, whole, &end)?;
    Ok(true)
}

/// Checks the end of a run in steps whose device failed.
fn stops(alloc: Global, trial: &Trial<'_>, whole: &End<'_>, end: &End<'_>) -> Result<(), Fail> {
    exits("a failure", &end.answer, trial.device.exit())?;
    alike(end, &trial.run(alloc))?;
    is_prefix("output", end.output.written(), whole.output.written())?;
    is_prefix("report", end.report.written(), whole.report.written())?;
    determined(alloc, trial, end)
}

/// Checks that these bytes, which were written, are a prefix of the whole text.
fn is_prefix(device: &str, written: &[u8], whole: &[u8]) -> Result<(), Fail> {
    if whole.starts_with(written) {
        return Ok(());
    }
    Err(Fail::new(format_args!(
        "{device}: {} is no prefix of {}",
        written.escape_ascii(),
        whole.escape_ascii()
    )))
}

/// The ends of those lines that only the end of the input determines.
static AT_THE_END: [&[u8]; 3] = [
    b": truncated\n",
    b" abandoned\n",
    b": B1 input ends inside a bundle\n",
];

/// The rule of `check` whose line only the end of the input determines.
const RULE_AT_THE_END: &[u8] = b"unfinished";

/// Whether only the end of the input determines this line.
fn is_at_the_end(line: &[u8]) -> bool {
    AT_THE_END.iter().any(|end| line.ends_with(end))
        || line.split(|byte| *byte == b' ').nth(2) == Some(RULE_AT_THE_END)
}

/// A text without the line that only the end of the input determines.
fn lasting(text: &[u8]) -> &[u8] {
    match text.split_inclusive(|byte| *byte == b'\n').last() {
        Some(line) if is_at_the_end(line) => text.strip_suffix(line).unwrap_or(text),
        _ => text,
    }
}

/// Compares the texts after a failure with those of a run over only the bytes that were given.
///
/// After a failed read, the texts are those that these bytes determine. After a failed write, they
/// are prefixes of the texts of that run.
fn determined(alloc: Global, trial: &Trial<'_>, end: &End<'_>) -> Result<(), Fail> {
    let given = trial
        .stream
        .get(..end.reader.given())
        .ok_or("more than the stream")?;
    compared(
        trial.device,
        end,
        &ended_over(alloc, trial.tool, given, usize::MAX),
    )
}

/// Compares the texts after a failure of this device with those of the run `alone`.
fn compared(device: Device, end: &End<'_>, alone: &End<'_>) -> Result<(), Fail> {
    let (output, report) = (alone.output.written(), alone.report.written());
    if device == Device::Reader {
        let determined = lasting(report);
        let is_clean = determined.len() == report.len();
        let written = if is_clean { lasting(output) } else { output };
        wrote("a failed read", end.output.written(), written)?;
        reported("a failed read", end.report.written(), determined)
    } else {
        is_prefix("output", end.output.written(), output)?;
        is_prefix("report", end.report.written(), report)
    }
}

/// Checks that the device fails at each of the `calls` calls of a run, and at no later one.
///
/// Between the first and the last hundred calls, only each `stride`-th call is tried.
fn fails_at_its_calls(
    alloc: Global,
    trial: &Trial<'_>,
    whole: &End<'_>,
    calls: usize,
    stride: usize,
) -> Result<(), Fail>
    requires { 0 < stride }
{
    for count in 0..calls {
        let is_inner = 100 < count && count < calls.saturating_sub(100);
        if is_inner && count % stride != 0 {
            continue;
        }
        if !fails(alloc, &trial.failing_at(count + 1), whole)? {
            return Err(Fail::new(format_args!("no failure at call {count}")));
        }
    }
    let later = trial.failing_at(calls.saturating_add(1));
    if fails(alloc, &later, whole)? {
        return Err(Fail::new("a failure after the last call"));
    }
    Ok(())
}

/// Each device fails in turn, in runs over devices that move at most `per_call` bytes a call.
pub fn each_fails(
    alloc: Global,
    tool: Tool,
    stream: &[u8],
    per_call: usize,
    stride: usize,
) -> Result<(), Fail>
    requires moves { 0 < per_call }
    requires stride { 0 < stride }
{
    let whole = ended_over(alloc, tool, stream, per_call);
    let calls = [
        (Device::Reader, whole.reader.calls()),
        (Device::Output, whole.output.calls()),
        (Device::Report, whole.report.calls()),
    ];
    for &(device, calls) in &calls {
        let failing = Failing::Never;
        let trial = Trial {
            tool,
            stream,
            per_call,
            device,
            failing,
        };
        fails_at_its_calls(alloc, &trial, &whole, calls, stride)?;
    }
    Ok(())
}

/// Each device fails in turn at each call, in runs at each pace.
///
/// The devices move all bytes in a call, then seven bytes, then one byte.
pub fn each_fails_at_each_pace(alloc: Global, tool: Tool, stream: &[u8]) -> Result<(), Fail> {
    each_fails(alloc, tool, stream, usize::MAX, 1)?;
    each_fails(alloc, tool, stream, 7, 1)?;
    each_fails(alloc, tool, stream, 1, 1)
}

/// Checks how often a run calls its reader before its output fails, after `written` bytes.
///
/// The devices move one byte a call.
pub fn reads_before_failure(
    alloc: Global,
    tool: Tool,
    input: &[u8],
    written: usize,
    calls: usize,
) -> Result<(), Fail> {
    let end = tool.run(
        alloc,
        TestReader::new(input, 1, Failing::Never),
        TestWriter::new(alloc, 1, Failing::Past(written)),
        TestWriter::new(alloc, 1, Failing::Never),
    );
    exits("a failed write", &end.answer, Device::Output.exit())?;
    counted("calls of the reader", end.reader.calls(), calls)
}
