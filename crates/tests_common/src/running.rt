//! Runs of the tools over test devices, and checks of their results.

ghost use Rattle.std.specs.Prelude.{◌≡◌, ◌<◌, false};

use crate::checks::{exits, reported, wrote};
use crate::judging::{BundleJudging, Judging};
use crate::packing::Packing;
use crate::stepping::ended;
use crate::{Failing, HoldingReader, TestReader, TestWriter};
use link_tools::{
    BlockOptions, RunEnd, Status, Wanted, blocks, blocks_run, bundle_blocks, bundle_blocks_run,
    bundle_check, bundle_check_run, check, check_run, cutter_for, list, list_run, pack, pack_run,
    unpack, unpack_run,
};
use link_wire::{InDevice, IoFault, OutDevice};
use std::alloc::Global;
use std::test::Fail;

/// A run over test devices that has ended.
pub type End<'a> = RunEnd<TestReader<'a>, TestWriter, TestWriter>;

/// A tool with its options.
#[derive(Clone, Copy)]
pub enum Tool {
    List,
    Unpack(Wanted),
    Blocks(BlockOptions),
    BundleBlocks,
    Check(Judging),
    BundleCheck(BundleJudging),
    Pack(Packing),
}

impl Tool {
    /// Runs the tool in one call.
    pub fn run<R: InDevice, W: OutDevice, E: OutDevice>(
        self,
        alloc: Global,
        reader: R,
        output: W,
        report: E,
    ) -> RunEnd<R, W, E>
        requires reader { (R.state reader).failed ≡ false }
        requires output { (W.state output).failed ≡ false }
        requires report { (E.state report).failed ≡ false }
    {
        match self {
            Tool::List => list(reader, output, report),
            Tool::Unpack(wanted) => unpack(wanted, reader, output, report),
            Tool::Blocks(options) => blocks(options, reader, output, report),
            Tool::BundleBlocks => bundle_blocks(reader, output, report),
            Tool::Check(judging) => check(judging.options(), reader, output, report),
            Tool::BundleCheck(judging) => bundle_check(judging.options(), reader, output, report),
            Tool::Pack(packing) => {
                let options = packing.options();
                pack(cutter_for(alloc, &options), options, reader, output, report)
            }
        }
    }

    /// Runs the tool in steps: at most `steps` of them to its end, and three more.
    ///
    /// It is generic, since the borrow checker does not cover a call of `ended` at a reader with a
    /// lifetime.
    pub fn step_through<R: InDevice + Drop, W: OutDevice + Drop, E: OutDevice + Drop>(
        self,
        alloc: Global,
        steps: usize,
        reader: R,
        output: W,
        report: E,
    ) -> Result<RunEnd<R, W, E>, Fail>
        requires reader { (R.state reader).failed ≡ false }
        requires output { (W.state output).failed ≡ false }
        requires report { (E.state report).failed ≡ false }
    {
        match self {
            Tool::List => ended(list_run(reader, output, report), steps),
            Tool::Unpack(wanted) => ended(unpack_run(wanted, reader, output, report), steps),
            Tool::Blocks(options) => ended(blocks_run(options, reader, output, report), steps),
            Tool::BundleBlocks => ended(bundle_blocks_run(reader, output, report), steps),
            Tool::Check(judging) => {
                ended(check_run(judging.options(), reader, output, report), steps)
            }
            Tool::BundleCheck(judging) => {
                ended(
                    bundle_check_run(judging.options(), reader, output, report),
                    steps,
                )
            }
            Tool::Pack(packing) => packed(alloc, packing, steps, reader, output, report),
        }
    }
}

/// Runs `pack` in steps. If the memory of its cutter is refused, there is no run.
fn packed<R: InDevice + Drop, W: OutDevice + Drop, E: OutDevice + Drop>(
    alloc: Global,
    packing: Packing,
    steps: usize,
    reader: R,
    output: W,
    report: E,
) -> Result<RunEnd<R, W, E>, Fail>
    requires reader { (R.state reader).failed ≡ false }
    requires output { (W.state output).failed ≡ false }
    requires report { (E.state report).failed ≡ false }
{
    let options = packing.options();
    let cutter = cutter_for(alloc, &options)?;
    ended(pack_run(cutter, options, reader, output, report), steps)
}

/// Checks that a run in one call ended like the run in steps.
fn same_answer(in_steps: &End<'_>, whole: &End<'_>) -> Result<(), Fail> {
    let (one, other) = (&in_steps.answer, &whole.answer);
    if one != other {
        return Err(Fail::new(format_args!("answers: {one:?} and {other:?}")));
    }
    Ok(())
}

/// Checks that a run in one call called no device more often than the run in steps.
fn no_more_calls(in_steps: &End<'_>, whole: &End<'_>) -> Result<(), Fail> {
    let (reads, outputs, reports) = calls(in_steps);
    let (whole_reads, whole_outputs, whole_reports) = calls(whole);
    if whole_reads > reads || whole_outputs > outputs || whole_reports > reports {
        return Err(Fail::new(format_args!("calls: {:?} and {:?}", calls(in_steps), calls(whole))));
    }
    Ok(())
}

/// Checks that a run in one call wrote what the run in steps wrote, ended like it, and called no
/// device more often.
pub fn alike(in_steps: &End<'_>, whole: &End<'_>) -> Result<(), Fail> {
    same_answer(in_steps, whole)?;
    no_more_calls(in_steps, whole)?;
    wrote(
        "two runs",
        in_steps.output.written(),
        whole.output.written(),
    )?;
    reported(
        "two runs",
        in_steps.report.written(),
        whole.report.written(),
    )
}

/// The numbers of calls of the reader, of the output and of the report.
fn calls(end: &End<'_>) -> (usize, usize, usize) {
    (end.reader.calls(), end.output.calls(), end.report.calls())
}

/// The result that a tool must give for an input.
#[derive(Drop)]
pub struct Expected<'a> {
    pub tool: Tool,
    pub output: &'a [u8],
    pub report: &'a [u8],
    pub status: u8,
}

/// Runs a tool over an input.
///
/// The devices move at most `per_call` bytes a call, and never fail.
pub fn ended_over<'a>(alloc: Global, tool: Tool, stream: &'a [u8], per_call: usize) -> End<'a>
    requires { 0 < per_call }
{
    tool.run(
        alloc,
        TestReader::new(stream, per_call, Failing::Never),
        TestWriter::new(alloc, per_call, Failing::Never),
        TestWriter::new(alloc, per_call, Failing::Never),
    )
}

/// Checks that a tool gives this result for an input.
///
/// The devices move at most `per_call` bytes a call.
pub fn gives(
    alloc: Global,
    name: &str,
    stream: &[u8],
    per_call: usize,
    want: &Expected<'_>,
) -> Result<(), Fail>
    requires { 0 < per_call }
{
    let end = ended_over(alloc, want.tool, stream, per_call);
    is_expected(name, &end.output, &end.report, &end.answer, want)
}

/// Checks what a run has written, and how it has ended.
fn is_expected(
    name: &str,
    output: &TestWriter,
    report: &TestWriter,
    answer: &Result<Status, IoFault>,
    want: &Expected<'_>,
) -> Result<(), Fail> {
    wrote(name, output.written(), want.output)?;
    reported(name, report.written(), want.report)?;
    exits(name, answer, (want.status, ""))
}

/// Checks that a tool does in steps what it does in one call.
///
/// The devices move at most `per_call` bytes a call. Each step after the end returns the same, and
/// does no I/O.
pub fn steps_alike(alloc: Global, tool: Tool, stream: &[u8], per_call: usize) -> Result<(), Fail>
    requires { 0 < per_call }
{
    let whole = ended_over(alloc, tool, stream, per_call);
    let in_steps = tool.step_through(
        alloc,
        stream.len().saturating_add(2),
        TestReader::new(stream, per_call, Failing::Never),
        TestWriter::new(alloc, per_call, Failing::Never),
        TestWriter::new(alloc, per_call, Failing::Never),
    )?;
    alike(&in_steps, &whole)
}

/// Checks that a tool gives this result at each pace: all bytes in a call, seven bytes, and one
/// byte.
///
/// At the first pace it gives the same result in steps.
pub fn gives_at_each_pace(
    alloc: Global,
    name: &str,
    stream: &[u8],
    want: &Expected<'_>,
) -> Result<(), Fail> {
    gives(alloc, name, stream, usize::MAX, want)?;
    gives(alloc, name, stream, 7, want)?;
    gives(alloc, name, stream, 1, want)?;
    steps_alike(alloc, want.tool, stream, usize::MAX)
}

/// A run over a reader that holds bytes, which has ended.
pub type EndInPlace<'a> = RunEnd<HoldingReader<'a>, TestWriter, TestWriter>;

/// Runs a tool over an input whose reader holds up to `room` bytes of it.
///
/// A read gives at most `per_call` bytes. The writers take all bytes in a call. No device fails.
pub fn ended_in_place<'a>(
    alloc: Global,
    tool: Tool,
    stream: &'a [u8],
    room: usize,
    per_call: usize,
) -> EndInPlace<'a>
    requires room { 0 < room }
    requires moves { 0 < per_call }
{
    tool.run(
        alloc,
        HoldingReader::new(stream, room, per_call),
        TestWriter::new(alloc, usize::MAX, Failing::Never),
        TestWriter::new(alloc, usize::MAX, Failing::Never),
    )
}

/// Checks that a tool gives this result for an input whose reader holds up to `room` bytes of it.
///
/// A read gives at most `per_call` bytes.
pub fn gives_held(
    alloc: Global,
    name: &str,
    stream: &[u8],
    room: usize,
    per_call: usize,
    want: &Expected<'_>,
) -> Result<(), Fail>
    requires room { 0 < room }
    requires moves { 0 < per_call }
{
    let end = ended_in_place(alloc, want.tool, stream, room, per_call);
    is_expected(name, &end.output, &end.report, &end.answer, want)
}

/// Checks that a tool gives this result for an input that its reader holds.
///
/// The reader holds all bytes, and a read gives one byte or seven. Then it holds up to seven bytes,
/// and a read gives all of them.
pub fn gives_in_place(
    alloc: Global,
    name: &str,
    stream: &[u8],
    want: &Expected<'_>,
) -> Result<(), Fail> {
    gives_held(alloc, name, stream, usize::MAX, 1, want)?;
    gives_held(alloc, name, stream, usize::MAX, 7, want)?;
    gives_held(alloc, name, stream, 7, usize::MAX, want)
}
