//! A run of a whole tool over a slice, into two slices.

ghost use Rattle.std.specs.Prelude.{◌≡◌, [], length, Option};
ghost use Rattle.link_run.specs.Run.{Tool, devices, looks};
ghost use Rattle.link_tools.specs.Options.{AfterTool};
ghost use Rattle.link_ffi_tools.specs.Tool.{texts_status};
ghost use Rattle.link_ffi_tools.specs.Run.{AfterSliceRun, IsWrittenOver, RunsIntoSlices, ReturnsTextsOrNothing};

use crate::device::{SliceReader, SliceWriter};
use link_ffi_numbers::status::{MEMORY, OK, TOO_SMALL};
use link_run::{RunEnd, Status};
use link_wire::{InDevice, IoFault, OutDevice};
use std::mem;

/// A tool that is ready to run over a slice.
pub trait SliceTool: Sized {
    // the texts and the status that an input determines; `None` if it was refused its memory
    ghost tool: { Self → Option Tool };

    // it has what it needs
    ghost ready: { Self → Type 0 };

    /// Runs the tool to its end, and returns its devices and its answer.
    fn run<'a, 'b, 'c>(
        self,
        reader: SliceReader<'a>,
        output: SliceWriter<'b>,
        report: SliceWriter<'c>,
    ) -> RunEnd<SliceReader<'a>, SliceWriter<'b>, SliceWriter<'c>>
        requires { ready self }
        ensures { AfterTool
            (looks ⟦<SliceReader<'static> as InDevice>⟧.state ⟦<SliceWriter<'static> as OutDevice>⟧.state
            ⟦<SliceWriter<'static> as OutDevice>⟧.state)
            (tool self) (devices reader.entry output.entry report.entry) result };
}

/// `struct tcpclkit_run`: what a run did.
#[repr(C)]
#[derive(Clone, Copy, Debug, PartialEq, Eq)]
pub struct Run {
    /// The exit status: 0, 1 or 3.
    pub exit_status: u64,
    /// The number of bytes of the output, also if they did not all fit.
    pub output_length: u64,
    /// The number of bytes of the report, also if they did not all fit.
    pub report_length: u64,
}

/// Which texts of a run a caller wants.
#[derive(Clone, Copy, Debug, PartialEq, Eq)]
pub struct Wants {
    /// Not 0 if the output is wanted.
    pub output: u64,
    /// Not 0 if the report is wanted.
    pub report: u64,
}

/// What a run wrote to a slice.
#[derive(Clone, Copy, Debug, PartialEq, Eq)]
pub struct Written {
    /// The number of the text's bytes, which stops at `u64::MAX`.
    pub count: u64,
    /// Whether the slice had room for them.
    pub fits: bool,
}

/// How a run ended, and what it wrote.
#[derive(Clone, Copy, Debug, PartialEq, Eq)]
pub struct Ended {
    /// The exit status, or the refusal of memory.
    pub answer: Result<Status, IoFault>,
    /// The output.
    pub output: Written,
    /// The report.
    pub report: Written,
}

/// Runs the tool over `bytes` until it ends, and returns the writers with its answer.
fn run_between<'a, 'b, 'c, T: SliceTool>(
    tool: T,
    bytes: &'a [u8],
    output: SliceWriter<'b>,
    report: SliceWriter<'c>,
) -> RunEnd<SliceReader<'a>, SliceWriter<'b>, SliceWriter<'c>>
    requires ready { T.ready tool }
    requires no_output { output.history.text ≡ [] }
    requires no_report { report.history.text ≡ [] }
    ensures output { result.output.room.ghost_name ≡ output.entry.room.ghost_name }
    ensures output_before { result.output.history.before ≡ output.entry.history.before }
    ensures report { result.report.room.ghost_name ≡ report.entry.room.ghost_name }
    ensures report_before { result.report.history.before ≡ report.entry.history.before }
    ensures run { AfterSliceRun (T.tool tool) bytes.now result.output.history.text
        result.report.history.text result.answer }
{
    tool.run(SliceReader::new(bytes), output, report)
}

/// Returns the writer, and leaves one without room in its place.
fn moved_out<'a>(writer: &mut SliceWriter<'a>) -> SliceWriter<'a>
    ensures same_reference { result.room.ghost_name ≡ writer.old.room.ghost_name }
    ensures before { result.history.before ≡ writer.old.history.before }
    ensures text { result.history.text ≡ writer.old.history.text }
{
    mem::replace(writer, SliceWriter::new(&mut []))
}

/// Runs the tool over `bytes` until it ends. Its texts go to these writers.
fn run_into_writers<'a, 'b, 'c, T: SliceTool>(
    tool: T,
    bytes: &'a [u8],
    output: &mut SliceWriter<'b>,
    report: &mut SliceWriter<'c>,
) -> Result<Status, IoFault>
    requires ready { T.ready tool }
    requires no_output { output.old.history.text ≡ [] }
    requires no_report { report.old.history.text ≡ [] }
    // Each writer still writes into the same slice, and records what it contained before the run.
    ensures output { output.new.room.ghost_name ≡ output.old.room.ghost_name }
    ensures output_before { output.new.history.before ≡ output.old.history.before }
    ensures report { report.new.room.ghost_name ≡ report.old.room.ghost_name }
    ensures report_before { report.new.history.before ≡ report.old.history.before }
    ensures run { AfterSliceRun (T.tool tool) bytes.now output.new.history.text
        report.new.history.text result }
{
    let end = run_between(tool, bytes, moved_out(output), moved_out(report));
    *output = end.output;
    *report = end.report;
    end.answer
}

/// What was written by this writer.
fn written_by(writer: &SliceWriter<'_>) -> Written
    ensures { IsWrittenOver writer.now.history.text writer.now.history.before writer.now.room.now
        result }
{
    Written {
        count: writer.count(),
        fits: writer.fits(),
    }
}

/// Runs the tool over `bytes` until it ends. Its texts go to these slices, as far as they fit.
fn run_whole<T: SliceTool>(tool: T, bytes: &[u8], output: &mut [u8], report: &mut [u8]) -> Ended
    requires { T.ready tool }
    ensures { RunsIntoSlices (T.tool tool) bytes.now
        (record { output = output.old; report = report.old })
        (record { output = output.new; report = report.new })
        result }
{
    let mut to_output = SliceWriter::new(output);
    let mut to_report = SliceWriter::new(report);
    let answer = run_into_writers(tool, bytes, &mut to_output, &mut to_report);
    Ended {
        answer,
        output: written_by(&to_output),
        report: written_by(&to_report),
    }
}

/// Returns `OK` if each wanted text fits in its slice, and else `TOO_SMALL`.
fn texts_status(wants: Wants, ended: &Ended) -> u32
    ensures { result ≡ texts_status wants ended.now.output.fits ended.now.report.fits }
{
    if wants.output != 0 && !ended.output.fits {
        return TOO_SMALL;
    }
    if wants.report != 0 && !ended.report.fits {
        return TOO_SMALL;
    }
    OK
}

/// Runs the tool over `bytes` until it ends, and describes the run in `answer`. Its texts go to
/// these slices, as far as they fit.
///
/// Returns `OK`, or `TOO_SMALL` if a wanted text does not fit in its slice. If the tool was refused
/// its memory, returns `MEMORY`, and the numbers in `answer` are 0.
pub fn run_into<T: SliceTool>(
    tool: T,
    bytes: &[u8],
    wants: Wants,
    output: &mut [u8],
    report: &mut [u8],
    answer: &mut Run,
) -> u32
    requires { T.ready tool }
    ensures { ReturnsTextsOrNothing (T.tool tool) bytes.now wants
        (record { output = output.old; report = report.old })
        (record { output = output.new; report = report.new })
        answer.new result }
{
    let ended = run_whole(tool, bytes, output, report);
    match ended.answer {
        Ok(status) => {
            *answer = Run {
                exit_status: u64::from(status.0),
                output_length: ended.output.count,
                report_length: ended.report.count,
            };
            texts_status(wants, &ended)
        }
        Err(_) => {
            *answer = Run {
                exit_status: 0,
                output_length: 0,
                report_length: 0,
            };
            MEMORY
        }
    }
}
