//! Runs of the tools over buffered streams.

ghost use Rattle.std.specs.Prelude.{◌≡◌, [], false, Err, IfOk, IfErr, IsOkAnd};
ghost use Rattle.std.specs.IoError.{error_kind};
ghost use Rattle.link_run.specs.Run.{devices, looks, NoneFailed};
ghost use Rattle.link_tools.specs.Options.{IfPackHasNewCutter};
ghost use Rattle.tcpclkit.specs.BufferedEnd.{AfterBufferedRun, HandsOn};

use crate::ending::after_flush;
use link_tools::{Job, Ran, Status, run_tool};
use link_wire::{BufferedReader, InDevice, IoFault, OutDevice, TextWriter, Writer};
use std::alloc::Global;
use std::io;
use std::io::{BufReader, ErrorKind, Read, Write};

/// The size in bytes of the input's buffer, from which the window of its source is filled.
const INPUT_BUFFER: usize = 64 << 10;

/// An input, an output and a report, each with a buffer over it.
pub struct Streams<R: Read, W: Write, E: Write> {
    input: BufferedReader<R>,
    output: TextWriter<Writer<W>>,
    report: TextWriter<Writer<E>>,
}

/// A run over buffered streams that has ended: its answer and its devices.
#[derive(Drop)]
pub struct BufferedEnd<R: Read, W: Write, E: Write> {
    /// The answer, in which a failed flush counts ([`after_flush`]).
    pub answer: Result<Status, IoFault>,
    /// The input, as the run left it.
    pub input: BufferedReader<R>,
    /// The device to which the output was handed on.
    pub output: Writer<W>,
    /// The device to which the report was handed on.
    pub report: Writer<E>,
    /// The log of the run. Only proofs read it.
    pub ran: Ran<BufferedReader<R>, TextWriter<Writer<W>>, TextWriter<Writer<E>>>,
}

/// Puts buffers over an input, an output and a report.
///
/// # Errors
///
/// The error has the kind `OutOfMemory`: the memory of a buffer was refused.
pub fn buffered<R: Read + Drop, W: Write + Drop, E: Write + Drop>(
    alloc: Global,
    input: R,
    output: W,
    report: E,
) -> io::Result<Streams<R, W, E>>
    ensures sound { IfOk result (λ streams. NoneFailed
        (looks ⟦<BufferedReader<R> as InDevice>⟧.state
        ⟦<TextWriter<Writer<W>> as OutDevice>⟧.state
        ⟦<TextWriter<Writer<E>> as OutDevice>⟧.state)
        (devices streams.input streams.output streams.report)) }
    ensures input { IfOk result (λ streams. ⟦<BufferedReader<R> as InDevice>⟧.state streams.input
        ≡ record { left = R.remaining input; failed = false; held = [] }) }
    ensures output { IfOk result
        (λ streams. ⟦<TextWriter<Writer<W>> as OutDevice>⟧.state streams.output
        ≡ record { written = W.contents output; failed = false; handed = W.contents output }) }
    ensures report { IfOk result
        (λ streams. ⟦<TextWriter<Writer<E>> as OutDevice>⟧.state streams.report
        ≡ record { written = E.contents report; failed = false; handed = E.contents report }) }
    ensures err { IfErr result (λ error. error_kind error ≡ ErrorKind.OutOfMemory) }
{
    let reader = BufReader::with_capacity(alloc, INPUT_BUFFER, input)?;
    let output = TextWriter::new(alloc, Writer::new(output))?;
    let report = match TextWriter::new(alloc, Writer::new(report)) {
        Ok(report) => report,
        Err(error) => {
            // A `TextWriter` cannot be dropped. Nothing waits in this one.
            let _ = output.into_device();
            return Err(error.into());
        }
    };
    Ok(Streams {
        input: BufferedReader::new(reader),
        output,
        report,
    })
}

/// Runs the tool over the streams, if there was memory for their buffers.
///
/// # Errors
///
/// [`IoFault::Memory`] if there was none.
pub fn run_over<R: Read + Drop, W: Write + Drop, E: Write + Drop>(
    job: Job,
    streams: io::Result<Streams<R, W, E>>,
) -> Result<BufferedEnd<R, W, E>, IoFault>
    requires ready { IfPackHasNewCutter job }
    requires sound { IfOk streams (λ streams. NoneFailed
        (looks ⟦<BufferedReader<R> as InDevice>⟧.state
        ⟦<TextWriter<Writer<W>> as OutDevice>⟧.state
        ⟦<TextWriter<Writer<E>> as OutDevice>⟧.state)
        (devices streams.input streams.output streams.report)) }
    ensures ran { IfOk streams (λ streams. IsOkAnd result (λ end. AfterBufferedRun
        (looks ⟦<BufferedReader<R> as InDevice>⟧.state
        ⟦<TextWriter<Writer<W>> as OutDevice>⟧.state
        ⟦<TextWriter<Writer<E>> as OutDevice>⟧.state) job
        (devices streams.input streams.output streams.report)
        end.input (⟦<Writer<W> as OutDevice>⟧.state end.output)
        (⟦<Writer<E> as OutDevice>⟧.state end.report) end.ran end.answer)) }
    ensures lacked { IfErr streams (λ _. result ≡ Err IoFault.Memory) }
{
    match streams {
        Ok(streams) => Ok(run_buffered(job, streams)),
        Err(_) => Err(IoFault::Memory),
    }
}

/// Runs the tool, and then hands the output and the report on to their devices.
///
/// It hands them on also after a fault or a failure. The output is handed on before the report.
pub fn run_buffered<R: Read + Drop, W: Write + Drop, E: Write + Drop>(
    job: Job,
    streams: Streams<R, W, E>,
) -> BufferedEnd<R, W, E>
    requires ready { IfPackHasNewCutter job }
    requires sound { NoneFailed
        (looks ⟦<BufferedReader<R> as InDevice>⟧.state
        ⟦<TextWriter<Writer<W>> as OutDevice>⟧.state
        ⟦<TextWriter<Writer<E>> as OutDevice>⟧.state)
        (devices streams.input streams.output streams.report) }
    ensures { AfterBufferedRun
        (looks ⟦<BufferedReader<R> as InDevice>⟧.state
        ⟦<TextWriter<Writer<W>> as OutDevice>⟧.state
        ⟦<TextWriter<Writer<E>> as OutDevice>⟧.state) job
        (devices streams.input streams.output streams.report)
        result.input (⟦<Writer<W> as OutDevice>⟧.state result.output)
        (⟦<Writer<E> as OutDevice>⟧.state result.report) result.ran result.answer }
{
    let Streams {
        input,
        output,
        report,
    } = streams;
    let end = run_tool(job, input, output, report);
    let (input, output, report, answer, ran) = end.into_parts();
    let output = handed_on(output);
    let report = handed_on_after(&output, report);
    let flushed = !output.failed() && !report.failed();
    BufferedEnd {
        answer: after_flush(answer, flushed),
        input,
        output,
        report,
        ran,
    }
}

/// Hands on what waits in the report.
///
/// `_output` is here only for the contract. It requires that the output holds nothing back, so the
/// report cannot be handed on first.
fn handed_on_after<W: OutDevice, E: Write + Drop>(
    _output: &W,
    report: TextWriter<Writer<E>>,
) -> Writer<E>
    requires { (W.state _output.now).handed ≡ (W.state _output.now).written }
    ensures { HandsOn (⟦<TextWriter<Writer<E>> as OutDevice>⟧.state report)
        (⟦<Writer<E> as OutDevice>⟧.state result) }
{
    handed_on(report)
}

/// Hands on what waits, and returns the device below.
///
/// If not all of it was handed on, the `failed` of the device returns true.
fn handed_on<W: Write + Drop>(writer: TextWriter<Writer<W>>) -> Writer<W>
    ensures { HandsOn (⟦<TextWriter<Writer<W>> as OutDevice>⟧.state writer)
        (⟦<Writer<W> as OutDevice>⟧.state result) }
{
    let (mut device, passed) = writer.into_device();
    if passed.is_ok() {
        // After a failure here, the device's own `failed` returns true.
        let _ = device.settle();
    }
    device
}
