//! Tests of devices that are made of readers and writers of std.
//!
//! Each error of a reader or a writer is a failure, `Interrupted` too, and so is a write that takes
//! no byte. After a failure the device is not called again, even if it would go on.

ghost use Rattle.std.specs.Prelude.{◌≡◌, ◌<◌, false};

use link_tools::{Status, list, list_run, run_exit};
use link_wire::{
    Contact, Filled, InDevice, IoFault, MessageBuffer, OutDevice, Reader, Session, Source, Stop,
    Writer, write_whole,
};
use std::alloc::Global;
use std::io::{self, ErrorKind, Read, Write};
use std::process::Abort;
use std::test::Fail;
use tests_common::rows::{TRANSFER, TRANSFER_LINES};
use tests_common::stepping::ended;
use tests_common::stream::{CONTACT_LINE, joined};

/// A reader of one byte a call, which is interrupted at one call and then goes on.
///
/// Calls are counted from 1.
#[derive(Drop)]
struct Slow<'a> {
    left: &'a [u8],
    calls: usize,
    interrupted_at: usize,
    /// The fewest bytes that a call asked for.
    asked: usize,
}

impl Read for Slow<'_> {
    fn read(&mut self, buffer: &mut [u8]) -> io::Result<usize> {
        self.calls = self.calls.saturating_add(1);
        self.asked = self.asked.min(buffer.len());
        if self.calls == self.interrupted_at {
            return Err(io::Error::from(ErrorKind::Interrupted));
        }
        match (self.left, buffer) {
            ([first, rest @ ..], [place, ..]) => {
                *place = *first;
                self.left = rest;
                Ok(1)
            }
            _ => Ok(0),
        }
    }
}

/// What a writer does at one call instead of taking a byte.
#[derive(Clone, Copy)]
enum Hitch {
    Interrupted,
    TakesNone,
    /// It takes every byte, and its flush fails.
    KeepsBack,
}

/// A writer of one byte a call, which has a hitch at one call and then goes on.
///
/// Calls are counted from 1.
#[derive(Drop)]
struct Narrow {
    written: Vec<u8>,
    calls: usize,
    hitch: Hitch,
    hitch_at: usize,
}

impl Write for Narrow {
    fn write(&mut self, bytes: &[u8]) -> io::Result<usize> {
        self.calls = self.calls.saturating_add(1);
        if self.calls == self.hitch_at {
            return match self.hitch {
                Hitch::Interrupted => Err(io::Error::from(ErrorKind::Interrupted)),
                Hitch::TakesNone => Ok(0),
                Hitch::KeepsBack => Err(io::Error::from(ErrorKind::Other)),
            };
        }
        let Some(byte) = bytes.first() else {
            return Ok(0);
        };
        match self.written.push(*byte) {
            Ok(()) => Ok(1),
            Err(_) => Err(io::Error::from(ErrorKind::OutOfMemory)),
        }
    }

    fn flush(&mut self) -> io::Result<()> {
        match self.hitch {
            Hitch::KeepsBack => Err(io::Error::from(ErrorKind::Other)),
            _ => Ok(()),
        }
    }
}

/// A device over a `Slow` reader of these bytes.
fn reader<'a>(left: &'a [u8], interrupted_at: usize) -> Reader<Slow<'a>>
    ensures { (⟦<Reader<Slow<'a>> as InDevice>⟧.state result).failed ≡ false }
{
    Reader::new(Slow {
        left,
        calls: 0,
        interrupted_at,
        asked: usize::MAX,
    })
}

/// A device over this writer.
fn device<W: Write>(writer: W) -> Writer<W>
    ensures { (⟦<Writer<W> as OutDevice>⟧.state result).failed ≡ false }
{
    Writer::new(writer)
}

fn writer(alloc: Global, hitch: Hitch, hitch_at: usize) -> Writer<Narrow>
    ensures { (⟦<Writer<Narrow> as OutDevice>⟧.state result).failed ≡ false }
{
    device(Narrow {
        written: Vec::new(alloc),
        calls: 0,
        hitch,
        hitch_at,
    })
}

fn with_memory(alloc: Global) -> Writer<Vec<u8>>
    ensures { (⟦<Writer<Vec<u8>> as OutDevice>⟧.state result).failed ≡ false }
{
    device(Vec::new(alloc))
}

/// The number of a call that is never reached, for a device without a hitch.
const NEVER: usize = usize::MAX;

/// Steps a run of `list` to its end, checks how the program ends, and returns the devices.
fn listed<R: InDevice + Drop, W: OutDevice + Drop, E: OutDevice + Drop>(
    rt: &impl Abort,
    reader: R,
    output: W,
    report: E,
    exit: (u8, &'static str),
) -> Result<(R, W, E), Fail>
    requires reader { (R.state reader).failed ≡ false }
    requires output { (W.state output).failed ≡ false }
    requires report { (E.state report).failed ≡ false }
{
    let end = ended(list_run(reader, output, report), 100)?;
    assert_eq!(rt; run_exit(&end.answer), exit);
    Ok((end.reader, end.output, end.report))
}

/// Checks that these bytes were written.
fn is_text(rt: &impl Abort, written: &[u8], want: &[u8]) {
    assert!(rt;
        written == want,
        "{} and not {}",
        written.escape_ascii(),
        want.escape_ascii()
    );
}

/// Checks that a device wrote these bytes in this many calls.
fn took(rt: &impl Abort, device: &Narrow, calls: usize, want: &[u8]) {
    assert_eq!(rt; device.calls, calls);
    is_text(rt, device.written.as_slice(), want);
}

/// The number of lines that the first `size` bytes of the stream `TRANSFER` determine.
fn lines_after(size: usize) -> usize {
    match size {
        0..6 => 0,
        6..38 => 1,
        38..94 => 2,
        _ => 3,
    }
}

/// The lines that the first `size` bytes of the stream `TRANSFER` determine.
fn text_after(alloc: Global, size: usize) -> Result<Vec<u8>, Fail> {
    let lines = TRANSFER_LINES.get(..lines_after(size));
    joined(alloc, lines.ok_or("more than the lines")?)
}

/// The reader of the stream is interrupted after `given` bytes.
fn reader_stops(rt: &impl Abort, alloc: Global, stream: &[u8], given: usize) -> Result<(), Fail>
    requires { given < 100 }
{
    let (reader, output, report) = listed(
        rt,
        reader(stream, given + 1),
        with_memory(alloc),
        with_memory(alloc),
        (4, "tcpclkit: read failed"),
    )?;
    assert_eq!(rt; reader.into_inner().calls, given + 1);
    let want = text_after(alloc, given)?;
    is_text(rt, output.into_inner().as_slice(), want.as_slice());
    is_text(rt, report.into_inner().as_slice(), b"");
    Ok(())
}

/// The reader is interrupted at each of its calls in turn, also at the one after the last byte.
#[test]
fn interrupted_reader(rt: HostRuntime) -> Result<(), Fail> {
    let stream = joined(rt.alloc(), TRANSFER)?;
    for given in 0..=94 {
        reader_stops(&rt, rt.alloc(), stream.as_slice(), given)?;
    }
    Ok(())
}

/// The output has this hitch when it has taken these bytes.
fn output_stops_after(
    rt: &impl Abort,
    alloc: Global,
    stream: &[u8],
    hitch: Hitch,
    want: &[u8],
) -> Result<(), Fail> {
    let calls = want.len().saturating_add(1);
    let (_, output, report) = listed(
        rt,
        reader(stream, NEVER),
        writer(alloc, hitch, calls),
        with_memory(alloc),
        (4, "tcpclkit: write failed"),
    )?;
    took(rt, &output.into_inner(), calls, want);
    is_text(rt, report.into_inner().as_slice(), b"");
    Ok(())
}

/// The output has this hitch at each of its calls in turn.
fn output_stops(rt: &impl Abort, alloc: Global, hitch: Hitch) -> Result<(), Fail> {
    let stream = joined(alloc, TRANSFER)?;
    let lines = joined(alloc, TRANSFER_LINES)?;
    for count in 0..lines.len() {
        output_stops_after(rt, alloc, stream.as_slice(), hitch, &lines[..count])?;
    }
    Ok(())
}

#[test]
fn hitching_output(rt: HostRuntime) -> Result<(), Fail> {
    output_stops(&rt, rt.alloc(), Hitch::Interrupted)?;
    output_stops(&rt, rt.alloc(), Hitch::TakesNone)
}

/// The report has this hitch when it has taken these bytes.
fn report_stops_after(
    rt: &impl Abort,
    alloc: Global,
    stream: &[u8],
    hitch: Hitch,
    want: &[u8],
) -> Result<(), Fail> {
    let calls = want.len().saturating_add(1);
    let (_, output, report) = listed(
        rt,
        reader(stream, NEVER),
        with_memory(alloc),
        writer(alloc, hitch, calls),
        (4, "tcpclkit: write failed"),
    )?;
    took(rt, &report.into_inner(), calls, want);
    is_text(rt, output.into_inner().as_slice(), CONTACT_LINE);
    Ok(())
}

/// The report has this hitch at each of its calls in turn.
fn report_stops(rt: &impl Abort, alloc: Global, hitch: Hitch) -> Result<(), Fail> {
    let line = b"tcpclkit: byte 6: truncated\n";
    let stream = joined(alloc, TRANSFER)?;
    let prefix = stream.get(..7).ok_or("more than the stream")?;
    for count in 0..line.len() {
        report_stops_after(rt, alloc, prefix, hitch, &line[..count])?;
    }
    Ok(())
}

#[test]
fn hitching_report(rt: HostRuntime) -> Result<(), Fail> {
    report_stops(&rt, rt.alloc(), Hitch::Interrupted)?;
    report_stops(&rt, rt.alloc(), Hitch::TakesNone)
}

/// Checks that a fill of this buffer returns this.
fn fills<R: InDevice>(
    rt: &impl Abort,
    source: &mut Source<R>,
    buffer: &mut [u8],
    want: Result<Filled, IoFault>,
) {
    assert_eq!(rt; source.fill(buffer), want);
}

/// Checks that a source whose reader failed fails at each later call.
fn stays_failed<R: InDevice>(rt: &impl Abort, source: &mut Source<R>) {
    let mut buffer = [0; 6];
    for _ in 0..2 {
        fills(rt, source, &mut buffer, Err(IoFault::Read));
        assert_eq!(rt; source.some(&mut buffer), Err(IoFault::Read));
    }
}

/// After an interrupt inside a `fill`, the bytes before it are at the start of the slice.
///
/// A second call does not read.
#[test]
fn interrupted_fill(rt: HostRuntime) {
    let mut source = Source::new(reader(b"tcpclkit", 4));
    let mut buffer = [0; 6];
    fills(&rt, &mut source, &mut buffer[..1], Ok(Filled::Whole));
    fills(&rt, &mut source, &mut buffer, Err(IoFault::Read));
    is_text(&rt, &buffer[..2], b"cp");
    stays_failed(&rt, &mut source);
    assert_eq!(rt; (source.given(), source.taken()), (3, 3));
    assert_eq!(rt; source.into_reader().into_inner().calls, 4);
}

/// A call that needs bytes reads once, also at the end, and each read asks for a whole window.
#[test]
fn a_read_asks_for_a_whole_window(rt: HostRuntime) {
    let mut source = Source::new(reader(b"tc", NEVER));
    let mut buffer = [0; 8];
    for &(given, taken) in &[(1, 1), (1, 2), (0, 2), (0, 2)] {
        assert_eq!(rt; source.some(&mut buffer), Ok(given));
        assert_eq!(rt; source.taken(), taken);
    }
    let reader = source.into_reader().into_inner();
    assert_eq!(rt; (reader.calls, reader.asked), (3, 8192));
}

/// After this hitch inside a `write_whole`, a prefix was written, and nothing after it.
fn write_stops(rt: &impl Abort, alloc: Global, hitch: Hitch) {
    let mut out = writer(alloc, hitch, 4);
    assert_eq!(rt; write_whole(&mut out, b"tcpclkit"), Err(IoFault::Write));
    assert!(rt; out.failed());
    took(rt, &out.into_inner(), 4, b"tcp");
}

#[test]
fn hitching_write(rt: HostRuntime) {
    write_stops(&rt, rt.alloc(), Hitch::Interrupted);
    write_stops(&rt, rt.alloc(), Hitch::TakesNone);
}

/// Checks whether a flush of a writer with this hitch fails.
fn flushes(rt: &impl Abort, alloc: Global, hitch: Hitch, failed: bool) {
    let mut out = writer(alloc, hitch, NEVER);
    assert_eq!(rt; out.settle().is_err(), failed);
    assert_eq!(rt; out.failed(), failed);
    assert!(rt; out.into_inner().written.is_empty());
}

/// A flush that fails is a failure of the device, and a flush that does not fail is none.
#[test]
fn failed_flush(rt: HostRuntime) {
    flushes(&rt, rt.alloc(), Hitch::TakesNone, false);
    flushes(&rt, rt.alloc(), Hitch::KeepsBack, true);
}

/// Checks that the program's message for a failure has the failure's own text.
fn has_its_text(rt: &impl Abort, alloc: Global, fault: IoFault) -> Result<(), Fail> {
    let answer: Result<Status, IoFault> = Err(fault);
    let text = format!(in alloc; "tcpclkit: {fault}")?;
    assert_eq!(rt; text.as_str(), run_exit(&answer).1);
    Ok(())
}

#[test]
fn texts_of_failures(rt: HostRuntime) -> Result<(), Fail> {
    has_its_text(&rt, rt.alloc(), IoFault::Read)?;
    has_its_text(&rt, rt.alloc(), IoFault::InputTooLong)?;
    has_its_text(&rt, rt.alloc(), IoFault::Write)?;
    has_its_text(&rt, rt.alloc(), IoFault::Memory)
}

/// Checks that a session that has stopped gives no data.
fn gives_no_data<R: InDevice>(rt: &impl Abort, session: &mut Session<R>) {
    for _ in 0..2 {
        assert_eq!(rt; session.data(&mut [0; 4]), Err(Stop::Io(IoFault::Read)));
    }
}

/// A session that is interrupted stops, and does not read on.
#[test]
fn interrupted_session(rt: HostRuntime) -> Result<(), Fail> {
    let stream = joined(rt.alloc(), TRANSFER)?;
    let mut session = Session::new(Source::new(reader(stream.as_slice(), 8)));
    assert_eq!(rt; session.open(), Ok(Contact { flags: 0 }));
    let mut message = MessageBuffer::new();
    assert_eq!(rt; session.next(&mut message), Err(Stop::Io(IoFault::Read)));
    gives_no_data(&rt, &mut session);
    assert_eq!(rt; session.into_source().into_reader().into_inner().calls, 8);
    Ok(())
}

/// Lists a stream from a slice into vectors, and checks the output.
fn lists_slices(rt: &impl Abort, alloc: Global, stream: &[u8], want: &[u8]) {
    let end = list(Reader::new(stream), with_memory(alloc), with_memory(alloc));
    assert_eq!(rt; run_exit(&end.answer), (0, ""));
    is_text(rt, end.output.into_inner().as_slice(), want);
}

/// Lists a stream over devices of one byte a call, and checks the output.
fn lists_bytes(rt: &impl Abort, alloc: Global, stream: &[u8], want: &[u8]) {
    let end = list(
        reader(stream, NEVER),
        writer(alloc, Hitch::Interrupted, NEVER),
        writer(alloc, Hitch::TakesNone, NEVER),
    );
    assert_eq!(rt; run_exit(&end.answer), (0, ""));
    is_text(rt, end.output.into_inner().written.as_slice(), want);
    assert_eq!(rt; end.report.into_inner().calls, 0);
}

/// Runs over slices and vectors have the same texts as runs over devices of one byte a call.
#[test]
fn whole_transfer(rt: HostRuntime) -> Result<(), Fail> {
    let stream = joined(rt.alloc(), TRANSFER)?;
    let want = joined(rt.alloc(), TRANSFER_LINES)?;
    lists_slices(&rt, rt.alloc(), stream.as_slice(), want.as_slice());
    lists_bytes(&rt, rt.alloc(), stream.as_slice(), want.as_slice());
    Ok(())
}
