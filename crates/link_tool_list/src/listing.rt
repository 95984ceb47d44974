//! `list`: a line for the contact header and for each message of a recorded stream.

ghost use Rattle.std.specs.Prelude.{◌≡◌, ◌<◌, true, false, IsTrue, List, ℕ};
ghost use Rattle.link_wire.specs.Session.{may_open, may_read, is_opened, left_of, source_of};
ghost use Rattle.link_run.specs.Reading.{feed_of, SessionWaitsAtMostOnce, ReadsNothing};
ghost use Rattle.link_run.specs.Run.{Texts, Devices, devices, looks, NoneFailed};
ghost use Rattle.link_run.specs.NewRun.{IsNewRun};
ghost use Rattle.link_run.specs.WholeRun.{AfterRun};
ghost use Rattle.link_run.specs.Stages.{IsRunAt, AfterStage, IsNotLastResult};
ghost use Rattle.link_run.specs.Writers.{AfterWrite, on_output, place_of};
ghost use Rattle.link_tool_list.specs.Listing.{listing_of, list_tool};
ghost use Rattle.link_tool_list.specs.ListRun.{may_go_on, may_follow, latest_line, IsListingAtStage, IsNewListing, IsListingAtBy, AreLinesTo, AfterRead, AfterMessageLines, AfterStepOrStride, NextStageFits};

use link_report::{KeptDigits, MessageText, contact_line};
use link_run::{Input, Next, PIECE, Progress, Run, RunEnd, Stages, Status, ToolRun, Writers};
use link_wire::{InDevice, IoFault, MessageBuffer, OutDevice, Session, Source};

/// What the next step of `list` reads.
#[derive(Clone, Copy, Debug, PartialEq, Eq)]
enum Stage {
    /// The contact header.
    Contact,
    /// The head of a message.
    Message,
    /// Data of a segment. The line of the segment is written after all of its data.
    Data,
}

/// The message that was read last.
#[derive(Drop)]
struct Latest {
    /// The offset of its type byte in the input.
    offset: u64,
    /// The digits of an offset, kept to make those of the next one.
    kept: KeptDigits,
    message: MessageBuffer,
}

/// `list` between two steps: its stage, and the message that was read last.
#[derive(Drop)]
pub struct Listing {
    stage: Stage,
    latest: Latest,
}

/// A run of `list`, step by step.
pub type ListRun<R, W, E> = ToolRun<Session<R>, W, E, Listing>;

impl<R: InDevice, W: OutDevice, E: OutDevice> Stages<Session<R>, W, E> for Listing {
    ghost use Rattle.std.specs.Prelude.{true};
    ghost use Rattle.link_tool_list.specs.Listing.{listing_of};
    ghost use Rattle.link_tool_list.specs.ListRun.{may_go_on, latest_line, by_stage, IsListingAtStage};

    ghost made = { λ tool. listing_of };

    ghost begun = { λ tool. true };

    ghost fits = { λ tool. may_go_on tool.stage };

    ghost knows = { λ tool. IsListingAtStage R.state tool.stage (latest_line tool.latest) };

    // 6 bytes of a contact header, 66,585 of a head, 4,096 of data
    ghost most = { λ tool. by_stage 6 66585 4096 tool.stage };

    #[tactic(auto, using(crate::proofs::Lists::most_some))]
    #[inline(always)]
    fn stage(
        &mut self,
        input: &mut Input<Session<R>, W, E>,
        writers: &mut Writers<W, E>,
    ) -> Result<Progress, IoFault> {
        step(self, PIECE, false, input, writers)
    }

    /// A stride is given all data at hand, and then the messages that lie whole in the window.
    #[tactic(auto, using(crate::proofs::Lists::most_some))]
    #[inline(always)]
    fn stride(
        &mut self,
        input: &mut Input<Session<R>, W, E>,
        writers: &mut Writers<W, E>,
    ) -> Result<Progress, IoFault> {
        step(self, usize::MAX, true, input, writers)
    }
}

/// Does a step, at any stage. The step is given at most `piece` bytes of data. If `far` is true and
/// the step has written the line of a message, it goes on with the messages that lie whole in the
/// window.
#[inline(always)]
fn step<R: InDevice, W: OutDevice, E: OutDevice>(
    tool: &mut Listing,
    piece: usize,
    far: bool,
    input: &mut Input<Session<R>, W, E>,
    writers: &mut Writers<W, E>,
) -> Result<Progress, IoFault>
    requires fits { IsTrue (may_go_on tool.old.stage (feed_of input.old)) }
    requires piece { 0 < piece }
    ensures fits { IsNotLastResult result → IsTrue (may_go_on tool.new.stage (feed_of input.new)) }
    ensures gives { (start : Devices R W E) (history : List ℕ)
        → IsRunAt (looks R.state W.state E.state) listing_of start true
        (place_of (source_of (feed_of input.old)) writers.old) history
        → IsListingAtStage R.state tool.old.stage (latest_line tool.old.latest) (feed_of input.old)
        history
        → AfterStepOrStride (looks R.state W.state E.state) start piece far tool.old.stage
        (place_of (source_of (feed_of input.old)) writers.old)
        (place_of (source_of (feed_of input.new)) writers.new)
        (IsListingAtStage R.state tool.new.stage (latest_line tool.new.latest) (feed_of input.new))
        history result }
    ensures waits { (history : List ℕ)
        → IsListingAtStage R.state tool.old.stage (latest_line tool.old.latest) (feed_of input.old)
        history
        → SessionWaitsAtMostOnce (looks R.state W.state E.state) input.old input.new writers.old }
{
    if let Stage::Contact = tool.stage {
        tool.stage = Stage::Message;
        return list_contact(input, writers);
    }
    match advance(tool.stage, piece, input, writers, &mut tool.latest) {
        Next::Stage(later) => {
            tool.stage = later;
            match later {
                // The message that was read last is whole, so its line is due.
                Stage::Message => {
                    Progress::after(write_lines(far, input, writers, &mut tool.latest))
                }
                _ => Ok(Progress::More),
            }
        }
        Next::Ended(answer) => Progress::ended(answer),
    }
}

/// Reads the contact header, and writes its line.
///
/// No message was read yet, so the contract holds for any `line`. The 6 in the contract is the
/// number of bytes of a contact header.
#[cold]
#[inline(never)]
fn list_contact<R: InDevice, W: OutDevice, E: OutDevice>(
    input: &mut Input<Session<R>, W, E>,
    writers: &mut Writers<W, E>,
) -> Result<Progress, IoFault>
    requires { IsTrue (may_open (feed_of input.old)) }
    ensures fits { IsNotLastResult result → IsTrue (may_read (feed_of input.new)) }
    ensures gives { (start : Devices R W E) (line history : List ℕ)
        → IsRunAt (looks R.state W.state E.state) listing_of start true
        (place_of (source_of (feed_of input.old)) writers.old) history
        → IsNewListing R.state (feed_of input.old) history
        → AfterStage (looks R.state W.state E.state) listing_of start true
        (place_of (source_of (feed_of input.old)) writers.old)
        (place_of (source_of (feed_of input.new)) writers.new)
        (IsListingAtBy R.state Stage.Message line (feed_of input.new)) 6 history result }
    ensures waits { SessionWaitsAtMostOnce
        (looks R.state W.state E.state) input.old input.new writers.old }
{
    match input.open(writers) {
        Ok(contact) => {
            writers.clear_line();
            contact_line(&mut writers.line, &contact);
            Progress::after(writers.write_line())
        }
        Err(stop) => Progress::ended(writers.end(stop)),
    }
}

/// Reads the head of a message, or a piece of its data. Returns what comes next: a message, more
/// data, or the end of the run. The contact header was read before.
#[inline(always)]
fn advance<R: InDevice, W: OutDevice, E: OutDevice>(
    stage: Stage,
    piece: usize,
    input: &mut Input<Session<R>, W, E>,
    writers: &mut Writers<W, E>,
    latest: &mut Latest,
) -> Next<Stage>
    requires going { stage ≡ Stage.Contact → ⊥ }
    requires fits { IsTrue (may_go_on stage (feed_of input.old)) }
    requires piece { 0 < piece }
    ensures fits { IsTrue (may_follow result (feed_of input.new)) }
    ensures gives { (start : Devices R W E) (history : List ℕ)
        → IsRunAt (looks R.state W.state E.state) listing_of start true
        (place_of (source_of (feed_of input.old)) writers.old) history
        → IsListingAtStage R.state stage (latest_line latest.old) (feed_of input.old) history
        → AfterRead (looks R.state W.state E.state) start piece stage (feed_of input.old)
        (feed_of input.new) writers.new (latest_line latest.new) history result }
    ensures waits { (history : List ℕ)
        → IsListingAtStage R.state stage (latest_line latest.old) (feed_of input.old) history
        → SessionWaitsAtMostOnce (looks R.state W.state E.state) input.old input.new writers.old }
{
    match stage {
        Stage::Data => pass_data(piece, input, writers),
        _ => read_message(input, writers, latest),
    }
}

/// Reads the head of a message. A head is read whole, so the contract holds for any `piece`.
#[inline(always)]
fn read_message<R: InDevice, W: OutDevice, E: OutDevice>(
    input: &mut Input<Session<R>, W, E>,
    writers: &mut Writers<W, E>,
    latest: &mut Latest,
) -> Next<Stage>
    requires { IsTrue (may_read (feed_of input.old)) }
    ensures fits { IsTrue (may_follow result (feed_of input.new)) }
    ensures gives { (start : Devices R W E) (piece : ℕ) (history : List ℕ)
        → IsRunAt (looks R.state W.state E.state) listing_of start true
        (place_of (source_of (feed_of input.old)) writers.old) history
        → IsListingAtBy R.state Stage.Message (latest_line latest.old) (feed_of input.old) history
        → AfterRead (looks R.state W.state E.state) start piece Stage.Message (feed_of input.old)
        (feed_of input.new) writers.new (latest_line latest.new) history result }
    ensures waits { (history : List ℕ)
        → IsListingAtBy R.state Stage.Message (latest_line latest.old) (feed_of input.old) history
        → SessionWaitsAtMostOnce (looks R.state W.state E.state) input.old input.new writers.old }
{
    match input.next_message(writers, &mut latest.message) {
        Ok(Some(offset)) => {
            latest.offset = offset;
            go_on(input)
        }
        Ok(None) => Next::Ended(Ok(Status::CLEAN)),
        Err(stop) => Next::Ended(writers.end(stop)),
    }
}

/// Passes over a piece of a segment's data, of at most `piece` bytes.
///
/// In the contract, `line` is the line of the segment.
#[inline(always)]
fn pass_data<R: InDevice, W: OutDevice, E: OutDevice>(
    piece: usize,
    input: &mut Input<Session<R>, W, E>,
    writers: &mut Writers<W, E>,
) -> Next<Stage>
    requires opened { IsTrue (is_opened (feed_of input.old)) }
    requires piece { 0 < piece }
    ensures fits { IsTrue (may_follow result (feed_of input.new)) }
    ensures gives { (start : Devices R W E) (line history : List ℕ)
        → IsRunAt (looks R.state W.state E.state) listing_of start true
        (place_of (source_of (feed_of input.old)) writers.old) history
        → IsListingAtBy R.state Stage.Data line (feed_of input.old) history
        → AfterRead (looks R.state W.state E.state) start piece Stage.Data (feed_of input.old)
        (feed_of input.new) writers.new line history result }
    ensures waits { (line history : List ℕ)
        → IsListingAtBy R.state Stage.Data line (feed_of input.old) history
        → SessionWaitsAtMostOnce (looks R.state W.state E.state) input.old input.new writers.old }
{
    match input.load_data(writers) {
        Ok(ready) => {
            input.pass(ready.min(piece));
            go_on(input)
        }
        Err(stop) => Next::Ended(writers.end(stop)),
    }
}

/// Returns what comes after a head or after data: more data of that message, or the next message.
#[inline(always)]
fn go_on<R: InDevice, W: OutDevice, E: OutDevice>(input: &Input<Session<R>, W, E>) -> Next<Stage>
    requires { IsTrue (is_opened (feed_of input.now)) }
    ensures fits { IsTrue (may_follow result (feed_of input.now)) }
    ensures goes { NextStageFits (left_of (feed_of input.now)) result }
{
    if input.left() > 0 {
        return Next::Stage(Stage::Data);
    }
    Next::Stage(Stage::Message)
}

/// Writes the line of the message that was read last. If `far` is true, it does the same for each
/// message that lies whole in the window.
///
/// Only one place writes the line of a message, so the code for that is inlined once. In `gives`,
/// `first` are the texts that were written before.
#[inline(always)]
fn write_lines<R: InDevice, W: OutDevice, E: OutDevice>(
    far: bool,
    input: &mut Input<Session<R>, W, E>,
    writers: &mut Writers<W, E>,
    latest: &mut Latest,
) -> Result<(), IoFault>
    requires { IsTrue (may_read (feed_of input.old)) }
    ensures fits { IsTrue (may_read (feed_of input.new)) }
    ensures near { far ≡ false → input.new ≡ input.old }
    ensures gives { (first : Texts) (history : List ℕ)
        → AreLinesTo R.state first (feed_of input.old) (latest_line latest.old) history
        → AfterMessageLines (looks R.state W.state E.state) first (feed_of input.old)
        (feed_of input.new) writers.old writers.new history result }
    ensures unread { ReadsNothing R.state source_of input.old input.new }
{
    'lines: loop {
        match write_line(writers, latest) {
            Ok(()) => {}
            Err(fault) => return Err(fault),
        }
        if !far {
            return Ok(());
        }
        match input.next_whole(&mut latest.message) {
            Some(offset) => latest.offset = offset,
            None => return Ok(()),
        }
    }
}

/// Writes the line of the message that was read last. If the offset has more than four digits, it
/// keeps those before the last four, which the next lines may share.
#[inline(always)]
fn write_line<W: OutDevice, E: OutDevice>(
    writers: &mut Writers<W, E>,
    latest: &mut Latest,
) -> Result<(), IoFault>
    ensures line { AfterWrite W.state E.state writers.old writers.new
        (on_output (latest_line latest.old)) result }
    ensures latest { latest_line latest.new ≡ latest_line latest.old }
{
    latest.kept.keep(latest.offset);
    let line = MessageText {
        offset: latest.offset,
        message: &latest.message,
        kept: &latest.kept,
    };
    writers.write_text(&line)
}

/// Makes a run of `list` that has read and written nothing.
#[tactic(auto, using(crate::proofs::Lists::may_begin))]
pub fn list_run<R: InDevice, W: OutDevice, E: OutDevice>(
    reader: R,
    output: W,
    report: E,
) -> ListRun<R, W, E>
    requires sound { NoneFailed (looks R.state W.state E.state) (devices reader output report) }
    ensures { IsNewRun ⟦<ListRun<R, W, E> as Run<R, W, E>>⟧ list_tool
        (devices reader output report) result }
{
    let tool = Listing {
        stage: Stage::Contact,
        latest: Latest {
            offset: 0,
            kept: KeptDigits::new(),
            message: MessageBuffer::new(),
        },
    };
    ToolRun::new(tool, Session::new(Source::new(reader)), output, report)
}

/// Lists a recorded stream, to the end of the run.
///
/// The output has a line for the contact header and for each message. If a fault stops the stream,
/// the report has the line of that fault, and the status is 3. Otherwise the report is empty, and
/// the status is 0.
///
/// The answer is an error if a device failed, or the input has more than 2^63 - 1 bytes.
#[inline(never)]
pub fn list<R: InDevice, W: OutDevice, E: OutDevice>(
    reader: R,
    output: W,
    report: E,
) -> RunEnd<R, W, E>
    requires sound { NoneFailed (looks R.state W.state E.state) (devices reader output report) }
    ensures { AfterRun (looks R.state W.state E.state) list_tool
        (devices reader output report) result }
{
    list_run(reader, output, report).run()
}
