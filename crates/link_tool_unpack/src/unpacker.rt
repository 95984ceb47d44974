//! `unpack`: the data of the transfers of a recorded stream, and a line for each transfer.

ghost use Rattle.std.specs.Prelude.{◌≡◌, ◌&&◌, true, not, [], List};
ghost use Rattle.link_run.specs.Run.{devices, looks, NoneFailed};
ghost use Rattle.link_run.specs.NewRun.{IsNewRun};
ghost use Rattle.link_run.specs.WholeRun.{AfterRun};
ghost use Rattle.link_run.specs.Writers.{AfterWrite, on_report};
ghost use Rattle.link_run_judge.specs.Transfers.{Transfer};
ghost use Rattle.link_run_judge.specs.Unpacking.{line_of, is_good, judgement_of, unpack_telling, unpack_tool, line_due, good_due};
ghost use Rattle.link_tool_unpack.specs.TransferScan.{IsTransferScanAt};
ghost use Rattle.link_tool_unpack.specs.Unpacker.{IsTransferScanAtLatest, IsUnpackerAt};
ghost use Rattle.link_tool_option_types.specs.declared.wanted.Wanted.{Wanted};

use crate::transfer::TransferScan;
use link_run::{Run, RunEnd, Writers};
use link_run_judge::{is_bundle, tell_order};
use link_run_over_transfers::{Consumer, EventView, Manner, WalkRun, walk_run};
use link_tool_option_types::Wanted;
use link_wire::{InDevice, IoFault, OutDevice};

/// What is known about the transfers so far.
#[derive(Drop)]
pub struct Unpacker {
    latest: TransferScan,
    /// Whether every head was in order, and every transfer that has its line is good.
    good: bool,
}

impl Unpacker {
    /// Makes an unpacker that has had no event. The contract holds for any options.
    pub fn new() -> Unpacker
        ensures { (wanted : Wanted) → IsUnpackerAt wanted result [] }
    {
        Unpacker {
            latest: TransferScan::new(),
            good: true,
        }
    }
}

impl Consumer for Unpacker {
    type Options = Wanted;

    ghost telling = { unpack_telling };

    ghost knows = { IsUnpackerAt };

    #[inline(always)]
    fn manner(options: &Wanted) -> Manner {
        Manner {
            goes_on: options.keep_going,
            all_heads: false,
        }
    }

    #[inline(always)]
    fn event<W: OutDevice, E: OutDevice>(
        &mut self,
        options: &Wanted,
        event: EventView<'_>,
        writers: &mut Writers<W, E>,
    ) -> Result<(), IoFault> {
        match event {
            EventView::Contact(_) => Ok(()),
            EventView::Head(head) => {
                if let Err(fault) = tell_order(head.offset, head.fault, writers, &mut self.good) {
                    return Err(fault);
                }
                // `report` takes whether the line is due, and whether the transfer was abandoned.
                if let Err(fault) = report(options, head.abandons(), true, writers, self) {
                    return Err(fault);
                }
                if head.begins() {
                    self.latest.begin(head.message);
                }
                report(options, head.closes(), false, writers, self)
            }
            // This comes only to a tool that is told of every head.
            EventView::Inner { .. } => Ok(()),
            EventView::Data { bytes, whole } => {
                let part = self.latest.take(options, bytes);
                if let Err(fault) = writers.write_output(part) {
                    return Err(fault);
                }
                report(options, whole, false, writers, self)
            }
            // The line is due, and the transfer was abandoned.
            EventView::LeftOpen => report(options, true, true, writers, self),
        }
    }

    #[inline(always)]
    fn is_good(&self, _options: &Wanted) -> bool {
        self.good
    }
}

/// If the line of the latest transfer is `due`, writes it, and sets `good` to false if the transfer
/// is not good. If `abandoned`, the transfer was abandoned, and else it is closed.
#[inline(always)]
fn report<W: OutDevice, E: OutDevice>(
    wanted: &Wanted,
    due: bool,
    abandoned: bool,
    writers: &mut Writers<W, E>,
    unpacker: &mut Unpacker,
) -> Result<(), IoFault>
    ensures gives { (transfers : List Transfer) → (due ≡ true
        → IsTransferScanAtLatest wanted.now unpacker.old.latest abandoned transfers)
        → AfterWrite W.state E.state writers.old writers.new (on_report (line_due wanted.now due
        transfers)) result }
    ensures good { (transfers : List Transfer) → (due ≡ true
        → IsTransferScanAtLatest wanted.now unpacker.old.latest abandoned transfers)
        → unpacker.new.good ≡ (unpacker.old.good && good_due due transfers) }
    ensures latest { unpacker.new.latest ≡ unpacker.old.latest }
{
    if due {
        report_line(abandoned, writers, unpacker)
    } else {
        Ok(())
    }
}

/// Writes the line of the latest transfer. If `abandoned`, the transfer was abandoned, and else it
/// is closed. If the transfer is not good, `good` becomes false.
#[inline(never)]
fn report_line<W: OutDevice, E: OutDevice>(
    abandoned: bool,
    writers: &mut Writers<W, E>,
    unpacker: &mut Unpacker,
) -> Result<(), IoFault>
    ensures gives { (wanted : Wanted) (transfer : Transfer) (earlier : List Transfer)
        → IsTransferScanAt wanted unpacker.old.latest transfer earlier
        → abandoned ≡ not transfer.closed
        → AfterWrite W.state E.state writers.old writers.new (on_report (line_of wanted transfer
        earlier)) result }
    ensures good { (wanted : Wanted) (transfer : Transfer) (earlier : List Transfer)
        → IsTransferScanAt wanted unpacker.old.latest transfer earlier
        → abandoned ≡ not transfer.closed
        → unpacker.new.good ≡ (unpacker.old.good && is_good (judgement_of transfer)) }
    ensures latest { unpacker.new.latest ≡ unpacker.old.latest }
{
    let line = unpacker.latest.line(abandoned);
    let good = is_bundle(&line.entry.judgement);
    let written = writers.report_text(&line);
    unpacker.good = unpacker.good && good;
    written
}

/// A run of `unpack`, step by step.
pub type UnpackRun<R, W, E> = WalkRun<R, W, E, Unpacker>;

/// Makes a run of `unpack` that has read and written nothing.
pub fn unpack_run<R: InDevice, W: OutDevice, E: OutDevice>(
    wanted: Wanted,
    reader: R,
    output: W,
    report: E,
) -> UnpackRun<R, W, E>
    requires sound { NoneFailed (looks R.state W.state E.state) (devices reader output report) }
    ensures { IsNewRun ⟦<UnpackRun<R, W, E> as Run<R, W, E>>⟧ (unpack_tool wanted)
        (devices reader output report) result }
{
    walk_run(wanted, Unpacker::new(), reader, output, report)
}

/// Unpacks a recorded stream, to the end of the run.
///
/// The output has the selected data of the transfers, one after another. The report has a line for
/// each transfer. If a fault stops the stream, a transfer that is still open has no line. Then the
/// report ends with the line of the fault, and the status is 3. Otherwise the status is 1 if a
/// transfer is not good or a message was not in order, and else 0.
///
/// Without [`Wanted::keep_going`], a message that is not in order stops the stream. With it, the
/// report has a line for such a message, before the lines of the transfers that the message
/// abandons or closes.
///
/// The answer is an error if a device failed, or the input has more than 2^63 - 1 bytes.
#[inline(never)]
pub fn unpack<R: InDevice, W: OutDevice, E: OutDevice>(
    wanted: Wanted,
    reader: R,
    output: W,
    report: E,
) -> RunEnd<R, W, E>
    requires sound { NoneFailed (looks R.state W.state E.state) (devices reader output report) }
    ensures { AfterRun (looks R.state W.state E.state) (unpack_tool wanted)
        (devices reader output report) result }
{
    unpack_run(wanted, reader, output, report).run()
}
