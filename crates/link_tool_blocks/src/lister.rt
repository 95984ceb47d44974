//! `blocks`: the lines of the blocks in the transfers of a recorded stream.

ghost use Rattle.std.specs.Prelude.{◌≡◌, ◌&&◌, true, [], List, if◌then◌else◌};
ghost use Rattle.link_run.specs.Run.{devices, looks, NoneFailed};
ghost use Rattle.link_run.specs.NewRun.{IsNewRun};
ghost use Rattle.link_run.specs.WholeRun.{AfterRun};
ghost use Rattle.link_run.specs.Writers.{AfterWrite, on_output};
ghost use Rattle.link_run_judge.specs.Transfers.{Transfer};
ghost use Rattle.link_report.specs.Judgement.{viewed_judgement};
ghost use Rattle.link_report_blocks.specs.Blocks.{end_text};
ghost use Rattle.link_run_judge.specs.Unpacking.{good_due, is_selected};
ghost use Rattle.link_tool_blocks.specs.Lister.{IsTransferBlocksAtLatest, IsBlockListerAt, end_due};
ghost use Rattle.link_tool_blocks.specs.Showing.{blocks_telling, blocks_tool};
ghost use Rattle.link_tool_option_types.specs.declared.blocks.BlockOptions.{BlockOptions};

use crate::transfer::TransferBlocks;
use link_report::JudgementView;
use link_report_blocks::EndText;
use link_run::{Run, RunEnd, Writers};
use link_run_judge::{TransferJudge, is_bundle, tell_order};
use link_run_over_transfers::{Consumer, EventView, Manner, WalkRun, walk_run};
use link_tool_option_types::BlockOptions;
use link_wire::{InDevice, IoFault, OutDevice};

/// What is known about the transfers so far.
#[derive(Drop)]
pub struct BlockLister {
    latest: TransferBlocks,
    /// Whether every head was in order, and every transfer that is over is good.
    good: bool,
}

impl BlockLister {
    /// Makes a lister that has had no event. The contract holds for any options.
    pub fn new() -> BlockLister
        ensures { (options : BlockOptions) → IsBlockListerAt options result [] }
    {
        BlockLister {
            latest: TransferBlocks::new(),
            good: true,
        }
    }
}

impl Consumer for BlockLister {
    type Options = BlockOptions;

    ghost telling = { blocks_telling };

    ghost knows = { IsBlockListerAt };

    #[inline(always)]
    fn manner(options: &BlockOptions) -> Manner {
        Manner {
            goes_on: options.keep_going,
            all_heads: false,
        }
    }

    /// The output of an event is written before its report.
    #[inline(always)]
    fn event<W: OutDevice, E: OutDevice>(
        &mut self,
        options: &BlockOptions,
        event: EventView<'_>,
        writers: &mut Writers<W, E>,
    ) -> Result<(), IoFault> {
        match event {
            EventView::Contact(_) => Ok(()),
            EventView::Head(head) => {
                if let Err(fault) = show_end(options, head.abandons(), true, writers, self) {
                    return Err(fault);
                }
                if head.begins() {
                    self.latest.begin(head.message);
                }
                if let Err(fault) = show_end(options, head.closes(), false, writers, self) {
                    return Err(fault);
                }
                tell_order(head.offset, head.fault, writers, &mut self.good)
            }
            // This comes only to a tool that is told of every head.
            EventView::Inner { .. } => Ok(()),
            EventView::Data { bytes, whole } => {
                if let Err(fault) = self.latest.take(options, bytes, writers) {
                    return Err(fault);
                }
                show_end(options, whole, false, writers, self)
            }
            // The line is due, and the transfer was abandoned.
            EventView::LeftOpen => show_end(options, true, true, writers, self),
        }
    }

    #[inline(always)]
    fn is_good(&self, _options: &BlockOptions) -> bool {
        self.good
    }
}

/// If the latest transfer is over now, does [`show_end_line`] for it. If not, does nothing.
///
/// `due` is whether it is over now. `abandoned` is whether it was abandoned. If it is over and was
/// not abandoned, it is closed.
#[inline(always)]
fn show_end<W: OutDevice, E: OutDevice>(
    options: &BlockOptions,
    due: bool,
    abandoned: bool,
    writers: &mut Writers<W, E>,
    lister: &mut BlockLister,
) -> Result<(), IoFault>
    ensures gives { (transfers : List Transfer) → (due ≡ true
        → IsTransferBlocksAtLatest options.now.only lister.old.latest abandoned transfers)
        → AfterWrite W.state E.state writers.old writers.new (on_output (end_due options.now.only
        due transfers)) result }
    ensures good { (transfers : List Transfer) → (due ≡ true
        → IsTransferBlocksAtLatest options.now.only lister.old.latest abandoned transfers)
        → lister.new.good ≡ (lister.old.good && good_due due transfers) }
    ensures latest { lister.new.latest ≡ lister.old.latest }
{
    if due {
        show_end_line(options, abandoned, writers, lister)
    } else {
        Ok(())
    }
}

/// If the latest transfer is selected, writes the line of its end. If the transfer is not good,
/// selected or not, sets `good` of the lister to false.
///
/// `abandoned` is whether the transfer was abandoned. If it was not, it is closed.
#[inline(never)]
fn show_end_line<W: OutDevice, E: OutDevice>(
    options: &BlockOptions,
    abandoned: bool,
    writers: &mut Writers<W, E>,
    lister: &mut BlockLister,
) -> Result<(), IoFault>
    ensures gives { (transfers : List Transfer)
        → IsTransferBlocksAtLatest options.now.only lister.old.latest abandoned transfers
        → AfterWrite W.state E.state writers.old writers.new (on_output (end_due options.now.only
        true transfers)) result }
    ensures good { (transfers : List Transfer)
        → IsTransferBlocksAtLatest options.now.only lister.old.latest abandoned transfers
        → lister.new.good ≡ (lister.old.good && good_due true transfers) }
    ensures latest { lister.new.latest ≡ lister.old.latest }
{
    let judgement = lister.latest.judge.judgement(abandoned);
    let good = is_bundle(&judgement);
    let written = write_end(options, &lister.latest.judge, &judgement, writers);
    lister.good = lister.good && good;
    written
}

/// Writes the line of the end of a transfer with this judgement, if the transfer is selected.
fn write_end<W: OutDevice, E: OutDevice>(
    options: &BlockOptions,
    judge: &TransferJudge,
    judgement: &JudgementView<'_>,
    writers: &mut Writers<W, E>,
) -> Result<(), IoFault>
    ensures { AfterWrite W.state E.state writers.old writers.new (on_output (if is_selected
        options.now.only judge.now.id then end_text judge.now.id judge.now.size (viewed_judgement
        judgement.now) else [])) result }
{
    if !judge.is_selected(options.only) {
        return Ok(());
    }
    writers.write_text(&EndText {
        id: judge.id,
        length: judge.size,
        judgement,
    })
}

/// A run of `blocks`, step by step.
pub type BlocksRun<R, W, E> = WalkRun<R, W, E, BlockLister>;

/// Makes a run of `blocks` that has read and written nothing.
pub fn blocks_run<R: InDevice, W: OutDevice, E: OutDevice>(
    options: BlockOptions,
    reader: R,
    output: W,
    report: E,
) -> BlocksRun<R, W, E>
    requires sound { NoneFailed (looks R.state W.state E.state) (devices reader output report) }
    ensures { IsNewRun ⟦<BlocksRun<R, W, E> as Run<R, W, E>>⟧ (blocks_tool options)
        (devices reader output report) result }
{
    walk_run(options, BlockLister::new(), reader, output, report)
}

/// Shows the blocks of a recorded stream, to the end of the run.
///
/// The output has a line for each whole block of the selected transfers, and a line for the end of
/// each of these transfers. If a fault stops the stream, a transfer that is still open has no line
/// of its end. Then the report ends with the line of the fault, and the status is 3. Otherwise the
/// status is 1 if a transfer is not good or a message was not in order, and else 0. Transfers that
/// are not selected count too.
///
/// A message that is not in order is a fault that stops the stream. If
/// [`BlockOptions::keep_going`] is set, the stream goes on, and the report has a line for each such
/// message.
///
/// The answer is an error if a device failed, or the input has more than 2^63 - 1 bytes.
#[inline(never)]
pub fn blocks<R: InDevice, W: OutDevice, E: OutDevice>(
    options: BlockOptions,
    reader: R,
    output: W,
    report: E,
) -> RunEnd<R, W, E>
    requires sound { NoneFailed (looks R.state W.state E.state) (devices reader output report) }
    ensures { AfterRun (looks R.state W.state E.state) (blocks_tool options)
        (devices reader output report) result }
{
    blocks_run(options, reader, output, report).run()
}
