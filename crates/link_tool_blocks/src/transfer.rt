//! The latest transfer of a stream, and the lines of its blocks.

ghost use Rattle.std.specs.Prelude.{◌≡◌, ◌+◌, ◌^◌, ◌≤◌, ◌<◌, true, length};
ghost use Rattle.link_bundle_data_in_pieces.specs.DataReader.{read_size};

use crate::block_lines::BlockLines;
use link_bundle_data_in_pieces::DataReader;
use link_run::Writers;
use link_run_judge::TransferJudge;
use link_run_over_bundle_files::tell_piece;
use link_tool_option_types::BlockOptions;
use link_wire::{INPUT_LIMIT, IoFault, MessageBuffer, OutDevice};

/// Judges one transfer after another, and shows the blocks of those that are selected.
#[derive(Drop)]
pub(crate) struct TransferBlocks {
    pub(crate) judge: TransferJudge,
    reader: DataReader,
    ghost read: { read_size reader ≤ judge.size },
}

impl TransferBlocks {
    ghost use Rattle.link_wire.specs.Codes.{is_start};
    ghost use Rattle.link_wire.specs.MessageBuffer.{IfSegmentItemsHaveTotals, message_of};
    ghost use Rattle.link_wire.specs.declared.message.Message.{Message};
    ghost use Rattle.link_wire.specs.declared.message.SegmentHead.{SegmentHead};
    ghost use Rattle.link_run_judge.specs.Transfers.{Transfer};
    ghost use Rattle.link_run_judge.specs.TransferJudge.{begun, grown};
    ghost use Rattle.link_run.specs.Writers.{on_output};
    ghost use Rattle.link_run_over_bundle_files.specs.Telling.{WritesRestOfTexts};
    ghost use Rattle.link_tool_blocks.specs.Showing.{transfer_lines};
    ghost use Rattle.link_tool_blocks.specs.TransferBlocks.{IsTransferBlocksAt};

    /// What is known before the first transfer of a stream.
    pub(crate) fn new() -> TransferBlocks
        ensures size { result.judge.size ≡ 0 }
    {
        TransferBlocks {
            judge: TransferJudge::new(),
            reader: DataReader::new(),
        }
    }

    /// Begins the transfer whose first segment has this head.
    ///
    /// The contract holds for any selection `only`. `closed` is whether the transfer is closed
    /// after this head, which makes no difference here.
    pub(crate) fn begin(&mut self, message: &MessageBuffer)
        requires { IfSegmentItemsHaveTotals message.now }
        ensures follows { (only : _) (head : SegmentHead) (closed : _)
            → message_of message.now ≡ Message.Segment head → is_start head.flags ≡ true
            → IsTransferBlocksAt only self.new (begun head closed) }
        ensures size { self.new.judge.size ≤ self.old.judge.size }
    {
        self.judge.begin(message);
        self.reader.restart();
    }

    /// Takes the next piece of the transfer's data. If the transfer is selected, writes the line of
    /// each block that the piece completes.
    ///
    /// If the data would become longer than an input can be, the call takes nothing. This never
    /// happens in a run, since the data is part of the run's input.
    ///
    /// `closed` is whether the transfer is closed after the piece, which makes no difference here.
    #[inline(always)]
    pub(crate) fn take<W: OutDevice, E: OutDevice>(
        &mut self,
        options: &BlockOptions,
        piece: &[u8],
        writers: &mut Writers<W, E>,
    ) -> Result<(), IoFault>
        ensures gives { (transfer : Transfer) (closed : _)
            → self.old.judge.size + length piece.now < 2 ^ 63
            → IsTransferBlocksAt options.now.only self.old transfer
            → WritesRestOfTexts W.state E.state
            (on_output (transfer_lines options.now.only true transfer))
            (on_output (transfer_lines options.now.only true (grown transfer piece.now closed)))
            (IsTransferBlocksAt options.now.only self.new (grown transfer piece.now closed))
            writers.old writers.new result }
        ensures size { self.new.judge.size ≤ self.old.judge.size + length piece.now }
    {
        if piece.len() as u64 > INPUT_LIMIT - self.judge.size {
            return Ok(());
        }
        if !self.judge.is_selected(options.only) {
            self.judge.take(piece);
            return Ok(());
        }
        let before = self.judge.size;
        self.judge.size += piece.len() as u64;
        tell_piece(
            &(),
            self.judge.id,
            before,
            piece,
            &mut self.judge.scan,
            &mut self.reader,
            &mut BlockLines,
            writers,
        )
    }
}
