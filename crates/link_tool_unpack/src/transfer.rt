//! The latest transfer of a stream: the bytes of it that are written, and its line.

ghost use Rattle.std.specs.Prelude.{◌≡◌, ◌+◌, ◌^◌, ◌≤◌, ◌<◌, length};
ghost use Rattle.link_report.specs.Judgement.{viewed_judgement};

use link_bundle::part_in;
use link_report::{TransferText, TransferView};
use link_run_judge::TransferJudge;
use link_tool_option_types::Wanted;
use link_wire::{INPUT_LIMIT, MessageBuffer};

/// Scans one transfer after another. It keeps the values for a transfer's line, but no data.
#[derive(Drop)]
pub struct TransferScan {
    judge: TransferJudge,
    /// The offset in the output where its bytes begin.
    start: u64,
    /// The number of its bytes that were written.
    written: u64,
    /// The number of bytes of data of all transfers so far.
    total: u64,
    ghost sized: { judge.size ≤ total },
    ghost sum: { start + written ≤ total },
    ghost limit: { total < 2 ^ 63 },
}

impl TransferScan {
    ghost use Rattle.std.specs.Prelude.{true, not, ◌++◌, List, ℕ};
    ghost use Rattle.link_report.specs.Transfer.{transfer_text, viewed_transfer};
    ghost use Rattle.link_wire.specs.Codes.{is_start};
    ghost use Rattle.link_wire.specs.MessageBuffer.{IfSegmentItemsHaveTotals, message_of};
    ghost use Rattle.link_wire.specs.declared.message.Message.{Message};
    ghost use Rattle.link_wire.specs.declared.message.SegmentHead.{SegmentHead};
    ghost use Rattle.link_bundle.specs.Scan.{HasJudged};
    ghost use Rattle.link_run_judge.specs.Transfers.{Transfer};
    ghost use Rattle.link_run_judge.specs.Unpacking.{parts_of, part_of, line_of, judgement_of, is_good};
    ghost use Rattle.link_run_judge.specs.TransferJudge.{IsTransferJudgeAt, begun, grown};
    ghost use Rattle.link_tool_unpack.specs.TransferScan.{IsTransferScanAt};
    ghost use Rattle.link_tool_option_types.specs.declared.wanted.Wanted.{Wanted};

    /// Makes a scan for the first transfer of a stream.
    pub fn new() -> TransferScan
        ensures start { result.start ≡ 0 }
        ensures written { result.written ≡ 0 }
        ensures total { result.total ≡ 0 }
    {
        TransferScan {
            judge: TransferJudge::new(),
            start: 0,
            written: 0,
            total: 0,
        }
    }

    /// Begins the transfer whose first segment has this head. Its bytes in the output come after
    /// those of the transfer before it.
    ///
    /// The contract holds for any `wanted`, whether the transfer is `closed` or not.
    pub fn begin(&mut self, message: &MessageBuffer)
        requires { IfSegmentItemsHaveTotals message.now }
        ensures follows { (wanted : Wanted) (head : SegmentHead) (closed : _)
            (earlier : List Transfer)
            → message_of message.now ≡ Message.Segment head → is_start head.flags ≡ true
            → self.old.start + self.old.written ≡ length (parts_of wanted earlier)
            → IsTransferScanAt wanted self.new (begun head closed) earlier }
        ensures total { self.new.total ≡ self.old.total }
    {
        self.judge.begin(message);
        self.start += self.written;
        self.written = 0;
    }

    /// Takes the next piece of the transfer's data, and returns the bytes of it to be written.
    ///
    /// If all data together would be longer than any input, it takes nothing. This never happens in
    /// a run, since the data is part of its input.
    #[inline(always)]
    pub fn take<'a>(&mut self, wanted: &Wanted, piece: &'a [u8]) -> &'a [u8]
        ensures follows { (transfer : Transfer) (closed : _) (earlier : List Transfer)
            → self.old.total + length piece.now < 2 ^ 63
            → IsTransferScanAt wanted.now self.old transfer earlier
            → IsTransferScanAt wanted.now self.new (grown transfer piece.now closed) earlier }
        ensures part { (transfer : Transfer) (closed : _) (earlier : List Transfer)
            → self.old.total + length piece.now < 2 ^ 63
            → IsTransferScanAt wanted.now self.old transfer earlier
            → part_of wanted.now (grown transfer piece.now closed) ≡ part_of wanted.now
            transfer ++ result.now }
        ensures total { self.new.total ≤ self.old.total + length piece.now }
    {
        if piece.len() as u64 > INPUT_LIMIT - self.total {
            return &[];
        }
        self.total += piece.len() as u64;
        self.judge.take(piece);
        let part = self.part(wanted, piece);
        self.written += part.len() as u64;
        part
    }

    /// The bytes to be written of a piece that the judge has just taken.
    ///
    /// In the contract, `transfer` is the transfer without the piece. The contract holds for any
    /// `closed`.
    fn part<'a>(&self, wanted: &Wanted, piece: &'a [u8]) -> &'a [u8]
        requires { length piece.now ≤ self.now.judge.size }
        ensures part { (transfer : Transfer) (closed : _)
            → IsTransferJudgeAt self.now.judge (grown transfer piece.now closed)
            → part_of wanted.now (grown transfer piece.now closed) ≡ part_of wanted.now
            transfer ++ result.now }
        ensures size { length result.now ≤ length piece.now }
    {
        if !self.judge.is_selected(wanted.only) {
            return &[];
        }
        if !wanted.payload {
            return piece;
        }
        match self.judge.scan.payload_seen() {
            Some((offset, count)) => {
                part_in(piece, self.judge.size - piece.len() as u64, offset, count)
            }
            None => &[],
        }
    }

    /// The line of the transfer. If `abandoned`, the transfer was abandoned, and else it is closed.
    #[inline(always)]
    pub fn line(&self, abandoned: bool) -> TransferText<'_>
        ensures text { (wanted : Wanted) (transfer : Transfer) (earlier : List Transfer)
            → IsTransferScanAt wanted self.now transfer earlier → abandoned ≡ not transfer.closed
            → transfer_text (viewed_transfer result.entry) ≡ line_of wanted transfer earlier }
        ensures good { (wanted : Wanted) (transfer : Transfer) (earlier : List Transfer)
            → IsTransferScanAt wanted self.now transfer earlier → abandoned ≡ not transfer.closed
            → is_good (viewed_judgement result.entry.judgement) ≡ is_good (judgement_of transfer) }
    {
        TransferText {
            entry: TransferView {
                id: self.judge.id,
                start: self.start,
                written: self.written,
                length: self.judge.size,
                judgement: self.judge.judgement(abandoned),
            },
        }
    }
}
