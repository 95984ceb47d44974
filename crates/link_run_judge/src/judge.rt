//! The judgement on a transfer, made as its data comes.

ghost use Rattle.std.specs.Prelude.{◌≡◌, ◌+◌, ◌^◌, ◌≤◌, ◌<◌, true, not, length};
ghost use Rattle.link_bundle.specs.Scan.{scan_size};
ghost use Rattle.link_report.specs.Judgement.{viewed_judgement};
ghost use Rattle.link_run_judge.specs.Unpacking.{is_good};

use link_bundle::BundleScan;
use link_report::{JudgementView, judge_view};
use link_transfer::{Announced, announced};
use link_wire::{Fields, MessageBuffer};

/// Judges one transfer after another. It keeps the values for the judgement, but no data.
#[derive(Drop)]
pub struct TransferJudge {
    /// The transfer ID.
    pub id: u64,
    /// The length that its extension items announce.
    pub announced: Announced,
    /// The number of its bytes of data so far.
    pub size: u64,
    /// The scan of its data, as a bundle.
    pub scan: BundleScan,
    ghost scanned: { scan_size scan ≤ size },
    ghost limit: { size < 2 ^ 63 },
}

/// Whether the transfer was judged to be a good bundle, and was not abandoned.
#[inline(always)]
pub fn is_bundle(judgement: &JudgementView<'_>) -> bool
    ensures { result ≡ is_good (viewed_judgement judgement.now) }
{
    matches!(judgement, JudgementView::Good(_))
}

impl TransferJudge {
    ghost use Rattle.link_wire.specs.Codes.{is_start};
    ghost use Rattle.link_wire.specs.MessageBuffer.{IfSegmentItemsHaveTotals, message_of};
    ghost use Rattle.link_wire.specs.declared.message.Message.{Message};
    ghost use Rattle.link_wire.specs.declared.message.SegmentHead.{SegmentHead};
    ghost use Rattle.link_report.specs.Judgement.{HasOnlyShortNames};
    ghost use Rattle.link_run_judge.specs.Transfers.{Transfer};
    ghost use Rattle.link_run_judge.specs.TransferJudge.{IsTransferJudgeAt, begun, grown};
    ghost use Rattle.link_run_judge.specs.Unpacking.{is_selected, judgement_of};

    /// Makes a judge for the first transfer of a stream.
    pub fn new() -> TransferJudge
        ensures size { result.size ≡ 0 }
    {
        TransferJudge {
            id: 0,
            announced: Announced::Absent,
            size: 0,
            scan: BundleScan::new(),
        }
    }

    /// Begins the transfer whose first segment has this head. A message of another kind changes
    /// nothing.
    ///
    /// The contract holds for any `closed`: a judge does not keep whether its transfer is closed.
    pub fn begin(&mut self, message: &MessageBuffer)
        requires { IfSegmentItemsHaveTotals message.now }
        ensures follows { (head : SegmentHead) (closed : _) → message_of message.now
            ≡ Message.Segment head → is_start head.flags ≡ true
            → IsTransferJudgeAt self.new (begun head closed) }
        ensures size { self.new.size ≤ self.old.size }
    {
        if let Fields::Segment { id, .. } = message.fields {
            self.id = id;
            self.announced = announced(&message.items);
            self.size = 0;
            self.scan.restart();
        }
    }

    /// Judges the next piece of the transfer's data. The contract holds for any `closed`, as in
    /// [`TransferJudge::begin`].
    #[inline(always)]
    pub fn take(&mut self, piece: &[u8])
        requires { self.old.size + length piece.now < 2 ^ 63 }
        ensures follows { (transfer : Transfer) (closed : _) → IsTransferJudgeAt self.old transfer
            → IsTransferJudgeAt self.new (grown transfer piece.now closed) }
        ensures size { self.new.size ≡ self.old.size + length piece.now }
        ensures id { self.new.id ≡ self.old.id }
    {
        self.size += piece.len() as u64;
        self.scan.judge_piece(piece);
    }

    /// Whether `only` selects the transfer. `None` selects every transfer.
    #[inline(always)]
    pub fn is_selected(&self, only: Option<u64>) -> bool
        ensures { result ≡ is_selected only self.now.id }
    {
        match only {
            Some(only) => only == self.id,
            None => true,
        }
    }

    /// The judgement on the transfer. `abandoned` is whether the transfer was abandoned; false
    /// means that it is closed.
    #[inline(always)]
    pub fn judgement(&self, abandoned: bool) -> JudgementView<'_>
        ensures judged { (transfer : Transfer) → IsTransferJudgeAt self.now transfer
            → abandoned ≡ not transfer.closed
            → viewed_judgement result ≡ judgement_of transfer }
        // The names of a good bundle's endpoints are short. The scan has no room for longer ones.
        ensures short { HasOnlyShortNames (viewed_judgement result) }
    {
        judge_view(abandoned, self.announced, self.size, self.scan.view())
    }
}
