//! The latest transfer of a stream, as far as its rules need it.

ghost use Rattle.std.specs.Prelude.{◌≡◌, ◌+◌, ◌^◌, ◌≤◌, ◌<◌, ℕ, List, length};
ghost use Rattle.link_wire.specs.MessageBuffer.{IfSegmentItemsHaveTotals, message_of};
ghost use Rattle.link_wire.specs.declared.message.Message.{Message};
ghost use Rattle.link_wire.specs.declared.message.SegmentHead.{SegmentHead};
ghost use Rattle.link_session_rules.specs.TransferRules.{opening_of};
ghost use Rattle.link_tool_check.specs.BundleReader.{data_size};

use crate::bundle::{BundleReader, Origin};
use crate::lines::write_rules;
use link_report_broken_rules::BundlePlace;
use link_rules_shared::Doubt;
use link_run::Writers;
use link_run_judge::TransferJudge;
use link_run_over_transfers::HeadView;
use link_session_rules::{Opening, TransferRule, data_rule};
use link_tool_option_types::NodeId;
use link_transfer::Announced;
use link_wire::{Fields, INPUT_LIMIT, IoFault, MessageBuffer, OutDevice};

/// Reads one transfer after another, and judges each that is over.
#[derive(Drop)]
pub(crate) struct CheckedTransfer {
    /// The offset of the first segment.
    offset: u64,
    /// What the rules of its length need of the first segment.
    opening: Opening,
    pub(crate) judge: TransferJudge,
    bundle: BundleReader,
    ghost read: { data_size bundle ≤ judge.size },
}

/// What `opening` is before the first transfer.
const NO_OPENING: Opening = Opening {
    announced: Announced::Absent,
    single: false,
    has_other_item: false,
};

/// What the rules of a transfer's length need of its first segment. `message` is the head of this
/// segment. For a message of another kind, the result is `NO_OPENING`.
fn opening_of(message: &MessageBuffer) -> Opening
    requires { IfSegmentItemsHaveTotals message.now }
    ensures { (first : SegmentHead) → message_of message.now ≡ Message.Segment first
        → result ≡ opening_of first }
{
    match message.fields {
        Fields::Segment { flags, .. } => Opening::of(message, flags),
        _ => NO_OPENING,
    }
}

impl CheckedTransfer {
    ghost use Rattle.std.specs.Prelude.{true, []};
    ghost use Rattle.link_bundle_blocks.specs.Bundle.{verdict};
    ghost use Rattle.link_wire.specs.Codes.{is_start};
    ghost use Rattle.link_wire.specs.MessageBuffer.{IfSegmentItemsHaveTotals, message_of};
    ghost use Rattle.link_wire.specs.declared.message.Message.{Message};
    ghost use Rattle.link_wire.specs.declared.message.SegmentHead.{SegmentHead};
    ghost use Rattle.link_run.specs.Run.{no_texts};
    ghost use Rattle.link_run_over_bundle_files.specs.Telling.{WritesRestOfTexts};
    ghost use Rattle.link_tool_check.specs.Checking.{BegunTransfer, closed_texts, data_texts, item_doubt, open_texts, with_bytes};
    ghost use Rattle.link_tool_check.specs.Checker.{IsCheckedTransferAt};
    ghost use Rattle.link_tool_check.specs.Writing.{WritesRules};

    /// What is kept before the first transfer of a stream.
    pub(crate) fn new() -> CheckedTransfer
        ensures size { result.judge.size ≡ 0 }
    {
        CheckedTransfer {
            offset: 0,
            opening: NO_OPENING,
            judge: TransferJudge::new(),
            bundle: BundleReader::new(),
        }
    }

    /// Begins the transfer whose first segment has this head.
    ///
    /// A head that is no segment leaves the judge as it is. By the clause `size`, the judge's size
    /// never grows here, so a bound on it still holds.
    pub(crate) fn begin(&mut self, head: &HeadView<'_>)
        requires { IfSegmentItemsHaveTotals head.now.message.now }
        ensures follows { (first : SegmentHead) → message_of head.now.message.now
            ≡ Message.Segment first → is_start first.flags ≡ true
            → (own : List ℕ) → IsCheckedTransferAt own self.new
            (record { offset = head.now.offset; first = first; content = [] }) }
        ensures size { self.new.judge.size ≤ self.old.judge.size }
    {
        self.offset = head.offset;
        self.opening = opening_of(head.message);
        self.judge.begin(head.message);
        self.bundle.restart();
    }

    /// Reads the next bytes of the transfer's data.
    ///
    /// `own` is the node ID of the node whose security blocks are judged, or empty.
    ///
    /// If the data would become longer than an input can be, the call takes nothing. This never
    /// happens in a run, since the data is part of the run's input.
    #[inline(always)]
    pub(crate) fn take<W: OutDevice, E: OutDevice>(
        &mut self,
        own: &NodeId,
        bytes: &[u8],
        writers: &mut Writers<W, E>,
    ) -> Result<(), IoFault>
        ensures gives { (begun : BegunTransfer) → self.old.judge.size + length bytes.now < 2 ^ 63
            → IsCheckedTransferAt own.now.items self.old begun
            → WritesRestOfTexts W.state E.state no_texts no_texts
            (IsCheckedTransferAt own.now.items self.new (with_bytes bytes.now begun)) writers.old writers.new
            result }
        ensures size { self.new.judge.size ≤ self.old.judge.size + length bytes.now }
    {
        if bytes.len() as u64 > INPUT_LIMIT - self.judge.size {
            return Ok(());
        }
        let before = self.judge.size;
        self.judge.size += bytes.len() as u64;
        self.bundle
            .take(own, before, bytes, &mut self.judge.scan, writers)
    }

    /// What an extension item of an unknown type may have changed in the transfer.
    fn doubt(&self) -> Doubt
        ensures { (own : List ℕ) (begun : BegunTransfer) → IsCheckedTransferAt own self.now begun
            → result ≡ item_doubt begun }
    {
        if self.opening.has_other_item {
            Doubt::WholeBundle
        } else {
            Doubt::Nothing
        }
    }

    /// Writes the lines of the rules that the closed transfer breaks.
    ///
    /// `must` is whether only rules of level `must` count. The others have no lines. If a broken
    /// rule counts, `good` becomes false. `own` is the node ID of the node whose bundles are
    /// judged, and `sender` that of the sender; each may be empty.
    #[inline(never)]
    pub(crate) fn write_closed<W: OutDevice, E: OutDevice>(
        &self,
        must: bool,
        own: &[u8],
        sender: &[u8],
        writers: &mut Writers<W, E>,
        good: &mut bool,
    ) -> Result<(), IoFault>
        ensures { (begun : BegunTransfer) → IsCheckedTransferAt own.now self.now begun
            → WritesRules W.state E.state must writers.old writers.new good.old good.new result
            (closed_texts own.now sender.now begun) }
    {
        let rules = self.opening.rules(self.judge.size);
        let written = write_rules(
            must,
            self.offset,
            self.doubt(),
            self.judge.id,
            rules.as_slice(),
            writers,
            good,
        );
        if let Err(fault) = written {
            return Err(fault);
        }
        self.write_data(must, own, sender, writers, good)
    }

    /// Writes the lines of the rules that the data of a closed transfer breaks. A good bundle may
    /// break rules of bundles. Any other data breaks one rule of transfers.
    fn write_data<W: OutDevice, E: OutDevice>(
        &self,
        must: bool,
        own: &[u8],
        sender: &[u8],
        writers: &mut Writers<W, E>,
        good: &mut bool,
    ) -> Result<(), IoFault>
        ensures { (begun : BegunTransfer) → IsCheckedTransferAt own.now self.now begun
            → WritesRules W.state E.state must writers.old writers.new good.old good.new result
            (data_texts own.now sender.now begun (verdict begun.content)) }
    {
        let id = self.judge.id;
        match self.judge.scan.view() {
            Ok(info) => {
                let origin = Origin {
                    offset: self.offset,
                    place: BundlePlace::Transfer(id),
                    sender,
                    has_other_item: self.opening.has_other_item,
                };
                self.bundle
                    .write_rules(must, own, &origin, &info, writers, good)
            }
            Err((fault, byte)) => {
                let rule = data_rule(fault, byte, &self.bundle.unread());
                write_rules(must, self.offset, self.doubt(), id, &[rule], writers, good)
            }
        }
    }

    /// Writes the line of the rule that a transfer breaks by staying open to the end of the stream.
    ///
    /// `must` and `good` are as in [`CheckedTransfer::write_closed`].
    #[inline(never)]
    pub(crate) fn write_open<W: OutDevice, E: OutDevice>(
        &self,
        must: bool,
        writers: &mut Writers<W, E>,
        good: &mut bool,
    ) -> Result<(), IoFault>
        ensures { (own : List ℕ) (begun : BegunTransfer) → IsCheckedTransferAt own self.now begun
            → WritesRules W.state E.state must writers.old writers.new good.old good.new result
            (open_texts begun) }
    {
        let rule = TransferRule::Unfinished {
            length: self.judge.size,
        };
        let id = self.judge.id;
        write_rules(must, self.offset, self.doubt(), id, &[rule], writers, good)
    }
}
