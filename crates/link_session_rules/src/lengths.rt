//! Rules of the lengths of segments and transfers.

ghost use Rattle.std.specs.Prelude.{◌≡◌, ℕ, ◌+◌, List, [], ◌∷◌, ◌++◌, option_map};
ghost use Rattle.link_wire.specs.MessageBuffer.{message_of, IfSegmentItemsHaveTotals};
ghost use Rattle.link_wire.specs.declared.message.SegmentHead.{SegmentHead};
ghost use Rattle.link_session_rules.specs.Heads.{HeadWithOrder, viewed_head};
ghost use Rattle.link_session_rules.specs.Lengths.{peer_segment, if_passed, if_exceeded, earlier_of, segments_of, peer_transfer};
ghost use Rattle.link_session_rules.specs.Remembered.{within_64_bits, so_far_of};

use crate::head::{JudgedHeadView, announcement};
use crate::rule::MessageRule;
use link_transfer::{Announced, Turn};
use link_wire::{Fields, MessageBuffer};

/// The segments of one transfer so far.
#[derive(Clone, Copy, Debug, PartialEq, Eq)]
pub(crate) struct TransferSoFar {
    /// The length that the first segment announces.
    announced: Announced,
    /// The length of the data, or `None` if it exceeds 64 bits, and so every limit.
    sent: Option<u64>,
}

/// The rule of the peer's Segment MRU, if it is broken.
#[tactic(auto, unfolding(crate::specs::Lengths::peer_segment))]
#[inline(always)]
pub(crate) fn peer_segment(limit: Option<u64>, message: &MessageBuffer) -> Option<MessageRule>
    ensures { result ≡ peer_segment limit (message_of message.now) }
{
    match (message.fields, limit) {
        (Fields::Segment { length, .. }, Some(limit)) if length > limit => {
            Some(MessageRule::PeerSegment { length, limit })
        }
        _ => None,
    }
}

/// The rule that a segment breaks if its `length` bytes of data take the transfer past the limit.
///
/// `before` is the number of bytes of data before it, or `None` if that exceeds 64 bits. An earlier
/// segment has then passed the limit, so this one breaks no rule.
fn passed(limit: u64, before: Option<u64>, length: u64) -> Option<MessageRule>
    ensures { (sum : ℕ) → before ≡ within_64_bits sum → result ≡ if_passed limit sum length }
{
    let before = before?;
    let sum = u128::from(before) + u128::from(length);
    if before <= limit && u128::from(limit) < sum {
        return Some(MessageRule::PeerTransferLength { length: sum, limit });
    }
    None
}

impl TransferSoFar {
    ghost use Rattle.std.specs.Prelude.{◌≡◌, List, [], ◌∷◌, Some};
    ghost use Rattle.link_wire.specs.Message.{HaveTotalsIfLengthItems};
    ghost use Rattle.link_wire.specs.MessageBuffer.{segment_items};
    ghost use Rattle.link_wire.specs.declared.message.SegmentHead.{SegmentHead};
    ghost use Rattle.link_transfer.specs.Announced.{announced_of};
    ghost use Rattle.link_session_rules.specs.Lengths.{if_exceeded, first_segment};
    ghost use Rattle.link_session_rules.specs.Remembered.{so_far_of};

    /// What is kept of a transfer after its first segment. `message` is this segment, with these
    /// flags and `length` bytes of data.
    fn first(message: &MessageBuffer, flags: u8, length: u64) -> TransferSoFar
        requires { HaveTotalsIfLengthItems message.now.items.items }
        ensures { (segment : SegmentHead) → segment.flags ≡ flags → segment.length ≡ length
            → segment.items ≡ segment_items flags message.now.items
            → Some result ≡ so_far_of (segment ∷ []) }
    {
        TransferSoFar {
            announced: announcement(message, flags),
            sent: Some(length),
        }
    }

    /// Adds a further segment with `length` bytes of data. Nothing else of the segment is kept.
    #[inline(always)]
    pub(crate) fn add(&mut self, length: u64)
        ensures { (segment previous : SegmentHead) (earlier : List SegmentHead)
            → segment.length ≡ length → Some self.old ≡ so_far_of (previous ∷ earlier)
            → Some self.new ≡ so_far_of (segment ∷ previous ∷ earlier) }
    {
        self.sent = sum_within(self.sent, length);
    }

    /// The rule of the peer's Transfer MRU, if a further segment of `length` bytes breaks it.
    ///
    /// No other field of the segment is looked at.
    fn exceeded(self, limit: u64, length: u64) -> Option<MessageRule>
        ensures { (segment previous : SegmentHead) (earlier : List SegmentHead)
            → segment.length ≡ length → Some self ≡ so_far_of (previous ∷ earlier)
            → result ≡ if_exceeded limit
            (announced_of (first_segment previous earlier).items.items) segment
            (previous ∷ earlier) }
    {
        match self.announced {
            // The first segment broke the rule.
            Announced::Total(announced) if announced > limit => None,
            _ => passed(limit, self.sent, length),
        }
    }
}

/// The sum of two lengths, or `None` if it exceeds 64 bits. `before` is `None` if it did so
/// already.
#[inline(always)]
fn sum_within(before: Option<u64>, length: u64) -> Option<u64>
    ensures { (sum : ℕ) → before ≡ within_64_bits sum → result ≡ within_64_bits (length + sum) }
{
    before?.checked_add(length)
}

/// The rule of the peer's Transfer MRU, if the first segment of a transfer breaks it. The segment
/// has `length` bytes of data, and announces the length `announced`.
fn first_exceeded(limit: u64, announced: Announced, length: u64) -> Option<MessageRule>
    ensures { (segment : SegmentHead) → segment.length ≡ length
        → result ≡ if_exceeded limit announced segment [] }
{
    match announced {
        Announced::Total(announced) if announced > limit => {
            Some(MessageRule::PeerTransferAnnounced { announced, limit })
        }
        _ => passed(limit, Some(0), length),
    }
}

/// What is kept of the transfer of a segment, before this segment. `turn` is what the segment does,
/// and `so_far` is what is kept of the latest transfer.
///
/// The result is `Some(None)` for a first segment, since nothing is kept before it. It is `None`
/// for a stray segment, which is in no transfer.
#[inline(always)]
fn earlier(turn: Option<Turn>, so_far: Option<TransferSoFar>) -> Option<Option<TransferSoFar>>
    ensures { (segments : List SegmentHead) → so_far ≡ so_far_of segments
        → result ≡ option_map so_far_of (earlier_of turn segments) }
{
    match turn {
        Some(Turn::Begin { .. }) => Some(None),
        Some(Turn::Continue { .. }) => Some(so_far),
        _ => None,
    }
}

/// The rule of the peer's Transfer MRU, if it is broken. `limit` is this MRU, if it is known, and
/// `so_far` is what is kept of the latest transfer.
#[tactic(auto, unfolding(crate::specs::Lengths::peer_transfer))]
#[inline(always)]
pub(crate) fn peer_transfer(
    limit: Option<u64>,
    so_far: Option<TransferSoFar>,
    head: &JudgedHeadView<'_>,
) -> Option<MessageRule>
    requires { IfSegmentItemsHaveTotals head.now.message.now }
    ensures { (before : List HeadWithOrder) → so_far ≡ so_far_of (segments_of before)
        → result ≡ peer_transfer limit before (viewed_head head.now) }
{
    let limit = limit?;
    let Fields::Segment { flags, length, .. } = head.message.fields else {
        return None;
    };
    match earlier(head.turn, so_far)? {
        None => first_exceeded(limit, announcement(head.message, flags), length),
        Some(transfer) => transfer.exceeded(limit, length),
    }
}

/// What is kept of the latest transfer, after one more message. `so_far` is this before the
/// message. A stray segment, or another message, changes nothing.
#[inline(always)]
pub(crate) fn so_far_after(
    so_far: Option<TransferSoFar>,
    head: &JudgedHeadView<'_>,
) -> Option<TransferSoFar>
    requires { IfSegmentItemsHaveTotals head.now.message.now }
    ensures { (before : List HeadWithOrder) → so_far ≡ so_far_of (segments_of before)
        → result ≡ so_far_of (segments_of (before ++ viewed_head head.now ∷ [])) }
{
    let Fields::Segment {
        flags,
        id: _,
        length,
    } = head.message.fields
    else {
        return so_far;
    };
    match earlier(head.turn, so_far) {
        None => so_far,
        Some(None) => Some(TransferSoFar::first(head.message, flags, length)),
        Some(Some(mut transfer)) => {
            transfer.add(length);
            Some(transfer)
        }
    }
}
