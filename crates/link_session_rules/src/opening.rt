//! The rules that the length of a transfer breaks.

ghost use Rattle.std.specs.Prelude.{◌≡◌};
ghost use Rattle.link_wire.specs.MessageBuffer.{segment_items};
ghost use Rattle.link_session_rules.specs.TransferRules.{has_other_item};

use crate::assigned::TRANSFER_LENGTH;
use crate::head::{announcement, is_end, is_start};
use crate::rule::TransferRule;
use arrayvec::ArrayVec;
use link_rules_shared::broken_of;
use link_transfer::Announced;
use link_wire::MessageBuffer;

/// The rules that the length of a transfer breaks, in order.
pub type BrokenTransferRules = ArrayVec<TransferRule, 3>;

/// What the rules of a transfer's length, and of its bundle, need of its first segment.
#[derive(Clone, Copy, Debug, PartialEq, Eq)]
pub struct Opening {
    /// The length that the transfer announces.
    pub announced: Announced,
    /// Whether the segment is the only one of its transfer: it has START and END.
    pub single: bool,
    /// Whether the segment has an extension item of a type other than Transfer Length.
    pub has_other_item: bool,
}

/// Whether a segment with these flags has an extension item of a type other than Transfer Length.
/// Without START, it has no items.
fn has_other_item(message: &MessageBuffer, flags: u8) -> bool
    ensures { result ≡ has_other_item (segment_items flags message.now.items).items }
{
    is_start(flags)
        && message
            .items
            .iter()
            .any(|item| item.kind != TRANSFER_LENGTH)
}

impl Opening {
    ghost use Rattle.std.specs.Prelude.{◌≡◌};
    ghost use Rattle.link_wire.specs.Message.{HaveTotalsIfLengthItems};
    ghost use Rattle.link_wire.specs.MessageBuffer.{segment_items};
    ghost use Rattle.link_wire.specs.declared.message.SegmentHead.{SegmentHead};
    ghost use Rattle.link_session_rules.specs.TransferRules.{opening_of, length_item, length_differs, length_of_one_segment, broken_transfer_rules};

    /// What the rules need of the first segment of a transfer. `message` is this segment, with
    /// these flags.
    pub fn of(message: &MessageBuffer, flags: u8) -> Opening
        requires { HaveTotalsIfLengthItems message.now.items.items }
        ensures { (first : SegmentHead) → first.flags ≡ flags
            → first.items ≡ segment_items flags message.now.items
            → result ≡ opening_of first }
    {
        Opening {
            announced: announcement(message, flags),
            single: is_start(flags) && is_end(flags),
            has_other_item: has_other_item(message, flags),
        }
    }

    /// The rules that a transfer with this many bytes of data breaks.
    #[tactic(auto, unfolding(crate::specs::TransferRules::broken_transfer_rules))]
    pub fn rules(&self, length: u64) -> BrokenTransferRules
        ensures { (first : SegmentHead) → self.now ≡ opening_of first
            → result.items ≡ broken_transfer_rules first length }
    {
        broken_of(&[
            self.length_item(),
            self.length_differs(length),
            self.length_of_one_segment(),
        ])
    }

    /// The rule of malformed Transfer Length items, if it is broken.
    #[tactic(auto, unfolding(crate::specs::TransferRules::length_item))]
    fn length_item(&self) -> Option<TransferRule>
        ensures { (first : SegmentHead) → self.now ≡ opening_of first
            → result ≡ length_item first }
    {
        match self.announced {
            Announced::Malformed => Some(TransferRule::LengthItem),
            _ => None,
        }
    }

    /// The rule of announced lengths, if a transfer with `length` bytes of data breaks it.
    #[tactic(auto, unfolding(crate::specs::TransferRules::length_differs))]
    fn length_differs(&self, length: u64) -> Option<TransferRule>
        ensures { (first : SegmentHead) → self.now ≡ opening_of first
            → result ≡ length_differs first length }
    {
        match self.announced {
            Announced::Total(announced) if announced != length => {
                Some(TransferRule::LengthDiffers { announced, length })
            }
            _ => None,
        }
    }

    /// The rule of Transfer Length items in a transfer of one segment, if it is broken.
    #[tactic(auto, unfolding(crate::specs::TransferRules::length_of_one_segment))]
    fn length_of_one_segment(&self) -> Option<TransferRule>
        ensures { (first : SegmentHead) → self.now ≡ opening_of first
            → result ≡ length_of_one_segment first }
    {
        match self.announced {
            Announced::Absent => None,
            _ if self.single => Some(TransferRule::LengthOfOneSegment),
            _ => None,
        }
    }
}
