//! The head of a message, with the judgement of its order.

ghost use Rattle.std.specs.Prelude.{◌≡◌};
ghost use Rattle.link_wire.specs.Codes.{is_start, is_end};
ghost use Rattle.link_wire.specs.Message.{HaveTotalsIfLengthItems};
ghost use Rattle.link_wire.specs.MessageBuffer.{message_of, segment_items};
ghost use Rattle.link_transfer.specs.Announced.{announced_of};
ghost use Rattle.link_session_rules.specs.Heads.{items_of, type_of};

use link_transfer::{Announced, OrderFault, Turn, announced};
use link_wire::{END, Fields, Item, MessageBuffer, START};

/// The head of a message, with the judgement of its order.
#[derive(Clone, Copy)]
pub struct JudgedHeadView<'a> {
    pub message: &'a MessageBuffer,
    /// Why the message is not in order, if it is not.
    pub fault: Option<OrderFault>,
    /// What the message does to the transfers. It is `None` for a stray segment.
    pub turn: Option<Turn>,
}

/// The extension items of a message. A segment without START carries none, though the buffer may
/// still hold the items of an earlier message.
#[inline(always)]
pub(crate) fn items_of(message: &MessageBuffer) -> &[Item]
    ensures { result.now ≡ items_of (message_of message.now) }
{
    match message.fields {
        Fields::SessInit { .. } => message.items.as_slice(),
        Fields::Segment { flags, .. } if is_start(flags) => message.items.as_slice(),
        _ => &[],
    }
}

/// The type byte of a message (RFC 9174 section 4.5).
pub(crate) fn type_of(message: &MessageBuffer) -> u8
    ensures { result ≡ type_of (message_of message.now) }
{
    match message.fields {
        Fields::Segment { .. } => 1,
        Fields::Ack { .. } => 2,
        Fields::Refuse { .. } => 3,
        Fields::Keepalive => 4,
        Fields::SessTerm { .. } => 5,
        Fields::MsgReject { .. } => 6,
        Fields::SessInit { .. } => 7,
    }
}

/// Whether an XFER_SEGMENT or an XFER_ACK with these flags has START.
#[inline(always)]
pub(crate) fn is_start(flags: u8) -> bool
    ensures { result ≡ is_start flags }
{
    flags & START == START
}

/// Whether an XFER_SEGMENT or an XFER_ACK with these flags has END.
#[inline(always)]
pub(crate) fn is_end(flags: u8) -> bool
    ensures { result ≡ is_end flags }
{
    flags & END == END
}

/// The length that a segment with these flags announces. Without START, it announces none.
#[tactic(auto, unfolding(link_transfer::specs::Announced::announced_of))]
pub(crate) fn announcement(message: &MessageBuffer, flags: u8) -> Announced
    requires { HaveTotalsIfLengthItems message.now.items.items }
    ensures { result ≡ announced_of (segment_items flags message.now.items).items }
{
    if is_start(flags) {
        announced(&message.items)
    } else {
        Announced::Absent
    }
}
