//! Rules of types and reasons that are neither assigned nor for private use.

ghost use Rattle.std.specs.Prelude.{◌≡◌, ◌&&◌, nat_le, nat_lt};
ghost use Rattle.link_wire.specs.MessageBuffer.{message_of};
ghost use Rattle.link_session_rules.specs.Assigned.{is_unassigned, item_type, reject_known, reason};

use crate::flags::is_reply;
use crate::head::{items_of, type_of};
use crate::rule::MessageRule;
use link_wire::{Fields, MessageBuffer};

/// The first type of an extension item that is for private use (RFC 9174 sections 8.3 and 8.4).
const PRIVATE_TYPE: u16 = 0x8000;

/// The type of a Transfer Length item (RFC 9174 section 5.2.5.1).
pub(crate) const TRANSFER_LENGTH: u16 = 1;

/// Whether the type of an item of this message is neither assigned nor for private use. The only
/// assigned type is `TRANSFER_LENGTH`, in a segment.
fn is_unassigned(message: &MessageBuffer, kind: u16) -> bool
    ensures { result ≡ is_unassigned (message_of message.now) kind }
{
    let is_known = match message.fields {
        Fields::Segment { .. } => kind == TRANSFER_LENGTH,
        _ => false,
    };
    kind < PRIVATE_TYPE && !is_known
}

/// The rule of the types of extension items, if it is broken.
#[tactic(auto, unfolding(crate::specs::Assigned::item_type))]
#[inline(always)]
pub(crate) fn item_type(message: &MessageBuffer) -> Option<MessageRule>
    ensures { result ≡ item_type (message_of message.now) }
{
    let items = items_of(message);
    let mut number = 0;
    for item in items {
        if is_unassigned(message, item.kind) {
            return Some(MessageRule::ItemType {
                item: number,
                kind: item.kind,
            });
        }
        number += 1;
    }
    None
}

/// The rule of rejected types, if it is broken. A type from 1 to 7 is known, so reason 1 (unknown)
/// breaks it. Type 0 is reserved, so reason 2 (unsupported) or 3 (unexpected) breaks it. Any other
/// type may be known, although it was not negotiated, or unknown.
#[tactic(auto, unfolding(crate::specs::Assigned::reject_known))]
pub(crate) fn reject_known(message: &MessageBuffer) -> Option<MessageRule>
    ensures { result ≡ reject_known (message_of message.now) }
{
    let Fields::MsgReject { reason, header } = message.fields else {
        return None;
    };
    let is_wrong = match header {
        0 => reason == 2 || reason == 3,
        1..=7 => reason == 1,
        _ => false,
    };
    is_wrong.then_some(MessageRule::RejectKnown { reason, header })
}

/// Whether a reason is neither assigned nor for private use. All reasons below `first` count as
/// assigned, and those from 0xf0 on are for private use.
fn is_other_reason(first: u8, reason: u8) -> bool
    ensures { result ≡ (nat_le first reason && nat_lt reason 0xf0) }
{
    first <= reason && reason < 0xf0
}

/// The rule of reasons, if it is broken. The assigned reasons are 1 to 3 in a MSG_REJECT, 0 to 6 in
/// an XFER_REFUSE, and 0 to 5 in a SESS_TERM. The reason of a SESS_TERM that is a reply is not
/// judged.
#[tactic(auto, unfolding(crate::specs::Assigned::reason))]
#[inline(always)]
pub(crate) fn reason(message: &MessageBuffer) -> Option<MessageRule>
    ensures { result ≡ reason (message_of message.now) }
{
    let (reason, is_wrong) = match message.fields {
        Fields::MsgReject { reason, .. } => (reason, reason == 0 || is_other_reason(4, reason)),
        Fields::Refuse { reason, .. } => (reason, is_other_reason(7, reason)),
        Fields::SessTerm { flags, reason } => {
            (reason, !is_reply(flags) && is_other_reason(6, reason))
        }
        _ => return None,
    };
    let kind = type_of(message);
    is_wrong.then_some(MessageRule::Reason { kind, reason })
}
