//! Rules of flags.

ghost use Rattle.std.specs.Prelude.{◌≡◌};
ghost use Rattle.link_wire.specs.MessageBuffer.{message_of};
ghost use Rattle.link_rules_shared.specs.Flags.{has_other_flags};
ghost use Rattle.link_session_rules.specs.Flags.{is_reply, contact_flags, item_flags, segment_flags, term_flags};

use crate::head::items_of;
use crate::rule::MessageRule;
use link_rules_shared::has_other_flags;
use link_wire::{Contact, Fields, MessageBuffer};

/// The flag of a contact header that is defined (RFC 9174 section 4.2).
const CAN_TLS: u64 = 0x01;

/// The flag of an extension item that is defined (RFC 9174 sections 4.8 and 5.2.5).
const CRITICAL: u64 = 0x01;

/// The flags of an XFER_SEGMENT that are defined (RFC 9174 section 5.2.2).
const START_AND_END: u64 = 0x03;

/// The flag of a SESS_TERM that is defined (RFC 9174 section 6.1).
const REPLY: u8 = 0x01;

/// The rule that a contact header breaks by a flag other than CAN_TLS, or `None`.
#[tactic(auto, unfolding(crate::specs::Flags::contact_flags))]
pub fn contact_flags(contact: &Contact) -> Option<MessageRule>
    ensures { result ≡ contact_flags contact.now }
{
    let flags = contact.flags;
    has_other_flags(CAN_TLS, u64::from(flags)).then_some(MessageRule::ContactFlags { flags })
}

/// The rule of the flags of extension items, if it is broken.
#[tactic(auto, unfolding(crate::specs::Flags::item_flags))]
#[inline(always)]
pub(crate) fn item_flags(message: &MessageBuffer) -> Option<MessageRule>
    ensures { result ≡ item_flags (message_of message.now) }
{
    let items = items_of(message);
    let mut number = 0;
    for item in items {
        if has_other_flags(CRITICAL, u64::from(item.flags)) {
            return Some(MessageRule::ItemFlags {
                item: number,
                flags: item.flags,
            });
        }
        number += 1;
    }
    None
}

/// The rule of the flags of an XFER_SEGMENT, if it is broken.
#[tactic(auto, unfolding(crate::specs::Flags::segment_flags))]
#[inline(always)]
pub(crate) fn segment_flags(message: &MessageBuffer) -> Option<MessageRule>
    ensures { result ≡ segment_flags (message_of message.now) }
{
    match message.fields {
        Fields::Segment { flags, .. } if has_other_flags(START_AND_END, u64::from(flags)) => {
            Some(MessageRule::SegmentFlags { flags })
        }
        _ => None,
    }
}

/// Whether a SESS_TERM with these flags is a reply.
#[inline(always)]
pub(crate) fn is_reply(flags: u8) -> bool
    ensures { result ≡ is_reply flags }
{
    flags & REPLY == REPLY
}

/// The rule of the flags of a SESS_TERM, if it is broken. A reply is not judged.
#[tactic(auto, unfolding(crate::specs::Flags::term_flags))]
#[inline(always)]
pub(crate) fn term_flags(message: &MessageBuffer) -> Option<MessageRule>
    ensures { result ≡ term_flags (message_of message.now) }
{
    match message.fields {
        Fields::SessTerm { flags, .. } if !is_reply(flags) => {
            has_other_flags(u64::from(REPLY), u64::from(flags)).then_some(MessageRule::TermFlags {
                flags,
            })
        }
        _ => None,
    }
}
