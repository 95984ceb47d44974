//! Rules of what comes after the end of a session.

ghost use Rattle.std.specs.Prelude.{◌≡◌};
ghost use Rattle.link_wire.specs.MessageBuffer.{message_of};
ghost use Rattle.link_session_rules.specs.Endings.{begins_anew};

use crate::head::{is_start, type_of};
use crate::rule::MessageRule;
use link_rules_shared::Level;
use link_wire::{Fields, MessageBuffer};

/// The reason of a MSG_REJECT that the type of a message is unknown (RFC 9174 section 5.1.2).
const TYPE_UNKNOWN: u8 = 1;

/// The ends of a session so far.
#[derive(Clone, Copy, Debug, PartialEq, Eq)]
pub(crate) struct Endings {
    /// Whether a SESS_TERM came.
    terminated: bool,
    /// Whether a MSG_REJECT came that says that a type is unknown.
    rejected: bool,
    /// Whether a message came after it.
    followed: bool,
    /// Whether one of those messages began or ended a session, or began a transfer.
    begun: bool,
}

/// Whether a message begins or ends a session, or begins a transfer.
fn begins_anew(message: &MessageBuffer) -> bool
    ensures { result ≡ begins_anew (message_of message.now) }
{
    match message.fields {
        Fields::SessInit { .. } | Fields::SessTerm { .. } => true,
        Fields::Segment { flags, .. } => is_start(flags),
        _ => false,
    }
}

impl Endings {
    ghost use Rattle.std.specs.Prelude.{◌≡◌, List, [], ◌∷◌};
    ghost use Rattle.std.specs.List.{list_any};
    ghost use Rattle.link_wire.specs.declared.message.Message.{Message};
    ghost use Rattle.link_wire.specs.MessageBuffer.{message_of};
    ghost use Rattle.link_session_rules.specs.Heads.{HeadWithOrder, newest, is_sess_init};
    ghost use Rattle.link_session_rules.specs.Endings.{after_reject, term_order};
    ghost use Rattle.link_session_rules.specs.Remembered.{AreEndingsAt};

    /// The endings before the first message.
    pub(crate) fn none() -> Endings
        ensures { AreEndingsAt result [] }
    {
        Endings {
            terminated: false,
            rejected: false,
            followed: false,
            begun: false,
        }
    }

    /// Takes the next message.
    #[inline(always)]
    pub(crate) fn take(&mut self, message: &MessageBuffer)
        ensures { (older : List Message) → AreEndingsAt self.old older
            → AreEndingsAt self.new (message_of message.now ∷ older) }
    {
        if self.rejected {
            self.followed = true;
            self.begun = self.begun || begins_anew(message);
        }
        match message.fields {
            Fields::SessTerm { .. } => self.terminated = true,
            Fields::MsgReject { reason, .. } if reason == TYPE_UNKNOWN => self.rejected = true,
            _ => {}
        }
    }

    /// Whether a MSG_REJECT came that says that a type is unknown.
    #[inline(always)]
    pub(crate) fn is_rejected(&self) -> bool
        ensures { result ≡ self.now.rejected }
    {
        self.rejected
    }

    /// The rule of messages after a MSG_REJECT that says that a type is unknown, if it is broken.
    ///
    /// The first message after it that begins or ends a session, or begins a transfer, breaks the
    /// rule as a `must`. The first message after it breaks the rule as a `should`, if it does none
    /// of this. All others keep the rule.
    #[tactic(auto, unfolding(crate::specs::Endings::after_reject))]
    pub(crate) fn after_reject(&self, message: &MessageBuffer) -> Option<MessageRule>
        ensures { (before : List HeadWithOrder) → AreEndingsAt self.now (newest before)
            → result ≡ after_reject before (message_of message.now) }
    {
        if !self.rejected {
            return None;
        }
        let kind = type_of(message);
        if begins_anew(message) && !self.begun {
            let level = Level::Must;
            return Some(MessageRule::AfterReject { kind, level });
        }
        if self.followed {
            return None;
        }
        let level = Level::Should;
        Some(MessageRule::AfterReject { kind, level })
    }

    /// The rule of messages after a SESS_TERM, if it is broken. Another SESS_TERM breaks it, and so
    /// does the first SESS_INIT.
    ///
    /// `initiated` is whether a SESS_INIT came before the message.
    #[tactic(auto, unfolding(crate::specs::Endings::term_order))]
    pub(crate) fn term_order(&self, initiated: bool, message: &MessageBuffer) -> Option<MessageRule>
        ensures { (before : List HeadWithOrder) → initiated ≡ list_any is_sess_init (newest before)
            → AreEndingsAt self.now (newest before)
            → result ≡ term_order before (message_of message.now) }
    {
        if !self.terminated {
            return None;
        }
        let is_late = match message.fields {
            Fields::SessTerm { .. } => true,
            Fields::SessInit { .. } => !initiated,
            _ => false,
        };
        let kind = type_of(message);
        is_late.then_some(MessageRule::TermOrder { kind })
    }
}
