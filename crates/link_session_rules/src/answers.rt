//! Rules of XFER_ACK and XFER_REFUSE, which answer the segments of the peer.

ghost use Rattle.std.specs.Prelude.{◌≡◌};
ghost use Rattle.link_wire.specs.MessageBuffer.{message_of};
ghost use Rattle.link_session_rules.specs.Answers.{answered_id};

use crate::head::{is_end, is_start};
use crate::rule::{AnswerFault, MessageRule};
use link_wire::{Fields, MessageBuffer};

/// The reason of an XFER_REFUSE that the bundle is not acceptable (RFC 9174 section 5.2.4).
const NOT_ACCEPTABLE: u8 = 4;

/// An XFER_ACK (RFC 9174 section 5.2.3).
#[derive(Clone, Copy, Debug, PartialEq, Eq)]
pub(crate) struct Ack {
    id: u64,
    length: u64,
    /// Whether it has END.
    ends: bool,
}

/// The latest answers so far.
#[derive(Clone, Copy, Debug, PartialEq, Eq)]
pub(crate) struct Answers {
    /// The latest XFER_ACK.
    ack: Option<Ack>,
    /// The ID of the latest XFER_REFUSE.
    refused: Option<u64>,
    /// Whether an XFER_ACK of this ID came after the latest XFER_REFUSE.
    acked_since: bool,
}

impl Answers {
    ghost use Rattle.std.specs.Prelude.{◌≡◌, true, List, [], ◌∷◌, ◌++◌};
    ghost use Rattle.std.specs.List.{list_any};
    ghost use Rattle.link_wire.specs.declared.message.Message.{Message};
    ghost use Rattle.link_wire.specs.MessageBuffer.{message_of};
    ghost use Rattle.link_session_rules.specs.Heads.{HeadWithOrder, newest, is_sess_init};
    ghost use Rattle.link_session_rules.specs.Answers.{is_acked, is_refused, has_ended, fault_of_later, answer_fault, answer_order, ack_length};
    ghost use Rattle.link_session_rules.specs.Remembered.{AreAnswersAt};

    /// The answers before the first message.
    pub(crate) fn none() -> Answers
        ensures { AreAnswersAt result [] }
    {
        Answers {
            ack: None,
            refused: None,
            acked_since: false,
        }
    }

    /// Takes the next message.
    #[inline(always)]
    pub(crate) fn take(&mut self, message: &MessageBuffer)
        ensures { (older : List Message) → AreAnswersAt self.old older
            → AreAnswersAt self.new (message_of message.now ∷ older) }
    {
        match message.fields {
            Fields::Ack { flags, id, length } => {
                self.acked_since = self.acked_since || self.is_refused(id);
                self.ack = Some(Ack {
                    id,
                    length,
                    ends: is_end(flags),
                });
            }
            Fields::Refuse { id, .. } => {
                self.acked_since = false;
                self.refused = Some(id);
            }
            _ => {}
        }
    }

    /// Whether the latest XFER_ACK has this ID.
    fn is_acked(&self, id: u64) -> bool
        ensures { result ≡ is_acked self.now.ack id }
    {
        match self.ack {
            Some(ack) => ack.id == id,
            None => false,
        }
    }

    /// Whether the latest XFER_ACK has this ID and END.
    fn has_ended(&self, id: u64) -> bool
        ensures { result ≡ has_ended self.now.ack id }
    {
        match self.ack {
            Some(ack) => ack.id == id && ack.ends,
            None => false,
        }
    }

    /// Whether the latest XFER_REFUSE has this ID.
    fn is_refused(&self, id: u64) -> bool
        ensures { result ≡ is_refused self.now.refused id }
    {
        match self.refused {
            Some(refused) => refused == id,
            None => false,
        }
    }

    /// What is wrong with an XFER_ACK of this ID without START, or `None`. The answers before it
    /// decide.
    fn fault_of_later(&self, id: u64) -> Option<AnswerFault>
        ensures { result ≡ fault_of_later self.now.ack self.now.refused self.now.acked_since id }
    {
        let is_refused = self.is_refused(id);
        if !self.is_acked(id) && !is_refused {
            return Some(AnswerFault::NotTheLast);
        }
        if self.has_ended(id) {
            return Some(AnswerFault::AfterStop);
        }
        if is_refused && !self.acked_since {
            return Some(AnswerFault::AfterRefusal);
        }
        None
    }

    /// What is wrong with the order of an answer, or `None`. An XFER_REFUSE with reason
    /// `NOT_ACCEPTABLE` is always in order, and so is each message that is no answer.
    #[tactic(auto, using(crate::proofs::Later::same_fault))]
    #[inline(always)]
    fn fault(&self, message: &MessageBuffer) -> Option<AnswerFault>
        ensures { (older : List Message) → AreAnswersAt self.now older
            → result ≡ answer_fault older (message_of message.now) }
    {
        match message.fields {
            Fields::Ack { flags, id, .. } if is_start(flags) => {
                self.is_acked(id).then_some(AnswerFault::StartRepeats)
            }
            Fields::Ack { id, .. } => self.fault_of_later(id),
            Fields::Refuse { reason, id } if reason != NOT_ACCEPTABLE => {
                self.has_ended(id).then_some(AnswerFault::RefusedAfterEnd)
            }
            _ => None,
        }
    }

    /// The rule of the order of answers, if it is broken. `initiated` is whether a SESS_INIT came.
    /// Answers before a SESS_INIT are not judged.
    #[tactic(auto, unfolding(crate::specs::Answers::answer_order))]
    #[inline(always)]
    pub(crate) fn answer_order(
        &self,
        initiated: bool,
        message: &MessageBuffer,
    ) -> Option<MessageRule>
        ensures { (before : List HeadWithOrder) → initiated ≡ list_any is_sess_init (newest before)
            → AreAnswersAt self.now (newest before)
            → result ≡ answer_order before (message_of message.now) }
    {
        if !initiated {
            return None;
        }
        let fault = self.fault(message)?;
        let id = answered_id(message);
        Some(MessageRule::AnswerOrder { id, fault })
    }

    /// The rule of acknowledged lengths, if it is broken. An XFER_ACK without START breaks it if
    /// the latest XFER_ACK has the same ID and a greater length.
    #[tactic(auto, unfolding(crate::specs::Answers::ack_length))]
    #[inline(always)]
    pub(crate) fn ack_length(&self, message: &MessageBuffer) -> Option<MessageRule>
        ensures { (before : List HeadWithOrder) → AreAnswersAt self.now (newest before)
            → result ≡ ack_length before (message_of message.now) }
    {
        let Fields::Ack { flags, id, length } = message.fields else {
            return None;
        };
        match self.ack {
            Some(last) if !is_start(flags) && last.id == id && length < last.length => {
                Some(MessageRule::AckLength {
                    length,
                    before: last.length,
                })
            }
            _ => None,
        }
    }
}

/// The ID of the transfer that a message answers, or 0 if it is no answer.
fn answered_id(message: &MessageBuffer) -> u64
    ensures { result ≡ answered_id (message_of message.now) }
{
    match message.fields {
        Fields::Ack { id, .. } | Fields::Refuse { id, .. } => id,
        _ => 0,
    }
}
