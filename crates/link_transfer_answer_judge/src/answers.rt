//! The answers to one transfer (RFC 9174 sections 5.2.3 and 5.2.4).

use link_wire::{END, Fields};
use thiserror::Error;

/// A message of the peer that answers a segment.
#[derive(Clone, Copy, Debug, PartialEq, Eq)]
pub enum Answer {
    /// XFER_ACK (RFC 9174 section 5.2.3): `length` bytes of the transfer have been received.
    Ack { flags: u8, id: u64, length: u64 },
    /// XFER_REFUSE (RFC 9174 section 5.2.4).
    Refuse { reason: u8, id: u64 },
}

impl Answer {
    ghost use Rattle.std.specs.Prelude.{◌≡◌};
    ghost use Rattle.link_transfer_answer_judge.specs.Answers.{answer_of};

    /// The answer with these fields, or `None` if they belong to neither an XFER_ACK nor an
    /// XFER_REFUSE.
    pub fn of(fields: Fields) -> Option<Answer>
        ensures { result ≡ answer_of fields }
    {
        match fields {
            Fields::Ack { flags, id, length } => Some(Answer::Ack { flags, id, length }),
            Fields::Refuse { reason, id } => Some(Answer::Refuse { reason, id }),
            _ => None,
        }
    }
}

/// Why a message does not answer what was sent of a transfer.
#[derive(Clone, Copy, Debug, PartialEq, Eq, Error)]
pub enum AnswerFault {
    /// It has the ID of another transfer.
    #[error("another transfer")]
    OtherTransfer,
    /// It acknowledges less than an XFER_ACK before it.
    #[error("acknowledged length falls")]
    LengthFalls,
    /// It acknowledges more than was sent.
    #[error("acknowledged length was not sent")]
    LengthNotSent,
    /// It has END, and does not acknowledge the whole transfer.
    #[error("end without the whole transfer")]
    EndTooEarly,
}

/// What was sent of a transfer, and how much of it was acknowledged.
#[derive(Clone, Copy, Debug, PartialEq, Eq)]
pub struct Sent {
    /// The transfer ID.
    pub id: u64,
    /// The number of bytes of data in the segments that were sent.
    pub length: u64,
    /// Whether the last segment was sent, which has END.
    pub whole: bool,
    /// The length in the latest XFER_ACK that was accepted, or 0.
    pub acknowledged: u64,
}

impl Sent {
    ghost use Rattle.std.specs.Prelude.{◌≡◌, List, [], ◌∷◌, OnOk};
    ghost use Rattle.link_transfer_answer_judge.specs.Answers.{ack_fault, judged_answer, after_answer, HasLengthOfLastAck, nothing_sent};
    ghost use Rattle.link_transfer_answer_judge.specs.declared.answers.Answer.{Answer};

    /// A transfer of which nothing was sent.
    #[tactic(auto, unfolding(crate::specs::Answers::acknowledged_by))]
    pub fn new(id: u64) -> Sent
        ensures is { result ≡ nothing_sent id }
        ensures answers { HasLengthOfLastAck result [] }
    {
        Sent {
            id,
            length: 0,
            whole: false,
            acknowledged: 0,
        }
    }

    /// What is wrong with an XFER_ACK that has the ID of this transfer, or `None`.
    fn ack_fault(&self, flags: u8, length: u64) -> Option<AnswerFault>
        ensures { result ≡ ack_fault self.now flags length }
    {
        if length < self.acknowledged {
            return Some(AnswerFault::LengthFalls);
        }
        if length > self.length {
            return Some(AnswerFault::LengthNotSent);
        }
        if flags & END == END && !(self.whole && length == self.length) {
            return Some(AnswerFault::EndTooEarly);
        }
        None
    }

    /// Judges the next answer. An XFER_ACK that is accepted sets the acknowledged length.
    ///
    /// An XFER_REFUSE of this transfer is always accepted, and changes nothing. An answer with a
    /// fault changes nothing either.
    #[tactic(auto, unfolding(crate::specs::Answers::answer_fault, crate::specs::Answers::acknowledged_by))]
    pub fn judge(&mut self, answer: Answer) -> Result<(), AnswerFault>
        ensures judged { result ≡ judged_answer self.old answer }
        ensures after { self.new ≡ after_answer self.old answer }
        ensures answers { (older : List Answer) → HasLengthOfLastAck self.old older
            → OnOk result (HasLengthOfLastAck self.new (answer ∷ older)) }
    {
        match answer {
            Answer::Ack { id, .. } | Answer::Refuse { id, .. } if id != self.id => {
                Err(AnswerFault::OtherTransfer)
            }
            Answer::Ack { flags, length, .. } => match self.ack_fault(flags, length) {
                Some(fault) => Err(fault),
                None => {
                    self.acknowledged = length;
                    Ok(())
                }
            },
            Answer::Refuse { .. } => Ok(()),
        }
    }
}
