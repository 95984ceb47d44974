//! The export that judges the answers to a transfer that the caller sends.

ghost use Rattle.std.specs.Prelude.{◌≡◌, Some, None};
ghost use Rattle.link_transfer_answer_judge.specs.declared.answers.{Answer.Answer, Sent.Sent};
ghost use Rattle.link_ffi_numbers.specs.Status.{status_range};
ghost use Rattle.tcpclkit_c.specs.Answer.{sent_by, answer_numbers, IsThisAnswerOrNoAnswer, IsMessageOfAnswer, IsNotAnswerMessage, ReturnsJudgedPeerAnswer};

use link_ffi_numbers::fault::answer_code;
use link_ffi_numbers::recording::Message;
use link_ffi_numbers::status::{FAULT, OK, RANGE};
use link_ffi_writer::fields_by;
use link_transfer_answer_judge::{Answer, AnswerFault, Sent};

/// `struct tcpclkit_sent`: what was sent of a transfer, and how much of it was acknowledged.
#[repr(C)]
#[derive(Clone, Copy, Debug, PartialEq, Eq)]
pub struct SentNumbers {
    /// The transfer ID.
    pub id: u64,
    /// The number of bytes of data in the segments that were sent.
    pub length: u64,
    /// 1 once the last segment was sent, and else 0.
    pub whole: u64,
    /// The length in the last XFER_ACK that was accepted, or 0.
    pub acknowledged: u64,
    /// The code of what is wrong with the last answer, or 0.
    pub fault: u64,
}

/// What was sent of a transfer, if `whole` is 0 or 1.
fn sent_by(sent: &SentNumbers) -> Option<Sent>
    ensures { result ≡ sent_by sent.now }
{
    if sent.whole > 1 {
        return None;
    }
    Some(Sent {
        id: sent.id,
        length: sent.length,
        whole: sent.whole == 1,
        acknowledged: sent.acknowledged,
    })
}

/// The answer that a message is, or `None` if it is neither an XFER_ACK nor an XFER_REFUSE.
fn answer_by(message: &Message) -> Option<Answer>
    ensures { IsThisAnswerOrNoAnswer message.now result }
{
    let fields = fields_by(message)?;
    Answer::of(fields)
}

/// The code of what is wrong with an answer, and the status.
fn answer_numbers(judged: Result<(), AnswerFault>) -> (u64, u32)
    ensures { result ≡ answer_numbers judged }
{
    match judged {
        Ok(()) => (0, OK),
        Err(fault) => (answer_code(fault), FAULT),
    }
}

/// Judges an answer to a transfer that is sent. Writes the code of the answer's fault, or 0, to
/// `sent`. If an XFER_ACK is accepted, writes its length too.
///
/// Returns `OK`, or `FAULT` if the answer has a fault. If the message is no answer, or `whole` is
/// above 1, changes nothing and returns `RANGE`.
#[unsafe(no_mangle)]
pub extern "C" fn tcpclkit_raw_judge_answer(sent: &mut SentNumbers, message: &Message) -> u32
    ensures answer { (before : Sent) (answer : Answer) → sent_by sent.old ≡ Some before
        → IsMessageOfAnswer message.now answer
        → ReturnsJudgedPeerAnswer before answer sent.old sent.new result }
    ensures whole { sent_by sent.old ≡ None → (result ≡ status_range) × (sent.new ≡ sent.old) }
    ensures range { IsNotAnswerMessage message.now
        → (result ≡ status_range) × (sent.new ≡ sent.old) }
{
    let Some(mut its) = sent_by(sent) else {
        return RANGE;
    };
    let Some(answer) = answer_by(message) else {
        return RANGE;
    };
    let (fault, status) = answer_numbers(its.judge(answer));
    sent.acknowledged = its.acknowledged;
    sent.fault = fault;
    status
}
