//! Answers to a transfer: the example of RFC 9174 section 5.2.3.

use link_transfer_answer_judge::{Answer, AnswerFault, Sent};
use link_wire::{END, START};

/// An XFER_ACK of transfer 7.
fn ack(flags: u8, length: u64) -> Answer {
    Answer::Ack {
        flags,
        id: 7,
        length,
    }
}

/// Four segments with lengths 100, 200, 500 and 1000.
#[test]
fn four_segments(rt: HostRuntime) {
    let mut sent = Sent::new(7);
    sent.length = 800;
    assert_eq!(rt; sent.judge(ack(START, 100)), Ok(()));
    assert_eq!(rt; sent.judge(ack(0, 300)), Ok(()));
    assert_eq!(rt; sent.judge(ack(0, 299)), Err(AnswerFault::LengthFalls));
    assert_eq!(rt; sent.judge(ack(0, 801)), Err(AnswerFault::LengthNotSent));
    assert_eq!(rt; sent.judge(ack(END, 800)), Err(AnswerFault::EndTooEarly));
    assert_eq!(rt; sent.judge(ack(0, 800)), Ok(()));
    sent.length = 1800;
    sent.whole = true;
    assert_eq!(rt; sent.judge(ack(END, 800)), Err(AnswerFault::EndTooEarly));
    assert_eq!(rt; sent.judge(ack(END, 1800)), Ok(()));
    assert_eq!(rt; sent.acknowledged, 1800);
}

#[test]
fn other_transfers(rt: HostRuntime) {
    let mut sent = Sent::new(7);
    let other = Answer::Refuse { reason: 2, id: 8 };
    assert_eq!(rt; sent.judge(other), Err(AnswerFault::OtherTransfer));
    let refused = Answer::Refuse { reason: 2, id: 7 };
    assert_eq!(rt; sent.judge(refused), Ok(()));
    assert_eq!(rt; sent, Sent::new(7));
}
