//! The order of messages.

use link_transfer::{Event, Joiner, OrderFault, Turn};
use link_wire::{Items, Message, NodeId, SegmentHead};
use std::process::Abort;

/// A message to be judged.
#[derive(Clone, Copy, Debug)]
enum Sent {
    SessInit,
    SessTerm,
    Segment(u8, u64),
    Ack(u64),
    Refuse(u64),
    Keepalive,
    MsgReject,
}

const START: u8 = 0x02;

const END: u8 = 0x01;

/// The greatest transfer ID.
const GREATEST: u64 = u64::MAX;

fn message_of(sent: Sent) -> Message {
    match sent {
        Sent::SessInit => Message::SessInit {
            keepalive: 60,
            segment_mru: 65_536,
            transfer_mru: 1_048_576,
            node: NodeId::new(),
            items: Items::new(),
        },
        Sent::SessTerm => Message::SessTerm {
            flags: 0,
            reason: 0,
        },
        Sent::Segment(flags, id) => Message::Segment(SegmentHead {
            flags,
            id,
            items: Items::new(),
            length: 0,
        }),
        Sent::Ack(id) => Message::Ack {
            flags: START,
            id,
            length: 1,
        },
        Sent::Refuse(id) => Message::Refuse { reason: 2, id },
        Sent::Keepalive => Message::Keepalive,
        Sent::MsgReject => Message::MsgReject {
            reason: 1,
            header: 0x16,
        },
    }
}

/// A message, its expected result, and the transfer that is open afterwards.
type Judged = (Sent, Result<Turn, OrderFault>, Option<u64>);

const OTHER: Result<Turn, OrderFault> = Ok(Turn::Other);

const MORE: Result<Turn, OrderFault> = Ok(Turn::Continue { last: false });

const LAST: Result<Turn, OrderFault> = Ok(Turn::Continue { last: true });

const NOT_OPEN: Result<Turn, OrderFault> = Err(OrderFault::NoSuchOpenTransfer);

const AFTER_TERM: Result<Turn, OrderFault> = Err(OrderFault::StartAfterSessTerm);

/// A START while no transfer is open.
const BEGIN: Result<Turn, OrderFault> = Ok(Turn::Begin {
    abandoned: None,
    last: false,
});

/// A START and END in one segment while no transfer is open.
const WHOLE: Result<Turn, OrderFault> = Ok(Turn::Begin {
    abandoned: None,
    last: true,
});

/// A START that abandons transfer 0.
const BEGIN_AFTER_0: Result<Turn, OrderFault> = Ok(Turn::Begin {
    abandoned: Some(0),
    last: false,
});

/// A START that abandons the transfer with the greatest ID.
const BEGIN_AFTER_GREATEST: Result<Turn, OrderFault> = Ok(Turn::Begin {
    abandoned: Some(GREATEST),
    last: false,
});

/// A START and END in one segment that abandons transfer 1.
const WHOLE_AFTER_1: Result<Turn, OrderFault> = Ok(Turn::Begin {
    abandoned: Some(1),
    last: true,
});

/// Checks what is returned for a message, and which transfer is open then.
fn is_judged(
    rt: &impl Abort,
    name: &str,
    judged: Result<Turn, OrderFault>,
    open: Option<u64>,
    want: &Judged,
) {
    let (sent, want_judged, want_open) = *want;
    assert_eq!(rt;
        (judged, open),
        (want_judged, want_open),
        "{name}: {sent:?}"
    );
}

/// Judges a message, by one joiner as a message and by another as its event.
fn judge_next(rt: &impl Abort, name: &str, joiner: &mut Joiner, core: &mut Joiner, want: &Judged) {
    let message = message_of(want.0);
    let judged = joiner.message(&message);
    is_judged(rt, name, judged, joiner.open(), want);
    let judged = core.event(Event::of(&message));
    is_judged(rt, name, judged, core.open(), want);
}

/// Judges the messages one after another.
fn judge(rt: &impl Abort, name: &str, messages: &[Judged]) {
    let mut joiner = Joiner::new();
    let mut core = Joiner::new();
    for want in messages {
        judge_next(rt, name, &mut joiner, &mut core, want);
    }
}

static SECOND_SESS_INIT: [Judged; 5] = [
    (Sent::SessInit, OTHER, None),
    (Sent::SessInit, Err(OrderFault::SecondSessInit), None),
    (Sent::Segment(START, 0), BEGIN, Some(0)),
    (Sent::SessInit, Err(OrderFault::SecondSessInit), Some(0)),
    (Sent::Segment(END, 0), LAST, None),
];

/// Refuses a second SESS_INIT, with no other fault beside it.
///
/// In this test and in the next four, a refused message changes nothing.
#[test]
fn refuses_a_second_session_initiation(rt: HostRuntime) {
    judge(&rt, "second session initiation", &SECOND_SESS_INIT);
}

static BEFORE_SESS_INIT: [Judged; 3] = [
    (
        Sent::Segment(START | END, 0),
        Err(OrderFault::SegmentBeforeSessInit),
        None,
    ),
    (Sent::SessInit, OTHER, None),
    (Sent::Segment(START | END, 0), WHOLE, None),
];

#[test]
fn refuses_a_segment_before_session_initiation(rt: HostRuntime) {
    judge(&rt, "segment before session initiation", &BEFORE_SESS_INIT);
}

static OF_NO_OPEN_TRANSFER: [Judged; 5] = [
    (Sent::SessInit, OTHER, None),
    (Sent::Segment(END, 5), NOT_OPEN, None),
    (Sent::Segment(START, 4), BEGIN, Some(4)),
    (Sent::Segment(0, 5), NOT_OPEN, Some(4)),
    (Sent::Segment(0, 4), MORE, Some(4)),
];

#[test]
fn refuses_a_segment_of_no_open_transfer(rt: HostRuntime) {
    judge(&rt, "no such open transfer", &OF_NO_OPEN_TRANSFER);
}

static REPEATED_START: [Judged; 4] = [
    (Sent::SessInit, OTHER, None),
    (Sent::Segment(START, 4), BEGIN, Some(4)),
    (
        Sent::Segment(START | END, 4),
        Err(OrderFault::StartRepeatsOpenId),
        Some(4),
    ),
    (Sent::Segment(END, 4), LAST, None),
];

#[test]
fn refuses_a_start_of_the_open_transfer(rt: HostRuntime) {
    judge(&rt, "start repeats the open transfer", &REPEATED_START);
}

static AFTER_SESS_TERM: [Judged; 4] = [
    (Sent::SessInit, OTHER, None),
    (Sent::SessTerm, OTHER, None),
    (Sent::Segment(START | END, 0), AFTER_TERM, None),
    (Sent::SessTerm, OTHER, None),
];

#[test]
fn refuses_a_start_after_session_termination(rt: HostRuntime) {
    judge(&rt, "start after session termination", &AFTER_SESS_TERM);
}

static BEFORE_AND_NOT_OPEN: [Judged; 1] = [(
    Sent::Segment(0, 5),
    Err(OrderFault::SegmentBeforeSessInit),
    None,
)];

static BEFORE_AND_AFTER: [Judged; 2] = [
    (Sent::SessTerm, OTHER, None),
    (
        Sent::Segment(START, 0),
        Err(OrderFault::SegmentBeforeSessInit),
        None,
    ),
];

static REPEATED_AND_AFTER: [Judged; 4] = [
    (Sent::SessInit, OTHER, None),
    (Sent::Segment(START, 0), BEGIN, Some(0)),
    (Sent::SessTerm, OTHER, Some(0)),
    (
        Sent::Segment(START, 0),
        Err(OrderFault::StartRepeatsOpenId),
        Some(0),
    ),
];

/// Of two faults, the first is reported.
#[test]
fn reports_the_first_of_two(rt: HostRuntime) {
    judge(
        &rt,
        "before session initiation, and not open",
        &BEFORE_AND_NOT_OPEN,
    );
    judge(
        &rt,
        "before session initiation, and after termination",
        &BEFORE_AND_AFTER,
    );
    judge(
        &rt,
        "repeats the open transfer, and after termination",
        &REPEATED_AND_AFTER,
    );
}

static ABANDONED: [Judged; 6] = [
    (Sent::SessInit, OTHER, None),
    (Sent::Segment(START, 0), BEGIN, Some(0)),
    (Sent::Segment(START, 1), BEGIN_AFTER_0, Some(1)),
    (Sent::Segment(END, 0), NOT_OPEN, Some(1)),
    (Sent::Segment(START | END, 2), WHOLE_AFTER_1, None),
    (Sent::Segment(END, 1), NOT_OPEN, None),
];

static USED_AGAIN: [Judged; 6] = [
    (Sent::SessInit, OTHER, None),
    (Sent::Segment(START | END, 7), WHOLE, None),
    (Sent::Segment(0, 7), NOT_OPEN, None),
    (Sent::Segment(START, 7), BEGIN, Some(7)),
    (Sent::Segment(END, 7), LAST, None),
    (Sent::Segment(END, 7), NOT_OPEN, None),
];

static LEAST_AND_GREATEST: [Judged; 6] = [
    (Sent::SessInit, OTHER, None),
    (Sent::Segment(START, GREATEST), BEGIN, Some(GREATEST)),
    (Sent::Segment(0, GREATEST), MORE, Some(GREATEST)),
    (Sent::Segment(START, 0), BEGIN_AFTER_GREATEST, Some(0)),
    (Sent::Segment(END, GREATEST), NOT_OPEN, Some(0)),
    (Sent::Segment(END, 0), LAST, None),
];

/// Transfers that are abandoned, and IDs that are used again.
///
/// A START abandons the open transfer. After a transfer is closed, a START may use its ID again,
/// and a segment without START may not. The least and the greatest ID are like others.
#[test]
fn follows_transfers(rt: HostRuntime) {
    judge(&rt, "abandoned", &ABANDONED);
    judge(&rt, "used again", &USED_AGAIN);
    judge(&rt, "least and greatest", &LEAST_AND_GREATEST);
}

static OPEN_AT_THE_TERMINATION: [Judged; 7] = [
    (Sent::SessInit, OTHER, None),
    (Sent::Segment(START, 3), BEGIN, Some(3)),
    (Sent::SessTerm, OTHER, Some(3)),
    (Sent::Segment(0, 3), MORE, Some(3)),
    (Sent::Segment(START, 4), AFTER_TERM, Some(3)),
    (Sent::Segment(END, 3), LAST, None),
    (Sent::Segment(START, 3), AFTER_TERM, None),
];

static OTHER_MESSAGES: [Judged; 10] = [
    (Sent::Keepalive, OTHER, None),
    (Sent::Ack(3), OTHER, None),
    (Sent::SessInit, OTHER, None),
    (Sent::Segment(0xfe, 3), BEGIN, Some(3)),
    (Sent::Refuse(3), OTHER, Some(3)),
    (Sent::Ack(4), OTHER, Some(3)),
    (Sent::MsgReject, OTHER, Some(3)),
    (Sent::Segment(0xfc, 3), MORE, Some(3)),
    (Sent::Keepalive, OTHER, Some(3)),
    (Sent::Segment(0xfd, 3), LAST, None),
];

/// Segments after a SESS_TERM, and messages that may come anywhere.
///
/// The open transfer goes on to its END after a SESS_TERM. Reserved flags are ignored.
#[test]
fn lets_others_through(rt: HostRuntime) {
    judge(&rt, "open at the termination", &OPEN_AT_THE_TERMINATION);
    judge(&rt, "other messages", &OTHER_MESSAGES);
}
