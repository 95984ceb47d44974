//! Second SESS_INITs. One that changes the session is a must (RFC 9174 section 4.7).
//!
//! Each row has the messages of a recording that tests/python/rows has for `check`, and its rules.

use super::judging::{
    BOTH, CHANGED, EARLY, END, INIT, NO_LIMITS, NODE, NONE, OTHER_INTERVAL, OTHER_SEGMENT,
    OTHER_TRANSFER, REPEATED, Row, START, STRAY, Sent,
};
use link_session_rules::{Level, MessageRule};

/// A transfer in one segment.
const WHOLE: Sent = Sent::Segment(BOTH, 0, NONE, 33);

const ACK: Sent = Sent::Ack(BOTH, 0, 1);

pub static SECOND: [Row; 20] = [
    Row {
        name: "order, broken 5",
        limits: NO_LIMITS,
        sent: &[INIT, INIT],
        broken: &[(1, Level::Should, REPEATED)],
    },
    Row {
        name: "order, broken 6",
        limits: NO_LIMITS,
        sent: &[INIT, INIT, INIT],
        broken: &[(1, Level::Should, REPEATED), (2, Level::Should, REPEATED)],
    },
    // After a message of a transfer, with each parameter
    Row {
        name: "order, broken 7",
        limits: NO_LIMITS,
        sent: &[INIT, WHOLE, OTHER_INTERVAL],
        broken: &[(2, Level::Must, CHANGED)],
    },
    Row {
        name: "order, broken 8",
        limits: NO_LIMITS,
        sent: &[INIT, ACK, OTHER_SEGMENT],
        broken: &[(2, Level::Must, CHANGED)],
    },
    Row {
        name: "order, broken 9",
        limits: NO_LIMITS,
        sent: &[INIT, Sent::Refuse(0, 0), OTHER_TRANSFER],
        broken: &[(2, Level::Must, CHANGED)],
    },
    Row {
        name: "order, broken 10",
        limits: NO_LIMITS,
        sent: &[INIT, Sent::Segment(END, 5, NONE, 0), OTHER_INTERVAL],
        broken: &[(1, Level::Must, STRAY), (2, Level::Must, CHANGED)],
    },
    Row {
        name: "order, broken 11",
        limits: NO_LIMITS,
        sent: &[INIT, INIT, WHOLE, OTHER_INTERVAL],
        broken: &[(1, Level::Should, REPEATED), (3, Level::Must, CHANGED)],
    },
    // The first one counts, and not the one before
    Row {
        name: "order, broken 12",
        limits: NO_LIMITS,
        sent: &[INIT, WHOLE, OTHER_INTERVAL, INIT],
        broken: &[(2, Level::Must, CHANGED), (3, Level::Should, REPEATED)],
    },
    Row {
        name: "order, broken 13",
        limits: NO_LIMITS,
        sent: &[INIT, OTHER_INTERVAL, WHOLE, OTHER_INTERVAL],
        broken: &[(1, Level::Should, REPEATED), (3, Level::Must, CHANGED)],
    },
    // With the same parameters, and another node ID or an item
    Row {
        name: "order, broken 14",
        limits: NO_LIMITS,
        sent: &[INIT, WHOLE, INIT],
        broken: &[(2, Level::Should, REPEATED)],
    },
    Row {
        name: "order, broken 15",
        limits: NO_LIMITS,
        sent: &[INIT, ACK, Sent::Init(60, b"ipn:9.0", NONE)],
        broken: &[(2, Level::Should, REPEATED)],
    },
    Row {
        name: "order, broken 16",
        limits: NO_LIMITS,
        sent: &[
            INIT,
            Sent::Refuse(0, 0),
            Sent::Init(60, NODE, &[(0x00, 0x8000, 0, 0)]),
        ],
        broken: &[(2, Level::Should, REPEATED)],
    },
    // With others, after no message of a transfer
    Row {
        name: "order, broken 17",
        limits: NO_LIMITS,
        sent: &[INIT, OTHER_INTERVAL],
        broken: &[(1, Level::Should, REPEATED)],
    },
    Row {
        name: "order, broken 18",
        limits: NO_LIMITS,
        sent: &[INIT, OTHER_SEGMENT, WHOLE],
        broken: &[(1, Level::Should, REPEATED)],
    },
    Row {
        name: "order, broken 19",
        limits: NO_LIMITS,
        sent: &[INIT, Sent::Keepalive, OTHER_TRANSFER],
        broken: &[(2, Level::Should, REPEATED)],
    },
    Row {
        name: "order, broken 20",
        limits: NO_LIMITS,
        sent: &[INIT, Sent::Term(0x00), OTHER_INTERVAL],
        broken: &[(2, Level::Should, REPEATED)],
    },
    Row {
        name: "order, broken 21",
        limits: NO_LIMITS,
        sent: &[INIT, Sent::Reject(3, 7), OTHER_SEGMENT],
        broken: &[(2, Level::Should, REPEATED)],
    },
    Row {
        name: "order, broken 22",
        limits: NO_LIMITS,
        sent: &[WHOLE, INIT, OTHER_INTERVAL],
        broken: &[(0, Level::Must, EARLY), (2, Level::Should, REPEATED)],
    },
    // Amid a transfer that began before the first one
    Row {
        name: "a SESS_INIT amid a transfer",
        limits: NO_LIMITS,
        sent: &[
            Sent::Segment(START, 0, NONE, 9),
            INIT,
            Sent::Segment(0x00, 0, NONE, 11),
            OTHER_INTERVAL,
            Sent::Segment(END, 0, NONE, 13),
        ],
        broken: &[(0, Level::Must, EARLY), (3, Level::Must, CHANGED)],
    },
    Row {
        name: "a SESS_INIT after an early XFER_ACK",
        limits: NO_LIMITS,
        sent: &[Sent::Keepalive, ACK, INIT, OTHER_INTERVAL],
        broken: &[
            (0, Level::Should, MessageRule::BeforeSession { kind: 0x04 }),
            (1, Level::Should, MessageRule::BeforeSession { kind: 0x02 }),
            (3, Level::Should, REPEATED),
        ],
    },
];
