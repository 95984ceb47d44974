//! Messages that break one rule alone: IDs, answers, and messages after an end, in another order.
//!
//! Each row has the messages of a recording that tests/python/rows has for `check`, and its rules.

use super::judging::{BOTH, EARLY, END, INIT, NO_LIMITS, NONE, Row, START, Sent};
use link_session_rules::{AnswerFault, Level, MessageRule as Rule};

/// The order of IDs, of answers, and of the end.
pub static ORDERED: [Row; 18] = [
    Row {
        name: "transfer-id-order, broken 0",
        limits: NO_LIMITS,
        sent: &[
            INIT,
            Sent::Segment(BOTH, 1, NONE, 33),
            Sent::Segment(BOTH, 0, NONE, 33),
        ],
        broken: &[(1, Level::Should, Rule::TransferIdOrder { id: 1 })],
    },
    Row {
        name: "transfer-id-order, broken 1",
        limits: NO_LIMITS,
        sent: &[
            INIT,
            Sent::Segment(BOTH, 0, NONE, 33),
            Sent::Segment(BOTH, 0, NONE, 33),
            Sent::Segment(BOTH, 2, NONE, 33),
            Sent::Segment(BOTH, 4, NONE, 33),
        ],
        broken: &[
            (2, Level::Must, Rule::TransferId { id: 0 }),
            (3, Level::Should, Rule::TransferIdOrder { id: 2 }),
        ],
    },
    Row {
        name: "transfer-id-order, broken 2",
        limits: NO_LIMITS,
        sent: &[
            Sent::Segment(BOTH, 3, NONE, 33),
            INIT,
            Sent::Segment(BOTH, 5, NONE, 33),
        ],
        broken: &[
            (0, Level::Must, EARLY),
            (2, Level::Should, Rule::TransferIdOrder { id: 5 }),
        ],
    },
    Row {
        name: "answer-order, broken 0",
        limits: NO_LIMITS,
        sent: &[INIT, Sent::Ack(END, 5, 1)],
        broken: &[(
            1,
            Level::Should,
            Rule::AnswerOrder {
                id: 5,
                fault: AnswerFault::NotTheLast,
            },
        )],
    },
    Row {
        name: "answer-order, broken 1",
        limits: NO_LIMITS,
        sent: &[
            INIT,
            Sent::Ack(START, 0, 9),
            Sent::Refuse(0, 1),
            Sent::Ack(0, 2, 9),
        ],
        broken: &[(
            3,
            Level::Should,
            Rule::AnswerOrder {
                id: 2,
                fault: AnswerFault::NotTheLast,
            },
        )],
    },
    Row {
        name: "answer-order, broken 2",
        limits: NO_LIMITS,
        sent: &[INIT, Sent::Ack(START, 0, 9), Sent::Ack(START, 0, 9)],
        broken: &[(
            2,
            Level::Should,
            Rule::AnswerOrder {
                id: 0,
                fault: AnswerFault::StartRepeats,
            },
        )],
    },
    Row {
        name: "answer-order, broken 3",
        limits: NO_LIMITS,
        sent: &[INIT, Sent::Ack(BOTH, 0, 9), Sent::Ack(END, 0, 9)],
        broken: &[(
            2,
            Level::Should,
            Rule::AnswerOrder {
                id: 0,
                fault: AnswerFault::AfterStop,
            },
        )],
    },
    Row {
        name: "answer-order, broken 4",
        limits: NO_LIMITS,
        sent: &[INIT, Sent::Refuse(0, 3), Sent::Ack(0, 3, 9)],
        broken: &[(
            2,
            Level::Should,
            Rule::AnswerOrder {
                id: 3,
                fault: AnswerFault::AfterRefusal,
            },
        )],
    },
    Row {
        name: "answer-order, broken 5",
        limits: NO_LIMITS,
        sent: &[INIT, Sent::Ack(BOTH, 0, 9), Sent::Refuse(0, 0)],
        broken: &[(
            2,
            Level::Should,
            Rule::AnswerOrder {
                id: 0,
                fault: AnswerFault::RefusedAfterEnd,
            },
        )],
    },
    Row {
        name: "answer-order, kept 0",
        limits: NO_LIMITS,
        sent: &[INIT, Sent::Ack(BOTH, 0, 9), Sent::Refuse(4, 0)],
        broken: &[],
    },
    Row {
        name: "answer-order, kept 1",
        limits: NO_LIMITS,
        sent: &[
            INIT,
            Sent::Refuse(0, 3),
            Sent::Ack(START, 3, 9),
            Sent::Ack(START, 4, 9),
            Sent::Ack(0, 3, 9),
        ],
        broken: &[],
    },
    Row {
        name: "answer-order, kept 2",
        limits: NO_LIMITS,
        sent: &[Sent::Ack(START, 0, 9), INIT, Sent::Ack(0, 0, 9)],
        broken: &[(0, Level::Should, Rule::BeforeSession { kind: 2 })],
    },
    Row {
        name: "after-reject, broken 0",
        limits: NO_LIMITS,
        sent: &[
            INIT,
            Sent::Reject(1, 0x20),
            Sent::Keepalive,
            Sent::Segment(BOTH, 0, NONE, 33),
            Sent::Term(0),
        ],
        broken: &[
            (
                2,
                Level::Should,
                Rule::AfterReject {
                    kind: 4,
                    level: Level::Should,
                },
            ),
            (
                3,
                Level::Must,
                Rule::AfterReject {
                    kind: 1,
                    level: Level::Must,
                },
            ),
        ],
    },
    Row {
        name: "after-reject, broken 1",
        limits: NO_LIMITS,
        sent: &[INIT, Sent::Reject(1, 0x20), Sent::Term(0), Sent::Keepalive],
        broken: &[(
            2,
            Level::Must,
            Rule::AfterReject {
                kind: 5,
                level: Level::Must,
            },
        )],
    },
    Row {
        name: "after-reject, broken 2",
        limits: NO_LIMITS,
        sent: &[
            INIT,
            Sent::Segment(START, 0, NONE, 33),
            Sent::Reject(1, 0x20),
            Sent::Segment(0, 0, NONE, 33),
            Sent::Segment(END, 0, NONE, 33),
        ],
        broken: &[(
            3,
            Level::Should,
            Rule::AfterReject {
                kind: 1,
                level: Level::Should,
            },
        )],
    },
    Row {
        name: "after-reject, kept 0",
        limits: NO_LIMITS,
        sent: &[INIT, Sent::Reject(3, 7), Sent::Keepalive],
        broken: &[],
    },
    Row {
        name: "term-order, broken 0",
        limits: NO_LIMITS,
        sent: &[INIT, Sent::Term(0), Sent::Term(1)],
        broken: &[(2, Level::Should, Rule::TermOrder { kind: 5 })],
    },
    Row {
        name: "term-order, broken 1",
        limits: NO_LIMITS,
        sent: &[Sent::Term(0), INIT],
        broken: &[(1, Level::Should, Rule::TermOrder { kind: 7 })],
    },
];
