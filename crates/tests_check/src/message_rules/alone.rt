//! Messages that break one rule alone, and messages that just keep it.
//!
//! Each row has the messages of a recording that tests/python/rows has for `check`, and its rules.

use super::judging::{
    BOTH, EARLY, END, INIT, LATE, NO_LIMITS, NODE, NONE, Row, START, STRAY, Sent,
};
use link_session_rules::{Level, MessageRule as Rule, PeerLimits};

/// Node IDs.
pub static NODE_IDS: [Row; 20] = [
    Row {
        name: "node-id, broken 0",
        limits: NO_LIMITS,
        sent: &[Sent::Init(60, b"1pn:1.0", NONE)],
        broken: &[(0, Level::Must, Rule::NodeId { length: 7 })],
    },
    Row {
        name: "node-id, broken 1",
        limits: NO_LIMITS,
        sent: &[Sent::Init(60, b"ipn", NONE)],
        broken: &[(0, Level::Must, Rule::NodeId { length: 3 })],
    },
    Row {
        name: "node-id, broken 2",
        limits: NO_LIMITS,
        sent: &[Sent::Init(60, b"ip_n:1", NONE)],
        broken: &[(0, Level::Must, Rule::NodeId { length: 6 })],
    },
    Row {
        name: "node-id, broken 3",
        limits: NO_LIMITS,
        sent: &[Sent::Init(60, b":", NONE)],
        broken: &[(0, Level::Must, Rule::NodeId { length: 1 })],
    },
    Row {
        name: "node-id, broken 4",
        limits: NO_LIMITS,
        sent: &[Sent::Init(60, b"ipn:1 0", NONE)],
        broken: &[(0, Level::Must, Rule::NodeId { length: 7 })],
    },
    Row {
        name: "node-id, broken 5",
        limits: NO_LIMITS,
        sent: &[Sent::Init(60, b"ipn:\x7f", NONE)],
        broken: &[(0, Level::Must, Rule::NodeId { length: 5 })],
    },
    Row {
        name: "node-id, broken 6",
        limits: NO_LIMITS,
        sent: &[Sent::Init(60, b"a:\xc3\xa4", NONE)],
        broken: &[(0, Level::Must, Rule::NodeId { length: 4 })],
    },
    Row {
        name: "node-id, broken 7",
        limits: NO_LIMITS,
        sent: &[Sent::Init(60, b"\x00", NONE)],
        broken: &[(0, Level::Must, Rule::NodeId { length: 1 })],
    },
    Row {
        name: "node-id, broken 8",
        limits: NO_LIMITS,
        sent: &[Sent::Init(60, b"//n/", NONE)],
        broken: &[(0, Level::Must, Rule::NodeId { length: 4 })],
    },
    Row {
        name: "node-id, broken 9",
        limits: NO_LIMITS,
        sent: &[Sent::Init(60, b"+a:", NONE)],
        broken: &[(0, Level::Must, Rule::NodeId { length: 3 })],
    },
    Row {
        name: "node-id, broken 10",
        limits: NO_LIMITS,
        sent: &[Sent::Init(60, b"a:%4g", NONE)],
        broken: &[(0, Level::Must, Rule::NodeId { length: 5 })],
    },
    Row {
        name: "node-id, broken 11",
        limits: NO_LIMITS,
        sent: &[Sent::Init(60, b"a:{", NONE)],
        broken: &[(0, Level::Must, Rule::NodeId { length: 3 })],
    },
    Row {
        name: "node-id, broken 12",
        limits: NO_LIMITS,
        sent: &[Sent::Init(60, b"dtn:/n/", NONE)],
        broken: &[(0, Level::Must, Rule::NodeId { length: 7 })],
    },
    Row {
        name: "node-id, broken 13",
        limits: NO_LIMITS,
        sent: &[Sent::Init(60, b"dtn://n:1/", NONE)],
        broken: &[(0, Level::Must, Rule::NodeId { length: 10 })],
    },
    Row {
        name: "node-id, broken 14",
        limits: NO_LIMITS,
        sent: &[Sent::Init(60, b"ipn:1..0", NONE)],
        broken: &[(0, Level::Must, Rule::NodeId { length: 8 })],
    },
    Row {
        name: "node-id, kept 0",
        limits: NO_LIMITS,
        sent: &[Sent::Init(60, b"", NONE)],
        broken: &[],
    },
    Row {
        name: "node-id, kept 1",
        limits: NO_LIMITS,
        sent: &[Sent::Init(60, b"dtn:///", NONE)],
        broken: &[],
    },
    Row {
        name: "node-id, kept 2",
        limits: NO_LIMITS,
        sent: &[Sent::Init(60, b"DtN://%4a-._~!/", NONE)],
        broken: &[],
    },
    Row {
        name: "node-id, kept 3",
        limits: NO_LIMITS,
        sent: &[Sent::Init(60, b"dtn://n/", NONE)],
        broken: &[],
    },
    Row {
        name: "node-id, kept 4",
        limits: NO_LIMITS,
        sent: &[Sent::Init(60, b"ipn:0.1.0", NONE)],
        broken: &[],
    },
];

/// Flags of items, segments and SESS_TERMs.
pub static FLAGS: [Row; 11] = [
    Row {
        name: "item-flags, broken 0",
        limits: NO_LIMITS,
        sent: &[Sent::Init(
            60,
            NODE,
            &[
                (0x01, 0x8000, 0, 0),
                (0x03, 0x8000, 0, 0),
                (0x04, 0x8000, 0, 0),
            ],
        )],
        broken: &[(
            0,
            Level::Must,
            Rule::ItemFlags {
                item: 1,
                flags: 0x03,
            },
        )],
    },
    Row {
        name: "item-flags, broken 1",
        limits: NO_LIMITS,
        sent: &[INIT, Sent::Segment(BOTH, 0, &[(0x80, 0x8000, 1, 0)], 33)],
        broken: &[(
            1,
            Level::Must,
            Rule::ItemFlags {
                item: 0,
                flags: 0x80,
            },
        )],
    },
    Row {
        name: "item-flags, kept 0",
        limits: NO_LIMITS,
        sent: &[Sent::Init(60, NODE, &[(0x01, 0x8000, 0, 0), (0x00, 0xffff, 0, 0)])],
        broken: &[],
    },
    Row {
        name: "item-flags, kept 1",
        limits: NO_LIMITS,
        sent: &[INIT, Sent::Segment(BOTH, 0, &[(0x01, 0x8000, 0, 0)], 33)],
        broken: &[],
    },
    Row {
        name: "segment-flags, broken 0",
        limits: NO_LIMITS,
        sent: &[INIT, Sent::Segment(0x07, 0, NONE, 33)],
        broken: &[(1, Level::Must, Rule::SegmentFlags { flags: 0x07 })],
    },
    Row {
        name: "segment-flags, broken 1",
        limits: NO_LIMITS,
        sent: &[
            INIT,
            Sent::Segment(START, 0, NONE, 33),
            Sent::Segment(0x81, 0, NONE, 0),
        ],
        broken: &[(2, Level::Must, Rule::SegmentFlags { flags: 0x81 })],
    },
    Row {
        name: "segment-flags, kept 0",
        limits: NO_LIMITS,
        sent: &[
            INIT,
            Sent::Segment(START, 0, NONE, 9),
            Sent::Segment(END, 0, NONE, 24),
        ],
        broken: &[],
    },
    Row {
        name: "term-flags, broken 0",
        limits: NO_LIMITS,
        sent: &[INIT, Sent::Term(0x02)],
        broken: &[(1, Level::Must, Rule::TermFlags { flags: 0x02 })],
    },
    Row {
        name: "term-flags, kept 0",
        limits: NO_LIMITS,
        sent: &[INIT, Sent::Term(0x00)],
        broken: &[],
    },
    Row {
        name: "term-flags, kept 1",
        limits: NO_LIMITS,
        sent: &[INIT, Sent::Term(0x01)],
        broken: &[],
    },
    Row {
        name: "term-flags, kept 2",
        limits: NO_LIMITS,
        sent: &[INIT, Sent::Term(0xff)],
        broken: &[],
    },
];

/// Messages out of order, and messages before a SESS_INIT.
pub static ORDER: [Row; 12] = [
    Row {
        name: "order, broken 0",
        limits: NO_LIMITS,
        sent: &[Sent::Segment(BOTH, 0, NONE, 33)],
        broken: &[(0, Level::Must, EARLY)],
    },
    Row {
        name: "order, broken 1",
        limits: NO_LIMITS,
        sent: &[Sent::Segment(BOTH, 0, NONE, 33), INIT],
        broken: &[(0, Level::Must, EARLY)],
    },
    Row {
        name: "order, broken 2",
        limits: NO_LIMITS,
        sent: &[Sent::Segment(END, 0, NONE, 0)],
        broken: &[(0, Level::Must, EARLY)],
    },
    Row {
        name: "order, broken 3",
        limits: NO_LIMITS,
        sent: &[INIT, Sent::Segment(END, 0, NONE, 0)],
        broken: &[(1, Level::Must, STRAY)],
    },
    Row {
        name: "order, broken 4",
        limits: NO_LIMITS,
        sent: &[INIT, Sent::Term(0x00), Sent::Segment(BOTH, 0, NONE, 33)],
        broken: &[(2, Level::Must, LATE)],
    },
    Row {
        name: "order, kept 0",
        limits: NO_LIMITS,
        sent: &[INIT, Sent::Segment(BOTH, 0, NONE, 33)],
        broken: &[],
    },
    Row {
        name: "order, kept 1",
        limits: NO_LIMITS,
        sent: &[
            INIT,
            Sent::Segment(START, 0, NONE, 9),
            Sent::Term(0x00),
            Sent::Segment(END, 0, NONE, 24),
        ],
        broken: &[],
    },
    Row {
        name: "before-session, broken 0",
        limits: NO_LIMITS,
        sent: &[Sent::Ack(BOTH, 0, 1)],
        broken: &[(0, Level::Should, Rule::BeforeSession { kind: 0x02 })],
    },
    Row {
        name: "before-session, broken 1",
        limits: NO_LIMITS,
        sent: &[Sent::Refuse(0, 0)],
        broken: &[(0, Level::Should, Rule::BeforeSession { kind: 0x03 })],
    },
    Row {
        name: "before-session, broken 2",
        limits: NO_LIMITS,
        sent: &[Sent::Keepalive, Sent::Keepalive, INIT],
        broken: &[
            (0, Level::Should, Rule::BeforeSession { kind: 0x04 }),
            (1, Level::Should, Rule::BeforeSession { kind: 0x04 }),
        ],
    },
    Row {
        name: "before-session, kept 0",
        limits: NO_LIMITS,
        sent: &[
            INIT,
            Sent::Ack(BOTH, 0, 1),
            Sent::Refuse(0, 1),
            Sent::Keepalive,
        ],
        broken: &[],
    },
    Row {
        name: "before-session, kept 1",
        limits: NO_LIMITS,
        sent: &[Sent::Term(0x00), Sent::Reject(3, 7)],
        broken: &[],
    },
];

/// Transfers that begin while another is open, and KEEPALIVEs.
pub static OPEN: [Row; 5] = [
    Row {
        name: "interleaved, broken 0",
        limits: NO_LIMITS,
        sent: &[
            INIT,
            Sent::Segment(START, 0, NONE, 0),
            Sent::Segment(BOTH, 1, NONE, 33),
        ],
        broken: &[(2, Level::Should, Rule::Interleaved { id: 1, open: 0 })],
    },
    Row {
        name: "interleaved, kept 0",
        limits: NO_LIMITS,
        sent: &[
            INIT,
            Sent::Segment(BOTH, 0, NONE, 33),
            Sent::Segment(BOTH, 1, NONE, 33),
        ],
        broken: &[],
    },
    Row {
        name: "keepalive, broken 0",
        limits: NO_LIMITS,
        sent: &[Sent::Init(0, NODE, NONE), Sent::Keepalive, Sent::Keepalive],
        broken: &[(1, Level::Should, Rule::Keepalive)],
    },
    Row {
        name: "keepalive, kept 0",
        limits: NO_LIMITS,
        sent: &[Sent::Init(30, NODE, NONE), Sent::Keepalive],
        broken: &[],
    },
    Row {
        name: "keepalive, kept 1",
        limits: NO_LIMITS,
        sent: &[Sent::Init(0, NODE, NONE)],
        broken: &[],
    },
];

/// Transfer IDs and acknowledged lengths.
pub static IDS: [Row; 9] = [
    Row {
        name: "transfer-id, broken 0",
        limits: NO_LIMITS,
        sent: &[
            INIT,
            Sent::Segment(BOTH, 0, NONE, 33),
            Sent::Segment(BOTH, 0, NONE, 33),
        ],
        broken: &[(2, Level::Must, Rule::TransferId { id: 0 })],
    },
    Row {
        name: "transfer-id, broken 1",
        limits: NO_LIMITS,
        sent: &[
            INIT,
            Sent::Segment(BOTH, 0, NONE, 33),
            Sent::Segment(BOTH, 1, NONE, 33),
            Sent::Segment(BOTH, 2, NONE, 33),
            Sent::Segment(BOTH, 0, NONE, 33),
        ],
        broken: &[(4, Level::Must, Rule::TransferId { id: 0 })],
    },
    Row {
        name: "transfer-id, broken 2",
        limits: NO_LIMITS,
        sent: &[
            INIT,
            Sent::Segment(BOTH, 5, NONE, 33),
            Sent::Segment(BOTH, 7, NONE, 33),
            Sent::Segment(BOTH, 5, NONE, 33),
        ],
        broken: &[
            (1, Level::Should, Rule::TransferIdOrder { id: 5 }),
            (3, Level::Must, Rule::TransferId { id: 5 }),
        ],
    },
    Row {
        name: "transfer-id, broken 3",
        limits: NO_LIMITS,
        sent: &[
            INIT,
            Sent::Segment(BOTH, u64::MAX, NONE, 33),
            Sent::Segment(BOTH, u64::MAX, NONE, 33),
        ],
        broken: &[
            (1, Level::Should, Rule::TransferIdOrder { id: u64::MAX }),
            (2, Level::Must, Rule::TransferId { id: u64::MAX }),
        ],
    },
    Row {
        name: "transfer-id, kept 0",
        limits: NO_LIMITS,
        sent: &[
            INIT,
            Sent::Segment(BOTH, 0, NONE, 33),
            Sent::Segment(BOTH, 1, NONE, 33),
        ],
        broken: &[],
    },
    Row {
        name: "ack-length, broken 0",
        limits: NO_LIMITS,
        sent: &[INIT, Sent::Ack(START, 0, 20), Sent::Ack(END, 0, 19)],
        broken: &[(
            2,
            Level::Should,
            Rule::AckLength {
                length: 19,
                before: 20,
            },
        )],
    },
    Row {
        name: "ack-length, kept 0",
        limits: NO_LIMITS,
        sent: &[INIT, Sent::Ack(START, 0, 20), Sent::Ack(END, 0, 20)],
        broken: &[],
    },
    Row {
        name: "ack-length, kept 1",
        limits: NO_LIMITS,
        sent: &[INIT, Sent::Ack(BOTH, 0, 20), Sent::Ack(BOTH, 1, 19)],
        broken: &[],
    },
    Row {
        name: "ack-length, kept 2",
        limits: NO_LIMITS,
        sent: &[
            INIT,
            Sent::Ack(BOTH, 0, 20),
            Sent::Ack(BOTH, 1, 5),
            Sent::Ack(BOTH, 0, 19),
        ],
        broken: &[],
    },
];

/// Limits of the peer.
pub static LIMITS: [Row; 11] = [
    Row {
        name: "peer-segment, broken 0",
        limits: PeerLimits {
            segment: Some(32),
            transfer: None,
        },
        sent: &[INIT, Sent::Segment(BOTH, 0, NONE, 33)],
        broken: &[(
            1,
            Level::Must,
            Rule::PeerSegment {
                length: 33,
                limit: 32,
            },
        )],
    },
    Row {
        name: "peer-segment, broken 1",
        limits: PeerLimits {
            segment: Some(23),
            transfer: None,
        },
        sent: &[
            INIT,
            Sent::Segment(START, 0, NONE, 9),
            Sent::Segment(END, 0, NONE, 24),
        ],
        broken: &[(
            2,
            Level::Must,
            Rule::PeerSegment {
                length: 24,
                limit: 23,
            },
        )],
    },
    Row {
        name: "peer-segment, kept 0",
        limits: PeerLimits {
            segment: Some(33),
            transfer: None,
        },
        sent: &[INIT, Sent::Segment(BOTH, 0, NONE, 33)],
        broken: &[],
    },
    Row {
        name: "peer-segment, kept 1",
        limits: NO_LIMITS,
        sent: &[INIT, Sent::Segment(BOTH, 0, NONE, 33)],
        broken: &[],
    },
    Row {
        name: "peer-transfer, broken 0",
        limits: PeerLimits {
            segment: None,
            transfer: Some(32),
        },
        sent: &[INIT, Sent::Segment(BOTH, 0, NONE, 33)],
        broken: &[(
            1,
            Level::Must,
            Rule::PeerTransferLength {
                length: 33,
                limit: 32,
            },
        )],
    },
    Row {
        name: "peer-transfer, broken 1",
        limits: PeerLimits {
            segment: None,
            transfer: Some(32),
        },
        sent: &[
            INIT,
            Sent::Segment(START, 0, NONE, 9),
            Sent::Segment(END, 0, NONE, 24),
        ],
        broken: &[(
            2,
            Level::Must,
            Rule::PeerTransferLength {
                length: 33,
                limit: 32,
            },
        )],
    },
    Row {
        name: "peer-transfer, broken 2",
        limits: PeerLimits {
            segment: None,
            transfer: Some(32),
        },
        sent: &[
            INIT,
            Sent::Segment(START, 0, &[(0x00, 1, 8, 33)], 9),
            Sent::Segment(END, 0, NONE, 24),
        ],
        broken: &[(
            1,
            Level::Must,
            Rule::PeerTransferAnnounced {
                announced: 33,
                limit: 32,
            },
        )],
    },
    Row {
        name: "peer-transfer, broken 3",
        limits: PeerLimits {
            segment: None,
            transfer: Some(0),
        },
        sent: &[
            INIT,
            Sent::Segment(START, 0, NONE, 9),
            Sent::Segment(END, 0, NONE, 24),
        ],
        broken: &[(
            1,
            Level::Must,
            Rule::PeerTransferLength {
                length: 9,
                limit: 0,
            },
        )],
    },
    Row {
        name: "peer-transfer, kept 0",
        limits: PeerLimits {
            segment: None,
            transfer: Some(33),
        },
        sent: &[
            INIT,
            Sent::Segment(START, 0, NONE, 9),
            Sent::Segment(END, 0, NONE, 24),
        ],
        broken: &[],
    },
    Row {
        name: "peer-transfer, kept 1",
        limits: PeerLimits {
            segment: None,
            transfer: Some(33),
        },
        sent: &[
            INIT,
            Sent::Segment(START, 0, &[(0x00, 1, 8, 33)], 9),
            Sent::Segment(END, 0, NONE, 24),
        ],
        broken: &[],
    },
    Row {
        name: "peer-transfer, kept 2",
        limits: NO_LIMITS,
        sent: &[
            INIT,
            Sent::Segment(START, 0, &[(0x00, 1, 8, 33)], 9),
            Sent::Segment(END, 0, NONE, 24),
        ],
        broken: &[],
    },
];
