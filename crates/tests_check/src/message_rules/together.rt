//! Messages that break several rules, and messages whose rules depend on many before them.
//!
//! Each row has the messages of a recording that tests/python/rows has for `check`, and its rules.

use super::judging::{
    BOTH, END, INIT, LATE, NO_LIMITS, NODE, NONE, REPEATED, RESTARTED, Row, START, STRAY, Sent,
};
use link_session_rules::{Level, MessageRule as Rule, PeerLimits};

/// Several rules that one message breaks.
pub static SEVERAL: [Row; 5] = [
    Row {
        name: "a SESS_INIT",
        limits: NO_LIMITS,
        sent: &[Sent::Keepalive, Sent::Init(60, b"n", &[(0x02, 9, 0, 0)])],
        broken: &[
            (0, Level::Should, Rule::BeforeSession { kind: 0x04 }),
            (1, Level::Must, Rule::NodeId { length: 1 }),
            (
                1,
                Level::Must,
                Rule::ItemFlags {
                    item: 0,
                    flags: 0x02,
                },
            ),
            (1, Level::Should, Rule::ItemType { item: 0, kind: 9 }),
        ],
    },
    Row {
        name: "a START that breaks most rules",
        limits: PeerLimits {
            segment: Some(32),
            transfer: Some(31),
        },
        sent: &[
            INIT,
            Sent::Segment(BOTH, 5, NONE, 0),
            Sent::Segment(START, 6, NONE, 0),
            Sent::Term(0x02),
            Sent::Segment(0x0b, 5, &[(0x00, 1, 8, 34), (0x10, 1, 0, 0)], 33),
        ],
        broken: &[
            (1, Level::Should, Rule::TransferIdOrder { id: 5 }),
            (3, Level::Must, Rule::TermFlags { flags: 0x02 }),
            (
                4,
                Level::Must,
                Rule::ItemFlags {
                    item: 1,
                    flags: 0x10,
                },
            ),
            (4, Level::Must, LATE),
            (4, Level::Should, Rule::Interleaved { id: 5, open: 6 }),
            (4, Level::Must, Rule::SegmentFlags { flags: 0x0b }),
            (4, Level::Must, Rule::TransferId { id: 5 }),
            (
                4,
                Level::Must,
                Rule::PeerSegment {
                    length: 33,
                    limit: 32,
                },
            ),
            (
                4,
                Level::Must,
                Rule::PeerTransferLength {
                    length: 33,
                    limit: 31,
                },
            ),
        ],
    },
    Row {
        name: "a stray segment",
        limits: PeerLimits {
            segment: Some(32),
            transfer: Some(33),
        },
        sent: &[
            INIT,
            Sent::Segment(START, 0, NONE, 9),
            Sent::Segment(0x41, 1, NONE, 33),
            Sent::Segment(END, 0, NONE, 24),
        ],
        broken: &[
            (2, Level::Must, STRAY),
            (2, Level::Must, Rule::SegmentFlags { flags: 0x41 }),
            (
                2,
                Level::Must,
                Rule::PeerSegment {
                    length: 33,
                    limit: 32,
                },
            ),
        ],
    },
    Row {
        name: "a wrong length and no bundle",
        limits: NO_LIMITS,
        sent: &[INIT, Sent::Segment(BOTH, 0, &[(0x00, 1, 8, 2)], 1)],
        broken: &[],
    },
    Row {
        name: "a wrong length hides no rule of bundles",
        limits: NO_LIMITS,
        sent: &[
            INIT,
            Sent::Segment(START, 0, &[(0x00, 1, 8, 34)], 9),
            Sent::Segment(END, 0, NONE, 24),
        ],
        broken: &[],
    },
];

/// Which segments a transfer has, and which IDs count.
pub static TRANSFERS: [Row; 5] = [
    Row {
        name: "lines of a transfer",
        limits: NO_LIMITS,
        sent: &[
            INIT,
            Sent::Segment(START, 0, NONE, 9),
            Sent::Segment(0x04, 0, NONE, 0),
            Sent::Segment(END, 0, NONE, 24),
            Sent::Term(0x02),
        ],
        broken: &[
            (2, Level::Must, Rule::SegmentFlags { flags: 0x04 }),
            (4, Level::Must, Rule::TermFlags { flags: 0x02 }),
        ],
    },
    Row {
        name: "a START of its own ID abandons it",
        limits: NO_LIMITS,
        sent: &[
            INIT,
            Sent::Segment(START, 0, NONE, 9),
            Sent::Segment(BOTH, 0, NONE, 33),
        ],
        broken: &[
            (2, Level::Must, RESTARTED),
            (2, Level::Must, Rule::TransferId { id: 0 }),
        ],
    },
    Row {
        name: "the last is unfinished",
        limits: NO_LIMITS,
        sent: &[
            INIT,
            Sent::Segment(BOTH, 0, NONE, 33),
            Sent::Segment(START, 1, &[(0x00, 1, 8, 9)], 1),
        ],
        broken: &[],
    },
    Row {
        name: "a stray segment between two transfers",
        limits: NO_LIMITS,
        sent: &[
            INIT,
            Sent::Segment(START, 0, NONE, 9),
            Sent::Segment(0x41, 1, NONE, 33),
            Sent::Segment(BOTH, 2, NONE, 33),
        ],
        broken: &[
            (2, Level::Must, STRAY),
            (2, Level::Must, Rule::SegmentFlags { flags: 0x41 }),
            (3, Level::Should, Rule::Interleaved { id: 2, open: 0 }),
            (3, Level::Should, Rule::TransferIdOrder { id: 2 }),
        ],
    },
    Row {
        name: "IDs of transfers that are refused",
        limits: NO_LIMITS,
        sent: &[
            INIT,
            Sent::Term(0x02),
            Sent::Segment(BOTH, 7, NONE, 33),
            Sent::Segment(BOTH, 7, NONE, 33),
        ],
        broken: &[
            (1, Level::Must, Rule::TermFlags { flags: 0x02 }),
            (2, Level::Must, LATE),
            (2, Level::Should, Rule::TransferIdOrder { id: 7 }),
            (3, Level::Must, LATE),
            (3, Level::Must, Rule::TransferId { id: 7 }),
        ],
    },
];

/// What breaks a rule once in a transfer or in a recording.
pub static ONCE: [Row; 5] = [
    Row {
        name: "a limit that is passed",
        limits: PeerLimits {
            segment: None,
            transfer: Some(19),
        },
        sent: &[
            INIT,
            Sent::Segment(START, 0, NONE, 9),
            Sent::Segment(0x00, 0, NONE, 11),
            Sent::Segment(END, 0, NONE, 13),
        ],
        broken: &[(
            2,
            Level::Must,
            Rule::PeerTransferLength {
                length: 20,
                limit: 19,
            },
        )],
    },
    Row {
        name: "a limit that is passed before a stray segment",
        limits: PeerLimits {
            segment: None,
            transfer: Some(8),
        },
        sent: &[
            INIT,
            Sent::Segment(START, 0, NONE, 9),
            Sent::Segment(0x41, 1, NONE, 33),
            Sent::Segment(END, 0, NONE, 24),
        ],
        broken: &[
            (
                1,
                Level::Must,
                Rule::PeerTransferLength {
                    length: 9,
                    limit: 8,
                },
            ),
            (2, Level::Must, STRAY),
            (2, Level::Must, Rule::SegmentFlags { flags: 0x41 }),
        ],
    },
    Row {
        name: "a limit that is passed twice",
        limits: PeerLimits {
            segment: None,
            transfer: Some(19),
        },
        sent: &[
            INIT,
            Sent::Segment(START, 0, &[(0x00, 1, 8, 33)], 20),
            Sent::Segment(END, 0, NONE, 13),
        ],
        broken: &[(
            1,
            Level::Must,
            Rule::PeerTransferAnnounced {
                announced: 33,
                limit: 19,
            },
        )],
    },
    Row {
        name: "malformed items announce nothing",
        limits: PeerLimits {
            segment: None,
            transfer: Some(32),
        },
        sent: &[
            INIT,
            Sent::Segment(START, 0, &[(0x00, 1, 8, 99), (0x00, 1, 8, 99)], 9),
            Sent::Segment(END, 0, NONE, 24),
        ],
        broken: &[(
            2,
            Level::Must,
            Rule::PeerTransferLength {
                length: 33,
                limit: 32,
            },
        )],
    },
    Row {
        name: "a second SESS_INIT without keepalives",
        limits: NO_LIMITS,
        sent: &[
            INIT,
            Sent::Keepalive,
            Sent::Init(0, NODE, NONE),
            Sent::Keepalive,
            Sent::Keepalive,
            Sent::Init(0, NODE, NONE),
            Sent::Keepalive,
        ],
        broken: &[
            (2, Level::Should, REPEATED),
            (3, Level::Should, Rule::Keepalive),
            (5, Level::Should, REPEATED),
        ],
    },
];

/// Messages before a fault of the stream.
pub static FAULTS: [Row; 6] = [
    Row {
        name: "a segment that is cut",
        limits: PeerLimits {
            segment: Some(32),
            transfer: Some(0),
        },
        sent: &[INIT, Sent::Segment(0x07, 0, NONE, 33)],
        broken: &[
            (1, Level::Must, Rule::SegmentFlags { flags: 0x07 }),
            (
                1,
                Level::Must,
                Rule::PeerSegment {
                    length: 33,
                    limit: 32,
                },
            ),
            (
                1,
                Level::Must,
                Rule::PeerTransferLength {
                    length: 33,
                    limit: 0,
                },
            ),
        ],
    },
    Row {
        name: "a head that is cut",
        limits: PeerLimits {
            segment: Some(0),
            transfer: None,
        },
        sent: &[INIT],
        broken: &[],
    },
    Row {
        name: "a sum beyond 64 bits",
        limits: PeerLimits {
            segment: Some(2),
            transfer: Some(u64::MAX),
        },
        sent: &[
            INIT,
            Sent::Segment(START, 0, NONE, 2),
            Sent::Segment(END, 0, NONE, u64::MAX),
        ],
        broken: &[
            (
                2,
                Level::Must,
                Rule::PeerSegment {
                    length: u64::MAX,
                    limit: 2,
                },
            ),
            (
                2,
                Level::Must,
                Rule::PeerTransferLength {
                    length: 18_446_744_073_709_551_617,
                    limit: u64::MAX,
                },
            ),
        ],
    },
    Row {
        name: "open at a fault",
        limits: NO_LIMITS,
        sent: &[INIT, Sent::Segment(START, 6, NONE, 0)],
        broken: &[(1, Level::Should, Rule::TransferIdOrder { id: 6 })],
    },
    Row {
        name: "lines before a fault",
        limits: NO_LIMITS,
        sent: &[INIT, Sent::Keepalive, INIT],
        broken: &[(2, Level::Should, REPEATED)],
    },
    Row {
        name: "every level",
        limits: NO_LIMITS,
        sent: &[INIT, Sent::Segment(BOTH, 0, NONE, 33), INIT],
        broken: &[(2, Level::Should, REPEATED)],
    },
];
