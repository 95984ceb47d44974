//! Messages that break one rule alone: names of nodes, intervals, types and reasons.
//!
//! Each row has the messages of a recording that tests/python/rows has for `check`, and its rules.

use super::judging::{INIT, NO_LIMITS, NODE, NONE, Row, START, Sent};
use link_session_rules::{Level, MessageRule as Rule};

/// Names of nodes, and intervals.
pub static NAMES: [Row; 12] = [
    Row {
        name: "node-name, broken 0",
        limits: NO_LIMITS,
        sent: &[Sent::Init(60, b"dtn:none", NONE)],
        broken: &[(
            0,
            Level::Should,
            Rule::NodeName {
                length: 8,
                level: Level::Should,
            },
        )],
    },
    Row {
        name: "node-name, broken 1",
        limits: NO_LIMITS,
        sent: &[Sent::Init(60, b"dtn://n/a", NONE)],
        broken: &[(
            0,
            Level::Should,
            Rule::NodeName {
                length: 9,
                level: Level::Should,
            },
        )],
    },
    Row {
        name: "node-name, broken 2",
        limits: NO_LIMITS,
        sent: &[Sent::Init(60, b"ipn:1.1", NONE)],
        broken: &[(
            0,
            Level::Should,
            Rule::NodeName {
                length: 7,
                level: Level::Should,
            },
        )],
    },
    Row {
        name: "node-name, broken 3",
        limits: NO_LIMITS,
        sent: &[Sent::Init(60, b"a:", NONE)],
        broken: &[(
            0,
            Level::Should,
            Rule::NodeName {
                length: 2,
                level: Level::Should,
            },
        )],
    },
    Row {
        name: "node-name, broken 4",
        limits: NO_LIMITS,
        sent: &[Sent::Init(60, b"dtn://n/~", NONE)],
        broken: &[(
            0,
            Level::Must,
            Rule::NodeName {
                length: 9,
                level: Level::Must,
            },
        )],
    },
    Row {
        name: "node-name, kept 0",
        limits: NO_LIMITS,
        sent: &[Sent::Init(60, b"ipn:!.1", NONE)],
        broken: &[],
    },
    Row {
        name: "keepalive-interval, broken 0",
        limits: NO_LIMITS,
        sent: &[Sent::Init(1, NODE, NONE)],
        broken: &[(0, Level::Should, Rule::KeepaliveInterval { interval: 1 })],
    },
    Row {
        name: "keepalive-interval, broken 1",
        limits: NO_LIMITS,
        sent: &[Sent::Init(29, NODE, NONE)],
        broken: &[(0, Level::Should, Rule::KeepaliveInterval { interval: 29 })],
    },
    Row {
        name: "keepalive-interval, broken 2",
        limits: NO_LIMITS,
        sent: &[Sent::Init(601, NODE, NONE)],
        broken: &[(0, Level::Should, Rule::KeepaliveInterval { interval: 601 })],
    },
    Row {
        name: "keepalive-interval, kept 0",
        limits: NO_LIMITS,
        sent: &[Sent::Init(0, NODE, NONE)],
        broken: &[],
    },
    Row {
        name: "keepalive-interval, kept 1",
        limits: NO_LIMITS,
        sent: &[Sent::Init(30, NODE, NONE)],
        broken: &[],
    },
    Row {
        name: "keepalive-interval, kept 2",
        limits: NO_LIMITS,
        sent: &[Sent::Init(600, NODE, NONE)],
        broken: &[],
    },
];

/// Types of items, rejected types, and reasons.
pub static ASSIGNED: [Row; 23] = [
    Row {
        name: "item-type, broken 0",
        limits: NO_LIMITS,
        sent: &[Sent::Init(60, NODE, &[(0, 0x0000, 0, 0)])],
        broken: &[(
            0,
            Level::Should,
            Rule::ItemType {
                item: 0,
                kind: 0x0000,
            },
        )],
    },
    Row {
        name: "item-type, broken 1",
        limits: NO_LIMITS,
        sent: &[Sent::Init(60, NODE, &[(0, 0x0001, 0, 0)])],
        broken: &[(
            0,
            Level::Should,
            Rule::ItemType {
                item: 0,
                kind: 0x0001,
            },
        )],
    },
    Row {
        name: "item-type, broken 2",
        limits: NO_LIMITS,
        sent: &[Sent::Init(60, NODE, &[(0, 0x7fff, 0, 0)])],
        broken: &[(
            0,
            Level::Should,
            Rule::ItemType {
                item: 0,
                kind: 0x7fff,
            },
        )],
    },
    Row {
        name: "item-type, broken 3",
        limits: NO_LIMITS,
        sent: &[
            INIT,
            Sent::Segment(START, 0, &[(0, 1, 8, 33), (0, 2, 0, 0)], 9),
        ],
        broken: &[(1, Level::Should, Rule::ItemType { item: 1, kind: 2 })],
    },
    Row {
        name: "item-type, kept 0",
        limits: NO_LIMITS,
        sent: &[
            INIT,
            Sent::Segment(START, 0, &[(0, 1, 8, 33), (0, 0x8000, 0, 0)], 9),
        ],
        broken: &[],
    },
    Row {
        name: "reject-known, broken 0",
        limits: NO_LIMITS,
        sent: &[INIT, Sent::Reject(1, 1)],
        broken: &[(
            1,
            Level::Should,
            Rule::RejectKnown {
                reason: 1,
                header: 1,
            },
        )],
    },
    Row {
        name: "reject-known, broken 1",
        limits: NO_LIMITS,
        sent: &[INIT, Sent::Reject(1, 7)],
        broken: &[(
            1,
            Level::Should,
            Rule::RejectKnown {
                reason: 1,
                header: 7,
            },
        )],
    },
    Row {
        name: "reject-known, broken 2",
        limits: NO_LIMITS,
        sent: &[INIT, Sent::Reject(2, 0)],
        broken: &[(
            1,
            Level::Should,
            Rule::RejectKnown {
                reason: 2,
                header: 0,
            },
        )],
    },
    Row {
        name: "reject-known, broken 3",
        limits: NO_LIMITS,
        sent: &[INIT, Sent::Reject(3, 0)],
        broken: &[(
            1,
            Level::Should,
            Rule::RejectKnown {
                reason: 3,
                header: 0,
            },
        )],
    },
    Row {
        name: "reject-known, kept 0",
        limits: NO_LIMITS,
        sent: &[INIT, Sent::Reject(1, 0)],
        broken: &[],
    },
    Row {
        name: "reject-known, kept 1",
        limits: NO_LIMITS,
        sent: &[INIT, Sent::Reject(1, 8)],
        broken: &[],
    },
    Row {
        name: "reject-known, kept 2",
        limits: NO_LIMITS,
        sent: &[INIT, Sent::Reject(2, 1)],
        broken: &[],
    },
    Row {
        name: "reject-known, kept 3",
        limits: NO_LIMITS,
        sent: &[INIT, Sent::Reject(3, 7)],
        broken: &[],
    },
    Row {
        name: "reject-known, kept 4",
        limits: NO_LIMITS,
        sent: &[INIT, Sent::Reject(2, 8)],
        broken: &[],
    },
    Row {
        name: "reject-known, kept 5",
        limits: NO_LIMITS,
        sent: &[INIT, Sent::Reject(3, 0xf0)],
        broken: &[],
    },
    Row {
        name: "reason, broken 0",
        limits: NO_LIMITS,
        sent: &[INIT, Sent::Reject(0, 7)],
        broken: &[(1, Level::Should, Rule::Reason { kind: 6, reason: 0 })],
    },
    Row {
        name: "reason, broken 1",
        limits: NO_LIMITS,
        sent: &[INIT, Sent::Reject(4, 7)],
        broken: &[(1, Level::Should, Rule::Reason { kind: 6, reason: 4 })],
    },
    Row {
        name: "reason, broken 2",
        limits: NO_LIMITS,
        sent: &[INIT, Sent::Reject(0xef, 7)],
        broken: &[(
            1,
            Level::Should,
            Rule::Reason {
                kind: 6,
                reason: 239,
            },
        )],
    },
    Row {
        name: "reason, broken 3",
        limits: NO_LIMITS,
        sent: &[INIT, Sent::Refuse(7, 0)],
        broken: &[(1, Level::Should, Rule::Reason { kind: 3, reason: 7 })],
    },
    Row {
        name: "reason, broken 4",
        limits: NO_LIMITS,
        sent: &[INIT, Sent::Refuse(0xef, 0)],
        broken: &[(
            1,
            Level::Should,
            Rule::Reason {
                kind: 3,
                reason: 239,
            },
        )],
    },
    Row {
        name: "reason, kept 0",
        limits: NO_LIMITS,
        sent: &[INIT, Sent::Reject(0xf0, 7)],
        broken: &[],
    },
    Row {
        name: "reason, kept 1",
        limits: NO_LIMITS,
        sent: &[INIT, Sent::Refuse(6, 0)],
        broken: &[],
    },
    Row {
        name: "reason, kept 2",
        limits: NO_LIMITS,
        sent: &[INIT, Sent::Refuse(0xf0, 0)],
        broken: &[],
    },
];
