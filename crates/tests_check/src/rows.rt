//! Worked streams and bundles, and the lines and the status of `check` for them.
//!
//! They are runs that tests/python/rows has, with the same names.

pub(crate) mod nodes;

use link_tools::PeerLimits;
use tests_common::judging::{ALL_RULES, ALL_RULES_OF_BUNDLES, BundleJudging, Judging};
use tests_common::running::Tool;
use tests_common::stream::{CONTACT, NO_ITEMS, NODE, PARAMETERS, Part, SESSION};

/// An input, and the result of `check` for it.
#[derive(Clone, Copy)]
pub struct Row {
    pub name: &'static str,
    pub tool: Tool,
    pub input: &'static [Part],
    pub output: &'static [&'static [u8]],
    pub report: &'static [&'static [u8]],
    pub status: u8,
}

/// All rules, but for those of the peer's limits.
const ALL: Tool = Tool::Check(ALL_RULES);

/// The rules of level `must`.
const MUST: Tool = Tool::Check(Judging {
    must: true,
    ..ALL_RULES
});

/// All rules, for a peer that takes segments of 32 bytes and transfers of 31 bytes.
const LIMITED: Tool = Tool::Check(Judging {
    peer: PeerLimits {
        segment: Some(32),
        transfer: Some(31),
    },
    ..ALL_RULES
});

/// All rules, for a peer that takes transfers of 8 bytes.
const SHORT_TRANSFERS: Tool = Tool::Check(Judging {
    peer: PeerLimits {
        segment: None,
        transfer: Some(8),
    },
    ..ALL_RULES
});

/// All rules of bundles.
const BUNDLES_ALONE: Tool = Tool::BundleCheck(ALL_RULES_OF_BUNDLES);

/// The first 9 bytes of a bundle of 33 bytes that breaks no rule.
const CLEAN_FRONT: &[u8] = b"\x9f\x89\x07\x00\x01\x82\x02\x82\x02";

/// The rest of the bundle.
const CLEAN_BACK: &[u8] =
    b"\x01\x82\x02\x82\x01\x01\x82\x01\x00\x82\x01\x00\x14\x42\xac\x4c\x85\x01\x01\x00\x00\x41x\xff";

/// The first 9 bytes of a bundle of 33 bytes that breaks two rules, one of each level.
const WRONG_FRONT: &[u8] = b"\x9f\x89\x07\x08\x01\x82\x02\x82\x02";

/// The rest of the bundle.
const WRONG_BACK: &[u8] =
    b"\x01\x82\x02\x82\x01\x01\x82\x01\x00\x82\x00\x00\x14\x42\xca\xda\x85\x01\x01\x00\x00\x41x\xff";

/// The bundle of `CLEAN_FRONT` and `CLEAN_BACK` up to its check value, without its first 9 bytes.
const TO_CHECK: &[u8] = b"\x01\x82\x02\x82\x01\x01\x82\x01\x00\x82\x01\x00\x14";

/// The bytes after those, up to the head of the payload.
const TO_PAYLOAD: &[u8] = b"\x42\xac\x4c\x85\x01\x01\x00\x00";

/// Tag 55799 (RFC 8949 section 3.4.6).
const TAG: &[u8] = b"\xd9\xd9\xf7";

/// The beginning and the end of a bundle that breaks 29 rules, between which a block is missing.
const MOST_FRONT: &[u8] =
    b"\x9f\x88\x18\x07\x19\x40\x0a\x00\x82\x01\x61\x6e\x82\x01\x00\x82\x01\x00\x82\x01\x00\x04\
    \x85\x06\x02\x00\x00\x43\x82\x01\x00\
    \x85\x06\x03\x00\x00\x41\x00\x85\x06\x04\x00\x00\x41\x9f\
    \x85\x07\x05\x00\x00\x41\x05\x85\x07\x06\x00\x00\x41\x06\
    \x85\x0a\x07\x0a\x00\x43\x82\x00\x01\x85\x0a\x08\x00\x00\x43\x82\x09\x00";

const MOST_BACK: &[u8] = b"\x85\x0b\x0a\x00\x00\x4a\x82\x09\x0b\x01\x02\x82\x02\x82\x01\x01\
    \x85\x0c\x0b\x10\x00\x4f\x83\x00\x09\x0b\x00\x00\x82\x02\x82\x01\x01\x83\x80\x80\x80\
    \x85\x0c\x0c\x00\x00\x4b\x81\x09\x01\x00\x82\x02\x82\x01\x01\x81\x80\
    \x85\x0b\x0d\x00\x00\x48\x80\x01\x00\x82\x02\x82\x01\x01\
    \x85\x01\x01\x00\x00\x55\x82\x01\x84\x84\x82\xf5\x07\x81\xf5\x81\xf4\x81\xf4\x18\xff\
    \x82\x01\x00\x82\x01\x00\xff";

/// A bundle that breaks 30 rules, which is as many as one bundle can break: 179 bytes. It has a
/// block of an unknown type.
const EVERY_RULE: &[&[u8]] = &[MOST_FRONT, b"\x85\x09\x09\x00\x00\x40", MOST_BACK];

/// The same bundle with a third age in place of this block: 180 bytes.
const KNOWN_BLOCKS: &[&[u8]] = &[MOST_FRONT, b"\x85\x07\x09\x00\x00\x41\x07", MOST_BACK];

/// A SESS_TERM without flags (RFC 9174 section 6.1).
const TERM: &[&[u8]] = &[b"\x05\x00\x00"];

/// A SESS_TERM with a reserved flag.
const WRONG_TERM: &[&[u8]] = &[b"\x05\x02\x00"];

/// Another SESS_INIT.
const INIT: &[&[u8]] = &[PARAMETERS, NODE, NO_ITEMS];

/// A SESS_INIT with another interval.
const OTHER_INIT: &[&[u8]] = &[
    b"\x07\x00\x1e\x00\x00\x00\x00\x00\x01\x00\x00\x00\x00\x00\x00\x00\x10\x00\x00",
    NODE,
    NO_ITEMS,
];

/// The lines of a SESS_INIT, of a contact header and of a KEEPALIVE before it.
pub const BEGINNING: Row = Row {
    name: "a SESS_INIT",
    tool: ALL,
    input: &[Part::Bytes(&[
        b"dtn!\x04\x04\x04",
        PARAMETERS,
        b"\x00\x01n",
        b"\x00\x00\x00\x05\x02\x00\x09\x00\x00",
    ])],
    output: &[
        b"0 must contact-flags flags=04\n",
        b"6 should before-session type=04\n",
        b"7 must node-id length=1\n",
        b"7 must item-flags item=0 flags=02\n",
        b"7 should item-type item=0 type=0009\n",
    ],
    report: &[],
    status: 1,
};

/// A START that breaks most rules of messages. Its segment has all of the transfer.
pub const MOST_RULES: Row = Row {
    name: "a START that breaks most rules",
    tool: LIMITED,
    input: &[
        Part::Bytes(SESSION),
        Part::Segment(3, 5, &[]),
        Part::Segment(2, 6, &[]),
        Part::Bytes(WRONG_TERM),
        Part::Bytes(&[
            b"\x01\x0b\x00\x00\x00\x00\x00\x00\x00\x05\x00\x00\x00\x12",
            b"\x00\x00\x01\x00\x08\x00\x00\x00\x00\x00\x00\x00\x22\x10\x00\x01\x00\x00",
            b"\x00\x00\x00\x00\x00\x00\x00\x21",
            CLEAN_FRONT,
            CLEAN_BACK,
        ]),
    ],
    output: &[
        b"38 should transfer-id-order id=5\n",
        b"38 must bundle transfer=5 code=B1 byte=0\n",
        b"82 must term-flags flags=02\n",
        b"85 must item-flags item=1 flags=10\n",
        b"85 must order fault=start-after-session-termination\n",
        b"85 should interleaved id=5 open=6\n",
        b"85 must segment-flags flags=0b\n",
        b"85 must transfer-id id=5\n",
        b"85 must peer-segment length=33 limit=32\n",
        b"85 must peer-transfer length=33 limit=31\n",
        b"85 must length-item transfer=5\n",
        b"85 should length-of-one-segment transfer=5\n",
    ],
    report: &[],
    status: 1,
};

/// A transfer with another message between its segments, and a message after it.
pub const BETWEEN: Row = Row {
    name: "lines of a transfer",
    tool: ALL,
    input: &[
        Part::Bytes(SESSION),
        Part::Segment(2, 0, &[WRONG_FRONT]),
        Part::Segment(4, 0, &[]),
        Part::Segment(1, 0, &[WRONG_BACK]),
        Part::Bytes(WRONG_TERM),
    ],
    output: &[
        b"69 must segment-flags flags=04\n",
        b"38 should bundle-flags transfer=0 flags=08\n",
        b"38 must age transfer=0 blocks=0\n",
        b"129 must term-flags flags=02\n",
    ],
    report: &[],
    status: 1,
};

/// The same START of a bundle that breaks every rule. No step writes more lines.
pub static MOST_LINES: [Row; 1] = [Row {
    name: "the most lines of a step",
    tool: Tool::Check(Judging {
        peer: PeerLimits {
            segment: Some(178),
            transfer: Some(0),
        },
        ..ALL_RULES
    }),
    input: &[
        Part::Bytes(SESSION),
        Part::Segment(3, 5, &[]),
        Part::Segment(2, 6, &[]),
        Part::Bytes(WRONG_TERM),
        Part::Bytes(&[b"\x06\x01\x08"]),
        Part::Bytes(&[
            b"\x01\x0b\x00\x00\x00\x00\x00\x00\x00\x05\x00\x00\x00\x1f",
            b"\x00\x00\x01\x00\x08\x00\x00\x00\x00\x00\x00\x00\x09",
            b"\x00\x00\x01\x00\x08\x00\x00\x00\x00\x00\x00\x00\x09",
            b"\x10\x00\x02\x00\x00\x00\x00\x00\x00\x00\x00\x00\xb3",
        ]),
        Part::Bytes(EVERY_RULE),
    ],
    output: &[
        b"38 should transfer-id-order id=5\n",
        b"38 must bundle transfer=5 code=B1 byte=0\n",
        b"82 must term-flags flags=02\n",
        b"88 must item-flags item=2 flags=10\n",
        b"88 must order fault=start-after-session-termination\n",
        b"88 should interleaved id=5 open=6\n",
        b"88 must segment-flags flags=0b\n",
        b"88 must transfer-id id=5\n",
        b"88 must peer-segment length=179 limit=178\n",
        b"88 must peer-transfer length=179 limit=0\n",
        b"88 should item-type item=2 type=0002\n",
        b"88 must after-reject type=01\n",
        b"88 must length-item transfer=5\n",
        b"88 should length-of-one-segment transfer=5\n",
        b"88 should long-head transfer=5 byte=2\n",
        b"88 should bundle-flags transfer=5 flags=400a\n",
        b"88 should primary-check transfer=5\n",
        b"88 should anonymous transfer=5 flags=400a\n",
        b"88 should record-reports transfer=5 flags=400a\n",
        b"88 should block-reports transfer=5 block=7\n",
        b"88 should block-flags transfer=5 block=7 flags=0a\n",
        b"88 should dtn-name transfer=5 of=destination\n",
        b"88 should age transfer=5 blocks=2\n",
        b"88 should previous-node transfer=5 blocks=3\n",
        b"88 should hop-count transfer=5 blocks=2 limit=0\n",
        b"88 should confidential-primary transfer=5 block=11\n",
        b"88 should hops transfer=5 limit=0 count=1\n",
        b"88 should block-data transfer=5 block=3 byte=37\n",
        b"88 should data-not-read transfer=5 block=4 byte=44\n",
        b"88 should previous-node-id transfer=5 block=2\n",
        b"88 should expired transfer=5 lifetime=4 age=5\n",
        b"88 should block-type transfer=5 block=9 type=9\n",
        b"88 should report-times transfer=5\n",
        b"88 should report-reason transfer=5 reason=255\n",
        b"88 should report-source transfer=5\n",
        b"88 should security-targets transfer=5 block=13\n",
        b"88 should security-twice transfer=5 block=12 target=9\n",
        b"88 should security-flags transfer=5 block=10 flags=02\n",
        b"88 should security-context transfer=5 block=11 context=0\n",
        b"88 should integrity-target transfer=5 block=10 target=11\n",
        b"88 should confidential-target transfer=5 block=11 target=11\n",
        b"88 should confidential-flags transfer=5 block=11 flags=10\n",
        b"88 should confidential-context transfer=5 block=12\n",
        b"88 should shared-target transfer=5 block=10 target=9\n",
    ],
    report: &[],
    status: 1,
}];

/// Transfers of data that is no bundle, or that may be one and is not read.
pub const NOT_READ: Row = Row {
    name: "data that is not read",
    tool: ALL,
    input: &[
        Part::Bytes(SESSION),
        // Other items in place of a payload, and of a check value
        Part::Segment(
            3,
            0,
            &[CLEAN_FRONT, TO_CHECK, TO_PAYLOAD, b"\x5f\x41x\xff\xff"],
        ),
        Part::Segment(3, 1, &[CLEAN_FRONT, TO_CHECK, TO_PAYLOAD, b"\x9f"]),
        Part::Segment(
            3,
            2,
            &[CLEAN_FRONT, TO_CHECK, TO_PAYLOAD, b"\xd8\x18\x41x\xff"],
        ),
        Part::Segment(
            3,
            3,
            &[CLEAN_FRONT, TO_CHECK, TO_PAYLOAD, b"\xd9\x00\x18\x41x\xff"],
        ),
        Part::Segment(3, 4, &[CLEAN_FRONT, TO_CHECK, b"\x5f"]),
        Part::Segment(3, 5, &[CLEAN_FRONT, TO_CHECK, b"\x9f"]),
        Part::Segment(3, 6, &[CLEAN_FRONT, TO_CHECK, b"\xd8\x18"]),
        // Tag 55799 before a bundle, and before less than one. No bundle before it counts.
        Part::Segment(3, 7, &[TAG, CLEAN_FRONT, CLEAN_BACK]),
        Part::Segment(3, 8, &[b"\xbf"]),
        Part::Segment(2, 9, &[b"\xd9\xd9"]),
        Part::Segment(1, 9, &[b"\xf7\x9f"]),
        Part::Segment(3, 10, &[TAG]),
        Part::Segment(3, 11, &[TAG, b"\x98"]),
        Part::Segment(3, 12, &[b"\x9f\x5f"]),
        // More check values, and the data of another block than the payload block
        Part::Segment(3, 13, &[CLEAN_FRONT, TO_CHECK, b"\xd9\x00\x18"]),
        Part::Segment(
            3,
            14,
            &[
                CLEAN_FRONT,
                TO_CHECK,
                b"\x42\xac\x4c\x85\x07\x02\x00\x00\x5f",
            ],
        ),
        Part::Segment(
            3,
            15,
            &[
                CLEAN_FRONT,
                TO_CHECK,
                b"\x42\xac\x4c\x86\x07\x02\x00\x01\x41\x05\x5f",
            ],
        ),
    ],
    output: &[
        b"38 must bundle transfer=0 code=B5 byte=30\n",
        b"95 should not-read transfer=1 code=B5 byte=30\n",
        b"148 should not-read transfer=2 code=B5 byte=30\n",
        b"205 must bundle transfer=3 code=B5 byte=30\n",
        b"263 must bundle transfer=4 code=B5 byte=22\n",
        b"308 should not-read transfer=5 code=B5 byte=22\n",
        b"353 must bundle transfer=6 code=B5 byte=22\n",
        b"399 should not-read transfer=7 code=B3 byte=0\n",
        b"457 must bundle transfer=8 code=B3 byte=0\n",
        b"480 should not-read transfer=9 code=B3 byte=0\n",
        b"524 must bundle transfer=10 code=B3 byte=0\n",
        b"549 must bundle transfer=11 code=B3 byte=0\n",
        b"575 should not-read transfer=12 code=B5 byte=1\n",
        b"599 must bundle transfer=13 code=B5 byte=22\n",
        b"646 must bundle transfer=14 code=B5 byte=30\n",
        b"699 must bundle transfer=15 code=B5 byte=32\n",
    ],
    report: &[],
    status: 1,
};

/// Recordings that are read to their end.
pub static WHOLE: [Row; 7] = [
    Row {
        name: "order, kept 0",
        tool: ALL,
        input: &[
            Part::Bytes(SESSION),
            Part::Segment(2, 0, &[CLEAN_FRONT]),
            Part::Bytes(TERM),
            Part::Segment(1, 0, &[CLEAN_BACK]),
        ],
        output: &[],
        report: &[],
        status: 0,
    },
    BEGINNING,
    MOST_RULES,
    BETWEEN,
    NOT_READ,
    Row {
        name: "a wrong length hides no rule of bundles",
        tool: ALL,
        input: &[
            Part::Bytes(SESSION),
            Part::Listed(
                &[b"\x00\x00\x00\x0d\x00\x00\x01\x00\x08\x00\x00\x00\x00\x00\x00\x00\x22"],
                &[WRONG_FRONT],
            ),
            Part::Segment(1, 0, &[WRONG_BACK]),
        ],
        output: &[
            b"38 must length-differs transfer=0 announced=34 length=33\n",
            b"38 should bundle-flags transfer=0 flags=08\n",
            b"38 must age transfer=0 blocks=0\n",
        ],
        report: &[],
        status: 1,
    },
    Row {
        name: "unfinished, broken 1",
        tool: ALL,
        input: &[Part::Bytes(SESSION), Part::Segment(2, 0, &[b"ab"])],
        output: &[b"38 should unfinished transfer=0 length=2\n"],
        report: &[],
        status: 1,
    },
];

/// Recordings with messages out of order, which are read to their end.
pub static OUT_OF_ORDER: [Row; 6] = [
    Row {
        name: "a START of its own ID abandons it",
        tool: ALL,
        input: &[
            Part::Bytes(SESSION),
            Part::Segment(2, 0, &[CLEAN_FRONT]),
            Part::Segment(3, 0, &[CLEAN_FRONT, CLEAN_BACK]),
        ],
        output: &[
            b"69 must order fault=start-repeats-the-open-transfer\n",
            b"69 must transfer-id id=0\n",
        ],
        report: &[],
        status: 1,
    },
    Row {
        name: "a limit that is passed before a stray segment",
        tool: SHORT_TRANSFERS,
        input: &[
            Part::Bytes(SESSION),
            Part::Segment(2, 0, &[CLEAN_FRONT]),
            Part::Segment(0x41, 1, &[CLEAN_FRONT, CLEAN_BACK]),
            Part::Segment(1, 0, &[CLEAN_BACK]),
        ],
        output: &[
            b"38 must peer-transfer length=9 limit=8\n",
            b"69 must order fault=no-such-open-transfer\n",
            b"69 must segment-flags flags=41\n",
        ],
        report: &[],
        status: 1,
    },
    Row {
        name: "must",
        tool: MUST,
        input: &[
            Part::Bytes(SESSION),
            Part::Segment(3, 0, &[WRONG_FRONT, WRONG_BACK]),
            Part::Bytes(INIT),
        ],
        output: &[b"38 must age transfer=0 blocks=0\n"],
        report: &[],
        status: 1,
    },
    Row {
        name: "none of must",
        tool: MUST,
        input: &[
            Part::Bytes(SESSION),
            Part::Bytes(INIT),
            Part::Segment(2, 6, &[]),
        ],
        output: &[],
        report: &[],
        status: 0,
    },
    Row {
        name: "a SESS_INIT that changes the session",
        tool: MUST,
        input: &[
            Part::Bytes(SESSION),
            Part::Bytes(OTHER_INIT),
            Part::Segment(3, 0, &[CLEAN_FRONT, CLEAN_BACK]),
            Part::Bytes(OTHER_INIT),
            Part::Bytes(INIT),
        ],
        output: &[b"125 must order fault=second-session-initiation\n"],
        report: &[],
        status: 1,
    },
    Row {
        name: "a SESS_INIT amid a transfer",
        tool: MUST,
        input: &[
            Part::Bytes(&[CONTACT]),
            Part::Segment(2, 0, &[CLEAN_FRONT]),
            Part::Bytes(INIT),
            Part::Segment(0, 0, &[TO_CHECK]),
            Part::Bytes(OTHER_INIT),
            Part::Segment(1, 0, &[TO_PAYLOAD, b"\x41x\xff"]),
        ],
        output: &[
            b"6 must order fault=segment-before-session-initiation\n",
            b"100 must order fault=second-session-initiation\n",
        ],
        report: &[],
        status: 1,
    },
];

/// A segment whose last byte is missing.
pub const CUT: Row = Row {
    name: "a segment that is cut",
    tool: Tool::Check(Judging {
        peer: PeerLimits {
            segment: Some(32),
            transfer: Some(0),
        },
        ..ALL_RULES
    }),
    input: &[
        Part::Bytes(SESSION),
        Part::Bytes(&[
            b"\x01\x07\x00\x00\x00\x00\x00\x00\x00\x00\x00\x00\x00\x00",
            b"\x00\x00\x00\x00\x00\x00\x00\x21",
            CLEAN_FRONT,
            b"\x01\x82\x02\x82\x01\x01\x82\x01\x00\x82\x01\x00\x14\x42\xac\x4c\x85\x01\x01\x00\x00\x41x",
        ]),
    ],
    output: &[
        b"38 must segment-flags flags=07\n",
        b"38 must peer-segment length=33 limit=32\n",
        b"38 must peer-transfer length=33 limit=0\n",
    ],
    report: &[b"tcpclkit: byte 38: truncated\n"],
    status: 3,
};

/// Recordings with a fault that ends the run.
pub static FAULTS: [Row; 3] = [
    CUT,
    Row {
        name: "lines before a fault",
        tool: ALL,
        input: &[
            Part::Bytes(SESSION),
            Part::Bytes(&[b"\x04", PARAMETERS, NODE, NO_ITEMS, b"\x16"]),
        ],
        output: &[b"39 should order fault=second-session-initiation\n"],
        report: &[b"tcpclkit: byte 71: unknown message type 16\n"],
        status: 3,
    },
    Row {
        name: "no recording",
        tool: ALL,
        input: &[],
        output: &[],
        report: &[b"tcpclkit: byte 0: truncated\n"],
        status: 3,
    },
];

/// A bundle that breaks as many rules as one bundle can.
pub const ONE_BUNDLE: Row = Row {
    name: "a bundle",
    tool: BUNDLES_ALONE,
    input: &[Part::Bytes(EVERY_RULE)],
    output: &[
        b"0 must long-head bundle=0 byte=2\n",
        b"0 should bundle-flags bundle=0 flags=400a\n",
        b"0 should primary-check bundle=0\n",
        b"0 must anonymous bundle=0 flags=400a\n",
        b"0 must record-reports bundle=0 flags=400a\n",
        b"0 must block-reports bundle=0 block=7\n",
        b"0 should block-flags bundle=0 block=7 flags=0a\n",
        b"0 must dtn-name bundle=0 of=destination\n",
        b"0 must age bundle=0 blocks=2\n",
        b"0 must previous-node bundle=0 blocks=3\n",
        b"0 must hop-count bundle=0 blocks=2 limit=0\n",
        b"0 should confidential-primary bundle=0 block=11\n",
        b"0 should hops bundle=0 limit=0 count=1\n",
        b"0 should block-data bundle=0 block=3 byte=37\n",
        b"0 should data-not-read bundle=0 block=4 byte=44\n",
        b"0 should previous-node-id bundle=0 block=2\n",
        b"0 should expired bundle=0 lifetime=4 age=5\n",
        b"0 should block-type bundle=0 block=9 type=9\n",
        b"0 should report-times bundle=0\n",
        b"0 should report-reason bundle=0 reason=255\n",
        b"0 should report-source bundle=0\n",
        b"0 should security-targets bundle=0 block=13\n",
        b"0 should security-twice bundle=0 block=12 target=9\n",
        b"0 should security-flags bundle=0 block=10 flags=02\n",
        b"0 should security-context bundle=0 block=11 context=0\n",
        b"0 should integrity-target bundle=0 block=10 target=11\n",
        b"0 should confidential-target bundle=0 block=11 target=11\n",
        b"0 should confidential-flags bundle=0 block=11 flags=10\n",
        b"0 should confidential-context bundle=0 block=12\n",
        b"0 should shared-target bundle=0 block=10 target=9\n",
    ],
    report: &[],
    status: 1,
};

/// A record without a source that breaks four rules.
pub const RECORD: Row = Row {
    name: "a record",
    tool: BUNDLES_ALONE,
    input: &[Part::Bytes(&[
        b"\x9f\x89\x07\x19\x40\x02\x01\x82\x02\x82\x02\x01\x82\x01\x00\x82\x01\x00\x82\x00\x00\x14",
        b"\x42\x05\xc4\x85\x01\x01\x00\x00\x41x\xff",
    ])],
    output: &[
        b"0 must anonymous bundle=0 flags=4002\n",
        b"0 must record-reports bundle=0 flags=4002\n",
        b"0 must age bundle=0 blocks=0\n",
        b"0 must record bundle=0 byte=32\n",
    ],
    report: &[],
    status: 1,
};

/// A bundle with another last byte, between two others.
pub const BAD_BUNDLE: Row = Row {
    name: "a bad bundle",
    tool: BUNDLES_ALONE,
    input: &[Part::Bytes(&[
        WRONG_FRONT,
        WRONG_BACK,
        CLEAN_FRONT,
        b"\x01\x82\x02\x82\x01\x01\x82\x01\x00\x82\x01\x00\x14\x42\xac\x4c\x85\x01\x01\x00\x00\x41x\x00",
        WRONG_FRONT,
        WRONG_BACK,
    ])],
    output: &[
        b"0 should bundle-flags bundle=0 flags=08\n",
        b"0 must age bundle=0 blocks=0\n",
    ],
    report: &[b"tcpclkit: bundle 1 byte 32: B17 no payload block at the end\n"],
    status: 3,
};

/// Bundles, one after another.
pub static BUNDLES: [Row; 7] = [
    ONE_BUNDLE,
    RECORD,
    BAD_BUNDLE,
    Row {
        name: "three bundles",
        tool: BUNDLES_ALONE,
        input: &[Part::Bytes(&[
            CLEAN_FRONT,
            CLEAN_BACK,
            WRONG_FRONT,
            WRONG_BACK,
            CLEAN_FRONT,
            CLEAN_BACK,
        ])],
        output: &[
            b"33 should bundle-flags bundle=1 flags=08\n",
            b"33 must age bundle=1 blocks=0\n",
        ],
        report: &[],
        status: 1,
    },
    // The first bundle has an age that is ciphertext, and the second one an age that is none.
    Row {
        name: "targets of the bundle before",
        tool: BUNDLES_ALONE,
        input: &[Part::Bytes(&[
            CLEAN_FRONT,
            TO_CHECK,
            b"\x42\xac\x4c\x85\x07\x02\x00\x00\x40\x85\x0c\x09\x00\x00\x4b\x81\x02\x02\x00\x82\x02",
            b"\x82\x01\x01\x81\x80\x85\x01\x01\x00\x00\x41x\xff",
            CLEAN_FRONT,
            TO_CHECK,
            b"\x42\xac\x4c\x85\x07\x02\x00\x00\x40\x85\x01\x01\x00\x00\x41x\xff",
        ])],
        output: &[b"56 must block-data bundle=1 block=2 byte=31\n"],
        report: &[],
        status: 1,
    },
    Row {
        name: "no bundle",
        tool: BUNDLES_ALONE,
        input: &[],
        output: &[],
        report: &[],
        status: 0,
    },
    Row {
        name: "must, of a bundle",
        tool: Tool::BundleCheck(BundleJudging {
            must: true,
            ..ALL_RULES_OF_BUNDLES
        }),
        input: &[Part::Bytes(&[WRONG_FRONT, WRONG_BACK])],
        output: &[b"0 must age bundle=0 blocks=0\n"],
        report: &[],
        status: 1,
    },
];
