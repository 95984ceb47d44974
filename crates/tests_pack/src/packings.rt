//! Worked inputs of bundles, and the stream, the report and the status of packing them.

use tests_common::packing::{DEFAULTS, Packing};
use tests_common::rows::TWO_BUNDLES;
use tests_common::stream::{BACK, CONTACT, FIRST_10, FRONT, NO_ITEMS, PLAIN, Part, SESSION};

/// Segments of 17 bytes: half the bundle.
const HALVES: Packing = Packing {
    peer_segment: 17,
    ..DEFAULTS
};

/// Segments of 10 bytes, and transfers of at most 33 bytes: one less than the bundle has.
const TENS: Packing = Packing {
    peer_segment: 10,
    peer_transfer: 33,
    ..DEFAULTS
};

/// Bundles, one after another, and the result of packing them.
#[derive(Clone, Copy)]
pub struct Row {
    pub name: &'static str,
    pub packing: Packing,
    pub input: &'static [&'static [u8]],
    pub output: &'static [Part],
    /// One element for each line.
    pub report: &'static [&'static [u8]],
    pub status: u8,
}

/// The second 10 bytes of the bundle.
const SECOND_10: &[u8] = b"\x82\x02\x82\x01\x01\x82\x01\x00\x82\x00";

/// The third 10 bytes of the bundle.
const THIRD_10: &[u8] = b"\x00\x00\x85\x01\x01\x00\x00\x45he";

/// The last 4 bytes of the bundle.
const LAST_4: &[u8] = b"llo\xff";

/// The second half of the bundle without its last byte.
const CUT_BACK: &[u8] = b"\x00\x82\x00\x00\x00\x85\x01\x01\x00\x00\x45hello";

/// The second half of the bundle with another last byte.
const UNENDED_BACK: &[u8] = b"\x00\x82\x00\x00\x00\x85\x01\x01\x00\x00\x45hello\x00";

/// The first half of the bundle with a byte string in place of its flags.
const WRONG_FRONT: &[u8] = b"\x9f\x88\x07\x40\x00\x82\x02\x82\x02\x01\x82\x02\x82\x01\x01\x82\x01";

/// The line of a first bundle in one segment.
const IN_ONE: &[u8] = b"bundle 0 segments=1 length=34 source=ipn:1.1 time=0 sequence=0 \
    destination=ipn:2.1 payload=5\n";

/// The line of a first bundle in two segments.
const IN_TWO: &[u8] = b"bundle 0 segments=2 length=34 source=ipn:1.1 time=0 sequence=0 \
    destination=ipn:2.1 payload=5\n";

/// The line of a first bundle in four segments.
const IN_FOUR: &[u8] = b"bundle 0 segments=4 length=34 source=ipn:1.1 time=0 sequence=0 \
    destination=ipn:2.1 payload=5\n";

/// The line of a second bundle in two segments.
const SECOND_IN_TWO: &[u8] = b"bundle 1 segments=2 length=34 source=ipn:1.1 time=0 sequence=0 \
    destination=ipn:2.1 payload=5\n";

/// The fault line of a first bundle of more than 33 bytes, if the peer takes no more.
const PAST_33: &[u8] = b"tcpclkit: bundle 0 byte 33: P1 longer than the peer's transfer limit\n";

/// The output before the bundles.
const BEGUN: &[Part] = &[Part::Bytes(SESSION)];

/// The output for the bundle in one segment.
const ONE_SEGMENT: &[Part] = &[Part::Bytes(SESSION), Part::Segment(3, 0, PLAIN)];

/// The output for the bundle in two segments.
const TWO_SEGMENTS: &[Part] = &[
    Part::Bytes(SESSION),
    Part::Segment(2, 0, &[FRONT]),
    Part::Segment(1, 0, &[BACK]),
];

/// The output with the three full segments of the bundle, of 10 bytes each.
const THREE_SEGMENTS: &[Part] = &[
    Part::Bytes(SESSION),
    Part::Segment(2, 0, &[FIRST_10]),
    Part::Segment(0, 0, &[SECOND_10]),
    Part::Segment(0, 0, &[THIRD_10]),
];

/// Two bundles of two segments each.
pub const IN_HALVES: Row = Row {
    name: "two bundles in halves",
    packing: HALVES,
    input: &[FRONT, BACK, FRONT, BACK],
    output: TWO_BUNDLES,
    report: &[IN_TWO, SECOND_IN_TWO],
    status: 0,
};

/// A bundle of exactly the longest length that is announced. Its stream has 125 bytes.
pub const ANNOUNCED: Row = Row {
    name: "an announced length",
    packing: Packing {
        announce: 34,
        ..HALVES
    },
    input: PLAIN,
    output: &[
        Part::Bytes(SESSION),
        Part::Listed(
            &[b"\x00\x00\x00\x0d\x00\x00\x01\x00\x08\x00\x00\x00\x00\x00\x00\x00\x22"],
            &[FRONT],
        ),
        Part::Segment(1, 0, &[BACK]),
    ],
    report: &[IN_TWO],
    status: 0,
};

/// A bundle that is one byte longer than the peer takes.
pub const PAST_LIMIT: Row = Row {
    name: "a byte past the peer's limit",
    packing: TENS,
    input: PLAIN,
    output: THREE_SEGMENTS,
    report: &[PAST_33],
    status: 3,
};

/// The same bundle, whose length may still be announced when it reaches the peer's limit.
pub const HELD: Row = Row {
    name: "a byte past the limit and past what is announced",
    packing: Packing {
        announce: 33,
        ..TENS
    },
    input: PLAIN,
    output: BEGUN,
    report: &[PAST_33],
    status: 3,
};

/// The same bundle, whose length can no longer be announced when it reaches the peer's limit.
pub const NOT_HELD: Row = Row {
    name: "a byte past the limit, and two past what is announced",
    packing: Packing {
        announce: 32,
        ..TENS
    },
    input: PLAIN,
    output: THREE_SEGMENTS,
    report: &[PAST_33],
    status: 3,
};

/// Inputs that have only whole bundles.
pub static WHOLE: [Row; 9] = [
    Row {
        name: "nothing",
        packing: DEFAULTS,
        input: &[],
        output: BEGUN,
        report: &[],
        status: 0,
    },
    Row {
        name: "nothing, and SESS_TERM",
        packing: Packing {
            send_term: true,
            ..DEFAULTS
        },
        input: &[],
        output: &[Part::Bytes(SESSION), Part::Bytes(&[b"\x05\x00\x00"])],
        report: &[],
        status: 0,
    },
    Row {
        name: "a bundle, and SESS_TERM",
        packing: Packing {
            send_term: true,
            ..DEFAULTS
        },
        input: PLAIN,
        output: &[
            Part::Bytes(SESSION),
            Part::Segment(3, 0, PLAIN),
            Part::Bytes(&[b"\x05\x00\x00"]),
        ],
        report: &[IN_ONE],
        status: 0,
    },
    Row {
        name: "another sender",
        packing: Packing {
            node: b"",
            keepalive: 0x0102,
            segment_mru: 0x0304_0506_0708_090a,
            transfer_mru: u64::MAX,
            ..DEFAULTS
        },
        input: PLAIN,
        output: &[
            Part::Bytes(&[
                CONTACT,
                b"\x07\x01\x02\x03\x04\x05\x06\x07\x08\x09\x0a\xff\xff\xff\xff\xff\xff\xff\xff",
                b"\x00\x00",
                NO_ITEMS,
            ]),
            Part::Segment(3, 0, PLAIN),
        ],
        report: &[IN_ONE],
        status: 0,
    },
    IN_HALVES,
    Row {
        name: "a bundle of just the peer's limit",
        packing: Packing {
            peer_transfer: 34,
            ..TENS
        },
        input: PLAIN,
        output: &[
            Part::Bytes(SESSION),
            Part::Segment(2, 0, &[FIRST_10]),
            Part::Segment(0, 0, &[SECOND_10]),
            Part::Segment(0, 0, &[THIRD_10]),
            Part::Segment(1, 0, &[LAST_4]),
        ],
        report: &[IN_FOUR],
        status: 0,
    },
    ANNOUNCED,
    Row {
        name: "a bundle longer than is announced",
        packing: Packing {
            announce: 33,
            ..HALVES
        },
        input: PLAIN,
        output: TWO_SEGMENTS,
        report: &[IN_TWO],
        status: 0,
    },
    Row {
        name: "a bundle of one segment is not announced",
        packing: Packing {
            peer_segment: 34,
            announce: 100,
            ..DEFAULTS
        },
        input: PLAIN,
        output: ONE_SEGMENT,
        report: &[IN_ONE],
        status: 0,
    },
];

/// Inputs with a fault.
pub static FAULTS: [Row; 10] = [
    PAST_LIMIT,
    Row {
        name: "a segment's data past the peer's limit",
        packing: Packing {
            peer_transfer: 10,
            ..DEFAULTS
        },
        input: &[FIRST_10, SECOND_10],
        output: BEGUN,
        report: &[b"tcpclkit: bundle 0 byte 10: P1 longer than the peer's transfer limit\n"],
        status: 3,
    },
    Row {
        name: "a peer that takes nothing",
        packing: Packing {
            peer_transfer: 0,
            ..DEFAULTS
        },
        input: PLAIN,
        output: BEGUN,
        report: &[b"tcpclkit: bundle 0 byte 0: P1 longer than the peer's transfer limit\n"],
        status: 3,
    },
    Row {
        name: "an input that ends at the peer's limit",
        packing: TENS,
        input: &[FRONT, CUT_BACK],
        output: THREE_SEGMENTS,
        report: &[b"tcpclkit: bundle 0 byte 33: B1 input ends inside a bundle\n"],
        status: 3,
    },
    Row {
        name: "a second bundle with a fault",
        packing: DEFAULTS,
        input: &[FRONT, BACK, WRONG_FRONT, BACK],
        output: ONE_SEGMENT,
        report: &[
            IN_ONE,
            b"tcpclkit: bundle 1 byte 3: B5 wrong kind of item\n",
        ],
        status: 3,
    },
    Row {
        name: "a cut bundle",
        packing: DEFAULTS,
        input: &[FRONT, CUT_BACK],
        output: BEGUN,
        report: &[b"tcpclkit: bundle 0 byte 33: B1 input ends inside a bundle\n"],
        status: 3,
    },
    Row {
        name: "the byte that shows a fault fills no segment",
        packing: HALVES,
        input: &[FRONT, UNENDED_BACK],
        output: &[Part::Bytes(SESSION), Part::Segment(2, 0, &[FRONT])],
        report: &[b"tcpclkit: bundle 0 byte 33: B17 no payload block at the end\n"],
        status: 3,
    },
    Row {
        name: "no SESS_TERM after a fault",
        packing: Packing {
            send_term: true,
            ..DEFAULTS
        },
        input: &[FRONT, BACK, b"\x00"],
        output: ONE_SEGMENT,
        report: &[IN_ONE, b"tcpclkit: bundle 1 byte 0: B3 not a bundle\n"],
        status: 3,
    },
    HELD,
    NOT_HELD,
];
