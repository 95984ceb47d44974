//! Worked streams with transfers, and the texts and the status of unpacking them.

use link_tools::Wanted;
use tests_common::rows::{ALL, BUNDLE_REPORT, GOOD, TWO_BUNDLES, TWO_BUNDLES_REPORT};
use tests_common::stream::{
    BACK, CONTACT, FIRST_10, FRONT, LENGTH_34, NO_ITEMS, NODE, PARAMETERS, PLAIN, Part, SESSION,
    WHOLE_TRANSFER,
};

/// All data of transfers with ID 1.
const ONLY_1: Wanted = Wanted {
    only: Some(1),
    payload: false,
    keep_going: false,
};

/// The payloads of all transfers.
pub const PAYLOAD: Wanted = Wanted {
    only: None,
    payload: true,
    keep_going: false,
};

/// The payloads of transfers with ID 1.
const PAYLOAD_OF_1: Wanted = Wanted {
    only: Some(1),
    payload: true,
    keep_going: false,
};

/// A recorded stream, and the result of unpacking it.
#[derive(Clone, Copy)]
pub struct Row {
    pub name: &'static str,
    pub wanted: Wanted,
    pub stream: &'static [Part],
    pub output: &'static [&'static [u8]],
    pub report: &'static [&'static [u8]],
    pub status: u8,
}

/// A Transfer Length item that announces 35 bytes.
const TOTAL_35: &[u8] = b"\x00\x00\x01\x00\x08\x00\x00\x00\x00\x00\x00\x00\x23";

/// A transfer with ten bytes of the bundle, and then another transfer.
pub const ABANDONED: &[Part] = &[
    Part::Bytes(SESSION),
    Part::Segment(2, 0, &[FIRST_10]),
    Part::Segment(3, 1, PLAIN),
];

/// The bundle in three transfers. The first and the last have the same ID.
const SAME_ID: &[Part] = &[
    Part::Bytes(SESSION),
    Part::Segment(3, 1, PLAIN),
    Part::Segment(3, 0, PLAIN),
    Part::Segment(3, 1, PLAIN),
];

/// A transfer that another abandons.
pub const ABANDONING: Row = Row {
    name: "a transfer that another abandons",
    wanted: ALL,
    stream: ABANDONED,
    output: &[FIRST_10, FRONT, BACK],
    report: &[
        b"transfer 0 start=0 written=10 length=10 abandoned\n",
        b"transfer 1 start=10 written=34 length=34",
        GOOD,
    ],
    status: 1,
};

/// A transfer whose last segment has no data.
pub const EMPTY_END: Row = Row {
    name: "a last segment without data",
    wanted: ALL,
    stream: &[
        Part::Bytes(SESSION),
        Part::Segment(2, 0, PLAIN),
        Part::Segment(1, 0, &[]),
    ],
    output: &[FRONT, BACK],
    report: BUNDLE_REPORT,
    status: 0,
};

/// The data of two transfers.
pub const WHOLE_BUNDLES: Row = Row {
    name: "two bundles",
    wanted: ALL,
    stream: TWO_BUNDLES,
    output: &[FRONT, BACK, FRONT, BACK],
    report: TWO_BUNDLES_REPORT,
    status: 0,
};

/// The payloads of two transfers.
pub const PAYLOADS: Row = Row {
    name: "two payloads",
    wanted: PAYLOAD,
    stream: TWO_BUNDLES,
    output: &[b"hello", b"hello"],
    report: &[
        b"transfer 0 start=0 written=5 length=34",
        GOOD,
        b"transfer 1 start=5 written=5 length=34",
        GOOD,
    ],
    status: 0,
};

/// Streams that are read to their end, with all of their data wanted.
pub static WHOLE: [Row; 9] = [
    Row {
        name: "a contact header",
        wanted: ALL,
        stream: &[Part::Bytes(&[CONTACT])],
        output: &[],
        report: &[],
        status: 0,
    },
    ABANDONING,
    EMPTY_END,
    WHOLE_BUNDLES,
    Row {
        name: "an ID used again",
        wanted: ALL,
        stream: SAME_ID,
        output: &[FRONT, BACK, FRONT, BACK, FRONT, BACK],
        report: &[
            b"transfer 1 start=0 written=34 length=34",
            GOOD,
            b"transfer 0 start=34 written=34 length=34",
            GOOD,
            b"transfer 1 start=68 written=34 length=34",
            GOOD,
        ],
        status: 0,
    },
    Row {
        name: "an announced length that differs",
        wanted: ALL,
        stream: &[
            Part::Bytes(SESSION),
            Part::Listed(&[b"\x00\x00\x00\x0d", TOTAL_35], &[FRONT]),
            Part::Segment(1, 0, &[BACK]),
        ],
        output: PLAIN,
        report: &[b"transfer 0 start=0 written=34 length=34 length-differs announced=35\n"],
        status: 1,
    },
    Row {
        name: "a length announced twice",
        wanted: ALL,
        stream: &[
            Part::Bytes(SESSION),
            Part::Listed(&[b"\x00\x00\x00\x1a", TOTAL_35, TOTAL_35], &[FRONT]),
            Part::Segment(1, 0, &[BACK]),
        ],
        output: PLAIN,
        report: &[b"transfer 0 start=0 written=34 length=34 bad-length-item\n"],
        status: 1,
    },
    Row {
        name: "an abandoned transfer with a malformed length item",
        wanted: ALL,
        stream: &[
            Part::Bytes(SESSION),
            Part::Listed(&[b"\x00\x00\x00\x05\x00\x00\x01\x00\x00"], &[FIRST_10]),
            Part::Segment(3, 1, PLAIN),
        ],
        output: &[FIRST_10, FRONT, BACK],
        report: &[
            b"transfer 0 start=0 written=10 length=10 abandoned\n",
            b"transfer 1 start=10 written=34 length=34",
            GOOD,
        ],
        status: 1,
    },
    Row {
        name: "other messages inside a transfer",
        wanted: ALL,
        stream: &[
            Part::Bytes(SESSION),
            Part::Segment(2, 0, &[FRONT]),
            Part::Bytes(&[b"\x04", b"\x06\x01\x16"]),
            Part::Segment(1, 0, &[BACK]),
        ],
        output: PLAIN,
        report: BUNDLE_REPORT,
        status: 0,
    },
];

/// Streams from which only a part is wanted.
pub static PARTS: [Row; 4] = [
    Row {
        name: "one of two transfers",
        wanted: ONLY_1,
        stream: ABANDONED,
        output: PLAIN,
        report: &[
            b"transfer 0 start=0 written=0 length=10 abandoned\n",
            b"transfer 1 start=0 written=34 length=34",
            GOOD,
        ],
        status: 1,
    },
    Row {
        name: "each transfer of one ID",
        wanted: ONLY_1,
        stream: SAME_ID,
        output: &[FRONT, BACK, FRONT, BACK],
        report: &[
            b"transfer 1 start=0 written=34 length=34",
            GOOD,
            b"transfer 0 start=34 written=0 length=34",
            GOOD,
            b"transfer 1 start=34 written=34 length=34",
            GOOD,
        ],
        status: 0,
    },
    PAYLOADS,
    Row {
        name: "one of two payloads",
        wanted: PAYLOAD_OF_1,
        stream: TWO_BUNDLES,
        output: &[b"hello"],
        report: &[
            b"transfer 0 start=0 written=0 length=34",
            GOOD,
            b"transfer 1 start=0 written=5 length=34",
            GOOD,
        ],
        status: 0,
    },
];

/// Streams with a fault.
pub static FAULTS: [Row; 7] = [
    Row {
        name: "the longest segment cut",
        wanted: ALL,
        stream: &[
            Part::Bytes(SESSION),
            Part::Bytes(&[
                WHOLE_TRANSFER,
                b"\xff\xff\xff\xff\xff\xff\xff\xff",
                b"\x9f\x88\x07",
            ]),
        ],
        output: &[b"\x9f\x88\x07"],
        report: &[b"tcpclkit: byte 38: truncated\n"],
        status: 3,
    },
    Row {
        name: "a start of the open transfer",
        wanted: ALL,
        stream: &[
            Part::Bytes(SESSION),
            Part::Segment(2, 0, &[FIRST_10]),
            Part::Segment(3, 0, PLAIN),
        ],
        output: &[FIRST_10],
        report: &[b"tcpclkit: byte 70: start repeats the open transfer\n"],
        status: 3,
    },
    Row {
        name: "a cut segment abandons the open transfer",
        wanted: ALL,
        stream: &[
            Part::Bytes(SESSION),
            Part::Segment(2, 0, &[FIRST_10]),
            Part::Bytes(&[
                b"\x01\x03\x00\x00\x00\x00\x00\x00\x00\x01",
                NO_ITEMS,
                LENGTH_34,
                b"\x9f\x88\x07",
            ]),
        ],
        output: &[FIRST_10, b"\x9f\x88\x07"],
        report: &[
            b"transfer 0 start=0 written=10 length=10 abandoned\n",
            b"tcpclkit: byte 70: truncated\n",
        ],
        status: 3,
    },
    Row {
        name: "a transfer after SESS_TERM",
        wanted: ALL,
        stream: &[
            Part::Bytes(SESSION),
            Part::Segment(2, 0, &[FRONT]),
            Part::Bytes(&[b"\x05\x00\x00"]),
            Part::Segment(1, 0, &[BACK]),
            Part::Segment(3, 1, PLAIN),
        ],
        output: PLAIN,
        report: &[
            b"transfer 0 start=0 written=34 length=34",
            GOOD,
            b"tcpclkit: byte 115: start after session termination\n",
        ],
        status: 3,
    },
    Row {
        name: "a second SESS_INIT",
        wanted: ALL,
        stream: &[
            Part::Bytes(SESSION),
            Part::Bytes(&[PARAMETERS, NODE, NO_ITEMS]),
        ],
        output: &[],
        report: &[b"tcpclkit: byte 38: second session initiation\n"],
        status: 3,
    },
    Row {
        name: "a transfer before SESS_INIT",
        wanted: ALL,
        stream: &[Part::Bytes(&[CONTACT]), Part::Segment(3, 0, PLAIN)],
        output: &[],
        report: &[b"tcpclkit: byte 6: segment before session initiation\n"],
        status: 3,
    },
    Row {
        name: "a segment of no transfer",
        wanted: ALL,
        stream: &[Part::Bytes(SESSION), Part::Segment(1, 5, PLAIN)],
        output: &[],
        report: &[b"tcpclkit: byte 38: no such open transfer\n"],
        status: 3,
    },
];
