//! Worked streams with messages out of order, and the result of unpacking each to its end.

use crate::transfers::Row;
use link_tools::Wanted;
use tests_common::rows::GOOD;
use tests_common::stream::{
    BACK, CONTACT, FIRST_10, FRONT, LAST_SEGMENT, LENGTH_34, NO_ITEMS, NODE, PARAMETERS, PLAIN,
    Part, SESSION, WHOLE_TRANSFER,
};

/// All data of all transfers, also after a fault of the order.
pub const GOING_ON: Wanted = Wanted {
    only: None,
    payload: false,
    keep_going: true,
};

/// All data of transfers with ID 1.
const GOING_ON_WITH_1: Wanted = Wanted {
    only: Some(1),
    payload: false,
    keep_going: true,
};

/// The payloads of all transfers.
const GOING_ON_WITH_PAYLOADS: Wanted = Wanted {
    only: None,
    payload: true,
    keep_going: true,
};

/// A SESS_INIT.
const SESS_INIT: &[&[u8]] = &[PARAMETERS, NODE, NO_ITEMS];

/// A segment of no open transfer between the two segments of a transfer: 164 bytes.
pub const STRAY_BETWEEN: &[Part] = &[
    Part::Bytes(SESSION),
    Part::Segment(2, 0, &[FRONT]),
    Part::Segment(1, 5, PLAIN),
    Part::Segment(1, 0, &[BACK]),
];

/// The fault line of a segment of no open transfer at offset 38.
const STRAY_AT_38: &[u8] = b"tcpclkit: byte 38: no such open transfer\n";

/// A transfer after a segment of no open transfer.
pub const STRAY_FIRST: Row = Row {
    name: "a segment of no open transfer without data",
    wanted: GOING_ON,
    stream: &[
        Part::Bytes(SESSION),
        Part::Segment(1, 5, &[]),
        Part::Segment(3, 0, PLAIN),
    ],
    output: PLAIN,
    report: &[
        STRAY_AT_38,
        b"transfer 0 start=0 written=34 length=34",
        GOOD,
    ],
    status: 1,
};

/// A segment of no open transfer whose data is cut.
pub const STRAY_CUT: Row = Row {
    name: "a segment of no open transfer cut",
    wanted: GOING_ON,
    stream: &[
        Part::Bytes(SESSION),
        Part::Bytes(&[
            LAST_SEGMENT,
            b"\xff\xff\xff\xff\xff\xff\xff\xff",
            b"\x9f\x88\x07",
        ]),
    ],
    output: &[],
    report: &[STRAY_AT_38, b"tcpclkit: byte 38: truncated\n"],
    status: 3,
};

/// A SESS_INIT that is refused, and another.
pub const SECOND_SESS_INIT: Row = Row {
    name: "a second and a third SESS_INIT",
    wanted: GOING_ON,
    stream: &[
        Part::Bytes(SESSION),
        Part::Segment(2, 0, &[FRONT]),
        Part::Bytes(SESS_INIT),
        Part::Bytes(SESS_INIT),
        Part::Segment(1, 0, &[BACK]),
    ],
    output: PLAIN,
    report: &[
        b"tcpclkit: byte 77: second session initiation\n",
        b"tcpclkit: byte 109: second session initiation\n",
        b"transfer 0 start=0 written=34 length=34",
        GOOD,
    ],
    status: 1,
};

/// A transfer before SESS_INIT, and one after it.
pub const EARLY_TRANSFER: Row = Row {
    name: "a transfer before SESS_INIT",
    wanted: GOING_ON,
    stream: &[
        Part::Bytes(&[CONTACT]),
        Part::Segment(2, 0, &[FRONT]),
        Part::Segment(1, 0, &[BACK]),
        Part::Bytes(SESS_INIT),
        Part::Segment(3, 1, PLAIN),
    ],
    output: &[FRONT, BACK, FRONT, BACK],
    report: &[
        b"tcpclkit: byte 6: segment before session initiation\n",
        b"tcpclkit: byte 45: segment before session initiation\n",
        b"transfer 0 start=0 written=34 length=34",
        GOOD,
        b"transfer 1 start=34 written=34 length=34",
        GOOD,
    ],
    status: 1,
};

/// Segments of no open transfer: amid a transfer, and after it.
pub const STRAY_SEGMENTS: Row = Row {
    name: "segments of no open transfer",
    wanted: GOING_ON,
    stream: &[
        Part::Bytes(SESSION),
        Part::Segment(2, 0, &[FRONT]),
        Part::Segment(1, 5, PLAIN),
        Part::Segment(1, 0, &[BACK]),
        Part::Segment(1, 0, &[BACK]),
    ],
    output: PLAIN,
    report: &[
        b"tcpclkit: byte 77: no such open transfer\n",
        b"transfer 0 start=0 written=34 length=34",
        GOOD,
        b"tcpclkit: byte 164: no such open transfer\n",
    ],
    status: 1,
};

/// A START of the open transfer.
pub const REPEATED_START: Row = Row {
    name: "a start of the open transfer",
    wanted: GOING_ON,
    stream: &[
        Part::Bytes(SESSION),
        Part::Segment(2, 0, &[FIRST_10]),
        Part::Segment(3, 0, PLAIN),
    ],
    output: &[FIRST_10, FRONT, BACK],
    report: &[
        b"tcpclkit: byte 70: start repeats the open transfer\n",
        b"transfer 0 start=0 written=10 length=10 abandoned\n",
        b"transfer 0 start=10 written=34 length=34",
        GOOD,
    ],
    status: 1,
};

/// Transfers after SESS_TERM. The first of them abandons the open one.
pub const LATE_TRANSFERS: Row = Row {
    name: "transfers after SESS_TERM",
    wanted: GOING_ON,
    stream: &[
        Part::Bytes(SESSION),
        Part::Segment(2, 0, &[FIRST_10]),
        Part::Bytes(&[b"\x05\x00\x00"]),
        Part::Segment(2, 1, &[FRONT]),
        Part::Segment(1, 1, &[BACK]),
        Part::Segment(3, 2, PLAIN),
    ],
    output: &[FIRST_10, FRONT, BACK, FRONT, BACK],
    report: &[
        b"tcpclkit: byte 73: start after session termination\n",
        b"transfer 0 start=0 written=10 length=10 abandoned\n",
        b"transfer 1 start=10 written=34 length=34",
        GOOD,
        b"tcpclkit: byte 147: start after session termination\n",
        b"transfer 2 start=44 written=34 length=34",
        GOOD,
    ],
    status: 1,
};

/// A stream for each fault of the order.
pub static EACH_FAULT: [Row; 5] = [
    SECOND_SESS_INIT,
    EARLY_TRANSFER,
    STRAY_SEGMENTS,
    REPEATED_START,
    LATE_TRANSFERS,
];

/// Streams in which faults of the order meet each other or an option.
pub static TOGETHER: [Row; 8] = [
    STRAY_FIRST,
    Row {
        name: "heads with two faults",
        wanted: GOING_ON,
        stream: &[
            Part::Bytes(&[CONTACT]),
            Part::Segment(2, 0, &[FIRST_10]),
            Part::Segment(3, 0, PLAIN),
            Part::Segment(1, 7, &[BACK]),
        ],
        output: &[FIRST_10, FRONT, BACK],
        report: &[
            b"tcpclkit: byte 6: segment before session initiation\n",
            b"tcpclkit: byte 38: segment before session initiation\n",
            b"transfer 0 start=0 written=10 length=10 abandoned\n",
            b"transfer 0 start=10 written=34 length=34",
            GOOD,
            b"tcpclkit: byte 94: segment before session initiation\n",
        ],
        status: 1,
    },
    Row {
        name: "inner segments of no open transfer before SESS_INIT",
        wanted: GOING_ON,
        stream: &[
            Part::Bytes(&[CONTACT]),
            Part::Segment(0, 0, &[FRONT]),
            Part::Segment(0, 0, &[BACK]),
        ],
        output: &[],
        report: &[
            b"tcpclkit: byte 6: segment before session initiation\n",
            b"tcpclkit: byte 41: segment before session initiation\n",
        ],
        status: 1,
    },
    Row {
        name: "an inner segment of the open transfer before SESS_INIT",
        wanted: GOING_ON,
        stream: &[
            Part::Bytes(&[CONTACT]),
            Part::Segment(2, 0, &[FRONT]),
            Part::Segment(0, 0, &[BACK]),
        ],
        output: PLAIN,
        report: &[
            b"tcpclkit: byte 6: segment before session initiation\n",
            b"tcpclkit: byte 45: segment before session initiation\n",
            b"transfer 0 start=0 written=34 length=34 abandoned\n",
        ],
        status: 1,
    },
    Row {
        name: "two transfers that take turns",
        wanted: GOING_ON,
        stream: &[
            Part::Bytes(SESSION),
            Part::Segment(2, 0, &[FRONT]),
            Part::Segment(2, 1, &[FRONT]),
            Part::Segment(1, 0, &[BACK]),
            Part::Segment(1, 1, &[BACK]),
        ],
        output: &[FRONT, FRONT, BACK],
        report: &[
            b"transfer 0 start=0 written=17 length=17 abandoned\n",
            b"tcpclkit: byte 116: no such open transfer\n",
            b"transfer 1 start=17 written=34 length=34",
            GOOD,
        ],
        status: 1,
    },
    Row {
        name: "a segment of no open transfer with the selected ID",
        wanted: GOING_ON_WITH_1,
        stream: &[
            Part::Bytes(SESSION),
            Part::Segment(1, 1, PLAIN),
            Part::Segment(3, 1, PLAIN),
        ],
        output: PLAIN,
        report: &[
            STRAY_AT_38,
            b"transfer 1 start=0 written=34 length=34",
            GOOD,
        ],
        status: 1,
    },
    Row {
        name: "a payload around a segment of no open transfer",
        wanted: GOING_ON_WITH_PAYLOADS,
        stream: STRAY_BETWEEN,
        output: &[b"hello"],
        report: &[
            b"tcpclkit: byte 77: no such open transfer\n",
            b"transfer 0 start=0 written=5 length=34",
            GOOD,
        ],
        status: 1,
    },
    Row {
        name: "a segment of no open transfer at the end",
        wanted: GOING_ON,
        stream: &[
            Part::Bytes(SESSION),
            Part::Segment(2, 0, &[FRONT]),
            Part::Segment(1, 5, &[BACK]),
        ],
        output: &[FRONT],
        report: &[
            b"tcpclkit: byte 77: no such open transfer\n",
            b"transfer 0 start=0 written=17 length=17 abandoned\n",
        ],
        status: 1,
    },
];

/// Streams in which a fault of the wire follows.
pub static ENDED: [Row; 3] = [
    STRAY_CUT,
    Row {
        name: "a cut segment that repeats a start",
        wanted: GOING_ON,
        stream: &[
            Part::Bytes(SESSION),
            Part::Segment(2, 0, &[FIRST_10]),
            Part::Bytes(&[WHOLE_TRANSFER, LENGTH_34, b"\x9f\x88\x07"]),
        ],
        output: &[FIRST_10, b"\x9f\x88\x07"],
        report: &[
            b"tcpclkit: byte 70: start repeats the open transfer\n",
            b"transfer 0 start=0 written=10 length=10 abandoned\n",
            b"tcpclkit: byte 70: truncated\n",
        ],
        status: 3,
    },
    Row {
        name: "an unknown type after a segment of no open transfer",
        wanted: GOING_ON,
        stream: &[
            Part::Bytes(SESSION),
            Part::Segment(2, 0, &[FRONT]),
            Part::Segment(1, 5, &[BACK]),
            Part::Bytes(&[b"\x16"]),
        ],
        output: &[FRONT],
        report: &[
            b"tcpclkit: byte 77: no such open transfer\n",
            b"tcpclkit: byte 112: unknown message type 16\n",
        ],
        status: 3,
    },
];
