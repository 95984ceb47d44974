//! Worked streams and bundles, and the lines and the status of `blocks` for them.

use link_tools::BlockOptions;
use tests_common::rows::TWO_BUNDLES;
use tests_common::running::Tool;
use tests_common::stream::{
    BACK, CHANGED_BACK, CHECKED_BACK, CONTACT, FIRST_10, FRONT, PLAIN, Part, SESSION,
};

/// An input, and the result of `blocks` for it.
#[derive(Clone, Copy)]
pub struct Row {
    pub name: &'static str,
    pub tool: Tool,
    pub input: &'static [Part],
    pub output: &'static [&'static [u8]],
    pub report: &'static [&'static [u8]],
    pub status: u8,
}

/// All transfers, up to the first fault.
pub const ALL: Tool = Tool::Blocks(BlockOptions {
    only: None,
    keep_going: false,
});

/// The transfers with ID 1, up to the first fault.
const ONLY_1: Tool = Tool::Blocks(BlockOptions {
    only: Some(1),
    keep_going: false,
});

/// All transfers, also after faults of the order.
const GOING_ON: Tool = Tool::Blocks(BlockOptions {
    only: None,
    keep_going: true,
});

/// The line of the primary block of `FRONT` and `BACK`, after its first word.
const PRIMARY: &[u8] =
    b" primary at=1 length=21 flags=00 check=none destination=ipn:2.1 source=ipn:1.1 report-to=dtn:none time=0 sequence=0 lifetime=0\n";

/// The line of their payload block, after its first word.
const PAYLOAD: &[u8] =
    b" block 1 at=22 length=11 type=1/payload flags=00 check=none data-at=28 data-length=5\n";

/// The line of their end, after its first word.
const GOOD: &[u8] = b" end length=34 good\n";

/// A transfer with ten bytes of the bundle, and then another transfer.
const ABANDONED: &[Part] = &[
    Part::Bytes(SESSION),
    Part::Segment(2, 0, &[FIRST_10]),
    Part::Segment(3, 1, PLAIN),
];

/// A bundle of 149 bytes with a block of each type whose data is read, and one of another type.
const EVERY_BLOCK: &[&[u8]] = &[
    b"\x9f\x89\x07\x1a\x00\x04\x40\x00\x02\x82\x02\x82\x03\x01\x82\x02\x82\x01\x01\x82",
    b"\x02\x82\x01\x00\x82\x1b\x00\x00\x00\xbf\x0c\x0a\xfc\x00\x00\x1a\x00\x36\xee\x80",
    b"\x44\x5fo\x81\xb8\x85\x06\x02\x00\x00\x45\x82\x02\x82\x02\x00\x85\x07\x03\x00",
    b"\x00\x43\x19\x03\xe8\x86\x0a\x04\x00\x02\x44\x82\x18\x20\x01\x44\x50\xc5\xbd\xb6",
    b"\x85\x0b\x05\x00\x00\x50\x81\x01\x01\x00\x82\x02\x82\x01\x00\x81\x81\x82\x01\x42",
    b"\x5a\x5a\x85\x0c\x06\x01\x00\x50\x81\x07\x22\x00\x82\x01g\x2f\x2fnod",
    b"e\x2f\x81\x80\x85\x18\xc0\x07\x10\x00\x43\x01\x02\x03\x86\x01\x01\x00\x01\x45",
    b"hello\x42\x4b\xf3\xff",
];

/// A bundle of 75 bytes whose blocks have malformed data.
const MALFORMED: &[&[u8]] = &[
    b"\x9f\x88\x07\x00\x00\x82\x02\x82\x02\x01\x82\x02\x82\x01\x01\x82\x01\x00\x82\x00",
    b"\x00\x00\x85\x06\x02\x00\x00\x42ax\x85\x07\x03\x00\x00\x42\x05\x00\x85\x0a",
    b"\x04\x00\x00\x42\x82\x05\x85\x0b\x05\x00\x00\x44\x81\x01ax\x85\x0c\x06\x00",
    b"\x00\x41\x1c\x85\x01\x01\x00\x00\x45hello\xff",
];

/// A bundle of 57 bytes with a hop count that was changed after its check was computed.
const DAMAGED: &[&[u8]] = &[
    b"\x9f\x88\x07\x00\x00\x82\x02\x82\x02\x01\x82\x02\x82\x01\x01\x82\x01\x00\x82\x00",
    b"\x00\x00\x85\x06\x02\x00\x00\x45\x82\x02\x82\x02\x00\x86\x0a\x03\x00\x01\x43\x82",
    b"\x05\x03\x42\xe5\xfd\x85\x01\x01\x00\x00\x45hello\xff",
];

/// A bundle of 80 bytes with a status report.
const REPORT: &[&[u8]] = &[
    b"\x9f\x88\x07\x02\x00\x82\x02\x82\x01\x00\x82\x02\x82\x02\x00\x82\x01\x00\x82\x1b",
    b"\x00\x00\x00\xbf\x0c\x0b\x03\xd0\x00\x1a\x00\x36\xee\x80\x85\x01\x01\x00\x00\x58",
    b"\x26\x82\x01\x84\x84\x81\xf4\x82\xf5\x1b\x00\x00\x00\xbf\x0c\x0b\x01\xdc\x81\xf4",
    b"\x81\xf4\x00\x82\x02\x82\x01\x01\x82\x1b\x00\x00\x00\xbf\x0c\x0a\xfc\x00\x00\xff",
];

/// A bundle of 73 bytes with a status report of a fragment.
const REPORT_OF_A_FRAGMENT: &[&[u8]] = &[
    b"\x9f\x88\x07\x02\x00\x82\x02\x82\x01\x00\x82\x02\x82\x02\x00\x82\x01\x00\x82\x1b",
    b"\x00\x00\x00\xbf\x0c\x0b\x03\xd0\x00\x1a\x00\x36\xee\x80\x85\x01\x01\x00\x00\x58",
    b"\x1f\x82\x01\x86\x84\x81\xf5\x81\xf4\x81\xf4\x81\xf5\x09\x82\x02\x82\x01\x02\x82",
    b"\x1b\x00\x00\x00\xbf\x0c\x0a\xfc\x00\x00\x07\x05\xff",
];

/// Two transfers with a good bundle each.
pub const TWO_GOOD: Row = Row {
    name: "two bundles",
    tool: ALL,
    input: TWO_BUNDLES,
    output: &[
        b"0", PRIMARY, b"0", PAYLOAD, b"0", GOOD, b"1", PRIMARY, b"1", PAYLOAD, b"1", GOOD,
    ],
    report: &[],
    status: 0,
};

/// A block of each type whose data is read, and one of another type.
pub const EVERY_TYPE: Row = Row {
    name: "a block of each type",
    tool: ALL,
    input: &[Part::Bytes(SESSION), Part::Segment(3, 0, EVERY_BLOCK)],
    output: &[
        b"0 primary at=1 length=44 flags=044000 check=crc32c destination=ipn:3.1 source=ipn:1.1 report-to=ipn:1.0 time=820540800000 sequence=0 lifetime=3600000\n",
        b"0 block 2 at=45 length=11 type=6/previous-node flags=00 check=none data-at=51 data-length=5 node=ipn:2.0\n",
        b"0 block 3 at=56 length=9 type=7/bundle-age flags=00 check=none data-at=62 data-length=3 age=1000\n",
        b"0 block 4 at=65 length=15 type=10/hop-count flags=00 check=crc32c data-at=71 data-length=4 limit=32 count=1\n",
        b"0 block 5 at=80 length=22 type=11/block-integrity flags=00 check=none data-at=86 data-length=16 targets=1 context=1 context-flags=00 source=ipn:1.0\n",
        b"0 block 6 at=102 length=22 type=12/block-confidentiality flags=01 check=none data-at=108 data-length=16 targets=1 context=-3 context-flags=00 source=dtn://node/\n",
        b"0 block 7 at=124 length=10 type=192/? flags=10 check=none data-at=131 data-length=3\n",
        b"0 block 1 at=134 length=14 type=1/payload flags=00 check=crc16 data-at=140 data-length=5\n",
        b"0 end length=149 good\n",
    ],
    report: &[],
    status: 0,
};

/// A transfer that another abandons.
pub const ABANDONING: Row = Row {
    name: "a transfer that another abandons",
    tool: ALL,
    input: ABANDONED,
    output: &[
        b"0 end length=10 abandoned\n",
        b"1",
        PRIMARY,
        b"1",
        PAYLOAD,
        b"1",
        GOOD,
    ],
    report: &[],
    status: 1,
};

/// A bundle whose check differs, after a good one.
pub const CHECK_DIFFERS: Row = Row {
    name: "a bundle whose check differs",
    tool: Tool::BundleBlocks,
    input: &[Part::Bytes(&[FRONT, BACK, FRONT, CHANGED_BACK, FRONT, BACK])],
    output: &[b"0", PRIMARY, b"0", PAYLOAD, b"0", GOOD, b"1", PRIMARY],
    report: &[b"tcpclkit: bundle 1 byte 33: B13 check differs\n"],
    status: 3,
};

/// Recordings that are read to their end.
pub static WHOLE: [Row; 12] = [
    Row {
        name: "a contact header",
        tool: ALL,
        input: &[Part::Bytes(&[CONTACT])],
        output: &[],
        report: &[],
        status: 0,
    },
    TWO_GOOD,
    EVERY_TYPE,
    ABANDONING,
    Row {
        name: "one transfer of two",
        tool: ONLY_1,
        input: TWO_BUNDLES,
        output: &[b"1", PRIMARY, b"1", PAYLOAD, b"1", GOOD],
        report: &[],
        status: 0,
    },
    Row {
        name: "another transfer is not good",
        tool: ONLY_1,
        input: ABANDONED,
        output: &[b"1", PRIMARY, b"1", PAYLOAD, b"1", GOOD],
        report: &[],
        status: 1,
    },
    Row {
        name: "malformed data",
        tool: ALL,
        input: &[Part::Bytes(SESSION), Part::Segment(3, 1, MALFORMED)],
        output: &[
            b"1 primary at=1 length=21 flags=00 check=none destination=ipn:2.1 source=ipn:1.1 report-to=dtn:none time=0 sequence=0 lifetime=0\n",
            b"1 block 2 at=22 length=8 type=6/previous-node flags=00 check=none data-at=28 data-length=2 malformed-at=28\n",
            b"1 block 3 at=30 length=8 type=7/bundle-age flags=00 check=none data-at=36 data-length=2 malformed-at=37\n",
            b"1 block 4 at=38 length=8 type=10/hop-count flags=00 check=none data-at=44 data-length=2 malformed-at=46\n",
            b"1 block 5 at=46 length=10 type=11/block-integrity flags=00 check=none data-at=52 data-length=4 malformed-at=54\n",
            b"1 block 6 at=56 length=7 type=12/block-confidentiality flags=00 check=none data-at=62 data-length=1 malformed-at=62\n",
            b"1 block 1 at=63 length=11 type=1/payload flags=00 check=none data-at=69 data-length=5\n",
            b"1 end length=75 good\n",
        ],
        report: &[],
        status: 0,
    },
    Row {
        name: "a damaged block",
        tool: ALL,
        input: &[Part::Bytes(SESSION), Part::Segment(3, 2, DAMAGED)],
        output: &[
            b"2 primary at=1 length=21 flags=00 check=none destination=ipn:2.1 source=ipn:1.1 report-to=dtn:none time=0 sequence=0 lifetime=0\n",
            b"2 block 2 at=22 length=11 type=6/previous-node flags=00 check=none data-at=28 data-length=5 node=ipn:2.0\n",
            b"2 end length=57 bad=B13 byte=42\n",
        ],
        report: &[],
        status: 1,
    },
    Row {
        name: "status reports",
        tool: ALL,
        input: &[
            Part::Bytes(SESSION),
            Part::Segment(3, 0, REPORT),
            Part::Segment(3, 1, REPORT_OF_A_FRAGMENT),
        ],
        output: &[
            b"0 primary at=1 length=33 flags=02 check=none destination=ipn:1.0 source=ipn:2.0 report-to=dtn:none time=820540802000 sequence=0 lifetime=3600000\n",
            b"0 block 1 at=34 length=45 type=1/payload flags=00 check=none data-at=41 data-length=38 record=1/status-report received=no forwarded=820540801500 delivered=no deleted=no reason=0/no-additional-information of-source=ipn:1.1 of-time=820540800000 of-sequence=0\n",
            b"0 end length=80 good\n",
            b"1 primary at=1 length=33 flags=02 check=none destination=ipn:1.0 source=ipn:2.0 report-to=dtn:none time=820540802000 sequence=0 lifetime=3600000\n",
            b"1 block 1 at=34 length=38 type=1/payload flags=00 check=none data-at=41 data-length=31 record=1/status-report received=yes forwarded=no delivered=no deleted=yes reason=9/hop-limit-exceeded of-source=ipn:1.2 of-time=820540800000 of-sequence=0 of-fragment=7+5\n",
            b"1 end length=73 good\n",
        ],
        report: &[],
        status: 0,
    },
    Row {
        name: "a byte after a bundle",
        tool: ALL,
        input: &[
            Part::Bytes(SESSION),
            Part::Segment(3, 0, &[FRONT, BACK, b"\x00"]),
        ],
        output: &[
            b"0",
            PRIMARY,
            b"0",
            PAYLOAD,
            b"0 end length=35 bad=B2 byte=34\n",
        ],
        report: &[],
        status: 1,
    },
    Row {
        name: "a transfer left open at the end",
        tool: ALL,
        input: &[Part::Bytes(SESSION), Part::Segment(2, 0, &[FRONT])],
        output: &[b"0 end length=17 abandoned\n"],
        report: &[],
        status: 1,
    },
    Row {
        name: "a transfer without data",
        tool: ALL,
        input: &[Part::Bytes(SESSION), Part::Segment(3, 0, &[])],
        output: &[b"0 end length=0 bad=B1 byte=0\n"],
        report: &[],
        status: 1,
    },
];

/// Recordings with a fault that ends the run.
pub static FAULTS: [Row; 3] = [
    Row {
        name: "a transfer that is open at a fault",
        tool: ALL,
        input: &[
            Part::Bytes(SESSION),
            Part::Segment(2, 0, PLAIN),
            Part::Bytes(&[b"\x16"]),
        ],
        output: &[b"0", PRIMARY, b"0", PAYLOAD],
        report: &[b"tcpclkit: byte 94: unknown message type 16\n"],
        status: 3,
    },
    Row {
        name: "an empty input",
        tool: ALL,
        input: &[],
        output: &[],
        report: &[b"tcpclkit: byte 0: truncated\n"],
        status: 3,
    },
    Row {
        name: "a segment of no open transfer",
        tool: ALL,
        input: &[Part::Bytes(SESSION), Part::Segment(1, 5, PLAIN)],
        output: &[],
        report: &[b"tcpclkit: byte 38: no such open transfer\n"],
        status: 3,
    },
];

/// Recordings with messages out of order, after which the run goes on.
pub static DISORDER: [Row; 2] = [
    Row {
        name: "a segment of no open transfer amid a transfer",
        tool: GOING_ON,
        input: &[
            Part::Bytes(SESSION),
            Part::Segment(2, 0, &[FRONT]),
            Part::Segment(1, 5, PLAIN),
            Part::Segment(1, 0, &[BACK]),
        ],
        output: &[b"0", PRIMARY, b"0", PAYLOAD, b"0", GOOD],
        report: &[b"tcpclkit: byte 77: no such open transfer\n"],
        status: 1,
    },
    Row {
        name: "a start that repeats the open transfer",
        tool: GOING_ON,
        input: &[
            Part::Bytes(SESSION),
            Part::Segment(2, 0, &[FIRST_10]),
            Part::Segment(3, 0, PLAIN),
        ],
        output: &[
            b"0 end length=10 abandoned\n",
            b"0",
            PRIMARY,
            b"0",
            PAYLOAD,
            b"0",
            GOOD,
        ],
        report: &[b"tcpclkit: byte 70: start repeats the open transfer\n"],
        status: 1,
    },
];

/// Bundles, one after another.
pub static BUNDLES: [Row; 6] = [
    Row {
        name: "no bundle",
        tool: Tool::BundleBlocks,
        input: &[],
        output: &[],
        report: &[],
        status: 0,
    },
    Row {
        name: "two bundles, one with a check",
        tool: Tool::BundleBlocks,
        input: &[Part::Bytes(&[FRONT, BACK, FRONT, CHECKED_BACK])],
        output: &[
            b"0",
            PRIMARY,
            b"0",
            PAYLOAD,
            b"0",
            GOOD,
            b"1",
            PRIMARY,
            b"1 block 1 at=22 length=14 type=1/payload flags=00 check=crc16 data-at=28 data-length=5\n",
            b"1 end length=37 good\n",
        ],
        report: &[],
        status: 0,
    },
    Row {
        name: "bundles with each type of block",
        tool: Tool::BundleBlocks,
        input: &[Part::Bytes(EVERY_BLOCK), Part::Bytes(MALFORMED)],
        output: &[
            b"0 primary at=1 length=44 flags=044000 check=crc32c destination=ipn:3.1 source=ipn:1.1 report-to=ipn:1.0 time=820540800000 sequence=0 lifetime=3600000\n",
            b"0 block 2 at=45 length=11 type=6/previous-node flags=00 check=none data-at=51 data-length=5 node=ipn:2.0\n",
            b"0 block 3 at=56 length=9 type=7/bundle-age flags=00 check=none data-at=62 data-length=3 age=1000\n",
            b"0 block 4 at=65 length=15 type=10/hop-count flags=00 check=crc32c data-at=71 data-length=4 limit=32 count=1\n",
            b"0 block 5 at=80 length=22 type=11/block-integrity flags=00 check=none data-at=86 data-length=16 targets=1 context=1 context-flags=00 source=ipn:1.0\n",
            b"0 block 6 at=102 length=22 type=12/block-confidentiality flags=01 check=none data-at=108 data-length=16 targets=1 context=-3 context-flags=00 source=dtn://node/\n",
            b"0 block 7 at=124 length=10 type=192/? flags=10 check=none data-at=131 data-length=3\n",
            b"0 block 1 at=134 length=14 type=1/payload flags=00 check=crc16 data-at=140 data-length=5\n",
            b"0 end length=149 good\n",
            b"1 primary at=1 length=21 flags=00 check=none destination=ipn:2.1 source=ipn:1.1 report-to=dtn:none time=0 sequence=0 lifetime=0\n",
            b"1 block 2 at=22 length=8 type=6/previous-node flags=00 check=none data-at=28 data-length=2 malformed-at=28\n",
            b"1 block 3 at=30 length=8 type=7/bundle-age flags=00 check=none data-at=36 data-length=2 malformed-at=37\n",
            b"1 block 4 at=38 length=8 type=10/hop-count flags=00 check=none data-at=44 data-length=2 malformed-at=46\n",
            b"1 block 5 at=46 length=10 type=11/block-integrity flags=00 check=none data-at=52 data-length=4 malformed-at=54\n",
            b"1 block 6 at=56 length=7 type=12/block-confidentiality flags=00 check=none data-at=62 data-length=1 malformed-at=62\n",
            b"1 block 1 at=63 length=11 type=1/payload flags=00 check=none data-at=69 data-length=5\n",
            b"1 end length=75 good\n",
        ],
        report: &[],
        status: 0,
    },
    CHECK_DIFFERS,
    Row {
        name: "a damaged block after another",
        tool: Tool::BundleBlocks,
        input: &[Part::Bytes(DAMAGED)],
        output: &[
            b"0 primary at=1 length=21 flags=00 check=none destination=ipn:2.1 source=ipn:1.1 report-to=dtn:none time=0 sequence=0 lifetime=0\n",
            b"0 block 2 at=22 length=11 type=6/previous-node flags=00 check=none data-at=28 data-length=5 node=ipn:2.0\n",
        ],
        report: &[b"tcpclkit: bundle 0 byte 42: B13 check differs\n"],
        status: 3,
    },
    Row {
        name: "a bundle that is cut",
        tool: Tool::BundleBlocks,
        input: &[Part::Bytes(&[FRONT])],
        output: &[],
        report: &[b"tcpclkit: bundle 0 byte 17: B1 input ends inside a bundle\n"],
        status: 3,
    },
];
