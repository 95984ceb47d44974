//! Rows of the option `--own`, of the sender's node, and of items of unknown types.
//!
//! They are rows of tests/python/rows/binding.py.

use super::{ALL, CLEAN_FRONT, INIT, KNOWN_BLOCKS, Row, TO_CHECK, WRONG_FRONT};
use tests_common::judging::{ALL_RULES, ALL_RULES_OF_BUNDLES, BundleJudging, Judging};
use tests_common::running::Tool;
use tests_common::stream::{CONTACT, NO_ITEMS, PARAMETERS, Part, SESSION};

/// The node of most bundles, and another one.
const MINE: &[u8] = b"ipn:1.0";

const THEIRS: &[u8] = b"ipn:9.0";

/// All rules, for bundles and security blocks of the one node, and of the other.
const OF_MINE: Tool = Tool::Check(Judging {
    own: MINE,
    ..ALL_RULES
});

const OF_THEIRS: Tool = Tool::Check(Judging {
    own: THEIRS,
    ..ALL_RULES
});

/// A SESS_INIT of the other node.
const INIT_9: &[&[u8]] = &[PARAMETERS, b"\x00\x07ipn:9.0", NO_ITEMS];

/// The rest of the bundle of `WRONG_FRONT`, which breaks only the rule of its flags.
const FLAGS_BACK: &[u8] =
    b"\x01\x82\x02\x82\x01\x01\x82\x01\x00\x82\x01\x00\x14\x42\xce\xf1\x85\x01\x01\x00\x00\x41x\xff";

/// The same for a bundle of the other node.
const FLAGS_BACK_9: &[u8] =
    b"\x01\x82\x02\x82\x09\x01\x82\x01\x00\x82\x01\x00\x14\x42\xc4\x1d\x85\x01\x01\x00\x00\x41x\xff";

/// The first 9 bytes of a bundle of 30 bytes whose primary block has no check.
const UNCHECKED_FRONT: &[u8] = b"\x9f\x88\x07\x00\x00\x82\x02\x82\x02";

/// The rest of the bundle.
const UNCHECKED_BACK: &[u8] =
    b"\x01\x82\x02\x82\x01\x01\x82\x01\x00\x82\x01\x00\x14\x85\x01\x01\x00\x00\x41x\xff";

/// An age, and two blocks of confidentiality that have the primary block as a target. The second is
/// of the node of most bundles, and the first of the other node.
const TWO_ADDERS: &[u8] = b"\x42\xac\x4c\x85\x07\x02\x00\x00\x41\x05\
    \x85\x0c\x08\x00\x00\x4b\x81\x00\x02\x00\x82\x02\x82\x09\x01\x81\x80\
    \x85\x0c\x09\x00\x00\x4d\x82\x02\x00\x02\x00\x82\x02\x82\x01\x01\x82\x80\x80\
    \x85\x01\x01\x00\x00\x41x\xff";

/// An age that is malformed, and a block of a type for private use.
const UNKNOWN_BLOCK: &[u8] = b"\x42\xac\x4c\x85\x07\x02\x00\x00\x40\
    \x85\x18\xc0\x18\x32\x00\x00\x41x\x85\x01\x01\x00\x00\x41x\xff";

/// A START of transfer 0 that carries END, up to the length of its data. It has an item of a type
/// for private use.
const WITH_ITEM: &[u8] =
    b"\x01\x03\x00\x00\x00\x00\x00\x00\x00\x00\x00\x00\x00\x05\x00\x80\x00\x00\x00";

/// The same without END.
const BEGUN_WITH_ITEM: &[u8] =
    b"\x01\x02\x00\x00\x00\x00\x00\x00\x00\x00\x00\x00\x00\x05\x00\x80\x00\x00\x00";

/// Runs with `--own`.
pub static OWN: [Row; 5] = [
    Row {
        name: "messages and transfers, ipn:9.0",
        tool: OF_THEIRS,
        input: &[
            Part::Bytes(&[b"dtn!\x04\x80"]),
            Part::Bytes(INIT),
            Part::Bytes(&[b"\x04"]),
            Part::Segment(7, 0, &[]),
            Part::Segment(3, 2, &[b"\xbf"]),
        ],
        output: &[
            b"0 must contact-flags flags=80\n",
            b"39 must segment-flags flags=07\n",
            b"39 must bundle transfer=0 code=B1 byte=0\n",
            b"61 should transfer-id-order id=2\n",
            b"61 must bundle transfer=2 code=B3 byte=0\n",
        ],
        report: &[],
        status: 1,
    },
    Row {
        name: "two adders, ipn:1.0",
        tool: OF_MINE,
        input: &[
            Part::Bytes(SESSION),
            Part::Segment(3, 0, &[CLEAN_FRONT, TO_CHECK, TWO_ADDERS]),
        ],
        output: &[b"38 must confidential-primary transfer=0 block=9\n"],
        report: &[],
        status: 1,
    },
    Row {
        name: "two adders, ipn:9.0",
        tool: OF_THEIRS,
        input: &[
            Part::Bytes(SESSION),
            Part::Segment(3, 0, &[CLEAN_FRONT, TO_CHECK, TWO_ADDERS]),
        ],
        output: &[b"38 must confidential-primary transfer=0 block=8\n"],
        report: &[],
        status: 1,
    },
    Row {
        name: "three bundles, ipn:1.0",
        tool: Tool::BundleCheck(BundleJudging {
            own: MINE,
            ..ALL_RULES_OF_BUNDLES
        }),
        input: &[Part::Bytes(&[
            WRONG_FRONT,
            FLAGS_BACK,
            WRONG_FRONT,
            FLAGS_BACK_9,
            WRONG_FRONT,
            FLAGS_BACK,
        ])],
        output: &[
            b"0 should bundle-flags bundle=0 flags=08\n",
            b"66 should bundle-flags bundle=2 flags=08\n",
        ],
        report: &[],
        status: 1,
    },
    Row {
        name: "most rules, with --own and --must",
        tool: Tool::BundleCheck(BundleJudging {
            must: true,
            own: THEIRS,
        }),
        input: &[Part::Bytes(KNOWN_BLOCKS)],
        output: &[
            b"0 must previous-node bundle=0 blocks=3\n",
            b"0 must block-data bundle=0 block=3 byte=37\n",
            b"0 must previous-node-id bundle=0 block=2\n",
        ],
        report: &[],
        status: 1,
    },
];

/// The first SESS_INIT decides whether the source sent its bundle.
pub static SENDERS: [Row; 4] = [
    Row {
        name: "a SESS_INIT after the transfer",
        tool: ALL,
        input: &[
            Part::Bytes(&[CONTACT]),
            Part::Segment(3, 0, &[UNCHECKED_FRONT, UNCHECKED_BACK]),
            Part::Bytes(INIT),
        ],
        output: &[
            b"6 must order fault=segment-before-session-initiation\n",
            b"6 should primary-check transfer=0\n",
        ],
        report: &[],
        status: 1,
    },
    Row {
        name: "a SESS_INIT amid the transfer",
        tool: ALL,
        input: &[
            Part::Bytes(&[CONTACT]),
            Part::Segment(2, 0, &[UNCHECKED_FRONT]),
            Part::Bytes(INIT),
            Part::Segment(1, 0, &[UNCHECKED_BACK]),
        ],
        output: &[
            b"6 must order fault=segment-before-session-initiation\n",
            b"6 must primary-check transfer=0\n",
        ],
        report: &[],
        status: 1,
    },
    Row {
        name: "a SESS_INIT before that of another",
        tool: ALL,
        input: &[
            Part::Bytes(SESSION),
            Part::Bytes(INIT_9),
            Part::Segment(3, 0, &[UNCHECKED_FRONT, UNCHECKED_BACK]),
        ],
        output: &[
            b"38 should order fault=second-session-initiation\n",
            b"70 must primary-check transfer=0\n",
        ],
        report: &[],
        status: 1,
    },
    Row {
        name: "a SESS_INIT after that of another",
        tool: ALL,
        input: &[
            Part::Bytes(&[CONTACT]),
            Part::Bytes(INIT_9),
            Part::Bytes(INIT),
            Part::Segment(3, 0, &[UNCHECKED_FRONT, UNCHECKED_BACK]),
        ],
        output: &[
            b"38 should order fault=second-session-initiation\n",
            b"70 should primary-check transfer=0\n",
        ],
        report: &[],
        status: 1,
    },
];

/// Bundles and data beside what this toolkit does not know.
pub static UNKNOWN: [Row; 5] = [
    Row {
        name: "block-data, unknown",
        tool: ALL,
        input: &[
            Part::Bytes(SESSION),
            Part::Segment(3, 0, &[CLEAN_FRONT, TO_CHECK, UNKNOWN_BLOCK]),
        ],
        output: &[b"38 should block-data transfer=0 block=2 byte=31\n"],
        report: &[],
        status: 1,
    },
    Row {
        name: "no check, with an item, of its source",
        tool: OF_MINE,
        input: &[
            Part::Bytes(SESSION),
            Part::Bytes(&[
                WITH_ITEM,
                b"\x00\x00\x00\x00\x00\x00\x00\x1e",
                UNCHECKED_FRONT,
                UNCHECKED_BACK,
            ]),
        ],
        output: &[b"38 should primary-check transfer=0\n"],
        report: &[],
        status: 1,
    },
    Row {
        name: "an item of another transfer",
        tool: ALL,
        input: &[
            Part::Bytes(SESSION),
            Part::Bytes(&[WITH_ITEM, b"\x00\x00\x00\x00\x00\x00\x00\x01\xbf"]),
            Part::Segment(3, 1, &[b"\xbf"]),
        ],
        output: &[
            b"38 should bundle transfer=0 code=B3 byte=0\n",
            b"66 must bundle transfer=1 code=B3 byte=0\n",
        ],
        report: &[],
        status: 1,
    },
    Row {
        name: "an item of a transfer of the same ID",
        tool: ALL,
        input: &[
            Part::Bytes(SESSION),
            Part::Bytes(&[BEGUN_WITH_ITEM, b"\x00\x00\x00\x00\x00\x00\x00\x00"]),
            Part::Segment(3, 0, &[b"\xbf"]),
        ],
        output: &[
            b"65 must order fault=start-repeats-the-open-transfer\n",
            b"65 must transfer-id id=0\n",
            b"65 must bundle transfer=0 code=B3 byte=0\n",
        ],
        report: &[],
        status: 1,
    },
    Row {
        name: "a length, with an item",
        tool: ALL,
        input: &[
            Part::Bytes(SESSION),
            Part::Listed(
                &[
                    b"\x00\x00\x00\x12\x00\x00\x01\x00\x08\x00\x00\x00\x00\x00\x00\x00\x09",
                    b"\x00\x80\x00\x00\x00",
                ],
                &[b"\xbf"],
            ),
            Part::Segment(1, 0, &[b"\x00"]),
        ],
        output: &[
            b"38 must length-differs transfer=0 announced=9 length=2\n",
            b"38 should bundle transfer=0 code=B3 byte=0\n",
        ],
        report: &[],
        status: 1,
    },
];
