//! Bundles and security blocks of two nodes, and the rules of those of one node.
//!
//! They are rows of tests/python/rows/binding.py.

use super::{
    AGE, CLEAN, CLEAN_9, INTEGRITY, NO_AGE, NodeRow, OPEN_RECORD, PAYLOAD, RECORD, UNCHECKED,
};
use link_bundle_rules::{BundleRule as Rule, Endpoint, Level};

/// The node of most bundles, another one, and every node.
const MINE: &[u8] = b"ipn:1.0";

const THEIRS: &[u8] = b"ipn:9.0";

const EVERY: &[u8] = b"";

/// The beginning of a bundle of the other node without a check of its primary block.
const UNCHECKED_9: &[u8] =
    b"\x9f\x88\x07\x00\x00\x82\x02\x82\x02\x01\x82\x02\x82\x09\x01\x82\x01\x00\x82\x01\x00\x14";

/// The beginning of a bundle with a longer version.
const LONG_VERSION: &[u8] =
    b"\x9f\x89\x18\x07\x00\x01\x82\x02\x82\x02\x01\x82\x02\x82\x01\x01\x82\x01\x00\x82\x01\
    \x00\x14\x42\x73\x66";

/// Block 3: an age whose head is longer than its number needs.
const LONG_AGE: &[u8] = b"\x85\x07\x03\x00\x00\x42\x18\x05";

/// Block 2: a block integrity block whose first head is longer than its number needs.
const LONG_TARGETS: &[u8] = b"\x85\x0b\x02\x00\x00\x4a\x98\x01\x01\x01\x00\x82\x02\x82\x01\x01";

/// Block 3: a block integrity block of the other node that has the payload as a target.
const INTEGRITY_9: &[u8] = b"\x85\x0b\x03\x00\x00\x49\x81\x01\x01\x00\x82\x02\x82\x09\x01";

/// Block 4: one of the first node.
const INTEGRITY_4: &[u8] = b"\x85\x0b\x04\x00\x00\x49\x81\x01\x01\x00\x82\x02\x82\x01\x01";

/// Block 2: one whose target is the primary block.
const PROTECTING_9: &[u8] = b"\x85\x0b\x02\x00\x00\x49\x81\x00\x01\x00\x82\x02\x82\x09\x01";

/// Rules that bind the source, the sender or the adder, by what breaks them.
pub(crate) static MIXED: [NodeRow; 13] = [
    // long-head
    (
        MINE,
        &[LONG_VERSION, PAYLOAD],
        &[Rule::LongHead {
            byte: 2,
            level: Level::Must,
        }],
    ),
    (THEIRS, &[LONG_VERSION, PAYLOAD], &[]),
    (
        MINE,
        &[CLEAN, LONG_AGE, LONG_TARGETS, PAYLOAD],
        &[Rule::LongHead {
            byte: 39,
            level: Level::Must,
        }],
    ),
    (
        THEIRS,
        &[CLEAN, LONG_AGE, LONG_TARGETS, PAYLOAD],
        &[Rule::LongHead {
            byte: 31,
            level: Level::Should,
        }],
    ),
    // dtn-name, of a bundle of the other node
    (
        MINE,
        &[
            b"\x9f\x89\x07\x00\x01\x82\x01\x61\x6e\x82\x02\x82\x09\x01\x82\x01\x00\x82\x01\x00\
            \x14\x42\xc3\xa5",
            b"\x85\x06\x02\x00\x00\x44\x82\x01\x61\x6e",
            PAYLOAD,
        ],
        &[Rule::DtnName {
            of: Endpoint::PreviousNode(2),
        }],
    ),
    (
        THEIRS,
        &[
            b"\x9f\x89\x07\x00\x01\x82\x01\x61\x6e\x82\x02\x82\x09\x01\x82\x01\x00\x82\x01\x00\
            \x14\x42\xc3\xa5",
            b"\x85\x06\x02\x00\x00\x44\x82\x01\x61\x6e",
            PAYLOAD,
        ],
        &[Rule::DtnName {
            of: Endpoint::Destination,
        }],
    ),
    (
        MINE,
        &[
            RECORD,
            b"\x85\x01\x01\x00\x00\x54\x82\x01\x84\x84\x81\xf5\x81\xf4\x81\xf4\x81\xf4\x00\x82\
            \x01\x61\x6e\x82\x01\x00\xff",
        ],
        &[Rule::DtnName {
            of: Endpoint::ReportSource,
        }],
    ),
    (
        THEIRS,
        &[
            RECORD,
            b"\x85\x01\x01\x00\x00\x54\x82\x01\x84\x84\x81\xf5\x81\xf4\x81\xf4\x81\xf4\x00\x82\
            \x01\x61\x6e\x82\x01\x00\xff",
        ],
        &[],
    ),
    // block-data and data-not-read
    (
        THEIRS,
        &[CLEAN, NO_AGE, PAYLOAD],
        &[Rule::BlockData { block: 2, byte: 31 }],
    ),
    (MINE, &[CLEAN, b"\x85\x0b\x02\x00\x00\x40", PAYLOAD], &[]),
    (
        MINE,
        &[RECORD, OPEN_RECORD],
        &[Rule::DataNotRead { block: 1, byte: 31 }],
    ),
    (THEIRS, &[RECORD, OPEN_RECORD], &[]),
    // A bundle without a source is of no node.
    (
        MINE,
        &[
            b"\x9f\x89\x07\x00\x01\x82\x02\x82\x02\x01\x82\x01\x00\x82\x01\x00\x82\x01\x00\x14\
            \x42\xd6\xaf",
            PAYLOAD,
        ],
        &[],
    ),
];

/// The source of a bundle, and the adders of its blocks.
pub(crate) static SOURCES_AND_ADDERS: [NodeRow; 11] = [
    // primary-check: the sender is the node of most bundles.
    (
        EVERY,
        &[UNCHECKED, PAYLOAD],
        &[Rule::PrimaryCheck { level: Level::Must }],
    ),
    (
        EVERY,
        &[UNCHECKED_9, PAYLOAD],
        &[Rule::PrimaryCheck {
            level: Level::Should,
        }],
    ),
    (MINE, &[UNCHECKED_9, PAYLOAD], &[]),
    (
        THEIRS,
        &[UNCHECKED_9, PAYLOAD],
        &[Rule::PrimaryCheck { level: Level::Must }],
    ),
    // A block of integrity counts, whoever added it.
    (MINE, &[UNCHECKED, PROTECTING_9, PAYLOAD], &[]),
    // The source's flags, and the data of a sender
    (
        MINE,
        &[
            CLEAN,
            b"\x85\x0b\x02\x08\x00\x49\x81\x00\x01\x00\x82\x02\x82\x09\x01",
            PAYLOAD,
        ],
        &[Rule::BlockFlags {
            block: 2,
            flags: 0x08,
        }],
    ),
    (
        THEIRS,
        &[
            CLEAN,
            b"\x85\x0b\x02\x08\x00\x49\x81\x00\x01\x00\x82\x02\x82\x09\x01",
            PAYLOAD,
        ],
        &[],
    ),
    (
        MINE,
        &[CLEAN_9, NO_AGE, PAYLOAD],
        &[Rule::BlockData { block: 2, byte: 31 }],
    ),
    // Data is ciphertext, whoever encrypted it.
    (
        MINE,
        &[
            CLEAN,
            NO_AGE,
            b"\x85\x0b\x03\x00\x00\x49\x81\x03\x01\x00\x82\x02\x82\x01\x01",
            b"\x85\x0c\x09\x00\x00\x4d\x82\x02\x03\x02\x00\x82\x02\x82\x09\x01\x82\x80\x80",
            PAYLOAD,
        ],
        &[],
    ),
    // A security block of the node, in a bundle of the other
    (
        MINE,
        &[
            CLEAN_9,
            b"\x85\x0b\x02\x00\x00\x49\x81\x02\x01\x00\x82\x02\x82\x01\x01",
            PAYLOAD,
        ],
        &[Rule::IntegrityTarget {
            block: 2,
            target: 2,
        }],
    ),
    (
        THEIRS,
        &[
            CLEAN_9,
            b"\x85\x0b\x02\x00\x00\x49\x81\x02\x01\x00\x82\x02\x82\x01\x01",
            PAYLOAD,
        ],
        &[],
    ),
];

/// Rules of security blocks that two nodes added.
pub(crate) static ADDERS: [NodeRow; 14] = [
    (
        MINE,
        &[
            CLEAN,
            AGE,
            b"\x85\x0c\x08\x00\x00\x4b\x81\x00\x02\x00\x82\x02\x82\x09\x01\x81\x80",
            b"\x85\x0c\x09\x00\x00\x4d\x82\x02\x00\x02\x00\x82\x02\x82\x01\x01\x82\x80\x80",
            PAYLOAD,
        ],
        &[Rule::ConfidentialPrimary { block: 9 }],
    ),
    (
        THEIRS,
        &[
            CLEAN,
            AGE,
            b"\x85\x0c\x08\x00\x00\x4b\x81\x00\x02\x00\x82\x02\x82\x09\x01\x81\x80",
            b"\x85\x0c\x09\x00\x00\x4d\x82\x02\x00\x02\x00\x82\x02\x82\x01\x01\x82\x80\x80",
            PAYLOAD,
        ],
        &[Rule::ConfidentialPrimary { block: 8 }],
    ),
    (
        MINE,
        &[
            CLEAN,
            b"\x85\x0b\x02\x00\x00\x4a\x82\x01\x01\x01\x00\x82\x02\x82\x01\x01",
            b"\x85\x0b\x03\x00\x00\x4b\x81\x19\x01\x2c\x01\x00\x82\x02\x82\x09\x01",
            PAYLOAD,
        ],
        &[Rule::SecurityTargets {
            block: 2,
            target: Some(1),
            level: Level::Must,
        }],
    ),
    (
        THEIRS,
        &[
            CLEAN,
            b"\x85\x0b\x02\x00\x00\x4a\x82\x01\x01\x01\x00\x82\x02\x82\x01\x01",
            b"\x85\x0b\x03\x00\x00\x4b\x81\x19\x01\x2c\x01\x00\x82\x02\x82\x09\x01",
            PAYLOAD,
        ],
        &[Rule::SecurityTargets {
            block: 3,
            target: Some(300),
            level: Level::Should,
        }],
    ),
    (
        MINE,
        &[
            CLEAN,
            b"\x85\x0b\x02\x00\x00\x49\x81\x00\x01\x02\x82\x02\x82\x01\x01",
            b"\x85\x0c\x09\x01\x00\x4b\x81\x01\x02\x04\x82\x02\x82\x09\x01\x81\x80",
            PAYLOAD,
        ],
        &[Rule::SecurityFlags {
            block: 2,
            flags: 0x02,
        }],
    ),
    (
        THEIRS,
        &[
            CLEAN,
            b"\x85\x0b\x02\x00\x00\x49\x81\x00\x01\x02\x82\x02\x82\x01\x01",
            b"\x85\x0c\x09\x01\x00\x4b\x81\x01\x02\x04\x82\x02\x82\x09\x01\x81\x80",
            PAYLOAD,
        ],
        &[Rule::SecurityFlags {
            block: 9,
            flags: 0x04,
        }],
    ),
    // Two blocks: nothing shows which of two nodes came first.
    (
        EVERY,
        &[CLEAN, INTEGRITY, INTEGRITY_9, PAYLOAD],
        &[Rule::SecurityTwice {
            block: 3,
            target: 1,
        }],
    ),
    (MINE, &[CLEAN, INTEGRITY, INTEGRITY_9, PAYLOAD], &[]),
    (THEIRS, &[CLEAN, INTEGRITY, INTEGRITY_9, PAYLOAD], &[]),
    (
        MINE,
        &[CLEAN, INTEGRITY, INTEGRITY_9, INTEGRITY_4, PAYLOAD],
        &[Rule::SecurityTwice {
            block: 4,
            target: 1,
        }],
    ),
    (
        MINE,
        &[
            CLEAN,
            b"\x85\x0b\x02\x00\x00\x4a\x82\x00\x01\x01\x00\x82\x02\x82\x09\x01",
            b"\x85\x0c\x08\x00\x00\x4b\x81\x00\x02\x00\x82\x02\x82\x01\x01\x81\x80",
            b"\x85\x0c\x09\x01\x00\x4b\x81\x01\x02\x00\x82\x02\x82\x09\x01\x81\x80",
            PAYLOAD,
        ],
        &[Rule::ConfidentialPrimary { block: 8 }],
    ),
    (
        THEIRS,
        &[
            CLEAN,
            b"\x85\x0b\x02\x00\x00\x4a\x82\x00\x01\x01\x00\x82\x02\x82\x09\x01",
            b"\x85\x0c\x08\x00\x00\x4b\x81\x00\x02\x00\x82\x02\x82\x01\x01\x81\x80",
            b"\x85\x0c\x09\x01\x00\x4b\x81\x01\x02\x00\x82\x02\x82\x09\x01\x81\x80",
            PAYLOAD,
        ],
        &[Rule::SharedTarget {
            block: 2,
            target: 1,
        }],
    ),
    (
        MINE,
        &[
            CLEAN,
            INTEGRITY,
            b"\x85\x0c\x09\x01\x00\x4b\x81\x01\x02\x00\x82\x02\x82\x09\x01\x81\x80",
            PAYLOAD,
        ],
        &[],
    ),
    // A target is a security block, whoever added it.
    (
        MINE,
        &[
            CLEAN,
            b"\x85\x0b\x02\x00\x00\x49\x81\x03\x01\x00\x82\x02\x82\x01\x01",
            b"\x85\x0b\x03\x00\x00\x49\x81\x00\x01\x00\x82\x02\x82\x09\x01",
            PAYLOAD,
        ],
        &[Rule::IntegrityTarget {
            block: 2,
            target: 3,
        }],
    ),
];
