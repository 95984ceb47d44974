//! Rules of blocks, but for those of their data.

use super::{
    AGE, AGE_3, ANONYMOUS, CLEAN, GOOD_RECORD, HIDDEN, HIDDEN_2, HIDDEN_3, HIDDEN_CUT, HIDING_64,
    HIDING_65, HOPS, MISSING, NO_HOPS, NODE, OTHER_AGE, OTHER_HOPS, PAYLOAD, RECORD, Row, SOURCE,
    TARGET_64, TARGET_65, TARGETS_63, TOO_MANY_HOPS,
};
use link_bundle_rules::{BundleRule as Rule, Level};

pub(crate) static BLOCKS: [Row; 14] = [
    // block-reports
    (
        &[
            RECORD,
            b"\x85\x07\x03\x00\x00\x41\x05",
            b"\x85\x18\xc0\x02\x02\x00\x40",
            GOOD_RECORD,
        ],
        &[Rule::BlockReports { block: 2 }],
    ),
    (
        &[ANONYMOUS, b"\x85\x18\xc0\x02\x02\x00\x40", PAYLOAD],
        &[Rule::BlockReports { block: 2 }],
    ),
    (
        &[ANONYMOUS, b"\x85\x18\xc0\x02\x07\x00\x40", PAYLOAD],
        &[Rule::BlockReports { block: 2 }],
    ),
    (
        &[ANONYMOUS, b"\x85\x01\x01\x02\x00\x41\x78\xff"],
        &[Rule::BlockReports { block: 1 }],
    ),
    (
        &[
            RECORD,
            b"\x85\x01\x01\x17\x00\x55\x82\x01\x84\x84\x81\xf5\x81\xf4\x81\xf4\x81\xf4\x00\x82\
            \x02\x82\x02\x01\x82\x01\x00\xff",
        ],
        &[Rule::BlockReports { block: 1 }],
    ),
    (
        &[
            ANONYMOUS,
            b"\x85\x18\xc0\x02\x02\x00\x40",
            b"\x85\x01\x01\x02\x00\x41\x78\xff",
        ],
        &[Rule::BlockReports { block: 2 }],
    ),
    (&[CLEAN, b"\x85\x18\xc0\x02\x02\x00\x40", PAYLOAD], &[]),
    (&[CLEAN, b"\x85\x01\x01\x02\x00\x41\x78\xff"], &[]),
    (&[ANONYMOUS, b"\x85\x01\x01\x15\x00\x41\x78\xff"], &[]),
    // block-flags
    (
        &[
            CLEAN,
            b"\x85\x18\xc0\x03\x00\x00\x40",
            b"\x85\x18\xc0\x02\x08\x00\x40",
            PAYLOAD,
        ],
        &[Rule::BlockFlags {
            block: 2,
            flags: 0x08,
        }],
    ),
    (
        &[CLEAN, b"\x85\x01\x01\x19\x01\x00\x00\x41\x78\xff"],
        &[Rule::BlockFlags {
            block: 1,
            flags: 0x0100,
        }],
    ),
    (
        &[CLEAN, b"\x85\x01\x01\x08\x00\x41\x78\xff"],
        &[Rule::BlockFlags {
            block: 1,
            flags: 0x08,
        }],
    ),
    (&[CLEAN, b"\x85\x01\x01\x17\x00\x41\x78\xff"], &[]),
    (
        &[
            CLEAN,
            b"\x85\x18\xc0\x02\x17\x00\x40",
            b"\x85\x01\x01\x17\x00\x41\x78\xff",
        ],
        &[],
    ),
];

pub(crate) static EXTENSIONS: [Row; 13] = [
    // age
    (
        &[
            b"\x9f\x89\x07\x00\x01\x82\x02\x82\x02\x01\x82\x02\x82\x01\x01\x82\x01\x00\x82\x00\
            \x05\x14\x42\x8e\x33",
            PAYLOAD,
        ],
        &[Rule::Age {
            blocks: 0,
            level: Level::Must,
        }],
    ),
    (
        &[CLEAN, AGE, OTHER_AGE, PAYLOAD],
        &[Rule::Age {
            blocks: 2,
            level: Level::Must,
        }],
    ),
    (
        &[
            b"\x9f\x8b\x07\x01\x01\x82\x02\x82\x02\x01\x82\x02\x82\x01\x01\x82\x01\x00\x82\x00\
            \x05\x14\x00\x03\x42\x76\xa7",
            PAYLOAD,
        ],
        &[Rule::Age {
            blocks: 0,
            level: Level::Must,
        }],
    ),
    (
        &[
            b"\x9f\x8b\x07\x01\x01\x82\x02\x82\x02\x01\x82\x02\x82\x01\x01\x82\x01\x00\x82\x00\
            \x05\x14\x01\x03\x42\x7d\xe3",
            PAYLOAD,
        ],
        &[Rule::Age {
            blocks: 0,
            level: Level::Should,
        }],
    ),
    (
        &[
            b"\x9f\x8b\x07\x01\x01\x82\x02\x82\x02\x01\x82\x02\x82\x01\x01\x82\x01\x00\x82\x01\
            \x00\x14\x01\x03\x42\x0c\xff",
            AGE,
            OTHER_AGE,
            PAYLOAD,
        ],
        &[Rule::Age {
            blocks: 2,
            level: Level::Must,
        }],
    ),
    (
        &[
            b"\x9f\x8b\x07\x01\x01\x82\x02\x82\x02\x01\x82\x02\x82\x01\x01\x82\x01\x00\x82\x00\
            \x05\x14\x01\x03\x42\x7d\xe3",
            AGE,
            OTHER_AGE,
            PAYLOAD,
        ],
        &[Rule::Age {
            blocks: 2,
            level: Level::Must,
        }],
    ),
    (
        &[
            b"\x9f\x89\x07\x00\x01\x82\x02\x82\x02\x01\x82\x02\x82\x01\x01\x82\x01\x00\x82\x00\
            \x00\x14\x42\xa8\x67",
            AGE,
            PAYLOAD,
        ],
        &[],
    ),
    (&[CLEAN, AGE, PAYLOAD], &[]),
    (&[CLEAN, PAYLOAD], &[]),
    (
        &[
            b"\x9f\x8b\x07\x01\x01\x82\x02\x82\x02\x01\x82\x02\x82\x01\x01\x82\x01\x00\x82\x01\
            \x00\x14\x01\x03\x42\x0c\xff",
            PAYLOAD,
        ],
        &[],
    ),
    // previous-node
    (
        &[
            CLEAN,
            NODE,
            b"\x85\x06\x03\x00\x00\x45\x82\x02\x82\x05\x00",
            PAYLOAD,
        ],
        &[Rule::PreviousNode { blocks: 2 }],
    ),
    (
        &[CLEAN, NODE, b"\x85\x06\x03\x00\x00\x40", HIDDEN_3, PAYLOAD],
        &[Rule::PreviousNode { blocks: 2 }],
    ),
    (&[CLEAN, NODE, PAYLOAD], &[]),
];

pub(crate) static HOP_COUNTS: [Row; 16] = [
    // hop-count
    (
        &[CLEAN, HOPS, OTHER_HOPS, PAYLOAD],
        &[Rule::HopCount {
            blocks: 2,
            limit: Some(30),
        }],
    ),
    (
        &[CLEAN, NO_HOPS, PAYLOAD],
        &[Rule::HopCount {
            blocks: 1,
            limit: Some(0),
        }],
    ),
    (
        &[
            CLEAN,
            b"\x85\x0a\x02\x00\x00\x45\x82\x19\x01\x00\x00",
            PAYLOAD,
        ],
        &[Rule::HopCount {
            blocks: 1,
            limit: Some(256),
        }],
    ),
    // The first one is ciphertext, or may be. The limit of another one does not count.
    (
        &[CLEAN, HOPS, OTHER_HOPS, HIDDEN_2, PAYLOAD],
        &[Rule::HopCount {
            blocks: 2,
            limit: None,
        }],
    ),
    (
        &[
            CLEAN, HOPS, OTHER_HOPS, HIDING_65, TARGETS_63, TARGET_64, TARGET_65, SOURCE, PAYLOAD,
        ],
        &[
            Rule::HopCount {
                blocks: 2,
                limit: None,
            },
            MISSING,
        ],
    ),
    (
        &[
            CLEAN,
            HIDDEN_CUT,
            HOPS,
            b"\x85\x0a\x03\x00\x00\x40",
            PAYLOAD,
        ],
        &[
            Rule::HopCount {
                blocks: 2,
                limit: None,
            },
            Rule::BlockData { block: 9, byte: 33 },
        ],
    ),
    // The first one is no ciphertext
    (
        &[CLEAN, HOPS, OTHER_HOPS, HIDDEN, PAYLOAD],
        &[Rule::HopCount {
            blocks: 2,
            limit: Some(30),
        }],
    ),
    (
        &[CLEAN, HOPS, b"\x85\x0a\x03\x00\x00\x40", HIDDEN_3, PAYLOAD],
        &[Rule::HopCount {
            blocks: 2,
            limit: Some(30),
        }],
    ),
    (
        &[CLEAN, NO_HOPS, HIDDEN, PAYLOAD],
        &[Rule::HopCount {
            blocks: 1,
            limit: Some(0),
        }],
    ),
    (
        &[
            CLEAN, NO_HOPS, HIDING_64, TARGETS_63, TARGET_64, SOURCE, PAYLOAD,
        ],
        &[
            Rule::HopCount {
                blocks: 1,
                limit: Some(0),
            },
            MISSING,
        ],
    ),
    (
        &[CLEAN, b"\x85\x0a\x02\x00\x00\x43\x82\x01\x01", PAYLOAD],
        &[],
    ),
    (
        &[CLEAN, b"\x85\x0a\x02\x00\x00\x44\x82\x18\xff\x00", PAYLOAD],
        &[],
    ),
    (&[CLEAN, NO_HOPS, HIDDEN_2, PAYLOAD], &[]),
    (&[CLEAN, HIDDEN_2, NO_HOPS, PAYLOAD], &[]),
    (
        &[
            CLEAN, NO_HOPS, HIDING_65, TARGETS_63, TARGET_64, TARGET_65, SOURCE, PAYLOAD,
        ],
        &[MISSING],
    ),
    (
        &[CLEAN, NO_HOPS, HIDDEN_CUT, PAYLOAD],
        &[Rule::BlockData { block: 9, byte: 42 }],
    ),
];

pub(crate) static CONFIDENTIAL: [Row; 12] = [
    // confidential-primary
    (
        &[
            CLEAN,
            HIDDEN,
            AGE_3,
            b"\x85\x0c\x02\x00\x00\x4d\x82\x03\x00\x02\x00\x82\x02\x82\x01\x01\x82\x80\x80",
            PAYLOAD,
        ],
        &[Rule::ConfidentialPrimary { block: 2 }],
    ),
    (
        &[
            CLEAN,
            b"\x85\x0c\x02\x00\x00\x4b\x81\x00\x02\x00\x82\x02\x82\x01\x01\x81\x80",
            PAYLOAD,
        ],
        &[Rule::ConfidentialPrimary { block: 2 }],
    ),
    (&[CLEAN, HIDDEN, PAYLOAD], &[]),
    (
        &[CLEAN, b"\x85\x0c\x02\x00\x00\x42\x81\x00", PAYLOAD],
        &[Rule::BlockData { block: 2, byte: 33 }],
    ),
    // It is no ciphertext, whatever another one says
    (
        &[
            CLEAN,
            b"\x85\x0c\x09\x00\x00\x4b\x81\x08\x02\x00\x82\x02\x82\x01\x01\x81\x80",
            b"\x85\x0c\x08\x00\x00\x4b\x81\x00\x02\x00\x82\x02\x82\x01\x01\x81\x80",
            PAYLOAD,
        ],
        &[
            Rule::ConfidentialPrimary { block: 8 },
            Rule::ConfidentialTarget {
                block: 9,
                target: 8,
            },
        ],
    ),
    // hops
    (
        &[CLEAN, TOO_MANY_HOPS, PAYLOAD],
        &[Rule::Hops { limit: 5, count: 6 }],
    ),
    (
        &[CLEAN, TOO_MANY_HOPS, HIDDEN, PAYLOAD],
        &[Rule::Hops { limit: 5, count: 6 }],
    ),
    (
        &[
            CLEAN,
            HIDING_64,
            TARGETS_63,
            TARGET_64,
            SOURCE,
            TOO_MANY_HOPS,
            PAYLOAD,
        ],
        &[Rule::Hops { limit: 5, count: 6 }, MISSING],
    ),
    (
        &[CLEAN, b"\x85\x0a\x02\x00\x00\x43\x82\x05\x05", PAYLOAD],
        &[],
    ),
    (&[CLEAN, TOO_MANY_HOPS, HIDDEN_2, PAYLOAD], &[]),
    (
        &[
            CLEAN,
            HIDING_65,
            TARGETS_63,
            TARGET_64,
            TARGET_65,
            SOURCE,
            TOO_MANY_HOPS,
            PAYLOAD,
        ],
        &[MISSING],
    ),
    (
        &[CLEAN, HIDDEN_CUT, TOO_MANY_HOPS, PAYLOAD],
        &[Rule::BlockData { block: 9, byte: 33 }],
    ),
];
