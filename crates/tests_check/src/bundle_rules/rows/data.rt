//! Rules of the data of blocks, and of administrative records.

use super::{
    AGE, CLEAN, GOOD_RECORD, HIDDEN, HIDDEN_2, HIDDEN_CUT, HIDING_64, HIDING_65, HOPS, MISSING,
    NO_AGE, NODE, OPEN_AGE, OPEN_RECORD, PAYLOAD, RECORD, Row, SOURCE, TARGET_64, TARGET_65,
    TARGETS_63,
};
use link_bundle_rules::BundleRule as Rule;

pub(crate) static DATA: [Row; 20] = [
    // block-data
    (
        &[CLEAN, AGE, b"\x85\x06\x03\x00\x00\x41\x00", PAYLOAD],
        &[Rule::BlockData { block: 3, byte: 38 }],
    ),
    (
        &[CLEAN, NO_AGE, PAYLOAD],
        &[Rule::BlockData { block: 2, byte: 31 }],
    ),
    (
        &[CLEAN, b"\x85\x0a\x02\x00\x00\x44\x82\x05\x05\x05", PAYLOAD],
        &[Rule::BlockData { block: 2, byte: 34 }],
    ),
    // Bytes after a whole item, also if they begin one of indefinite length
    (
        &[CLEAN, b"\x85\x07\x02\x00\x00\x42\x05\x9f", PAYLOAD],
        &[Rule::BlockData { block: 2, byte: 32 }],
    ),
    (
        &[CLEAN, b"\x85\x0a\x02\x00\x00\x44\x82\x05\x05\x5f", PAYLOAD],
        &[Rule::BlockData { block: 2, byte: 34 }],
    ),
    // Other heads of information 31, and an ill-formed head
    (
        &[CLEAN, b"\x85\x07\x02\x00\x00\x41\xff", PAYLOAD],
        &[Rule::BlockData { block: 2, byte: 31 }],
    ),
    (
        &[CLEAN, b"\x85\x07\x02\x00\x00\x41\x1f", PAYLOAD],
        &[Rule::BlockData { block: 2, byte: 31 }],
    ),
    (
        &[CLEAN, b"\x85\x07\x02\x00\x00\x41\xdf", PAYLOAD],
        &[Rule::BlockData { block: 2, byte: 31 }],
    ),
    (
        &[CLEAN, b"\x85\x07\x02\x00\x00\x41\x5e", PAYLOAD],
        &[Rule::BlockData { block: 2, byte: 31 }],
    ),
    // A scheme that is no number, parts that are none of their scheme, and a name that is cut
    (
        &[CLEAN, b"\x85\x06\x02\x00\x00\x43\x82\x20\x00", PAYLOAD],
        &[Rule::BlockData { block: 2, byte: 32 }],
    ),
    (
        &[CLEAN, b"\x85\x06\x02\x00\x00\x43\x82\x01\x01", PAYLOAD],
        &[Rule::BlockData { block: 2, byte: 33 }],
    ),
    (
        &[CLEAN, b"\x85\x06\x02\x00\x00\x43\x82\x02\x60", PAYLOAD],
        &[Rule::BlockData { block: 2, byte: 33 }],
    ),
    (
        &[
            CLEAN,
            b"\x85\x06\x02\x00\x00\x46\x82\x01\x79\x04\x00\x61",
            PAYLOAD,
        ],
        &[Rule::BlockData { block: 2, byte: 37 }],
    ),
    // The first one that is no ciphertext
    (
        &[
            CLEAN,
            b"\x85\x07\x02\x00\x00\x41\xff",
            b"\x85\x06\x03\x00\x00\x40",
            HIDDEN_2,
            PAYLOAD,
        ],
        &[Rule::BlockData { block: 3, byte: 38 }],
    ),
    (
        &[CLEAN, AGE, b"\x85\x06\x03\x00\x00\x40", HIDDEN, PAYLOAD],
        &[Rule::BlockData { block: 3, byte: 38 }],
    ),
    (
        &[
            CLEAN, NO_AGE, HIDING_64, TARGETS_63, TARGET_64, SOURCE, PAYLOAD,
        ],
        &[Rule::BlockData { block: 2, byte: 31 }, MISSING],
    ),
    (
        &[
            CLEAN,
            NO_AGE,
            b"\x85\x18\xc0\x09\x00\x00\x49\x81\x02\x02\x00\x82\x02\x82\x01\x01",
            PAYLOAD,
        ],
        &[Rule::BlockData { block: 2, byte: 31 }],
    ),
    (&[CLEAN, AGE, PAYLOAD], &[]),
    (
        &[
            CLEAN,
            NODE,
            b"\x85\x07\x03\x00\x00\x41\x05",
            b"\x85\x0a\x04\x00\x00\x43\x82\x09\x00",
            PAYLOAD,
        ],
        &[],
    ),
    (
        &[CLEAN, b"\x85\x0b\x02\x00\x00\x40", PAYLOAD],
        &[Rule::BlockData { block: 2, byte: 31 }],
    ),
];

pub(crate) static HIDDEN_DATA: [Row; 7] = [
    // What may be ciphertext
    (&[CLEAN, NO_AGE, HIDDEN_2, PAYLOAD], &[]),
    (&[CLEAN, HIDDEN_2, NO_AGE, PAYLOAD], &[]),
    (
        &[
            CLEAN, NO_AGE, HIDING_65, TARGETS_63, TARGET_64, TARGET_65, SOURCE, PAYLOAD,
        ],
        &[MISSING],
    ),
    (
        &[CLEAN, NO_AGE, HIDDEN_CUT, PAYLOAD],
        &[Rule::BlockData { block: 9, byte: 39 }],
    ),
    (
        &[
            CLEAN,
            NO_AGE,
            b"\x85\x06\x03\x00\x00\x40",
            b"\x85\x0a\x04\x00\x00\x41\xff",
            b"\x85\x0b\x05\x00\x00\x40",
            b"\x85\x0c\x09\x00\x00\x51\x84\x04\x05\x02\x03\x02\x00\x82\x02\x82\x01\x01\x84\x80\
            \x80\x80\x80",
            PAYLOAD,
        ],
        &[],
    ),
    // A block of confidentiality is no ciphertext
    (
        &[
            CLEAN,
            b"\x85\x0c\x09\x00\x00\x4b\x81\x08\x02\x00\x82\x02\x82\x01\x01\x81\x80",
            b"\x85\x0c\x08\x00\x00\x4b\x81\x02\x02\x00\x82\x02\x82\x01\x01\x81\x80",
            NO_AGE,
            PAYLOAD,
        ],
        &[Rule::ConfidentialTarget {
            block: 9,
            target: 8,
        }],
    ),
    // The last of 64 targets
    (
        &[
            CLEAN,
            NO_AGE,
            b"\x85\x0c\x09\x00\x00\x58\x88\x98\x40",
            TARGETS_63,
            b"\x02",
            SOURCE,
            PAYLOAD,
        ],
        &[MISSING],
    ),
];

pub(crate) static UNREAD: [Row; 18] = [
    // data-not-read
    (
        &[
            CLEAN,
            b"\x85\x0a\x02\x00\x00\x45\x9f\x18\x20\x01\xff",
            PAYLOAD,
        ],
        &[Rule::DataNotRead { block: 2, byte: 31 }],
    ),
    (
        &[CLEAN, b"\x85\x0a\x02\x00\x00\x43\x82\x05\x7f", PAYLOAD],
        &[Rule::DataNotRead { block: 2, byte: 33 }],
    ),
    (
        &[CLEAN, b"\x85\x07\x02\x00\x00\x44\x5f\x41\x05\xff", PAYLOAD],
        &[Rule::DataNotRead { block: 2, byte: 31 }],
    ),
    (
        &[CLEAN, OPEN_AGE, PAYLOAD],
        &[Rule::DataNotRead { block: 2, byte: 31 }],
    ),
    (
        &[
            CLEAN,
            b"\x85\x06\x02\x00\x00\x46\x9f\x02\x82\x01\x00\xff",
            PAYLOAD,
        ],
        &[Rule::DataNotRead { block: 2, byte: 31 }],
    ),
    (
        &[CLEAN, b"\x85\x06\x02\x00\x00\x42\x82\x9f", PAYLOAD],
        &[Rule::DataNotRead { block: 2, byte: 32 }],
    ),
    (
        &[
            CLEAN,
            b"\x85\x06\x02\x00\x00\x46\x82\x02\x9f\x01\x00\xff",
            PAYLOAD,
        ],
        &[Rule::DataNotRead { block: 2, byte: 33 }],
    ),
    (
        &[
            CLEAN,
            b"\x85\x06\x02\x00\x00\x45\x82\x02\x82\x01\x5f",
            PAYLOAD,
        ],
        &[Rule::DataNotRead { block: 2, byte: 35 }],
    ),
    (
        &[
            CLEAN,
            b"\x85\x06\x02\x00\x00\x4a\x82\x01\x7f\x63\x2f\x2f\x6e\x61\x2f\xff",
            PAYLOAD,
        ],
        &[Rule::DataNotRead { block: 2, byte: 33 }],
    ),
    (
        &[
            CLEAN,
            b"\x85\x06\x02\x00\x00\x46\x82\x01\x5f\x41\x61\xff",
            PAYLOAD,
        ],
        &[Rule::DataNotRead { block: 2, byte: 33 }],
    ),
    // Other schemes than dtn and ipn
    (
        &[
            CLEAN,
            b"\x85\x06\x02\x00\x00\x47\x82\x1a\x00\x01\x00\x00\x00",
            PAYLOAD,
        ],
        &[Rule::DataNotRead { block: 2, byte: 32 }],
    ),
    (
        &[CLEAN, b"\x85\x06\x02\x00\x00\x42\x82\x03", PAYLOAD],
        &[Rule::DataNotRead { block: 2, byte: 32 }],
    ),
    (
        &[CLEAN, b"\x85\x06\x02\x00\x00\x43\x82\x00\x00", PAYLOAD],
        &[Rule::DataNotRead { block: 2, byte: 32 }],
    ),
    // A name of 1,025 bytes
    (
        &[
            CLEAN,
            b"\x85\x06\x02\x00\x00\x45\x82\x01\x79\x04\x01",
            PAYLOAD,
        ],
        &[Rule::DataNotRead { block: 2, byte: 33 }],
    ),
    // A record
    (
        &[RECORD, OPEN_RECORD],
        &[Rule::DataNotRead { block: 1, byte: 31 }],
    ),
    (
        &[RECORD, b"\x85\x01\x01\x00\x00\x42\x82\x9f\xff"],
        &[Rule::DataNotRead { block: 1, byte: 32 }],
    ),
    (
        &[
            RECORD,
            b"\x85\x01\x01\x00\x00\x46\x82\x01\x84\x9f\x81\xf4\xff",
        ],
        &[Rule::DataNotRead { block: 1, byte: 34 }],
    ),
    (
        &[
            RECORD,
            b"\x85\x01\x01\x00\x00\x50\x82\x01\x84\x84\x81\xf4\x81\xf4\x81\xf4\x81\xf4\x00\x82\
            \x18\xff\xff",
        ],
        &[Rule::DataNotRead { block: 1, byte: 45 }],
    ),
];

pub(crate) static UNREAD_IN_ORDER: [Row; 16] = [
    // The first one in their order, also before a record
    (
        &[
            RECORD,
            b"\x85\x07\x03\x00\x00\x41\xbf",
            b"\x85\x06\x02\x00\x00\x41\x9f",
            OPEN_RECORD,
        ],
        &[Rule::DataNotRead { block: 3, byte: 31 }],
    ),
    (
        &[RECORD, AGE, OPEN_RECORD],
        &[Rule::DataNotRead { block: 1, byte: 38 }],
    ),
    // The first one that is no ciphertext
    (
        &[
            CLEAN,
            OPEN_AGE,
            b"\x85\x06\x03\x00\x00\x41\x9f",
            HIDDEN_2,
            PAYLOAD,
        ],
        &[Rule::DataNotRead { block: 3, byte: 38 }],
    ),
    (
        &[CLEAN, OPEN_AGE, HIDDEN, PAYLOAD],
        &[Rule::DataNotRead { block: 2, byte: 31 }],
    ),
    (
        &[RECORD, OPEN_AGE, OPEN_RECORD],
        &[Rule::DataNotRead { block: 2, byte: 31 }],
    ),
    (
        &[RECORD, OPEN_AGE, HIDDEN_2, OPEN_RECORD],
        &[Rule::DataNotRead { block: 1, byte: 55 }],
    ),
    (
        &[
            CLEAN, OPEN_AGE, HIDING_64, TARGETS_63, TARGET_64, SOURCE, PAYLOAD,
        ],
        &[Rule::DataNotRead { block: 2, byte: 31 }, MISSING],
    ),
    (&[CLEAN, HOPS, PAYLOAD], &[]),
    // What may be ciphertext
    (&[CLEAN, OPEN_AGE, HIDDEN_2, PAYLOAD], &[]),
    (&[CLEAN, HIDDEN_2, OPEN_AGE, PAYLOAD], &[]),
    (
        &[
            CLEAN, OPEN_AGE, HIDING_65, TARGETS_63, TARGET_64, TARGET_65, SOURCE, PAYLOAD,
        ],
        &[MISSING],
    ),
    (
        &[CLEAN, OPEN_AGE, HIDDEN_CUT, PAYLOAD],
        &[Rule::BlockData { block: 9, byte: 40 }],
    ),
    (&[RECORD, HIDDEN, OPEN_RECORD], &[]),
    // What follows a security source, and payloads that are no record or a part of one
    (
        &[
            CLEAN,
            b"\x85\x0b\x02\x00\x00\x48\x81\x01\x01\x00\x82\x01\x00\x9f",
            PAYLOAD,
        ],
        &[],
    ),
    (&[CLEAN, OPEN_RECORD], &[]),
    (
        &[
            b"\x9f\x8b\x07\x03\x01\x82\x02\x82\x02\x01\x82\x02\x82\x01\x01\x82\x01\x00\x82\x01\
            \x00\x14\x00\x09\x42\x6d\x9d",
            OPEN_RECORD,
        ],
        &[],
    ),
];

pub(crate) static RECORDS: [Row; 11] = [
    // record
    (&[RECORD, PAYLOAD], &[Rule::Record { byte: 32 }]),
    (
        &[RECORD, b"\x85\x01\x01\x00\x00\x43\x82\x01\x84\xff"],
        &[Rule::Record { byte: 34 }],
    ),
    (
        &[RECORD, b"\x85\x01\x01\x00\x00\x42\x82\xff\xff"],
        &[Rule::Record { byte: 32 }],
    ),
    // Another block is ciphertext
    (
        &[RECORD, AGE, HIDDEN_2, PAYLOAD],
        &[Rule::Record { byte: 56 }],
    ),
    (&[RECORD, GOOD_RECORD], &[]),
    (
        &[RECORD, b"\x85\x01\x01\x00\x00\x42\x82\x02\xff"],
        &[Rule::RecordType { record_type: 2 }],
    ),
    (
        &[
            b"\x9f\x8b\x07\x03\x01\x82\x02\x82\x02\x01\x82\x02\x82\x01\x01\x82\x01\x00\x82\x01\
            \x00\x14\x00\x02\x42\xad\x88",
            PAYLOAD,
        ],
        &[],
    ),
    (&[RECORD, HIDDEN, PAYLOAD], &[]),
    (&[CLEAN, b"\x85\x01\x01\x00\x00\x41\x00\xff"], &[]),
    (
        &[
            RECORD, HIDING_65, TARGETS_63, TARGET_64, TARGET_65, SOURCE, PAYLOAD,
        ],
        &[MISSING],
    ),
    (
        &[RECORD, HIDDEN_CUT, PAYLOAD],
        &[Rule::BlockData { block: 9, byte: 33 }],
    ),
];
