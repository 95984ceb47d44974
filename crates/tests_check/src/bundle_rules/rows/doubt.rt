//! Bundles with blocks of unknown types, and bundles without.
//!
//! They are rows of tests/python/rows/binding.py.

use super::{CLEAN, HOPS, LevelRow, NO_AGE, NO_HOPS, OTHER_HOPS, PAYLOAD, RECORD};
use link_bundle_rules::{BundleRule as Rule, Endpoint, Level};

/// A block of a type for private use, which has the number 50.
const UNKNOWN: &[u8] = b"\x85\x18\xc0\x18\x32\x00\x00\x41\x78";

/// Block 2: a block integrity block whose first head is longer than its number needs.
const LONG_TARGETS: &[u8] = b"\x85\x0b\x02\x00\x00\x4a\x98\x01\x01\x01\x00\x82\x02\x82\x01\x01";

/// Rules that rest on data which an unknown block may have encrypted.
pub(crate) static UNSURE: [LevelRow; 10] = [
    (
        &[CLEAN, NO_AGE, UNKNOWN, PAYLOAD],
        &[Rule::BlockData { block: 2, byte: 31 }],
        Level::Should,
    ),
    (
        &[CLEAN, UNKNOWN, NO_AGE, PAYLOAD],
        &[Rule::BlockData { block: 2, byte: 40 }],
        Level::Should,
    ),
    (
        &[CLEAN, NO_AGE, b"\x85\x0d\x18\x32\x00\x00\x40", PAYLOAD],
        &[Rule::BlockData { block: 2, byte: 31 }],
        Level::Should,
    ),
    // The unknown block is ciphertext.
    (
        &[
            CLEAN,
            NO_AGE,
            UNKNOWN,
            b"\x85\x0c\x09\x00\x00\x4c\x81\x18\x32\x02\x00\x82\x02\x82\x01\x01\x81\x80",
            PAYLOAD,
        ],
        &[Rule::BlockData { block: 2, byte: 31 }],
        Level::Should,
    ),
    (
        &[RECORD, UNKNOWN, PAYLOAD],
        &[Rule::Record { byte: 41 }],
        Level::Should,
    ),
    (
        &[CLEAN, NO_HOPS, UNKNOWN, PAYLOAD],
        &[Rule::HopCount {
            blocks: 1,
            limit: Some(0),
        }],
        Level::Should,
    ),
    (
        &[CLEAN, LONG_TARGETS, UNKNOWN, PAYLOAD],
        &[Rule::LongHead {
            byte: 31,
            level: Level::Should,
        }],
        Level::Should,
    ),
    (
        &[
            CLEAN,
            LONG_TARGETS,
            b"\x85\x07\x03\x00\x00\x42\x18\x05",
            UNKNOWN,
            PAYLOAD,
        ],
        &[Rule::LongHead {
            byte: 31,
            level: Level::Should,
        }],
        Level::Should,
    ),
    (
        &[
            RECORD,
            UNKNOWN,
            b"\x85\x01\x01\x00\x00\x54\x82\x01\x84\x84\x81\xf5\x81\xf4\x81\xf4\x81\xf4\x00\x82\
            \x01\x61\x6e\x82\x01\x00\xff",
        ],
        &[Rule::DtnName {
            of: Endpoint::ReportSource,
        }],
        Level::Should,
    ),
    (
        &[
            b"\x9f\x8b\x07\x01\x01\x82\x02\x82\x02\x01\x82\x02\x82\x01\x01\x82\x01\x00\x82\x01\
            \x00\x14\x02\x02\x42\x0d\x88",
            UNKNOWN,
            PAYLOAD,
        ],
        &[Rule::Fragment {
            offset: 2,
            size: 1,
            total: 2,
            level: Level::Should,
        }],
        Level::Should,
    ),
];

/// Rules that are a `must`.
pub(crate) static SURE: [LevelRow; 5] = [
    (
        &[CLEAN, NO_AGE, PAYLOAD],
        &[Rule::BlockData { block: 2, byte: 31 }],
        Level::Must,
    ),
    // One block of each known type
    (
        &[
            CLEAN,
            NO_AGE,
            b"\x85\x06\x03\x00\x00\x45\x82\x02\x82\x01\x00",
            b"\x85\x0a\x04\x00\x00\x44\x82\x18\x1e\x01",
            b"\x85\x0b\x05\x00\x00\x49\x81\x00\x01\x00\x82\x02\x82\x01\x01",
            b"\x85\x0c\x09\x00\x00\x4b\x81\x03\x02\x00\x82\x02\x82\x01\x01\x81\x80",
            PAYLOAD,
        ],
        &[Rule::BlockData { block: 2, byte: 31 }],
        Level::Must,
    ),
    // What no data of a block shows, beside an unknown block
    (
        &[CLEAN, HOPS, OTHER_HOPS, UNKNOWN, PAYLOAD],
        &[Rule::HopCount {
            blocks: 2,
            limit: Some(30),
        }],
        Level::Must,
    ),
    (
        &[
            CLEAN,
            LONG_TARGETS,
            UNKNOWN,
            b"\x85\x01\x01\x00\x00\x58\x01\x78\xff",
        ],
        &[Rule::LongHead {
            byte: 55,
            level: Level::Must,
        }],
        Level::Must,
    ),
    (
        &[
            b"\x9f\x8b\x07\x05\x01\x82\x02\x82\x02\x01\x82\x02\x82\x01\x01\x82\x01\x00\x82\x01\
            \x00\x14\x02\x02\x42\x68\x89",
            UNKNOWN,
            PAYLOAD,
        ],
        &[Rule::Fragment {
            offset: 2,
            size: 1,
            total: 2,
            level: Level::Must,
        }],
        Level::Must,
    ),
];
