//! Bundles that break several rules.

use super::{AGE, CLEAN, HIDDEN, INTEGRITY, OPEN_AGE, OPEN_RECORD, PAYLOAD, RECORD, Row};
use link_bundle_rules::{BundleRule as Rule, Endpoint, Level};

pub(crate) static TOGETHER: [Row; 18] = [
    // a fragment without data, of which each block is wrong
    (
        &[
            b"\x9f\x8a\x18\x07\x19\x40\x0b\x00\x82\x01\x61\x6e\x82\x01\x00\x82\x01\x00\x82\x00\
            \x00\x14\x00\x00",
            b"\x85\x06\x02\x00\x00\x41\x00",
            b"\x85\x06\x03\x00\x00\x41\x9f",
            b"\x85\x0a\x04\x0a\x00\x43\x82\x00\x01",
            b"\x85\x0a\x05\x00\x00\x40",
            b"\x85\x0c\x06\x00\x00\x4b\x81\x00\x02\x00\x82\x02\x82\x01\x01\x81\x80",
            b"\x85\x01\x01\x00\x00\x40\xff",
        ],
        &[
            Rule::LongHead {
                byte: 2,
                level: Level::Must,
            },
            Rule::BundleFlags { flags: 0x400b },
            Rule::PrimaryCheck {
                level: Level::Should,
            },
            Rule::Anonymous { flags: 0x400b },
            Rule::RecordReports { flags: 0x400b },
            Rule::BlockReports { block: 4 },
            Rule::BlockFlags {
                block: 4,
                flags: 0x0a,
            },
            Rule::DtnName {
                of: Endpoint::Destination,
            },
            Rule::Fragment {
                offset: 0,
                size: 0,
                total: 0,
                level: Level::Must,
            },
            Rule::WholeFragment { total: 0 },
            Rule::Age {
                blocks: 0,
                level: Level::Must,
            },
            Rule::PreviousNode { blocks: 2 },
            Rule::HopCount {
                blocks: 2,
                limit: Some(0),
            },
            Rule::ConfidentialPrimary { block: 6 },
            Rule::Hops { limit: 0, count: 1 },
            Rule::BlockData { block: 2, byte: 30 },
            Rule::DataNotRead { block: 3, byte: 37 },
        ],
    ),
    // a record
    (
        &[
            b"\x9f\x89\x07\x19\x40\x02\x01\x82\x02\x82\x02\x01\x82\x01\x00\x82\x01\x00\x82\x00\
            \x00\x14\x42\x05\xc4",
            PAYLOAD,
        ],
        &[
            Rule::Anonymous { flags: 0x4002 },
            Rule::RecordReports { flags: 0x4002 },
            Rule::Age {
                blocks: 0,
                level: Level::Must,
            },
            Rule::Record { byte: 32 },
        ],
    ),
    // a block and a record
    (
        &[RECORD, AGE, b"\x85\x06\x03\x00\x00\x40", PAYLOAD],
        &[
            Rule::BlockData { block: 3, byte: 38 },
            Rule::Record { byte: 45 },
        ],
    ),
    // two long heads
    (
        &[CLEAN, b"\x98\x05\x01\x01\x00\x00\x58\x01\x78\xff"],
        &[Rule::LongHead {
            byte: 25,
            level: Level::Must,
        }],
    ),
    // dtn:none as a text
    (
        &[
            b"\x9f\x89\x07\x00\x01\x82\x02\x82\x02\x01\x82\x01\x64\x6e\x6f\x6e\x65\x82\x01\x00\
            \x82\x01\x00\x14\x42\x2c\x49",
            PAYLOAD,
        ],
        &[Rule::DtnName {
            of: Endpoint::Source,
        }],
    ),
    // two hop count blocks, the first malformed
    (
        &[
            CLEAN,
            b"\x85\x0a\x04\x00\x00\x40",
            b"\x85\x0a\x03\x00\x00\x43\x82\x00\x01",
            PAYLOAD,
        ],
        &[
            Rule::HopCount {
                blocks: 2,
                limit: None,
            },
            Rule::BlockData { block: 4, byte: 31 },
        ],
    ),
    // a block that is not read, and one that is wrong
    (
        &[CLEAN, OPEN_AGE, b"\x85\x06\x03\x00\x00\x41\x60", PAYLOAD],
        &[
            Rule::BlockData { block: 3, byte: 38 },
            Rule::DataNotRead { block: 2, byte: 31 },
        ],
    ),
    // a record that is not read
    (
        &[RECORD, b"\x85\x06\x03\x00\x00\x41\x60", AGE, OPEN_RECORD],
        &[
            Rule::BlockData { block: 3, byte: 31 },
            Rule::DataNotRead { block: 1, byte: 45 },
        ],
    ),
    // a block that is not read, and a record
    (
        &[RECORD, AGE, b"\x85\x06\x03\x00\x00\x41\x9f", PAYLOAD],
        &[
            Rule::DataNotRead { block: 3, byte: 38 },
            Rule::Record { byte: 46 },
        ],
    ),
    // every block
    (
        &[
            RECORD,
            b"\x85\x0a\x03\x00\x00\x43\x82\x00\x01",
            b"\x85\x0a\x04\x00\x00\x40",
            b"\x85\x07\x05\x00\x00\x40",
            b"\x85\x0c\x09\x01\x00\x53\x85\x00\x01\x03\x04\x05\x02\x00\x82\x02\x82\x01\x01\x85\
            \x80\x80\x80\x80\x80",
            PAYLOAD,
        ],
        &[
            Rule::HopCount {
                blocks: 2,
                limit: None,
            },
            Rule::ConfidentialPrimary { block: 9 },
        ],
    ),
    // only the primary block
    (
        &[
            RECORD,
            b"\x85\x0c\x09\x00\x00\x4b\x81\x00\x02\x00\x82\x02\x82\x01\x01\x81\x80",
            b"\x85\x0a\x03\x00\x00\x43\x82\x00\x01",
            b"\x85\x0a\x04\x00\x00\x40",
            b"\x85\x07\x05\x00\x00\x40",
            PAYLOAD,
        ],
        &[
            Rule::HopCount {
                blocks: 2,
                limit: Some(0),
            },
            Rule::ConfidentialPrimary { block: 9 },
            Rule::Hops { limit: 0, count: 1 },
            Rule::BlockData { block: 4, byte: 57 },
            Rule::Record { byte: 70 },
        ],
    ),
    // the payload and the age
    (
        &[
            RECORD,
            b"\x85\x0a\x03\x00\x00\x43\x82\x00\x01",
            b"\x85\x0a\x04\x00\x00\x40",
            b"\x85\x07\x05\x00\x00\x40",
            HIDDEN,
            b"\x85\x0c\x08\x00\x00\x4b\x81\x05\x02\x00\x82\x02\x82\x01\x01\x81\x80",
            PAYLOAD,
        ],
        &[
            Rule::HopCount {
                blocks: 2,
                limit: Some(0),
            },
            Rule::Hops { limit: 0, count: 1 },
            Rule::BlockData { block: 4, byte: 40 },
        ],
    ),
    // too many targets
    (
        &[
            b"\x9f\x88\x07\x02\x00\x82\x02\x82\x02\x01\x82\x02\x82\x01\x01\x82\x01\x00\x82\x01\
            \x00\x14",
            b"\x85\x0a\x03\x00\x00\x43\x82\x00\x01",
            b"\x85\x0a\x04\x00\x00\x40",
            b"\x85\x07\x05\x00\x00\x40",
            INTEGRITY,
            b"\x85\x0c\x09\x01\x00\x58\x73\x98\x41\x00\x01\x02\x03\x04\x05\x06\x07\x08\x09\x0a\
            \x0b\x0c\x0d\x0e\x0f\x10\x11\x12\x13\x14\x15\x16\x17\x18\x18\x18\x19\x18\x1a\x18\
            \x1b\x18\x1c\x18\x1d\x18\x1e\x18\x1f\x18\x20\x18\x21\x18\x22\x18\x23\x18\x24\x18\
            \x25\x18\x26\x18\x27\x18\x28\x18\x29\x18\x2a\x18\x2b\x18\x2c\x18\x2d\x18\x2e\x18\
            \x2f\x18\x30\x18\x31\x18\x32\x18\x33\x18\x34\x18\x35\x18\x36\x18\x37\x18\x38\x18\
            \x39\x18\x3a\x18\x3b\x18\x3c\x18\x3d\x18\x3e\x18\x3f\x18\x40\x02\x00\x82\x02\x82\
            \x01\x01",
            PAYLOAD,
        ],
        &[
            Rule::HopCount {
                blocks: 2,
                limit: None,
            },
            Rule::ConfidentialPrimary { block: 9 },
            Rule::SecurityTargets {
                block: 9,
                target: Some(6),
                level: Level::Should,
            },
            Rule::ConfidentialTarget {
                block: 9,
                target: 9,
            },
        ],
    ),
    // a fragment without its end
    (
        &[
            b"\x9f\x8b\x07\x05\x01\x82\x02\x82\x02\x01\x82\x02\x82\x01\x01\x82\x01\x00\x82\x01\
            \x00\x14\x00\x00\x42\x47\x77",
            HIDDEN,
            b"\x85\x01\x01\x00\x00\x40\xff",
        ],
        &[Rule::Fragment {
            offset: 0,
            size: 0,
            total: 0,
            level: Level::Must,
        }],
    ),
    // a late fragment
    (
        &[
            b"\x9f\x8a\x07\x01\x00\x82\x02\x82\x02\x01\x82\x02\x82\x01\x01\x82\x01\x00\x82\x00\
            \x05\x14\x01\x02",
            PAYLOAD,
        ],
        &[
            Rule::PrimaryCheck {
                level: Level::Should,
            },
            Rule::Age {
                blocks: 0,
                level: Level::Should,
            },
        ],
    ),
    // the first fragment
    (
        &[
            b"\x9f\x8a\x07\x01\x00\x82\x02\x82\x02\x01\x82\x02\x82\x01\x01\x82\x01\x00\x82\x00\
            \x05\x14\x00\x02",
            PAYLOAD,
        ],
        &[
            Rule::PrimaryCheck { level: Level::Must },
            Rule::Age {
                blocks: 0,
                level: Level::Must,
            },
        ],
    ),
    // a fragment of no data
    (
        &[
            b"\x9f\x8b\x07\x01\x01\x82\x02\x82\x02\x01\x82\x02\x82\x01\x01\x82\x01\x00\x82\x01\
            \x00\x14\x00\x00\x42\x22\x76",
            b"\x85\x01\x01\x00\x00\x40\xff",
        ],
        &[
            Rule::Fragment {
                offset: 0,
                size: 0,
                total: 0,
                level: Level::Must,
            },
            Rule::WholeFragment { total: 0 },
        ],
    ),
    // a whole fragment that must be none
    (
        &[
            b"\x9f\x8b\x07\x05\x01\x82\x02\x82\x02\x01\x82\x02\x82\x01\x01\x82\x01\x00\x82\x01\
            \x00\x14\x00\x01\x42\x5b\xcc",
            PAYLOAD,
        ],
        &[
            Rule::Fragment {
                offset: 0,
                size: 1,
                total: 1,
                level: Level::Must,
            },
            Rule::WholeFragment { total: 1 },
        ],
    ),
];
