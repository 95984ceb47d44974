//! Rules of the primary block, and of fragments.

use super::{
    AGE, AGE_3, ANONYMOUS, CLEAN, FRAGMENT, GOOD_RECORD, HIDDEN, HIDDEN_2, HIDDEN_3, HIDDEN_CUT,
    HIDING_64, HIDING_65, INTEGRITY, MISSING, NO_HOPS, PAYLOAD, RECORD, Row, SOURCE, TARGET_64,
    TARGET_65, TARGETS_63, UNCHECKED,
};
use link_bundle_rules::{BundleRule as Rule, Endpoint, Level};

pub(crate) static PRIMARY: [Row; 13] = [
    // long-head
    (
        &[
            b"\x9f\x89\x18\x07\x00\x01\x82\x02\x82\x02\x01\x82\x02\x82\x01\x01\x82\x01\x00\x82\
            \x01\x00\x14\x42\x73\x66",
            PAYLOAD,
        ],
        &[Rule::LongHead {
            byte: 2,
            level: Level::Must,
        }],
    ),
    (
        &[
            b"\x9f\x89\x07\x00\x01\x82\x02\x82\x02\x01\x82\x02\x82\x01\x01\x82\x01\x00\x82\x01\
            \x00\x14\x58\x02\xd2\x0b",
            PAYLOAD,
        ],
        &[Rule::LongHead {
            byte: 22,
            level: Level::Must,
        }],
    ),
    (
        &[CLEAN, b"\x85\x01\x01\x00\x00\x58\x01\x78\xff"],
        &[Rule::LongHead {
            byte: 30,
            level: Level::Must,
        }],
    ),
    (
        &[CLEAN, b"\x98\x05\x01\x01\x00\x00\x41\x78\xff"],
        &[Rule::LongHead {
            byte: 25,
            level: Level::Must,
        }],
    ),
    (
        &[CLEAN, b"\x85\x01\x01\x00\x00\x59\x00\x00\xff"],
        &[Rule::LongHead {
            byte: 30,
            level: Level::Must,
        }],
    ),
    (
        &[
            CLEAN,
            b"\x85\x01\x01\x00\x00\x58\x18\x00\x00\x00\x00\x00\x00\x00\x00\x00\x00\x00\x00\x00\
            \x00\x00\x00\x00\x00\x00\x00\x00\x00\x00\x00\xff",
        ],
        &[],
    ),
    // The data of another type, and a payload
    (
        &[CLEAN, b"\x85\x18\xc0\x02\x00\x00\x42\x18\x05", PAYLOAD],
        &[],
    ),
    (&[CLEAN, b"\x85\x01\x01\x00\x00\x42\x18\x05\xff"], &[]),
    (
        &[
            b"\x9f\x89\x07\x00\x01\x82\x02\x82\x18\x18\x19\x01\x00\x82\x02\x82\x01\x01\x82\x01\
            \x00\x82\x01\x00\x14\x42\x05\x8c",
            PAYLOAD,
        ],
        &[],
    ),
    // bundle-flags
    (
        &[
            b"\x9f\x89\x07\x08\x01\x82\x02\x82\x02\x01\x82\x02\x82\x01\x01\x82\x01\x00\x82\x01\
            \x00\x14\x42\xce\xf1",
            PAYLOAD,
        ],
        &[Rule::BundleFlags { flags: 0x08 }],
    ),
    (
        &[
            b"\x9f\x89\x07\x1a\x00\x20\x00\x00\x01\x82\x02\x82\x02\x01\x82\x02\x82\x01\x01\x82\
            \x01\x00\x82\x01\x00\x14\x42\xad\x8d",
            PAYLOAD,
        ],
        &[Rule::BundleFlags { flags: 0x200000 }],
    ),
    (
        &[
            b"\x9f\x89\x07\x1a\x00\x07\x40\x64\x01\x82\x02\x82\x02\x01\x82\x02\x82\x01\x01\x82\
            \x01\x00\x82\x01\x00\x14\x42\x47\x40",
            PAYLOAD,
        ],
        &[],
    ),
    (
        &[
            b"\x9f\x89\x07\x18\x20\x01\x82\x02\x82\x02\x01\x82\x02\x82\x01\x01\x82\x01\x00\x82\
            \x01\x00\x14\x42\x38\x01",
            PAYLOAD,
        ],
        &[],
    ),
];

pub(crate) static PRIMARY_CHECKS: [Row; 19] = [
    // primary-check
    (
        &[UNCHECKED, PAYLOAD],
        &[Rule::PrimaryCheck { level: Level::Must }],
    ),
    (
        &[UNCHECKED, INTEGRITY, PAYLOAD],
        &[Rule::PrimaryCheck { level: Level::Must }],
    ),
    (
        &[
            UNCHECKED,
            b"\x85\x18\xc0\x02\x00\x00\x49\x81\x00\x01\x00\x82\x02\x82\x01\x01",
            PAYLOAD,
        ],
        &[Rule::PrimaryCheck { level: Level::Must }],
    ),
    (
        &[UNCHECKED, HIDDEN, PAYLOAD],
        &[Rule::PrimaryCheck { level: Level::Must }],
    ),
    (
        &[UNCHECKED, HIDDEN_CUT, PAYLOAD],
        &[
            Rule::PrimaryCheck { level: Level::Must },
            Rule::BlockData { block: 9, byte: 30 },
        ],
    ),
    // The block of integrity is no ciphertext
    (
        &[UNCHECKED, INTEGRITY, AGE_3, HIDDEN_3, PAYLOAD],
        &[Rule::PrimaryCheck { level: Level::Must }],
    ),
    (
        &[
            UNCHECKED, INTEGRITY, HIDING_64, TARGETS_63, TARGET_64, SOURCE, PAYLOAD,
        ],
        &[Rule::PrimaryCheck { level: Level::Must }, MISSING],
    ),
    // Fragments at the beginning of the data, and after it
    (
        &[
            b"\x9f\x8a\x07\x01\x00\x82\x02\x82\x02\x01\x82\x02\x82\x01\x01\x82\x01\x00\x82\x01\
            \x00\x14\x00\x03",
            PAYLOAD,
        ],
        &[Rule::PrimaryCheck { level: Level::Must }],
    ),
    (
        &[
            b"\x9f\x8a\x07\x01\x00\x82\x02\x82\x02\x01\x82\x02\x82\x01\x01\x82\x01\x00\x82\x01\
            \x00\x14\x01\x03",
            PAYLOAD,
        ],
        &[Rule::PrimaryCheck {
            level: Level::Should,
        }],
    ),
    (
        &[
            b"\x9f\x8a\x07\x01\x00\x82\x02\x82\x02\x01\x82\x02\x82\x01\x01\x82\x01\x00\x82\x01\
            \x00\x14\x1b\xff\xff\xff\xff\xff\xff\xff\xfe\x1b\xff\xff\xff\xff\xff\xff\xff\xff",
            INTEGRITY,
            PAYLOAD,
        ],
        &[],
    ),
    // The first fragment may have the block that encrypts a hop count
    (
        &[
            b"\x9f\x8a\x07\x01\x00\x82\x02\x82\x02\x01\x82\x02\x82\x01\x01\x82\x01\x00\x82\x01\
            \x00\x14\x01\x03",
            NO_HOPS,
            PAYLOAD,
        ],
        &[Rule::PrimaryCheck {
            level: Level::Should,
        }],
    ),
    (
        &[
            b"\x9f\x89\x07\x00\x02\x82\x02\x82\x02\x01\x82\x02\x82\x01\x01\x82\x01\x00\x82\x01\
            \x00\x14\x44\xf2\x32\x7b\x51",
            PAYLOAD,
        ],
        &[],
    ),
    (
        &[
            UNCHECKED,
            b"\x85\x0b\x02\x00\x00\x4a\x82\x01\x00\x01\x00\x82\x02\x82\x01\x01",
            PAYLOAD,
        ],
        &[],
    ),
    (
        &[UNCHECKED, b"\x85\x0b\x02\x00\x00\x42\x81\x01", PAYLOAD],
        &[Rule::BlockData { block: 2, byte: 30 }],
    ),
    // The block of integrity is ciphertext, or may be
    (&[UNCHECKED, INTEGRITY, HIDDEN_2, PAYLOAD], &[]),
    (&[UNCHECKED, HIDDEN_2, INTEGRITY, PAYLOAD], &[]),
    (
        &[
            UNCHECKED, INTEGRITY, HIDING_65, TARGETS_63, TARGET_64, TARGET_65, SOURCE, PAYLOAD,
        ],
        &[MISSING],
    ),
    (
        &[UNCHECKED, INTEGRITY, HIDDEN_CUT, PAYLOAD],
        &[Rule::BlockData { block: 9, byte: 45 }],
    ),
    (
        &[
            b"\x9f\x8b\x07\x01\x01\x82\x02\x82\x02\x01\x82\x02\x82\x01\x01\x82\x01\x00\x82\x01\
            \x00\x14\x01\x03\x42\x0c\xff",
            PAYLOAD,
        ],
        &[],
    ),
];

pub(crate) static SOURCES: [Row; 11] = [
    // anonymous
    (
        &[
            b"\x9f\x89\x07\x00\x01\x82\x02\x82\x02\x01\x82\x01\x00\x82\x01\x00\x82\x01\x00\x14\
            \x42\xd6\xaf",
            PAYLOAD,
        ],
        &[Rule::Anonymous { flags: 0x00 }],
    ),
    (
        &[
            b"\x9f\x89\x07\x19\x40\x04\x01\x82\x02\x82\x02\x01\x82\x01\x00\x82\x01\x00\x82\x01\
            \x00\x14\x42\xd2\x39",
            PAYLOAD,
        ],
        &[Rule::Anonymous { flags: 0x4004 }],
    ),
    (
        &[
            b"\x9f\x89\x07\x1a\x00\x01\x00\x04\x01\x82\x02\x82\x02\x01\x82\x01\x00\x82\x01\x00\
            \x82\x01\x00\x14\x42\xfd\x43",
            PAYLOAD,
        ],
        &[Rule::Anonymous { flags: 0x010004 }],
    ),
    (
        &[
            b"\x9f\x89\x07\x1a\x00\x02\x00\x04\x01\x82\x02\x82\x02\x01\x82\x01\x00\x82\x01\x00\
            \x82\x01\x00\x14\x42\x0e\xb5",
            PAYLOAD,
        ],
        &[Rule::Anonymous { flags: 0x020004 }],
    ),
    (
        &[
            b"\x9f\x89\x07\x1a\x00\x04\x00\x04\x01\x82\x02\x82\x02\x01\x82\x01\x00\x82\x01\x00\
            \x82\x01\x00\x14\x42\xe1\x48",
            PAYLOAD,
        ],
        &[Rule::Anonymous { flags: 0x040004 }],
    ),
    (&[ANONYMOUS, PAYLOAD], &[]),
    (
        &[
            b"\x9f\x89\x07\x18\x64\x01\x82\x02\x82\x02\x01\x82\x01\x00\x82\x01\x00\x82\x01\x00\
            \x14\x42\x59\xf0",
            PAYLOAD,
        ],
        &[],
    ),
    (
        &[
            b"\x9f\x89\x07\x1a\x00\x07\x40\x00\x01\x82\x02\x82\x02\x01\x82\x02\x82\x01\x01\x82\
            \x01\x00\x82\x01\x00\x14\x42\x7d\x28",
            PAYLOAD,
        ],
        &[],
    ),
    // record-reports
    (
        &[
            b"\x9f\x89\x07\x19\x40\x02\x01\x82\x02\x82\x02\x01\x82\x02\x82\x01\x01\x82\x01\x00\
            \x82\x01\x00\x14\x42\x48\x18",
            GOOD_RECORD,
        ],
        &[Rule::RecordReports { flags: 0x4002 }],
    ),
    (&[RECORD, GOOD_RECORD], &[]),
    (
        &[
            b"\x9f\x89\x07\x19\x40\x00\x01\x82\x02\x82\x02\x01\x82\x02\x82\x01\x01\x82\x01\x00\
            \x82\x01\x00\x14\x42\x12\xb3",
            PAYLOAD,
        ],
        &[],
    ),
];

pub(crate) static NAMES: [Row; 15] = [
    // dtn-name
    (
        &[
            b"\x9f\x89\x07\x00\x01\x82\x01\x60\x82\x02\x82\x01\x01\x82\x01\x00\x82\x01\x00\x14\
            \x42\xe2\x43",
            PAYLOAD,
        ],
        &[Rule::DtnName {
            of: Endpoint::Destination,
        }],
    ),
    (
        &[
            b"\x9f\x89\x07\x00\x01\x82\x01\x64\x6e\x6f\x6e\x65\x82\x02\x82\x01\x01\x82\x01\x00\
            \x82\x01\x00\x14\x42\x43\xe6",
            PAYLOAD,
        ],
        &[Rule::DtnName {
            of: Endpoint::Destination,
        }],
    ),
    (
        &[
            b"\x9f\x89\x07\x00\x01\x82\x01\x63\x2f\x2f\x6e\x82\x02\x82\x01\x01\x82\x01\x00\x82\
            \x01\x00\x14\x42\xcb\x91",
            PAYLOAD,
        ],
        &[Rule::DtnName {
            of: Endpoint::Destination,
        }],
    ),
    (
        &[
            b"\x9f\x89\x07\x00\x01\x82\x01\x62\x2f\x2f\x82\x02\x82\x01\x01\x82\x01\x00\x82\x01\
            \x00\x14\x42\x5c\x96",
            PAYLOAD,
        ],
        &[Rule::DtnName {
            of: Endpoint::Destination,
        }],
    ),
    (
        &[
            b"\x9f\x89\x07\x00\x01\x82\x01\x62\x6e\x2f\x82\x02\x82\x01\x01\x82\x01\x00\x82\x01\
            \x00\x14\x42\x6f\x1d",
            PAYLOAD,
        ],
        &[Rule::DtnName {
            of: Endpoint::Destination,
        }],
    ),
    (
        &[
            b"\x9f\x89\x07\x00\x01\x82\x01\x63\x2f\x6e\x2f\x82\x02\x82\x01\x01\x82\x01\x00\x82\
            \x01\x00\x14\x42\xe0\x08",
            PAYLOAD,
        ],
        &[Rule::DtnName {
            of: Endpoint::Destination,
        }],
    ),
    (
        &[
            b"\x9f\x89\x07\x00\x01\x82\x01\x65\x2f\x2f\x6e\x20\x2f\x82\x02\x82\x01\x01\x82\x01\
            \x00\x82\x01\x00\x14\x42\x36\x3c",
            PAYLOAD,
        ],
        &[Rule::DtnName {
            of: Endpoint::Destination,
        }],
    ),
    (
        &[
            b"\x9f\x89\x07\x00\x01\x82\x01\x65\x2f\x2f\x6e\x2f\x7f\x82\x02\x82\x01\x01\x82\x01\
            \x00\x82\x01\x00\x14\x42\xf1\xe3",
            PAYLOAD,
        ],
        &[Rule::DtnName {
            of: Endpoint::Destination,
        }],
    ),
    (
        &[
            b"\x9f\x89\x07\x00\x01\x82\x01\x65\x2f\x2f\xc3\xa4\x2f\x82\x02\x82\x01\x01\x82\x01\
            \x00\x82\x01\x00\x14\x42\xa4\x0f",
            PAYLOAD,
        ],
        &[Rule::DtnName {
            of: Endpoint::Destination,
        }],
    ),
    (
        &[
            b"\x9f\x89\x07\x00\x01\x82\x02\x82\x02\x01\x82\x01\x61\x6e\x82\x01\x00\x82\x01\x00\
            \x14\x42\xce\x18",
            PAYLOAD,
        ],
        &[Rule::DtnName {
            of: Endpoint::Source,
        }],
    ),
    (
        &[
            b"\x9f\x89\x07\x00\x01\x82\x02\x82\x02\x01\x82\x02\x82\x01\x01\x82\x01\x61\x6e\x82\
            \x01\x00\x14\x42\x99\xd0",
            PAYLOAD,
        ],
        &[Rule::DtnName {
            of: Endpoint::ReportTo,
        }],
    ),
    (
        &[
            b"\x9f\x89\x07\x00\x01\x82\x02\x82\x02\x01\x82\x01\x61\x6e\x82\x01\x61\x6e\x82\x01\
            \x00\x14\x42\x8d\x13",
            PAYLOAD,
        ],
        &[Rule::DtnName {
            of: Endpoint::Source,
        }],
    ),
    (
        &[
            b"\x9f\x89\x07\x00\x01\x82\x01\x64\x2f\x2f\x6e\x2f\x82\x02\x82\x01\x01\x82\x01\x00\
            \x82\x01\x00\x14\x42\x38\x62",
            PAYLOAD,
        ],
        &[],
    ),
    (
        &[
            b"\x9f\x89\x07\x00\x01\x82\x01\x64\x2f\x2f\x6e\x2f\x82\x01\x66\x2f\x2f\x6e\x2f\x61\
            \x7e\x82\x01\x69\x2f\x2f\x6e\x2f\x2f\x61\x2f\x21\x7e\x82\x01\x00\x14\x42\x94\xd5",
            PAYLOAD,
        ],
        &[],
    ),
    (
        &[
            b"\x9f\x89\x07\x00\x01\x82\x01\x63\x2f\x2f\x2f\x82\x01\x64\x2f\x2f\x2f\x2f\x82\x01\
            \x65\x2f\x2f\x2f\x6e\x2f\x82\x01\x00\x14\x42\x1b\x7b",
            PAYLOAD,
        ],
        &[],
    ),
];

pub(crate) static FRAGMENTS: [Row; 16] = [
    // fragment
    (
        &[
            b"\x9f\x8b\x07\x05\x01\x82\x02\x82\x02\x01\x82\x02\x82\x01\x01\x82\x01\x00\x82\x01\
            \x00\x14\x00\x02\x42\x7e\x01",
            PAYLOAD,
        ],
        &[Rule::Fragment {
            offset: 0,
            size: 1,
            total: 2,
            level: Level::Must,
        }],
    ),
    (
        &[FRAGMENT, b"\x85\x01\x01\x00\x00\x40\xff"],
        &[Rule::Fragment {
            offset: 0,
            size: 0,
            total: 2,
            level: Level::Must,
        }],
    ),
    (
        &[
            b"\x9f\x8b\x07\x01\x01\x82\x02\x82\x02\x01\x82\x02\x82\x01\x01\x82\x01\x00\x82\x01\
            \x00\x14\x02\x02\x42\x0d\x88",
            PAYLOAD,
        ],
        &[Rule::Fragment {
            offset: 2,
            size: 1,
            total: 2,
            level: Level::Must,
        }],
    ),
    (
        &[
            b"\x9f\x8b\x07\x01\x01\x82\x02\x82\x02\x01\x82\x02\x82\x01\x01\x82\x01\x00\x82\x01\
            \x00\x14\x01\x01\x42\x35\x89",
            PAYLOAD,
        ],
        &[Rule::Fragment {
            offset: 1,
            size: 1,
            total: 1,
            level: Level::Must,
        }],
    ),
    (
        &[
            b"\x9f\x8b\x07\x01\x01\x82\x02\x82\x02\x01\x82\x02\x82\x01\x01\x82\x01\x00\x82\x01\
            \x00\x14\x00\x01\x42\x3e\xcd",
            b"\x85\x01\x01\x00\x00\x42\x78\x79\xff",
        ],
        &[Rule::Fragment {
            offset: 0,
            size: 2,
            total: 1,
            level: Level::Must,
        }],
    ),
    (
        &[
            b"\x9f\x8b\x07\x01\x01\x82\x02\x82\x02\x01\x82\x02\x82\x01\x01\x82\x01\x00\x82\x01\
            \x00\x14\x1b\xff\xff\xff\xff\xff\xff\xff\xff\x1b\xff\xff\xff\xff\xff\xff\xff\xff\
            \x42\x78\x52",
            PAYLOAD,
        ],
        &[Rule::Fragment {
            offset: u64::MAX,
            size: 1,
            total: u64::MAX,
            level: Level::Must,
        }],
    ),
    // Ciphertext may pass the end, but is not empty. Another block says nothing of the payload.
    (
        &[FRAGMENT, HIDDEN, b"\x85\x01\x01\x00\x00\x40\xff"],
        &[Rule::Fragment {
            offset: 0,
            size: 0,
            total: 2,
            level: Level::Must,
        }],
    ),
    (
        &[
            b"\x9f\x8b\x07\x05\x01\x82\x02\x82\x02\x01\x82\x02\x82\x01\x01\x82\x01\x00\x82\x01\
            \x00\x14\x00\x02\x42\x7e\x01",
            HIDDEN,
            PAYLOAD,
        ],
        &[Rule::Fragment {
            offset: 0,
            size: 1,
            total: 2,
            level: Level::Must,
        }],
    ),
    (
        &[
            b"\x9f\x8b\x07\x01\x01\x82\x02\x82\x02\x01\x82\x02\x82\x01\x01\x82\x01\x00\x82\x01\
            \x00\x14\x02\x02\x42\x0d\x88",
            AGE,
            HIDDEN_2,
            PAYLOAD,
        ],
        &[Rule::Fragment {
            offset: 2,
            size: 1,
            total: 2,
            level: Level::Must,
        }],
    ),
    (
        &[
            b"\x9f\x8b\x07\x01\x01\x82\x02\x82\x02\x01\x82\x02\x82\x01\x01\x82\x01\x00\x82\x01\
            \x00\x14\x02\x02\x42\x0d\x88",
            HIDING_64,
            TARGETS_63,
            TARGET_64,
            SOURCE,
            PAYLOAD,
        ],
        &[Rule::Fragment {
            offset: 2,
            size: 1,
            total: 2,
            level: Level::Must,
        }],
    ),
    (&[FRAGMENT, PAYLOAD], &[]),
    (
        &[
            b"\x9f\x8b\x07\x01\x01\x82\x02\x82\x02\x01\x82\x02\x82\x01\x01\x82\x01\x00\x82\x01\
            \x00\x14\x01\x02\x42\x10\x44",
            PAYLOAD,
        ],
        &[],
    ),
    (
        &[
            b"\x9f\x89\x07\x04\x01\x82\x02\x82\x02\x01\x82\x02\x82\x01\x01\x82\x01\x00\x82\x01\
            \x00\x14\x42\x19\x1a",
            PAYLOAD,
        ],
        &[],
    ),
    (
        &[
            b"\x9f\x8b\x07\x01\x01\x82\x02\x82\x02\x01\x82\x02\x82\x01\x01\x82\x01\x00\x82\x01\
            \x00\x14\x02\x02\x42\x0d\x88",
            HIDDEN,
            PAYLOAD,
        ],
        &[],
    ),
    (
        &[
            b"\x9f\x8b\x07\x01\x01\x82\x02\x82\x02\x01\x82\x02\x82\x01\x01\x82\x01\x00\x82\x01\
            \x00\x14\x1b\xff\xff\xff\xff\xff\xff\xff\xff\x1b\xff\xff\xff\xff\xff\xff\xff\xff\
            \x42\x78\x52",
            HIDING_65,
            TARGETS_63,
            TARGET_64,
            TARGET_65,
            SOURCE,
            PAYLOAD,
        ],
        &[],
    ),
    (
        &[
            b"\x9f\x8b\x07\x01\x01\x82\x02\x82\x02\x01\x82\x02\x82\x01\x01\x82\x01\x00\x82\x01\
            \x00\x14\x01\x01\x42\x35\x89",
            HIDDEN_CUT,
            PAYLOAD,
        ],
        &[Rule::BlockData { block: 9, byte: 35 }],
    ),
];

pub(crate) static WHOLE_FRAGMENTS: [Row; 9] = [
    // whole-fragment
    (
        &[
            b"\x9f\x8b\x07\x01\x01\x82\x02\x82\x02\x01\x82\x02\x82\x01\x01\x82\x01\x00\x82\x01\
            \x00\x14\x00\x01\x42\x3e\xcd",
            PAYLOAD,
        ],
        &[Rule::WholeFragment { total: 1 }],
    ),
    (
        &[
            b"\x9f\x8b\x07\x01\x01\x82\x02\x82\x02\x01\x82\x02\x82\x01\x01\x82\x01\x00\x82\x01\
            \x00\x14\x00\x01\x42\x3e\xcd",
            AGE,
            HIDDEN_2,
            PAYLOAD,
        ],
        &[Rule::WholeFragment { total: 1 }],
    ),
    (
        &[
            b"\x9f\x8b\x07\x01\x01\x82\x02\x82\x02\x01\x82\x02\x82\x01\x01\x82\x01\x00\x82\x01\
            \x00\x14\x00\x01\x42\x3e\xcd",
            HIDING_64,
            TARGETS_63,
            TARGET_64,
            SOURCE,
            PAYLOAD,
        ],
        &[Rule::WholeFragment { total: 1 }],
    ),
    (&[FRAGMENT, PAYLOAD], &[]),
    (
        &[
            b"\x9f\x8b\x07\x01\x01\x82\x02\x82\x02\x01\x82\x02\x82\x01\x01\x82\x01\x00\x82\x01\
            \x00\x14\x01\x02\x42\x10\x44",
            PAYLOAD,
        ],
        &[],
    ),
    (&[CLEAN, b"\x85\x01\x01\x00\x00\x40\xff"], &[]),
    (
        &[
            b"\x9f\x8b\x07\x01\x01\x82\x02\x82\x02\x01\x82\x02\x82\x01\x01\x82\x01\x00\x82\x01\
            \x00\x14\x00\x01\x42\x3e\xcd",
            HIDDEN,
            PAYLOAD,
        ],
        &[],
    ),
    (
        &[
            b"\x9f\x8b\x07\x01\x01\x82\x02\x82\x02\x01\x82\x02\x82\x01\x01\x82\x01\x00\x82\x01\
            \x00\x14\x00\x01\x42\x3e\xcd",
            HIDING_65,
            TARGETS_63,
            TARGET_64,
            TARGET_65,
            SOURCE,
            PAYLOAD,
        ],
        &[],
    ),
    (
        &[
            b"\x9f\x8b\x07\x01\x01\x82\x02\x82\x02\x01\x82\x02\x82\x01\x01\x82\x01\x00\x82\x01\
            \x00\x14\x00\x01\x42\x3e\xcd",
            HIDDEN_CUT,
            PAYLOAD,
        ],
        &[Rule::BlockData { block: 9, byte: 35 }],
    ),
];
