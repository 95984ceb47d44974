//! Rules of the lengths and of the data of transfers.
//!
//! Each row has a transfer of a recording that tests/python/rows has for `check`, and its rules.

use super::judging::{BOTH, ItemOf, NONE, START, items_of};
use crate::bundle_rules::heads::{Seen, unread_of};
use link_bundle_types::BundleFault;
use link_session_rules::{Doubt, Level, Opening, TransferRule, data_rule};
use link_wire::{Fields, MessageBuffer, NodeId};

/// The flags and the items of the first segment of a transfer, the length of the transfer's data,
/// and the rules that it breaks.
type Row = (u8, &'static [ItemOf], u64, &'static [TransferRule]);

static ROWS: [Row; 11] = [
    (
        START,
        &[(0, 1, 8, 33), (0, 1, 8, 33)],
        33,
        &[TransferRule::LengthItem],
    ),
    (START, &[(0, 1, 7, 0)], 33, &[TransferRule::LengthItem]),
    (START, &[(0, 1, 8, 33), (0, 2, 0, 0)], 33, &[]),
    (
        START,
        &[(0, 1, 8, 34)],
        33,
        &[TransferRule::LengthDiffers {
            announced: 34,
            length: 33,
        }],
    ),
    (START, &[(0, 1, 8, 33)], 33, &[]),
    (START, NONE, 33, &[]),
    (
        BOTH,
        &[(0, 1, 8, 33)],
        33,
        &[TransferRule::LengthOfOneSegment],
    ),
    (BOTH, &[(0, 2, 8, 0)], 33, &[]),
    (BOTH, NONE, 33, &[]),
    (
        BOTH,
        &[(0, 1, 8, 2)],
        1,
        &[
            TransferRule::LengthDiffers {
                announced: 2,
                length: 1,
            },
            TransferRule::LengthOfOneSegment,
        ],
    ),
    (
        BOTH | 0x08,
        &[(0, 1, 8, 34), (0x10, 1, 0, 0)],
        33,
        &[TransferRule::LengthItem, TransferRule::LengthOfOneSegment],
    ),
];

/// What the rules need of a first segment with these flags and items.
fn opening_of(flags: u8, items: &[ItemOf]) -> Opening {
    let message = MessageBuffer {
        fields: Fields::Segment {
            flags,
            id: 0,
            length: 0,
        },
        node: NodeId::new(),
        items: items_of(items),
    };
    Opening::of(&message, flags)
}

#[test]
fn judges_lengths_of_transfers(rt: HostRuntime) {
    for &(flags, items, length, wanted) in &ROWS {
        let rules = opening_of(flags, items).rules(length);
        assert_eq!(rt; rules.as_slice(), wanted, "{flags:02x} {items:?}");
    }
}

/// The level of each rule, by what an unknown part may have changed in the bundle.
static LEVELS: [(TransferRule, Doubt, Level); 10] = [
    (
        TransferRule::Unfinished { length: 2 },
        Doubt::Nothing,
        Level::Should,
    ),
    (TransferRule::LengthItem, Doubt::Nothing, Level::Must),
    (TransferRule::LengthItem, Doubt::WholeBundle, Level::Must),
    (DIFFERS, Doubt::Nothing, Level::Must),
    (DIFFERS, Doubt::WholeBundle, Level::Must),
    (
        TransferRule::LengthOfOneSegment,
        Doubt::Nothing,
        Level::Should,
    ),
    (NO_BUNDLE, Doubt::Nothing, Level::Must),
    (NO_BUNDLE, Doubt::BlockData, Level::Must),
    (NO_BUNDLE, Doubt::WholeBundle, Level::Should),
    (
        TransferRule::NotRead {
            fault: BundleFault::BadScheme,
            byte: 6,
        },
        Doubt::Nothing,
        Level::Should,
    ),
];

/// A transfer that announces 34 bytes and has 33.
const DIFFERS: TransferRule = TransferRule::LengthDiffers {
    announced: 34,
    length: 33,
};

/// Data that ends before a bundle begins.
const NO_BUNDLE: TransferRule = TransferRule::Bundle {
    fault: BundleFault::Cut,
    byte: 0,
};

#[test]
fn has_the_levels_of_the_table(rt: HostRuntime) {
    for (rule, doubt, level) in &LEVELS {
        assert_eq!(rt; rule.level(*doubt), *level, "{rule:?} {doubt:?}");
    }
}

/// A fault of data and its offset, where the data has heads that are not read, and whether the data
/// may be a bundle.
type DataRow = (BundleFault, u64, Seen, bool);

static DATA: [DataRow; 35] = [
    (BundleFault::NotABundle, 0, Seen::Nothing, false),
    (BundleFault::NotABundle, 0, Seen::Tagged, true),
    (BundleFault::Trailing, 33, Seen::Nothing, false),
    (BundleFault::BadHead, 2, Seen::Nothing, false),
    (BundleFault::NoPayloadLast, 32, Seen::Item(32), false),
    // An item of indefinite length, at the fault and elsewhere
    (BundleFault::WrongKind, 25, Seen::Nothing, false),
    (BundleFault::WrongKind, 25, Seen::String(25), true),
    (BundleFault::WrongKind, 25, Seen::Item(25), true),
    (BundleFault::WrongKind, 25, Seen::Item(26), false),
    (BundleFault::WrongKind, 25, Seen::String(24), false),
    (BundleFault::WrongKind, 25, Seen::Encoded(25), false),
    (BundleFault::WrongKind, 1, Seen::Item(1), true),
    (BundleFault::BadSpecificPart, 7, Seen::Nothing, false),
    (BundleFault::BadSpecificPart, 7, Seen::String(7), true),
    (BundleFault::BadSpecificPart, 7, Seen::Item(7), true),
    (BundleFault::BadSpecificPart, 7, Seen::Item(8), false),
    (BundleFault::BadSpecificPart, 7, Seen::Encoded(7), false),
    // The same in place of a block's data, and of a check value
    (BundleFault::WrongDataKind, 30, Seen::Nothing, false),
    (BundleFault::WrongDataKind, 30, Seen::String(30), false),
    (BundleFault::WrongDataKind, 30, Seen::Item(30), true),
    (BundleFault::WrongDataKind, 30, Seen::Item(31), false),
    (BundleFault::WrongDataKind, 30, Seen::Encoded(30), true),
    (BundleFault::WrongDataKind, 30, Seen::Encoded(22), false),
    (BundleFault::WrongCheckKind, 22, Seen::Nothing, false),
    (BundleFault::WrongCheckKind, 22, Seen::String(22), false),
    (BundleFault::WrongCheckKind, 22, Seen::Item(22), true),
    (BundleFault::WrongCheckKind, 22, Seen::Encoded(22), false),
    // Limits, wherever they are
    (BundleFault::BadScheme, 6, Seen::Nothing, true),
    (BundleFault::BadScheme, 6, Seen::Item(9), true),
    (BundleFault::EidTooLong, 7, Seen::Nothing, true),
    (BundleFault::TooManyBlocks, 451, Seen::Nothing, true),
    // Faults that no item of indefinite length explains
    (BundleFault::CheckDiffers, 22, Seen::Item(22), false),
    (BundleFault::BadCheckLength, 22, Seen::String(22), false),
    (BundleFault::BadCount, 1, Seen::Item(1), false),
    (BundleFault::BadCheckType, 4, Seen::Item(4), false),
];

#[test]
fn judges_the_data_of_transfers(rt: HostRuntime) {
    for &(fault, byte, seen, may_be) in &DATA {
        let wanted = if may_be {
            TransferRule::NotRead { fault, byte }
        } else {
            TransferRule::Bundle { fault, byte }
        };
        let found = data_rule(fault, byte, &unread_of(seen));
        assert_eq!(rt; found, wanted, "{fault:?} {seen:?}");
    }
}
