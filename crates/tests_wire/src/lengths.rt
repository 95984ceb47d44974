//! Announced lengths.

ghost use Rattle.link_wire.specs.Message.{HasTotalIfLengthItem, HaveTotalsIfLengthItems};

use link_transfer::{Announced, announced};
use link_wire::{Item, Items};
use std::process::Abort;

/// The item type of Transfer Length (RFC 9174 section 5.2.5.1), and the length of its value.
const TRANSFER_LENGTH: u16 = 0x0001;

const TOTAL_LENGTH: u16 = 8;

/// The list of items of these types and lengths, with a total of 35 in Transfer Length items.
fn items_of(kinds: &[(u16, u16)]) -> Items
    ensures { HaveTotalsIfLengthItems result.items }
{
    let mut items = Items::new();
    for &(kind, length) in kinds {
        if !items.is_full() {
            items.push(item_of(kind, length));
        }
    }
    items
}

fn item_of(kind: u16, length: u16) -> Item
    ensures { HasTotalIfLengthItem result }
{
    let total = if kind == TRANSFER_LENGTH && length == TOTAL_LENGTH {
        Some(35)
    } else {
        None
    };
    Item {
        flags: 0,
        kind,
        length,
        total,
    }
}

/// The types and lengths of items, and what they announce.
static LISTS: [(&[(u16, u16)], Announced); 12] = [
    (&[], Announced::Absent),
    (&[(0x0002, 8)], Announced::Absent),
    (&[(0x0100, 8), (0xffff, 0)], Announced::Absent),
    (&[(0x0001, 8)], Announced::Total(35)),
    (
        &[(0x0002, 8), (0x0001, 8), (0x0000, 0)],
        Announced::Total(35),
    ),
    (&[(0x0001, 8), (0x0001, 8)], Announced::Malformed),
    (
        &[(0x0001, 8), (0x0002, 0), (0x0001, 8), (0x0001, 8)],
        Announced::Malformed,
    ),
    (&[(0x0001, 0)], Announced::Malformed),
    (&[(0x0001, 7)], Announced::Malformed),
    (&[(0x0001, 264)], Announced::Malformed),
    (&[(0x0001, 4), (0x0001, 8)], Announced::Malformed),
    (&[(0x0001, 8), (0x0001, 4)], Announced::Malformed),
];

#[test]
fn announces_one_length(rt: HostRuntime) {
    for (kinds, want) in &LISTS {
        assert_eq!(rt; announced(&items_of(kinds)), *want, "{kinds:?}");
    }
}
