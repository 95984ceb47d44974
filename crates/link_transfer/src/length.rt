//! The length that the extension items of a transfer announce.

ghost use Rattle.std.specs.Prelude.{◌≡◌};
ghost use Rattle.link_transfer.specs.Announced.{announced_by, announced_with, announced_of};
ghost use Rattle.link_wire.specs.Message.{HaveTotalsIfLengthItems};

use crate::announcement::Announced;
use link_wire::{Item, Items};

/// The type of a Transfer Length item (RFC 9174 section 5.2.5.1).
const TRANSFER_LENGTH: u16 = 0x0001;

/// The length of its value in bytes.
const TOTAL_LENGTH: u16 = 8;

/// The announcement of one Transfer Length item.
fn announced_by(item: &Item) -> Announced
    ensures { result ≡ announced_by item.now }
{
    match item.total {
        Some(total) if item.length == TOTAL_LENGTH => Announced::Total(total),
        _ => Announced::Malformed,
    }
}

/// The announcement of all items up to this one. `announced` is the announcement of the items
/// before it.
fn announced_with(announced: Announced, item: &Item) -> Announced
    ensures { result ≡ announced_with announced item.now }
{
    if item.kind != TRANSFER_LENGTH {
        return announced;
    }
    match announced {
        Announced::Absent => announced_by(item),
        _ => Announced::Malformed,
    }
}

/// The announcement of a transfer's extension items.
///
/// `total` of a Transfer Length item of 8 bytes has to be the number that those bytes spell. Calls
/// that read a message set it.
pub fn announced(items: &Items) -> Announced
    requires { HaveTotalsIfLengthItems items.now.items }
    ensures { result ≡ announced_of items.now.items }
{
    let mut announced = Announced::Absent;
    for item in items.as_slice() {
        announced = announced_with(announced, item);
    }
    announced
}
