//! Reading extension lists, item by item (RFC 9174 sections 4.8 and 5.2.5).

ghost use Rattle.std.specs.Prelude.{◌≡◌, ◌≤◌, ◌<◌, ◌+◌, length, IsSome, IsTrue, IfOk, OnOk};
ghost use Rattle.link_io.specs.Source.{IsLive};
ghost use Rattle.link_wire.specs.Message.{is_total_length, HaveTotalsIfLengthItems, skipped_at, total_at, item_head_at, items_of as items_by, list_at};
ghost use Rattle.link_wire.specs.Getting.{ReadsPart, with_value};

use crate::codes::{ITEM_HEAD, TOTAL_SIZE, TRANSFER_LENGTH};
use crate::fault::WireFault;
use crate::halt::Halt;
use crate::message::{Item, Items, ListOf, MAX_LIST_LENGTH};
use crate::parts::{bytes, number8, number16, number32, number64};
use link_io::{InDevice, Source};

/// Values that are not kept are skipped in pieces of this many bytes.
const PIECE: usize = 256;

/// The fields of an extension item before its value (RFC 9174 section 4.8).
#[derive(Clone, Copy, Debug, PartialEq, Eq)]
pub struct ItemHead {
    flags: u8,
    kind: u16,
    length: u16,
}

impl ItemHead {
    /// Whether the value is a total length: the item is a Transfer Length item of 8 bytes in the
    /// list of a transfer.
    fn has_total(&self, owner: ListOf) -> bool
        ensures { result ≡ is_total_length owner self.now.kind self.now.length }
    {
        match owner {
            ListOf::Session => false,
            ListOf::Transfer => self.kind == TRANSFER_LENGTH && self.length == TOTAL_SIZE,
        }
    }
}

/// Skips the next `count` bytes.
fn skip<R: InDevice>(source: &mut Source<R>, count: u16) -> Result<(), Halt>
    ensures { IsLive R.state source.old
        → ReadsPart R.state (skipped_at count) source.old source.new result }
{
    let mut piece = [0; PIECE];
    let mut left = usize::from(count);
    while left > 0 {
        let size = left.min(PIECE);
        bytes(source, &mut piece[..size])?;
        left -= size;
    }
    Ok(())
}

/// Reads the value of an item, and returns it if it is a total length.
///
/// A total length is the value of a Transfer Length item of 8 bytes, in the list of a transfer. Any
/// other value is skipped.
fn item_total<R: InDevice>(
    source: &mut Source<R>,
    owner: ListOf,
    head: &ItemHead,
) -> Result<Option<u64>, Halt>
    ensures gets { IsLive R.state source.old
        → ReadsPart R.state
        (total_at owner head.now.kind head.now.length) source.old source.new result }
    ensures some { IsTrue (is_total_length owner head.now.kind head.now.length)
        → IfOk result IsSome }
{
    if head.has_total(owner) {
        Ok(Some(number64(source)?))
    } else {
        skip(source, head.length)?;
        Ok(None)
    }
}

/// Reads the head of the next item of a list that has `left` more bytes.
///
/// The item has to end within the list.
fn item_head<R: InDevice>(source: &mut Source<R>, left: u32) -> Result<ItemHead, Halt>
    ensures gets { IsLive R.state source.old
        → ReadsPart R.state (item_head_at left) source.old source.new result }
    ensures within { IfOk result (λ head. 5 + head.length ≤ left) }
{
    if left < ITEM_HEAD {
        return Err(Halt::Wire(WireFault::ItemsOverrun));
    }
    let flags = number8(source)?;
    let kind = number16(source)?;
    let length = number16(source)?;
    if u32::from(length) > left - ITEM_HEAD {
        return Err(Halt::Wire(WireFault::ItemsOverrun));
    }
    Ok(ItemHead {
        flags,
        kind,
        length,
    })
}

/// Reads the items of a list of `length` bytes into `items`.
///
/// The total of an item is its value, if that is a total length (see [`item_total`]). Only items of
/// a transfer's list have one. No total is missing in `items`, even after an error (`totals`).
fn items_of<R: InDevice>(
    source: &mut Source<R>,
    owner: ListOf,
    length: u32,
    items: &mut Items,
) -> Result<(), Halt>
    ensures gets { IsLive R.state source.old
        → ReadsPart R.state (items_by owner length) source.old source.new
        (with_value items.new result) }
    ensures totals { owner ≡ ListOf.Transfer → HaveTotalsIfLengthItems items.new.items }
{
    items.clear();
    let mut left = length;
    while left > 0 {
        let head = item_head(source, left)?;
        if items.is_full() {
            return Err(Halt::Wire(WireFault::TooManyItems));
        }
        let total = item_total(source, owner, &head)?;
        items.push(Item {
            flags: head.flags,
            kind: head.kind,
            length: head.length,
            total,
        });
        // `item_head` refuses an item that ends after the list, so this cannot underflow.
        left -= ITEM_HEAD + u32::from(head.length);
    }
    Ok(())
}

/// Reads an extension list into `items`: its length, and then its items.
pub fn list<R: InDevice>(
    source: &mut Source<R>,
    owner: ListOf,
    items: &mut Items,
) -> Result<(), Halt>
    ensures gets { IsLive R.state source.old
        → ReadsPart R.state (list_at owner) source.old source.new (with_value items.new result) }
    ensures totals { owner ≡ ListOf.Transfer
        → OnOk result (HaveTotalsIfLengthItems items.new.items) }
{
    let length = number32(source)?;
    if length > MAX_LIST_LENGTH {
        return Err(Halt::Wire(WireFault::ListTooLong(length)));
    }
    items_of(source, owner, length, items)
}
