//! Extension items, and lists of them (RFC 9174 sections 4.8 and 5.2.5).

ghost use Rattle.std.specs.Prelude.{◌≡◌};
ghost use Rattle.link_wire_writer.specs.MessageBytes.{are_items, item_of};
ghost use Rattle.link_writing.specs.Writes.{WritesIntoSlice};

use arrayvec::ArrayVec;
use link_wire::{ListOf, MAX_ITEMS, MAX_LIST_LENGTH, item_in};
use link_writing::{WriteFault, put_u8, put_u16, write_parts};

/// The bytes of an extension item before its value: flags, type and length.
const ITEM_HEAD: u32 = 5;

/// The greatest length of a value: with the five bytes before it, it has the 65,536 bytes that a
/// list may have.
const VALUE_MAX: usize = 65_531;

/// Writes an extension item to the start of the slice (RFC 9174 section 4.8), and returns the
/// number of its bytes.
///
/// # Errors
///
/// The value has more than 65,531 bytes, or the slice is too small.
#[tactic(auto, unfolding(crate::specs::MessageBytes::item_bytes))]
pub fn write_item(flags: u8, kind: u16, value: &[u8], slice: &mut [u8]) -> Result<usize, WriteFault>
    ensures { WritesIntoSlice (item_of flags kind value.now) slice.old slice.new result }
{
    if value.len() > VALUE_MAX {
        return Err(WriteFault::OutOfRange);
    }
    let mut head: ArrayVec<u8, 5> = ArrayVec::new();
    put_u8(&mut head, flags);
    put_u16(&mut head, kind);
    put_u16(&mut head, value.len() as u16);
    write_parts(head.as_slice(), value, &[], slice)
}

/// Whether the bytes are extension items and nothing else: at most 64, in at most 65,536 bytes.
pub(crate) fn are_items(owner: ListOf, items: &[u8]) -> bool
    ensures { result ≡ are_items owner items.now }
{
    if items.len() > MAX_LIST_LENGTH as usize {
        return false;
    }
    let mut at = 0;
    let mut left = items.len() as u32;
    let mut room = MAX_ITEMS;
    while left > 0 {
        match item_in(items, at, left, owner) {
            Ok(found) if room > 0 => {
                at = found.value + usize::from(found.item.length);
                left = left.saturating_sub(ITEM_HEAD + u32::from(found.item.length));
                room -= 1;
            }
            _ => return false,
        }
    }
    true
}
