//! The export that reads the length that a transfer announces.

ghost use Rattle.std.specs.Prelude.{◌≡◌, ◌≤◌, true, false, length, drop};
ghost use Rattle.link_wire.specs.Message.{items_of};
ghost use Rattle.link_wire.specs.declared.message.ListOf.TheVariants.{Transfer};
ghost use Rattle.link_ffi_numbers.specs.Status.{status_range};
ghost use Rattle.tcpclkit_c.specs.Announced.{may_announce, announced_shown, announced_part, ReturnsAnnounced};

use link_ffi_numbers::recording::{Message, has_list_at};
use link_ffi_numbers::status::{OK, RANGE};
use link_transfer::{Announced, announced};
use link_wire::{Items, ListOf, item_in};

/// `struct tcpclkit_announced`: the length of a transfer that its first segment announces.
#[repr(C)]
#[derive(Clone, Copy, Debug, PartialEq, Eq)]
pub struct AnnouncedNumbers {
    /// 0 if no length is announced, 1 for a length, and 2 if the items announce it wrongly.
    pub kind: u64,
    /// The length, or 0 if `kind` is not 1.
    pub total: u64,
}

/// The numbers of an announcement.
fn announced_shown(announced: Announced) -> AnnouncedNumbers
    ensures { result ≡ announced_shown announced }
{
    match announced {
        Announced::Absent => AnnouncedNumbers { kind: 0, total: 0 },
        Announced::Total(total) => AnnouncedNumbers { kind: 1, total },
        Announced::Malformed => AnnouncedNumbers { kind: 2, total: 0 },
    }
}

/// Reads what a transfer's list of items announces. The list is the `size` bytes from `start` on.
/// Returns `None` if these bytes are no list.
fn announced_in(bytes: &[u8], start: usize, size: u32) -> Option<Announced>
    requires { start ≤ length bytes.now }
    ensures { result ≡ announced_part (items_of Transfer size (drop start bytes.now)) }
{
    let mut items = Items::new();
    let mut at = start;
    let mut left = size;
    while left > 0 {
        if items.is_full() {
            return None;
        }
        match item_in(bytes, at, left, ListOf::Transfer) {
            Ok(found) => {
                at = found.value + usize::from(found.item.length);
                // Five bytes precede the value. The item ends in the list, so this never saturates.
                left = left.saturating_sub(5 + u32::from(found.item.length));
                items.push(found.item);
            }
            Err(_) => return None,
        }
    }
    Some(announced(&items))
}

/// Whether the message is an XFER_SEGMENT (kind 1) whose list of items lies in these bytes.
fn may_announce(bytes: &[u8], message: &Message) -> bool
    ensures { result ≡ may_announce (length bytes.now) message.now }
{
    message.kind == 1 && has_list_at(bytes, message, message.items_offset)
}

/// Reads the length that a segment announces, and returns `OK`.
///
/// Writes nothing and returns `RANGE` if [`may_announce`] is false, or if the bytes from
/// `message.items_offset` on are no list of items.
#[unsafe(no_mangle)]
pub extern "C" fn tcpclkit_raw_read_announced(
    bytes: &[u8],
    message: &Message,
    answer: &mut AnnouncedNumbers,
) -> u32
    ensures range { may_announce (length bytes.now) message.now ≡ false
        → (result ≡ status_range) × (answer.new ≡ answer.old) }
    ensures answer { may_announce (length bytes.now) message.now ≡ true
        → ReturnsAnnounced
        (announced_part (items_of Transfer message.now.items_length
        (drop message.now.items_offset bytes.now)))
        answer.old answer.new result }
{
    if !may_announce(bytes, message) {
        return RANGE;
    }
    let start = message.items_offset as usize;
    match announced_in(bytes, start, message.items_length as u32) {
        Some(found) => {
            *answer = announced_shown(found);
            OK
        }
        None => RANGE,
    }
}
