//! Exports about a recording that lies in one slice.

ghost use Rattle.std.specs.Prelude.{◌≡◌, ◌-◌, ◌<◌, true, false, length, drop};
ghost use Rattle.link_wire.specs.Message.{contact_at, message_at};
ghost use Rattle.link_ffi_numbers.specs.Recording.{ReturnsContact, ReturnsMessage, list_of, items_end, has_list_at, item_part, ReturnsItem};
ghost use Rattle.link_ffi_numbers.specs.Status.{status_end, status_range};

use link_ffi_numbers::fault::{Fault, wire_status};
use link_ffi_numbers::recording::{
    Contact, Item, Message, has_list_at, item_shown, list_left, no_item, nothing, shown,
};
use link_ffi_numbers::status::{END, OK, RANGE};
use link_wire::{contact_in, item_in, message_in};

/// Reads the contact header that the bytes begin with. Returns `OK`, `TRUNCATED` or `FAULT`.
#[unsafe(no_mangle)]
pub extern "C" fn tcpclkit_raw_read_contact(bytes: &[u8], answer: &mut Contact) -> u32
    ensures { ReturnsContact (contact_at bytes.now) answer.new result }
{
    match contact_in(bytes) {
        Ok((contact, _)) => {
            *answer = Contact {
                fault: Fault::none(),
                flags: u64::from(contact.flags),
            };
            OK
        }
        Err(fault) => {
            *answer = Contact {
                fault: Fault::of_wire(fault, 0),
                flags: 0,
            };
            wire_status(fault)
        }
    }
}

/// Reads the message that begins at an offset, and returns the status of what was read.
///
/// Writes nothing and returns `END` at the end of the bytes, or `RANGE` if the offset is past it.
#[unsafe(no_mangle)]
pub extern "C" fn tcpclkit_raw_read_message(bytes: &[u8], offset: u64, answer: &mut Message) -> u32
    ensures range { length bytes.now < offset
        → (result ≡ status_range) × (answer.new ≡ answer.old) }
    ensures ended { offset ≡ length bytes.now → (result ≡ status_end) × (answer.new ≡ answer.old) }
    ensures message { offset < length bytes.now
        → ReturnsMessage bytes.now offset (message_at (drop offset bytes.now)) answer.new result }
{
    let size = bytes.len();
    if offset > size as u64 {
        return RANGE;
    }
    if offset == size as u64 {
        return END;
    }
    match message_in(bytes, offset as usize) {
        Ok(found) => {
            let (message, status) = shown(&found, size, offset);
            *answer = message;
            status
        }
        Err(fault) => {
            *answer = Message {
                fault: Fault::of_wire(fault, offset),
                ..nothing()
            };
            wire_status(fault)
        }
    }
}

/// Reads the extension item at an offset of a message's list, and returns the status of what was
/// read.
///
/// Writes nothing and returns `END` at the end of the list, or `RANGE` if the bytes do not contain
/// the list or the offset is not in it.
#[unsafe(no_mangle)]
pub extern "C" fn tcpclkit_raw_read_item(
    bytes: &[u8],
    message: &Message,
    offset: u64,
    answer: &mut Item,
) -> u32
    ensures range { has_list_at (length bytes.now) message.now offset ≡ false
        → (result ≡ status_range) × (answer.new ≡ answer.old) }
    ensures ended { has_list_at (length bytes.now) message.now offset ≡ true
        → offset ≡ items_end message.now → (result ≡ status_end) × (answer.new ≡ answer.old) }
    ensures item { has_list_at (length bytes.now) message.now offset ≡ true
        → offset < items_end message.now
        → ReturnsItem (list_of message.now) bytes.now offset (items_end message.now - offset)
        (item_part (list_of message.now) (items_end message.now - offset) (drop offset bytes.now))
        answer.new result }
{
    if !has_list_at(bytes, message, offset) {
        return RANGE;
    }
    let (owner, left) = list_left(bytes, message, offset);
    if left == 0 {
        return END;
    }
    match item_in(bytes, offset as usize, left, owner) {
        Ok(found) => {
            *answer = item_shown(&found);
            OK
        }
        Err(fault) => {
            *answer = no_item(Fault::of_wire(fault, offset));
            wire_status(fault)
        }
    }
}
