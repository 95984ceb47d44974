//! A contact header, a message and an extension item as numbers.

ghost use Rattle.std.specs.Prelude.{◌≡◌, ◌^◌, ◌≤◌, ◌-◌, true, length};
ghost use Rattle.link_ffi_numbers.specs.Recording.{nothing, fields_shown, node_of, items_of, message_shown, data_status, list_of, items_end, has_list_at, no_item, item_shown};

use crate::fault::Fault;
use crate::status::{DATA_TRUNCATED, OK};
use link_wire::{Fields, ItemAt, ListOf, MAX_LIST_LENGTH, MessageAt, Span, WireFault};

/// `struct tcpclkit_contact`: a contact header, or its fault.
#[repr(C)]
#[derive(Clone, Copy, Debug, PartialEq, Eq)]
pub struct Contact {
    /// The fault, if there is one.
    pub fault: Fault,
    /// The flags.
    pub flags: u64,
}

/// `struct tcpclkit_message`: a message, or its fault.
#[repr(C)]
#[derive(Clone, Copy, Debug, PartialEq, Eq)]
pub struct Message {
    /// The fault, if there is one.
    pub fault: Fault,
    /// The type byte.
    pub kind: u64,
    /// The flags.
    pub flags: u64,
    /// The reason.
    pub reason: u64,
    /// The type byte of the message that a MSG_REJECT rejects.
    pub header: u64,
    /// The transfer ID.
    pub id: u64,
    /// The number of bytes that an XFER_ACK acknowledges.
    pub acknowledged: u64,
    /// The keepalive interval.
    pub keepalive: u64,
    /// The longest segment that the sender will receive.
    pub segment_mru: u64,
    /// The longest transfer that the sender will receive.
    pub transfer_mru: u64,
    /// The offset of the node ID.
    pub node_offset: u64,
    /// The length of the node ID.
    pub node_length: u64,
    /// The offset of the extension items.
    pub items_offset: u64,
    /// The length of the extension items.
    pub items_length: u64,
    /// The offset after the head.
    pub data_offset: u64,
    /// The length of a segment's data, by its head.
    pub data_length: u64,
    /// The number of the data's bytes that are there.
    pub data_seen: u64,
    /// The offset after the message and all of its data, which stops at `u64::MAX`.
    pub next: u64,
}

/// `struct tcpclkit_item`: an extension item, or its fault.
#[repr(C)]
#[derive(Clone, Copy, Debug, PartialEq, Eq)]
pub struct Item {
    /// The fault, if there is one.
    pub fault: Fault,
    /// The flags.
    pub flags: u64,
    /// The type.
    pub item_type: u64,
    /// The offset of the value.
    pub value_offset: u64,
    /// The length of the value.
    pub value_length: u64,
    /// 1 if the value is a total length, and else 0.
    pub has_total: u64,
    /// The total length.
    pub total: u64,
    /// The offset after the item.
    pub next: u64,
}

/// A message of no kind, whose numbers are 0.
pub fn nothing() -> Message
    ensures { result ≡ nothing }
{
    Message {
        fault: Fault::none(),
        kind: 0,
        flags: 0,
        reason: 0,
        header: 0,
        id: 0,
        acknowledged: 0,
        keepalive: 0,
        segment_mru: 0,
        transfer_mru: 0,
        node_offset: 0,
        node_length: 0,
        items_offset: 0,
        items_length: 0,
        data_offset: 0,
        data_length: 0,
        data_seen: 0,
        next: 0,
    }
}

/// A message of this kind with flags and a transfer ID.
fn of_transfer(kind: u64, flags: u8, id: u64) -> Message
    ensures { result ≡ record nothing { kind = kind; flags = flags; id = id } }
{
    Message {
        kind,
        flags: u64::from(flags),
        id,
        ..nothing()
    }
}

/// A message of this kind with a reason.
fn of_reason(kind: u64, reason: u8) -> Message
    ensures { result ≡ record nothing { kind = kind; reason = reason } }
{
    Message {
        kind,
        reason: u64::from(reason),
        ..nothing()
    }
}

/// The kind and the numbers of a message, without where its parts lie and how much data is there.
pub fn fields_shown(fields: Fields) -> Message
    ensures { result ≡ fields_shown fields }
{
    match fields {
        Fields::SessInit {
            keepalive,
            segment_mru,
            transfer_mru,
        } => Message {
            kind: 7,
            keepalive: u64::from(keepalive),
            segment_mru,
            transfer_mru,
            ..nothing()
        },
        Fields::Segment { flags, id, length } => Message {
            data_length: length,
            ..of_transfer(1, flags, id)
        },
        Fields::Ack { flags, id, length } => Message {
            acknowledged: length,
            ..of_transfer(2, flags, id)
        },
        Fields::Refuse { reason, id } => Message {
            id,
            ..of_reason(3, reason)
        },
        Fields::Keepalive => Message {
            kind: 4,
            ..nothing()
        },
        Fields::SessTerm { flags, reason } => Message {
            flags: u64::from(flags),
            ..of_reason(5, reason)
        },
        Fields::MsgReject { reason, header } => Message {
            header: u64::from(header),
            ..of_reason(6, reason)
        },
    }
}

/// Where a part lies that the message does not have.
const NOWHERE: Span = Span {
    offset: 0,
    length: 0,
};

/// Where the node ID of a message is, and where its extension items are. A part that the message
/// does not have is `NOWHERE`.
fn places_of(found: &MessageAt) -> (Span, Span)
    ensures node { result.0 ≡ node_of found.now.fields found.now.node }
    ensures items { result.1 ≡ items_of found.now.fields found.now.items }
{
    match found.fields {
        Fields::SessInit { .. } => (found.node, found.items),
        Fields::Segment { .. } => (NOWHERE, found.items),
        _ => (NOWHERE, NOWHERE),
    }
}

/// The message at `offset` among `size` bytes as numbers, and the status.
///
/// The status is `OK`. If the bytes end inside the data, it is `DATA_TRUNCATED`, and the message
/// has the fault `Truncated`.
pub fn shown(found: &MessageAt, size: usize, offset: u64) -> (Message, u32)
    requires { found.now.end ≤ size }
    ensures message { result.0 ≡ message_shown size offset found.now }
    ensures status { result.1 ≡ data_status size found.now }
{
    let fields = fields_shown(found.fields);
    let (node, items) = places_of(found);
    let there = (size - found.end) as u64;
    let placed = Message {
        node_offset: node.offset as u64,
        node_length: node.length as u64,
        items_offset: items.offset as u64,
        items_length: items.length as u64,
        data_offset: found.end as u64,
        data_seen: fields.data_length.min(there),
        next: (found.end as u64).saturating_add(fields.data_length),
        ..fields
    };
    if fields.data_length <= there {
        (placed, OK)
    } else {
        let fault = Fault::of_wire(WireFault::Truncated, offset);
        (Message { fault, ..placed }, DATA_TRUNCATED)
    }
}

/// Whether the message has a list of extension items in these bytes, and the offset is in the list
/// or at its end. Only a SESS_INIT (kind 7) and a segment (kind 1) have a list.
pub fn has_list_at(bytes: &[u8], message: &Message, offset: u64) -> bool
    ensures { result ≡ has_list_at (length bytes.now) message.now offset }
{
    let end = message.items_offset.saturating_add(message.items_length);
    (message.kind == 7 || message.kind == 1)
        && message.items_length <= u64::from(MAX_LIST_LENGTH)
        && end <= bytes.len() as u64
        && message.items_offset <= offset
        && offset <= end
}

/// Which list the extension items of a message form, and how many bytes of the list come after the
/// offset.
pub fn list_left(bytes: &[u8], message: &Message, offset: u64) -> (ListOf, u32)
    requires { has_list_at (length bytes.now) message.now offset ≡ true }
    ensures owner { result.0 ≡ list_of message.now }
    ensures left { result.1 ≡ items_end message.now - offset }
{
    let owner = if message.kind == 7 {
        ListOf::Session
    } else {
        ListOf::Transfer
    };
    let end = message.items_offset + message.items_length;
    (owner, (end - offset) as u32)
}

/// A fault in place of an item; each field of the item is 0.
pub fn no_item(fault: Fault) -> Item
    ensures { result ≡ no_item fault }
{
    Item {
        fault,
        flags: 0,
        item_type: 0,
        value_offset: 0,
        value_length: 0,
        has_total: 0,
        total: 0,
        next: 0,
    }
}

/// An item as numbers.
pub fn item_shown(found: &ItemAt) -> Item
    requires { found.now.value ≤ 2 ^ 63 }
    ensures { result ≡ item_shown found.now }
{
    let item = &found.item;
    let (has_total, total) = match item.total {
        None => (0, 0),
        Some(total) => (1, total),
    };
    Item {
        fault: Fault::none(),
        flags: u64::from(item.flags),
        item_type: u64::from(item.kind),
        value_offset: found.value as u64,
        value_length: u64::from(item.length),
        has_total,
        total,
        next: found.value as u64 + u64::from(item.length),
    }
}
