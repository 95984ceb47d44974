//! Reading a contact header and messages where they lie, in a slice (RFC 9174 sections 4.2 to 6.1).
//!
//! Each function has the name of its definition in specs/Message.antt. It reads at an offset, and
//! returns what it has read, and the offset after it. Nothing is copied: node IDs and extension
//! lists are shown by where they lie.

ghost use Rattle.std.specs.Prelude.{◌≡◌, ℕ, ◌+◌, ◌≤◌, List, [], length, take, drop, IfOk, IfErr, Ok, Err};
ghost use Rattle.link_wire.specs.Part.{Part, bytes_at, number_at};
ghost use Rattle.link_wire.specs.MessageBuffer.{message_with};
ghost use Rattle.link_wire.specs.Message.{is_total_length, contact_at, node_at, total_at, item_head_at, items_of, list_at, segment_at, ack_at, refuse_at, sess_term_at, msg_reject_at, sess_init_at, fields_at, message_at};
ghost use Rattle.link_wire.specs.InSlice.{read_part, read_node, read_head, LocatesItem, LocatesItemsEnd, MessageItemsLie, SpansFit, MessageLies, LocatesList, LocatesMessageInSlice};

use crate::codes::{
    ITEM_HEAD, KEEPALIVE, MAGIC, MSG_REJECT, SESS_INIT, SESS_TERM, START, TOTAL_SIZE,
    TRANSFER_LENGTH, VERSION, XFER_ACK, XFER_REFUSE, XFER_SEGMENT,
};
use crate::fault::WireFault;
use crate::message::{Contact, Fields, Item, ListOf, MAX_ITEMS, MAX_LIST_LENGTH, Message};
use byteorder::{BigEndian, ByteOrder};
use link_tool_option_types::MAX_NODE_ID;

/// Where some bytes of a slice lie.
#[derive(Clone, Copy, Debug, PartialEq, Eq)]
pub struct Span {
    /// The offset of the first byte.
    pub offset: usize,
    /// The number of bytes.
    pub length: usize,
}

/// A message that was read where it lies.
#[derive(Clone, Copy, Debug, PartialEq, Eq)]
pub struct MessageAt {
    /// The numbers of the message.
    pub fields: Fields,
    /// The bytes of the node ID of a SESS_INIT; of other messages none.
    pub node: Span,
    /// The extension items of a SESS_INIT or of a segment with START; of other messages none.
    pub items: Span,
    /// The offset after the head, where the data of a segment begins.
    pub end: usize,
}

/// An extension item that was read where it lies.
#[derive(Clone, Copy, Debug, PartialEq, Eq)]
pub struct ItemAt {
    /// The item.
    pub item: Item,
    /// The offset of its value, which has the length that the item says.
    pub value: usize,
}

/// No bytes.
const NOWHERE: Span = Span {
    offset: 0,
    length: 0,
};

/// Reads `size` bytes from offset `at` on. Returns them, and the offset after them.
#[tactic(auto, unfolding(crate::specs::Part::bytes_at))]
fn bytes_at(bytes: &[u8], at: usize, size: usize) -> Result<(&[u8], usize), WireFault>
    requires { at ≤ length bytes.now }
    ensures read { IfOk result (λ read. bytes_at size (drop at bytes.now)
        ≡ Ok (read.0.now, drop read.1 bytes.now)) }
    ensures fault { IfErr result (λ fault. bytes_at size (drop at bytes.now) ≡ Err fault) }
    ensures bytes { IfOk result (λ read. read.0.now ≡ take size (drop at bytes.now)) }
    ensures size { IfOk result (λ read. length read.0.now ≡ size) }
    ensures next { IfOk result (λ read. read.1 ≡ at + size) }
    ensures within { IfOk result (λ read. read.1 ≤ length bytes.now) }
{
    if bytes.len() - at < size {
        return Err(WireFault::Truncated);
    }
    let next = at + size;
    Ok((&bytes[at..next], next))
}

/// Reads a number of one byte at offset `at`. Returns it, and the offset after it.
#[tactic(auto, unfolding(crate::specs::Part::number_at), using(crate::proofs::SliceReads::as_byte))]
fn number8_at(bytes: &[u8], at: usize) -> Result<(u8, usize), WireFault>
    requires { at ≤ length bytes.now }
    ensures read { number_at 1 (drop at bytes.now) ≡ read_part bytes.now result }
    ensures next { IfOk result (λ read. read.1 ≡ at + 1) }
    ensures within { IfOk result (λ read. read.1 ≤ length bytes.now) }
{
    match bytes_at(bytes, at, 1) {
        Ok((field, next)) => Ok((field[0], next)),
        Err(fault) => Err(fault),
    }
}

/// Reads a number of two bytes at offset `at`. Returns it, and the offset after it.
#[tactic(auto, unfolding(crate::specs::Part::number_at))]
fn number16_at(bytes: &[u8], at: usize) -> Result<(u16, usize), WireFault>
    requires { at ≤ length bytes.now }
    ensures read { number_at 2 (drop at bytes.now) ≡ read_part bytes.now result }
    ensures next { IfOk result (λ read. read.1 ≡ at + 2) }
    ensures within { IfOk result (λ read. read.1 ≤ length bytes.now) }
{
    match bytes_at(bytes, at, 2) {
        Ok((field, next)) => Ok((BigEndian::read_u16(field), next)),
        Err(fault) => Err(fault),
    }
}

/// Reads a number of four bytes at offset `at`. Returns it, and the offset after it.
#[tactic(auto, unfolding(crate::specs::Part::number_at))]
fn number32_at(bytes: &[u8], at: usize) -> Result<(u32, usize), WireFault>
    requires { at ≤ length bytes.now }
    ensures read { number_at 4 (drop at bytes.now) ≡ read_part bytes.now result }
    ensures next { IfOk result (λ read. read.1 ≡ at + 4) }
    ensures within { IfOk result (λ read. read.1 ≤ length bytes.now) }
{
    match bytes_at(bytes, at, 4) {
        Ok((field, next)) => Ok((BigEndian::read_u32(field), next)),
        Err(fault) => Err(fault),
    }
}

/// Reads a number of eight bytes at offset `at`. Returns it, and the offset after it.
#[tactic(auto, unfolding(crate::specs::Part::number_at))]
fn number64_at(bytes: &[u8], at: usize) -> Result<(u64, usize), WireFault>
    requires { at ≤ length bytes.now }
    ensures read { number_at 8 (drop at bytes.now) ≡ read_part bytes.now result }
    ensures next { IfOk result (λ read. read.1 ≡ at + 8) }
    ensures within { IfOk result (λ read. read.1 ≤ length bytes.now) }
{
    match bytes_at(bytes, at, 8) {
        Ok((field, next)) => Ok((BigEndian::read_u64(field), next)),
        Err(fault) => Err(fault),
    }
}

/// Reads the contact header that the bytes begin with (RFC 9174 section 4.2). Returns it, and the
/// offset after it.
#[tactic(auto, unfolding(crate::specs::Message::contact_at))]
pub fn contact_in(bytes: &[u8]) -> Result<(Contact, usize), WireFault>
    ensures { contact_at bytes.now ≡ read_part bytes.now result }
{
    let (header, next) = bytes_at(bytes, 0, 6)?;
    if BigEndian::read_u32(header) != MAGIC {
        return Err(WireFault::BadMagic);
    }
    if header[4] != VERSION {
        return Err(WireFault::BadVersion(header[4]));
    }
    Ok((Contact { flags: header[5] }, next))
}

/// A message with these numbers, without node ID and items, whose head ends at `end`. By `lies`, it
/// is the right result for any `bytes` and `part` that read as this message.
fn plain_at(fields: Fields, end: usize) -> MessageAt
    ensures is { result ≡ record {
      fields = fields;
      node = record { offset = 0; length = 0 };
      items = record { offset = 0; length = 0 };
      end = end;
    } }
    ensures lies { (bytes : List ℕ) (part : Part Message)
        → part ≡ Ok (
          message_with fields (record { items = [] }) (record { items = [] }),
          drop end bytes,
        )
        → MessageItemsLie fields bytes result.items (record { items = [] })
        → SpansFit fields result.node result.items end → end ≤ length bytes
        → MessageLies bytes part result }
{
    MessageAt {
        fields,
        node: NOWHERE,
        items: NOWHERE,
        end,
    }
}

/// Reads a node ID: its length, and then its bytes (RFC 9174 section 4.6). Returns where its bytes
/// lie, and the offset after them.
#[tactic(auto, unfolding(crate::specs::Message::node_at, crate::specs::Message::node_bytes_at))]
fn node_at(bytes: &[u8], at: usize) -> Result<(Span, usize), WireFault>
    requires { at ≤ length bytes.now }
    ensures read { node_at (drop at bytes.now) ≡ read_node bytes.now result }
    ensures ends { IfOk result (λ read. read.0.offset + read.0.length ≡ read.1) }
    ensures within { IfOk result (λ read. read.1 ≤ length bytes.now) }
{
    let (length, at) = number16_at(bytes, at)?;
    if usize::from(length) > MAX_NODE_ID {
        return Err(WireFault::NodeIdTooLong(length));
    }
    let (_, next) = bytes_at(bytes, at, usize::from(length))?;
    let node = Span {
        offset: at,
        length: usize::from(length),
    };
    Ok((node, next))
}

/// Reads the head of the next item of a list that has `left` more bytes.
///
/// The item has to end within the list. Its total is not read yet. Returns the item, and the offset
/// of its value.
#[tactic(auto, unfolding(crate::specs::Message::item_head_at))]
fn item_head_at(bytes: &[u8], at: usize, left: u32) -> Result<(Item, usize), WireFault>
    requires { at ≤ length bytes.now }
    ensures read { item_head_at left (drop at bytes.now) ≡ read_head bytes.now result }
    ensures fits { IfOk result (λ read. 5 + read.0.length ≤ left) }
    ensures next { IfOk result (λ read. read.1 ≡ at + 5) }
    ensures within { IfOk result (λ read. read.1 ≤ length bytes.now) }
{
    if left < ITEM_HEAD {
        return Err(WireFault::ItemsOverrun);
    }
    let (flags, at) = number8_at(bytes, at)?;
    let (kind, at) = number16_at(bytes, at)?;
    let (length, value) = number16_at(bytes, at)?;
    if u32::from(length) > left - ITEM_HEAD {
        return Err(WireFault::ItemsOverrun);
    }
    let item = Item {
        flags,
        kind,
        length,
        total: None,
    };
    Ok((item, value))
}

/// Whether the value of an item is a total length: it is a Transfer Length item of 8 bytes in the
/// list of a transfer.
fn is_total_length(owner: ListOf, item: &Item) -> bool
    ensures { result ≡ is_total_length owner item.now.kind item.now.length }
{
    match owner {
        ListOf::Session => false,
        ListOf::Transfer => item.kind == TRANSFER_LENGTH && item.length == TOTAL_SIZE,
    }
}

/// Reads the value of an item. Returns the total if the value is a total length, and `None` if it
/// is not. Also returns the offset after the value.
#[tactic(auto, unfolding(crate::specs::Message::total_at, crate::specs::Message::skipped_at))]
fn total_at(
    bytes: &[u8],
    at: usize,
    owner: ListOf,
    item: &Item,
) -> Result<(Option<u64>, usize), WireFault>
    requires { at ≤ length bytes.now }
    ensures read { total_at owner item.now.kind item.now.length (drop at bytes.now)
        ≡ read_part bytes.now result }
    ensures next { IfOk result (λ read. read.1 ≡ at + item.now.length) }
    ensures within { IfOk result (λ read. read.1 ≤ length bytes.now) }
{
    if is_total_length(owner, item) {
        let (total, next) = number64_at(bytes, at)?;
        Ok((Some(total), next))
    } else {
        let (_, next) = bytes_at(bytes, at, usize::from(item.length))?;
        Ok((None, next))
    }
}

/// Reads the next item of a list that has `left` more bytes (RFC 9174 section 4.8).
pub fn item_in(bytes: &[u8], offset: usize, left: u32, owner: ListOf) -> Result<ItemAt, WireFault>
    requires { offset ≤ length bytes.now }
    ensures { LocatesItem owner bytes.now left offset result }
{
    let (item, value) = item_head_at(bytes, offset, left)?;
    let (total, _) = total_at(bytes, value, owner, &item)?;
    Ok(ItemAt {
        item: Item { total, ..item },
        value,
    })
}

/// Reads the items of a list of `size` bytes, and returns the offset after them.
///
/// The items are only checked: nothing of them is kept, not even the total of a transfer's item.
fn items_of(bytes: &[u8], start: usize, owner: ListOf, size: u32) -> Result<usize, WireFault>
    requires { start ≤ length bytes.now }
    ensures { LocatesItemsEnd bytes.now (start + size)
        (items_of owner size (drop start bytes.now)) result }
{
    let mut at = start;
    let mut left = size;
    let mut room = MAX_ITEMS;
    while left > 0 {
        let (item, value) = item_head_at(bytes, at, left)?;
        if room == 0 {
            return Err(WireFault::TooManyItems);
        }
        let (_, next) = total_at(bytes, value, owner, &item)?;
        at = next;
        // `item_head_at` refuses an item that ends after the list, so this cannot underflow.
        left -= ITEM_HEAD + u32::from(item.length);
        room -= 1;
    }
    Ok(at)
}

/// Reads an extension list: its length, and then its items (RFC 9174 sections 4.6 and 4.8). Returns
/// where its items lie, and the offset after them.
#[tactic(auto, unfolding(crate::specs::Message::list_at))]
fn list_at(bytes: &[u8], at: usize, owner: ListOf) -> Result<(Span, usize), WireFault>
    requires { at ≤ length bytes.now }
    ensures read { LocatesList owner bytes.now (list_at owner (drop at bytes.now)) result }
    ensures begins { IfOk result (λ read. read.0.offset ≡ at + 4) }
    ensures within { IfOk result (λ read. read.1 ≤ length bytes.now) }
{
    let (length, offset) = number32_at(bytes, at)?;
    if length > MAX_LIST_LENGTH {
        return Err(WireFault::ListTooLong(length));
    }
    let next = items_of(bytes, offset, owner, length)?;
    let items = Span {
        offset,
        length: length as usize,
    };
    Ok((items, next))
}

/// Reads an XFER_SEGMENT after its type byte, without its data (RFC 9174 section 5.2.2).
#[tactic(auto, unfolding(crate::specs::Message::segment_at, crate::specs::Message::segment_items_at))]
fn segment_at(bytes: &[u8], at: usize) -> Result<MessageAt, WireFault>
    requires { at ≤ length bytes.now }
    ensures { LocatesMessageInSlice bytes.now (segment_at (drop at bytes.now)) result }
{
    let (flags, at) = number8_at(bytes, at)?;
    let (id, at) = number64_at(bytes, at)?;
    if flags & START != START {
        let (length, end) = number64_at(bytes, at)?;
        return Ok(plain_at(Fields::Segment { flags, id, length }, end));
    }
    let (items, at) = list_at(bytes, at, ListOf::Transfer)?;
    let (length, end) = number64_at(bytes, at)?;
    Ok(MessageAt {
        fields: Fields::Segment { flags, id, length },
        node: NOWHERE,
        items,
        end,
    })
}

/// Reads an XFER_ACK after its type byte (RFC 9174 section 5.2.3).
#[tactic(auto, unfolding(crate::specs::Message::ack_at))]
fn ack_at(bytes: &[u8], at: usize) -> Result<MessageAt, WireFault>
    requires { at ≤ length bytes.now }
    ensures { LocatesMessageInSlice bytes.now (ack_at (drop at bytes.now)) result }
{
    let (flags, at) = number8_at(bytes, at)?;
    let (id, at) = number64_at(bytes, at)?;
    let (length, end) = number64_at(bytes, at)?;
    Ok(plain_at(Fields::Ack { flags, id, length }, end))
}

/// Reads an XFER_REFUSE after its type byte (RFC 9174 section 5.2.4).
#[tactic(auto, unfolding(crate::specs::Message::refuse_at))]
fn refuse_at(bytes: &[u8], at: usize) -> Result<MessageAt, WireFault>
    requires { at ≤ length bytes.now }
    ensures { LocatesMessageInSlice bytes.now (refuse_at (drop at bytes.now)) result }
{
    let (reason, at) = number8_at(bytes, at)?;
    let (id, end) = number64_at(bytes, at)?;
    Ok(plain_at(Fields::Refuse { reason, id }, end))
}

/// Reads a SESS_TERM after its type byte (RFC 9174 section 6.1).
#[tactic(auto, unfolding(crate::specs::Message::sess_term_at))]
fn sess_term_at(bytes: &[u8], at: usize) -> Result<MessageAt, WireFault>
    requires { at ≤ length bytes.now }
    ensures { LocatesMessageInSlice bytes.now (sess_term_at (drop at bytes.now)) result }
{
    let (flags, at) = number8_at(bytes, at)?;
    let (reason, end) = number8_at(bytes, at)?;
    Ok(plain_at(Fields::SessTerm { flags, reason }, end))
}

/// Reads a MSG_REJECT after its type byte (RFC 9174 section 5.1.2).
#[tactic(auto, unfolding(crate::specs::Message::msg_reject_at))]
fn msg_reject_at(bytes: &[u8], at: usize) -> Result<MessageAt, WireFault>
    requires { at ≤ length bytes.now }
    ensures { LocatesMessageInSlice bytes.now (msg_reject_at (drop at bytes.now)) result }
{
    let (reason, at) = number8_at(bytes, at)?;
    let (header, end) = number8_at(bytes, at)?;
    Ok(plain_at(Fields::MsgReject { reason, header }, end))
}

/// Reads a SESS_INIT after its type byte (RFC 9174 section 4.6).
#[tactic(auto, unfolding(crate::specs::Message::sess_init_at))]
fn sess_init_at(bytes: &[u8], at: usize) -> Result<MessageAt, WireFault>
    requires { at ≤ length bytes.now }
    ensures { LocatesMessageInSlice bytes.now (sess_init_at (drop at bytes.now)) result }
{
    let (keepalive, at) = number16_at(bytes, at)?;
    let (segment_mru, at) = number64_at(bytes, at)?;
    let (transfer_mru, at) = number64_at(bytes, at)?;
    let (node, at) = node_at(bytes, at)?;
    let (items, end) = list_at(bytes, at, ListOf::Session)?;
    let fields = Fields::SessInit {
        keepalive,
        segment_mru,
        transfer_mru,
    };
    Ok(MessageAt {
        fields,
        node,
        items,
        end,
    })
}

/// Reads a message after its type byte `kind`, without the data of a segment.
#[tactic(auto, unfolding(crate::specs::Message::fields_at))]
fn fields_at(bytes: &[u8], at: usize, kind: u8) -> Result<MessageAt, WireFault>
    requires { at ≤ length bytes.now }
    ensures { LocatesMessageInSlice bytes.now (fields_at kind (drop at bytes.now)) result }
{
    match kind {
        XFER_SEGMENT => segment_at(bytes, at),
        XFER_ACK => ack_at(bytes, at),
        XFER_REFUSE => refuse_at(bytes, at),
        KEEPALIVE => Ok(plain_at(Fields::Keepalive, at)),
        SESS_TERM => sess_term_at(bytes, at),
        MSG_REJECT => msg_reject_at(bytes, at),
        SESS_INIT => sess_init_at(bytes, at),
        _ => Err(WireFault::UnknownType(kind)),
    }
}

/// Reads the message that begins at an offset, without the data of a segment.
///
/// RFC 9174 section 4.5 lists the types of messages.
#[tactic(auto, unfolding(crate::specs::Message::message_at))]
pub fn message_in(bytes: &[u8], offset: usize) -> Result<MessageAt, WireFault>
    requires { offset ≤ length bytes.now }
    ensures { LocatesMessageInSlice bytes.now (message_at (drop offset bytes.now)) result }
{
    let (kind, at) = number8_at(bytes, offset)?;
    fields_at(bytes, at, kind)
}
