//! The contact header, and the heads of messages (RFC 9174 sections 4.2 to 6.1).

ghost use Rattle.std.specs.Prelude.{◌≡◌, ◌≤◌, Some, [], length};
ghost use Rattle.link_wire.specs.Codes.{is_start};
ghost use Rattle.link_wire.specs.Spelling.{contact_bytes};
ghost use Rattle.link_wire_writer.specs.MessageBytes.{is_writable, message_of};
ghost use Rattle.link_wire_writer.specs.Pieces.{init_front, front_of, tail_of};
ghost use Rattle.link_writing.specs.Writes.{WritesIntoSlice};

use crate::codes::{
    KEEPALIVE, MSG_REJECT, SESS_INIT, SESS_TERM, XFER_ACK, XFER_REFUSE, XFER_SEGMENT,
};
use crate::items::are_items;
use arrayvec::ArrayVec;
use link_wire::{Fields, HeadBuf, ListOf, MAX_NODE_ID, START, put_contact};
use link_writing::{
    WriteFault, put_bytes, put_u8, put_u16, put_u32, put_u64, write_bytes, write_parts,
};

/// The greatest length of a message up to the items of its list: a SESS_INIT whose node ID has
/// 1,024 bytes.
const FRONT_MAX: usize = 1049;

/// The bytes of a message up to the items of its list.
type Front = ArrayVec<u8, FRONT_MAX>;

/// The bytes of a message after the items of its list.
type Tail = ArrayVec<u8, 8>;

/// Writes a contact header of version 4 to the start of the slice (RFC 9174 section 4.2), and
/// returns the number of its bytes, which is 6.
///
/// # Errors
///
/// The slice has fewer than 6 bytes.
pub fn write_contact(flags: u8, slice: &mut [u8]) -> Result<usize, WriteFault>
    ensures { WritesIntoSlice (Some (contact_bytes flags)) slice.old slice.new result }
{
    let mut header = HeadBuf::new();
    put_contact(&mut header, flags);
    write_bytes(header.as_slice(), slice)
}

/// Whether a segment with these flags has an extension list.
fn has_list(flags: u8) -> bool
    ensures { result ≡ is_start flags }
{
    flags & START == START
}

/// Whether a message with these fields may have this node ID and these items.
#[tactic(auto, unfolding(crate::specs::MessageBytes::is_writable))]
fn is_writable(fields: Fields, node: &[u8], items: &[u8]) -> bool
    ensures { result ≡ is_writable fields node.now items.now }
{
    match fields {
        Fields::SessInit { .. } => {
            node.len() <= MAX_NODE_ID && are_items(ListOf::Session, items)
        }
        Fields::Segment { flags, .. } if has_list(flags) => {
            node.is_empty() && are_items(ListOf::Transfer, items)
        }
        _ => node.is_empty() && items.is_empty(),
    }
}

/// Appends a SESS_INIT up to its items (RFC 9174 section 4.6). `list` is the number of bytes of the
/// items.
fn put_sess_init(
    front: &mut Front,
    keepalive: u16,
    segment_mru: u64,
    transfer_mru: u64,
    node: &[u8],
    list: u32,
)
    requires empty { front.old.items ≡ [] }
    requires short { length node.now ≤ 1024 }
    ensures { front.new.items ≡ init_front keepalive segment_mru transfer_mru node.now list }
{
    put_u8(front, SESS_INIT);
    put_u16(front, keepalive);
    put_u64(front, segment_mru);
    put_u64(front, transfer_mru);
    put_u16(front, node.len() as u16);
    put_bytes(front, node);
    put_u32(front, list);
}

/// Appends a message up to the items of its list. `list` is the number of bytes of the items.
///
/// A segment without a list is appended up to the length of its data. All of any other message
/// without a list is appended.
fn put_front(front: &mut Front, fields: Fields, node: &[u8], list: u32)
    requires empty { front.old.items ≡ [] }
    requires short { length node.now ≤ 1024 }
    ensures { front.new.items ≡ front_of fields node.now list }
{
    match fields {
        Fields::SessInit {
            keepalive,
            segment_mru,
            transfer_mru,
        } => put_sess_init(front, keepalive, segment_mru, transfer_mru, node, list),
        Fields::Segment { flags, id, .. } => {
            put_u8(front, XFER_SEGMENT);
            put_u8(front, flags);
            put_u64(front, id);
            if has_list(flags) {
                put_u32(front, list);
            }
        }
        Fields::Ack { flags, id, length } => {
            put_u8(front, XFER_ACK);
            put_u8(front, flags);
            put_u64(front, id);
            put_u64(front, length);
        }
        Fields::Refuse { reason, id } => {
            put_u8(front, XFER_REFUSE);
            put_u8(front, reason);
            put_u64(front, id);
        }
        Fields::Keepalive => put_u8(front, KEEPALIVE),
        Fields::SessTerm { flags, reason } => {
            put_u8(front, SESS_TERM);
            put_u8(front, flags);
            put_u8(front, reason);
        }
        Fields::MsgReject { reason, header } => {
            put_u8(front, MSG_REJECT);
            put_u8(front, reason);
            put_u8(front, header);
        }
    }
}

/// The bytes of a message after the items of its list. They are the length of a segment's data, and
/// other messages have none.
fn tail_of(fields: Fields) -> Tail
    ensures { result.items ≡ tail_of fields }
{
    let mut tail = Tail::new();
    if let Fields::Segment { length, .. } = fields {
        put_u64(&mut tail, length);
    }
    tail
}

/// Writes a message to the start of the slice, without the data of a segment, and returns the
/// number of bytes written.
///
/// `node` are the bytes of the node ID of a SESS_INIT. `items` are the items of the list of a
/// SESS_INIT, or of an XFER_SEGMENT with START, as [`write_item`](crate::write_item) writes them
/// one after another. A message that has no node ID, or no list, is written with an empty slice.
///
/// # Errors
///
/// The message has no node ID, and `node` is not empty. Or it has no list, and `items` is not
/// empty. Or the node ID has more than 1,024 bytes, or `items` more than 65,536. Or `items` are not
/// whole items, or more than 64. Or the slice is too small.
pub fn write_message(
    fields: Fields,
    node: &[u8],
    items: &[u8],
    slice: &mut [u8],
) -> Result<usize, WriteFault>
    ensures { WritesIntoSlice (message_of fields node.now items.now) slice.old slice.new result }
{
    if !is_writable(fields, node, items) {
        return Err(WriteFault::OutOfRange);
    }
    let mut front = Front::new();
    put_front(&mut front, fields, node, items.len() as u32);
    let tail = tail_of(fields);
    write_parts(front.as_slice(), items, tail.as_slice(), slice)
}
