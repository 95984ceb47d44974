//! Appending a contact header and heads of messages to a buffer, as bytes (RFC 9174).

ghost use Rattle.std.specs.Prelude.{◌≡◌, ◌+◌, ◌^◌, ◌<◌, ◌≤◌, ◌++◌, length, IfSome, IsSome, IsTrue};
ghost use Rattle.link_io.specs.Bytes.{AreBytes};
ghost use Rattle.arrayvec.specs.ArrayVec.{array_vec_len};
ghost use Rattle.link_wire.specs.Codes.{is_start};
ghost use Rattle.link_wire.specs.Spelled.{ContactSpelled, HeadSpelled};
ghost use Rattle.link_wire.specs.Spelling.{contact_bytes, sess_init_bytes, total_bytes, announce_bytes, segment_head_bytes, sess_term_bytes, announce_size, segment_head_size, segment_with, sess_init_with};
ghost use Rattle.link_writing.specs.Numbers.{be};

use crate::codes::{
    ITEM_HEAD, MAGIC, SESS_INIT, SESS_TERM, START, TOTAL_SIZE, TRANSFER_LENGTH, VERSION,
    XFER_SEGMENT,
};
use crate::message::Message;
use arrayvec::ArrayVec;
use link_tool_option_types::NodeId;
use link_writing::{put_bytes, put_u8, put_u16, put_u32, put_u64};

/// The size of a [`HeadBuf`], in bytes: the longest SESS_INIT that is written has 1,049.
pub const HEAD_MAX: usize = 2048;

/// A buffer for the bytes of a contact header and of heads.
pub type HeadBuf = ArrayVec<u8, HEAD_MAX>;

/// Appends a contact header of six bytes (RFC 9174 section 4.2).
///
/// The buffer has room for it.
#[tactic(auto, unfolding(crate::specs::Spelling::contact_bytes))]
pub fn put_contact(buffer: &mut HeadBuf, flags: u8)
    requires { array_vec_len buffer.old + 6 ≤ HEAD_MAX }
    ensures items { buffer.new.items ≡ buffer.old.items ++ contact_bytes flags }
    ensures len { array_vec_len buffer.new ≡ array_vec_len buffer.old + 6 }
    ensures spelled { ContactSpelled (record { flags = flags }) (contact_bytes flags) }
{
    put_u32(buffer, MAGIC);
    put_bytes(buffer, &[VERSION, flags]);
}

/// Appends a node ID: its length, and its bytes.
fn put_node(buffer: &mut HeadBuf, node: &[u8])
    requires { array_vec_len buffer.old + 2 + length node.now ≤ HEAD_MAX }
    ensures items { buffer.new.items ≡ buffer.old.items ++ (be 2 (length node.now) ++ node.now) }
    ensures len { array_vec_len buffer.new ≡ array_vec_len buffer.old + 2 + length node.now }
    ensures bytes { AreBytes node.now }
{
    put_u16(buffer, node.len() as u16);
    put_bytes(buffer, node);
}

/// Appends the type byte and the keepalive interval of a SESS_INIT.
fn put_keepalive(buffer: &mut HeadBuf, keepalive: u16)
    requires { array_vec_len buffer.old + 3 ≤ HEAD_MAX }
    ensures items { buffer.new.items ≡ buffer.old.items ++ (be 1 SESS_INIT ++ be 2 keepalive) }
    ensures len { array_vec_len buffer.new ≡ array_vec_len buffer.old + 3 }
{
    put_u8(buffer, SESS_INIT);
    put_u16(buffer, keepalive);
}

/// Appends the segment MRU and the transfer MRU of a SESS_INIT.
fn put_mrus(buffer: &mut HeadBuf, segment_mru: u64, transfer_mru: u64)
    requires { array_vec_len buffer.old + 16 ≤ HEAD_MAX }
    ensures items { buffer.new.items ≡ buffer.old.items ++ (be 8 segment_mru ++ be 8 transfer_mru) }
    ensures len { array_vec_len buffer.new ≡ array_vec_len buffer.old + 16 }
{
    put_u64(buffer, segment_mru);
    put_u64(buffer, transfer_mru);
}

/// Appends a SESS_INIT with no extension items (RFC 9174 section 4.6).
///
/// The keepalive interval is in seconds. The longest segment and the longest transfer are in bytes.
/// The buffer has room for the message: 25 bytes, and those of the node ID.
#[tactic(auto, unfolding(crate::specs::Spelling::sess_init_bytes))]
pub fn put_sess_init(
    buffer: &mut HeadBuf,
    keepalive: u16,
    segment_mru: u64,
    transfer_mru: u64,
    node: &NodeId,
)
    requires { array_vec_len buffer.old + 25 + array_vec_len node.now ≤ HEAD_MAX }
    ensures items { buffer.new.items ≡ buffer.old.items
        ++ sess_init_bytes keepalive segment_mru transfer_mru node.now.items }
    ensures len { array_vec_len buffer.new
        ≡ array_vec_len buffer.old + 25 + array_vec_len node.now }
    ensures spelled { HeadSpelled (sess_init_with keepalive segment_mru transfer_mru node.now.items)
        (sess_init_bytes keepalive segment_mru transfer_mru node.now.items) }
{
    put_keepalive(buffer, keepalive);
    put_mrus(buffer, segment_mru, transfer_mru);
    put_node(buffer, node.as_slice());
    put_u32(buffer, 0);
}

/// Appends a Transfer Length item without flags (RFC 9174 section 5.2.5.1).
#[tactic(auto, unfolding(crate::specs::Spelling::total_bytes))]
fn put_total(buffer: &mut HeadBuf, total: u64)
    requires { array_vec_len buffer.old + 13 ≤ HEAD_MAX }
    ensures items { buffer.new.items ≡ buffer.old.items ++ total_bytes total }
    ensures len { array_vec_len buffer.new ≡ array_vec_len buffer.old + 13 }
    ensures fits { total < 2 ^ 64 }
{
    put_u8(buffer, 0);
    put_u16(buffer, TRANSFER_LENGTH);
    put_u16(buffer, TOTAL_SIZE);
    put_u64(buffer, total);
}

/// Appends the extension list of a first segment.
///
/// It is empty, or it has the one item that announces the total.
#[tactic(auto, unfolding(crate::specs::Spelling::announce_bytes))]
fn put_announce(buffer: &mut HeadBuf, announce: Option<u64>)
    requires { array_vec_len buffer.old + announce_size announce ≤ HEAD_MAX }
    ensures items { buffer.new.items ≡ buffer.old.items ++ announce_bytes announce }
    ensures len { array_vec_len buffer.new ≡ array_vec_len buffer.old + announce_size announce }
    ensures fits { IfSome announce (λ total. total < 2 ^ 64) }
{
    match announce {
        None => put_u32(buffer, 0),
        Some(total) => {
            put_u32(buffer, ITEM_HEAD + u32::from(TOTAL_SIZE));
            put_total(buffer, total);
        }
    }
}

/// Appends the type byte, the flags and the transfer ID of a segment.
fn put_segment(buffer: &mut HeadBuf, flags: u8, id: u64)
    requires { array_vec_len buffer.old + 10 ≤ HEAD_MAX }
    ensures items { buffer.new.items ≡ buffer.old.items ++ (be 1 XFER_SEGMENT ++ be 1 flags
        ++ be 8 id) }
    ensures len { array_vec_len buffer.new ≡ array_vec_len buffer.old + 10 }
{
    put_u8(buffer, XFER_SEGMENT);
    put_u8(buffer, flags);
    put_u64(buffer, id);
}

/// Appends the head of an XFER_SEGMENT (RFC 9174 section 5.2.2).
///
/// `length` is the length of the data in bytes. With START the segment has an extension list, which
/// is empty or announces the transfer's total length in bytes (section 5.2.5.1). Only a segment
/// with START may announce it. The buffer has room for the head: 18 bytes without START, 22 with an
/// empty list, 35 with the item.
#[tactic(auto, unfolding(crate::specs::Spelling::segment_head_bytes), using(crate::proofs::Spellings::segment_spelled, crate::proofs::Spellings::none_fits))]
pub fn put_segment_head(
    buffer: &mut HeadBuf,
    flags: u8,
    id: u64,
    length: u64,
    announce: Option<u64>,
)
    requires start { IsSome announce → IsTrue (is_start flags) }
    requires room { array_vec_len buffer.old + segment_head_size flags announce ≤ HEAD_MAX }
    ensures items { buffer.new.items ≡ buffer.old.items
        ++ segment_head_bytes flags id length announce }
    ensures len { array_vec_len buffer.new ≡ array_vec_len buffer.old
        + segment_head_size flags announce }
    ensures spelled { HeadSpelled (segment_with flags id length announce)
        (segment_head_bytes flags id length announce) }
{
    put_segment(buffer, flags, id);
    if flags & START == START {
        put_announce(buffer, announce);
    }
    put_u64(buffer, length);
}

/// Appends a SESS_TERM of three bytes (RFC 9174 section 6.1).
///
/// The buffer has room for it.
#[tactic(auto, unfolding(crate::specs::Spelling::sess_term_bytes))]
pub fn put_sess_term(buffer: &mut HeadBuf, flags: u8, reason: u8)
    requires { array_vec_len buffer.old + 3 ≤ HEAD_MAX }
    ensures items { buffer.new.items ≡ buffer.old.items ++ sess_term_bytes flags reason }
    ensures len { array_vec_len buffer.new ≡ array_vec_len buffer.old + 3 }
    ensures spelled { HeadSpelled (Message.SessTerm flags reason) (sess_term_bytes flags reason) }
{
    put_u8(buffer, SESS_TERM);
    put_u8(buffer, flags);
    put_u8(buffer, reason);
}
