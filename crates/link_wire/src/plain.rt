//! Reading frequent heads of messages in place, in a window (RFC 9174 sections 5.1 to 6.1).
//!
//! All else is read field by field: lists with items, SESS_INIT, faults, and heads at the window's
//! edge.

ghost use Rattle.std.specs.Prelude.{◌≡◌, ◌<◌, ◌≤◌, length, slice_index, slice_range, IfSome};
ghost use Rattle.byteorder.specs.Endian.{big_number};
ghost use Rattle.link_wire.specs.Plain.{HasPlainHead};

use crate::codes::{KEEPALIVE, MSG_REJECT, SESS_TERM, START, XFER_ACK, XFER_REFUSE, XFER_SEGMENT};
use crate::message::Fields;
use byteorder::{BigEndian, ByteOrder};

/// The length of an XFER_ACK, and of the head of an XFER_SEGMENT without START.
///
/// Both have a type, flags, a transfer ID and a length.
pub const PLAIN_HEAD: usize = 18;

/// The ID and the length of the XFER_ACK, or XFER_SEGMENT without START, that begins the window.
#[inline(always)]
pub fn id_and_length(window: &[u8]) -> (u64, u64)
    requires { PLAIN_HEAD ≤ length window.now }
    ensures id { result.0 ≡ big_number 8 (slice_range window.now 2 10) }
    ensures size { result.1 ≡ big_number 8 (slice_range window.now 10 18) }
{
    let id = BigEndian::read_u64(&window[2..10]);
    let length = BigEndian::read_u64(&window[10..PLAIN_HEAD]);
    (id, length)
}

/// [`plain`] for an XFER_SEGMENT: type, flags, ID, with START an empty list, and the data's length.
/// `None` if the head is not whole in the window, or its list is not empty.
///
/// An empty list has four bytes, so the head has 22 bytes with START.
#[tactic(auto, using(crate::proofs::Plains::first_head, crate::proofs::Plains::later_head))]
#[inline(always)]
fn segment(window: &[u8]) -> Option<(Fields, usize)>
    requires { slice_index window.now 0 ≡ XFER_SEGMENT }
    ensures { IfSome result (λ head. HasPlainHead window.now head.0 head.1) }
{
    if window.len() < PLAIN_HEAD {
        return None;
    }
    let flags = window[1];
    if flags & START != START {
        let (id, length) = id_and_length(window);
        return Some((Fields::Segment { flags, id, length }, PLAIN_HEAD));
    }
    if window.len() < 22 {
        return None;
    }
    if BigEndian::read_u32(&window[10..14]) != 0 {
        return None;
    }
    let id = BigEndian::read_u64(&window[2..10]);
    let length = BigEndian::read_u64(&window[14..22]);
    Some((Fields::Segment { flags, id, length }, 22))
}

/// [`plain`] for an XFER_ACK: type, flags, ID and length. `None` if it is not whole in the window.
#[tactic(auto, using(crate::proofs::Plains::ack_head))]
#[inline(always)]
fn ack(window: &[u8]) -> Option<(Fields, usize)>
    requires { slice_index window.now 0 ≡ XFER_ACK }
    ensures { IfSome result (λ head. HasPlainHead window.now head.0 head.1) }
{
    if window.len() < PLAIN_HEAD {
        return None;
    }
    let flags = window[1];
    let (id, length) = id_and_length(window);
    Some((Fields::Ack { flags, id, length }, PLAIN_HEAD))
}

/// [`plain`] for an XFER_REFUSE: type, reason and ID. `None` if it is not whole in the window.
#[tactic(auto, using(crate::proofs::Plains::refuse_head))]
#[inline(always)]
fn refuse(window: &[u8]) -> Option<(Fields, usize)>
    requires { slice_index window.now 0 ≡ XFER_REFUSE }
    ensures { IfSome result (λ head. HasPlainHead window.now head.0 head.1) }
{
    if window.len() < 10 {
        return None;
    }
    let reason = window[1];
    let id = BigEndian::read_u64(&window[2..10]);
    Some((Fields::Refuse { reason, id }, 10))
}

/// [`plain`] for a SESS_TERM: type, flags and reason. `None` if it is not whole in the window.
#[tactic(auto, using(crate::proofs::Plains::sess_term_head))]
#[inline(always)]
fn sess_term(window: &[u8]) -> Option<(Fields, usize)>
    requires { slice_index window.now 0 ≡ SESS_TERM }
    ensures { IfSome result (λ head. HasPlainHead window.now head.0 head.1) }
{
    if window.len() < 3 {
        return None;
    }
    let flags = window[1];
    let reason = window[2];
    Some((Fields::SessTerm { flags, reason }, 3))
}

/// [`plain`] for a MSG_REJECT: type, reason and rejected type. `None` if it is not whole in the
/// window.
#[tactic(auto, using(crate::proofs::Plains::msg_reject_head))]
#[inline(always)]
fn msg_reject(window: &[u8]) -> Option<(Fields, usize)>
    requires { slice_index window.now 0 ≡ MSG_REJECT }
    ensures { IfSome result (λ head. HasPlainHead window.now head.0 head.1) }
{
    if window.len() < 3 {
        return None;
    }
    let reason = window[1];
    let header = window[2];
    Some((Fields::MsgReject { reason, header }, 3))
}

/// If the window begins with a frequent head, the numbers of its message, and the head's length.
///
/// A head is frequent if it has no node ID and no item, and shows no fault. The result is `None`
/// for any other head, and for a head that is not whole in the window.
#[tactic(auto, using(crate::proofs::Plains::keepalive_head))]
#[inline(always)]
pub fn plain(window: &[u8]) -> Option<(Fields, usize)>
    ensures { IfSome result (λ head. HasPlainHead window.now head.0 head.1) }
{
    if window.is_empty() {
        return None;
    }
    match window[0] {
        XFER_SEGMENT => segment(window),
        XFER_ACK => ack(window),
        XFER_REFUSE => refuse(window),
        KEEPALIVE => Some((Fields::Keepalive, 1)),
        SESS_TERM => sess_term(window),
        MSG_REJECT => msg_reject(window),
        _ => None,
    }
}
