//! The message that numbers describe.

ghost use Rattle.std.specs.Prelude.{◌≡◌, ◌&&◌, nat_lt, Some, None, IfSome, if◌then◌else◌};
ghost use Rattle.link_wire_writer.specs.ReadsBack.{FieldsFit};
ghost use Rattle.link_ffi_writer.specs.Messages.{byte, two_bytes, fields_of, has_same, FindsFields, reason_of_by};

use link_ffi_numbers::recording::{Message, fields_shown};
use link_report::ReasonOf;
use link_wire::Fields;

/// The number if it fits in one byte.
fn byte(number: u64) -> Option<u8>
    ensures { result ≡ byte number }
{
    if number < 256 {
        Some(number as u8)
    } else {
        None
    }
}

/// The number if it fits in two bytes.
fn two_bytes(number: u64) -> Option<u16>
    ensures { result ≡ two_bytes number }
{
    if number < 65_536 {
        Some(number as u16)
    } else {
        None
    }
}

/// The fields of a message of this kind. Numbers that this kind does not use are not read. The
/// result is `None` if the kind is unknown, or if a number is too large for its field.
#[tactic(auto, unfolding(crate::specs::Messages::fields_of))]
fn fields_of(message: &Message) -> Option<Fields>
    ensures fields { result ≡ fields_of message.now }
    ensures fit { IfSome result (λ fields. FieldsFit fields) }
{
    // The prover knows the range of a number once a pattern has bound it to a variable.
    let Message {
        id,
        acknowledged,
        segment_mru,
        transfer_mru,
        data_length,
        ..
    } = *message;
    match message.kind {
        1 => Some(Fields::Segment {
            flags: byte(message.flags)?,
            id,
            length: data_length,
        }),
        2 => Some(Fields::Ack {
            flags: byte(message.flags)?,
            id,
            length: acknowledged,
        }),
        3 => Some(Fields::Refuse {
            reason: byte(message.reason)?,
            id,
        }),
        4 => Some(Fields::Keepalive),
        5 => Some(Fields::SessTerm {
            flags: byte(message.flags)?,
            reason: byte(message.reason)?,
        }),
        6 => Some(Fields::MsgReject {
            reason: byte(message.reason)?,
            header: byte(message.header)?,
        }),
        7 => Some(Fields::SessInit {
            keepalive: two_bytes(message.keepalive)?,
            segment_mru,
            transfer_mru,
        }),
        _ => None,
    }
}

/// Whether two messages have the same kind and the same numbers, whatever their faults and their
/// places are.
#[tactic(auto, unfolding(crate::specs::Messages::has_same))]
fn has_same(first: &Message, second: &Message) -> bool
    ensures { result ≡ has_same first.now second.now }
{
    first.kind == second.kind
        && first.flags == second.flags
        && first.reason == second.reason
        && first.header == second.header
        && first.id == second.id
        && first.acknowledged == second.acknowledged
        && first.keepalive == second.keepalive
        && first.segment_mru == second.segment_mru
        && first.transfer_mru == second.transfer_mru
        && first.data_length == second.data_length
}

/// The fields of the message that has these numbers, if there is one.
///
/// The fault and the places are not read. Any other number that this kind does not use must be 0.
pub fn fields_by(message: &Message) -> Option<Fields>
    ensures { FindsFields message.now result }
{
    let fields = fields_of(message)?;
    if has_same(message, &fields_shown(fields)) {
        Some(fields)
    } else {
        None
    }
}

/// The flags and the type of an item. The result is `None` if the flags do not fit in one byte, or
/// the type does not fit in two.
pub fn item_numbers(flags: u64, kind: u64) -> Option<(u8, u16)>
    ensures { result
        ≡ (if nat_lt flags 256 && nat_lt kind 65536 then Some (flags, kind) else None) }
{
    if flags < 256 && kind < 65_536 {
        Some((flags as u8, kind as u16))
    } else {
        None
    }
}

/// The message with this type byte, if it has a reason.
pub fn reason_of_by(kind: u64) -> Option<ReasonOf>
    ensures { result ≡ reason_of_by kind }
{
    match kind {
        3 => Some(ReasonOf::Refuse),
        5 => Some(ReasonOf::SessTerm),
        6 => Some(ReasonOf::MsgReject),
        _ => None,
    }
}
