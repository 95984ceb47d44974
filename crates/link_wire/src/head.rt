//! Reading the contact header and heads of messages, field by field (RFC 9174 sections 4.2 to 6.1).

ghost use Rattle.std.specs.Prelude.{◌≡◌, ◌<◌, ◌≤◌, [], ◌∷◌, length, Ok, None, IfOk, IfSome, OnOk};
ghost use Rattle.link_io.specs.Source.{at_hand, reach, GivesAtHand, HasEnded, IsLive};
ghost use Rattle.link_wire.specs.Message.{contact_at, node_at, node_bytes_at, segment_items_at, segment_at, ack_at, refuse_at, sess_term_at, msg_reject_at, sess_init_at, fields_at, HaveTotalsIfLengthItems};
ghost use Rattle.link_wire.specs.Getting.{ReadsPart, with_value};
ghost use Rattle.link_wire.specs.Getting.{AfterKind};
ghost use Rattle.link_wire.specs.MessageBuffer.{message_of, segment_items, IfSegmentItemsHaveTotals};

use crate::codes::{
    KEEPALIVE, MAGIC, MSG_REJECT, SESS_INIT, SESS_TERM, START, VERSION, XFER_ACK, XFER_REFUSE,
    XFER_SEGMENT,
};
use crate::fault::WireFault;
use crate::halt::Halt;
use crate::list::list;
use crate::message::{Contact, Fields, Items, ListOf, MessageBuffer};
use crate::parts::{bytes, field, number8, number16, number64};
use byteorder::{BigEndian, ByteOrder};
use link_io::{Filled, InDevice, IoFault, Source};
use link_tool_option_types::{MAX_NODE_ID, NodeId};

/// Reads a contact header of six bytes: `dtn!`, the version and the flags (RFC 9174 section 4.2).
pub fn contact<R: InDevice>(source: &mut Source<R>) -> Result<Contact, Halt>
    ensures { IsLive R.state source.old
        → ReadsPart R.state contact_at source.old source.new result }
{
    let header = field::<6, R>(source)?;
    if BigEndian::read_u32(&header) != MAGIC {
        return Err(Halt::Wire(WireFault::BadMagic));
    }
    if header[4] != VERSION {
        return Err(Halt::Wire(WireFault::BadVersion(header[4])));
    }
    Ok(Contact { flags: header[5] })
}

/// Reads a node ID into `node`: its length, and then its bytes (RFC 9174 section 4.6).
fn node<R: InDevice>(source: &mut Source<R>, node: &mut NodeId) -> Result<(), Halt>
    ensures { IsLive R.state source.old
        → ReadsPart R.state node_at source.old source.new (with_value node.new result) }
{
    let length = number16(source)?;
    if usize::from(length) > MAX_NODE_ID {
        return Err(Halt::Wire(WireFault::NodeIdTooLong(length)));
    }
    node_bytes(source, length, node)
}

/// Reads the bytes of a node ID into `node`.
fn node_bytes<R: InDevice>(
    source: &mut Source<R>,
    length: u16,
    node: &mut NodeId,
) -> Result<(), Halt>
    requires { length ≤ MAX_NODE_ID }
    ensures { IsLive R.state source.old
        → ReadsPart R.state (node_bytes_at length) source.old source.new
        (with_value node.new result) }
{
    *node = NodeId::from([0; MAX_NODE_ID]);
    node.truncate(usize::from(length));
    bytes(source, node.as_mut_slice())?;
    Ok(())
}

/// Reads the extension list of a segment into `items`; without START, `items` becomes empty.
#[tactic(auto, unfolding(crate::specs::Message::segment_items_at))]
#[inline]
fn segment_items<R: InDevice>(
    source: &mut Source<R>,
    flags: u8,
    items: &mut Items,
) -> Result<(), Halt>
    ensures gets { IsLive R.state source.old
        → ReadsPart R.state (segment_items_at flags) source.old source.new
        (with_value (segment_items flags items.new) result) }
    ensures totals { OnOk result (HaveTotalsIfLengthItems items.new.items) }
{
    if flags & START == START {
        list(source, ListOf::Transfer, items)
    } else {
        // The items of the message before may lack their totals.
        items.clear();
        Ok(())
    }
}

/// Reads an XFER_SEGMENT after its type byte, without its data (RFC 9174 section 5.2.2).
#[inline]
fn segment<R: InDevice>(source: &mut Source<R>, message: &mut MessageBuffer) -> Result<(), Halt>
    ensures gets { IsLive R.state source.old
        → ReadsPart R.state segment_at source.old source.new
        (with_value (message_of message.new) result) }
    ensures totals { OnOk result (IfSegmentItemsHaveTotals message.new) }
{
    let flags = number8(source)?;
    let id = number64(source)?;
    segment_items(source, flags, &mut message.items)?;
    let length = number64(source)?;
    message.fields = Fields::Segment { flags, id, length };
    Ok(())
}

/// Reads an XFER_ACK after its type byte (RFC 9174 section 5.2.3).
fn ack<R: InDevice>(source: &mut Source<R>, message: &mut MessageBuffer) -> Result<(), Halt>
    ensures gets { IsLive R.state source.old
        → ReadsPart R.state ack_at source.old source.new
        (with_value (message_of message.new) result) }
    // Only the items of a segment have totals, so this holds of any other message.
    ensures totals { OnOk result (IfSegmentItemsHaveTotals message.new) }
{
    let flags = number8(source)?;
    let id = number64(source)?;
    let length = number64(source)?;
    message.fields = Fields::Ack { flags, id, length };
    Ok(())
}

/// Reads an XFER_REFUSE after its type byte (RFC 9174 section 5.2.4).
fn refuse<R: InDevice>(source: &mut Source<R>, message: &mut MessageBuffer) -> Result<(), Halt>
    ensures gets { IsLive R.state source.old
        → ReadsPart R.state refuse_at source.old source.new
        (with_value (message_of message.new) result) }
    // Only the items of a segment have totals, so this holds of any other message.
    ensures totals { OnOk result (IfSegmentItemsHaveTotals message.new) }
{
    let reason = number8(source)?;
    let id = number64(source)?;
    message.fields = Fields::Refuse { reason, id };
    Ok(())
}

/// Reads a SESS_TERM after its type byte (RFC 9174 section 6.1).
fn sess_term<R: InDevice>(source: &mut Source<R>, message: &mut MessageBuffer) -> Result<(), Halt>
    ensures gets { IsLive R.state source.old
        → ReadsPart R.state sess_term_at source.old source.new
        (with_value (message_of message.new) result) }
    // Only the items of a segment have totals, so this holds of any other message.
    ensures totals { OnOk result (IfSegmentItemsHaveTotals message.new) }
{
    let flags = number8(source)?;
    let reason = number8(source)?;
    message.fields = Fields::SessTerm { flags, reason };
    Ok(())
}

/// Reads a MSG_REJECT after its type byte (RFC 9174 section 5.1.2).
fn msg_reject<R: InDevice>(source: &mut Source<R>, message: &mut MessageBuffer) -> Result<(), Halt>
    ensures gets { IsLive R.state source.old
        → ReadsPart R.state msg_reject_at source.old source.new
        (with_value (message_of message.new) result) }
    // Only the items of a segment have totals, so this holds of any other message.
    ensures totals { OnOk result (IfSegmentItemsHaveTotals message.new) }
{
    let reason = number8(source)?;
    let header = number8(source)?;
    message.fields = Fields::MsgReject { reason, header };
    Ok(())
}

/// Reads a SESS_INIT after its type byte (RFC 9174 section 4.6).
fn sess_init<R: InDevice>(source: &mut Source<R>, message: &mut MessageBuffer) -> Result<(), Halt>
    ensures gets { IsLive R.state source.old
        → ReadsPart R.state sess_init_at source.old source.new
        (with_value (message_of message.new) result) }
    // Only the items of a segment have totals, so this holds of any other message.
    ensures totals { OnOk result (IfSegmentItemsHaveTotals message.new) }
{
    let keepalive = number16(source)?;
    let segment_mru = number64(source)?;
    let transfer_mru = number64(source)?;
    node(source, &mut message.node)?;
    list(source, ListOf::Session, &mut message.items)?;
    message.fields = Fields::SessInit {
        keepalive,
        segment_mru,
        transfer_mru,
    };
    Ok(())
}

/// Reads a message after its type byte `kind`, without the data of a segment.
#[tactic(auto, unfolding(crate::specs::Message::fields_at))]
#[inline]
pub fn fields<R: InDevice>(
    source: &mut Source<R>,
    kind: u8,
    message: &mut MessageBuffer,
) -> Result<(), Halt>
    ensures gets { IsLive R.state source.old
        → ReadsPart R.state (fields_at kind) source.old source.new
        (with_value (message_of message.new) result) }
    ensures totals { OnOk result (IfSegmentItemsHaveTotals message.new) }
{
    match kind {
        XFER_SEGMENT => segment(source, message),
        XFER_ACK => ack(source, message),
        XFER_REFUSE => refuse(source, message),
        KEEPALIVE => {
            message.fields = Fields::Keepalive;
            Ok(())
        }
        SESS_TERM => sess_term(source, message),
        MSG_REJECT => msg_reject(source, message),
        SESS_INIT => sess_init(source, message),
        _ => Err(Halt::Wire(WireFault::UnknownType(kind))),
    }
}

/// Reads the type byte of the next message; `None` means that the input ends before it.
#[inline]
pub fn kind<R: InDevice>(source: &mut Source<R>) -> Result<Option<u8>, IoFault>
    ensures ended { HasEnded source.old → (source.new ≡ source.old) × (result ≡ Ok None) }
    ensures gives { IsLive R.state source.old → AfterKind R.state source.old source.new result }
    ensures unread { 0 < length (at_hand R.state source.old)
        → reach R.state source.new ≡ reach R.state source.old }
    ensures here { 0 < length (at_hand R.state source.old)
        → IfOk result (λ got. IfSome got (λ kind.
        GivesAtHand R.state source.old source.new (kind ∷ []))) }
{
    let mut kind = [0; 1];
    match source.fill(&mut kind)? {
        Filled::Whole => Ok(Some(kind[0])),
        Filled::Ended(_) => Ok(None),
    }
}
