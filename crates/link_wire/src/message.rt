//! The contact header and the messages of TCPCLv4 (RFC 9174 sections 4.2 to 6.1).

use crate::codes::START;
use arrayvec::ArrayVec;
use link_tool_option_types::NodeId;

/// The greatest length of an extension list that is read, in bytes.
///
/// No list is kept whole in memory.
pub const MAX_LIST_LENGTH: u32 = 65_536;

/// The greatest number of items in one extension list.
pub const MAX_ITEMS: usize = 64;

/// The items of one extension list, in order.
pub type Items = ArrayVec<Item, MAX_ITEMS>;

/// A contact header of version 4 (RFC 9174 section 4.2).
#[derive(Clone, Copy, Debug, PartialEq, Eq)]
pub struct Contact {
    /// CAN_TLS is 01; reserved flags are kept.
    pub flags: u8,
}

/// What an extension list belongs to (RFC 9174 sections 4.8 and 5.2.5).
#[derive(Clone, Copy, Debug, PartialEq, Eq)]
pub enum ListOf {
    /// The list of a session, in its SESS_INIT.
    Session,
    /// The list of a transfer, in its first segment.
    Transfer,
}

/// An extension item without its value (RFC 9174 sections 4.8 and 5.2.5).
#[derive(Clone, Copy, Debug, Default, PartialEq, Eq)]
pub struct Item {
    /// CRITICAL is 01.
    pub flags: u8,
    /// The item's type.
    pub kind: u16,
    /// The length of the value, in bytes.
    pub length: u16,
    /// The transfer's total length in bytes, if the value is one.
    ///
    /// A total length is the value of a Transfer Length item (RFC 9174 section 5.2.5.1): an item of
    /// a transfer's list with type 0001 and a value of 8 bytes.
    pub total: Option<u64>,
}

/// An XFER_SEGMENT without its data (RFC 9174 section 5.2.2).
#[derive(Debug, PartialEq, Eq, Drop)]
pub struct SegmentHead {
    /// END is 01, START is 02.
    pub flags: u8,
    /// The transfer ID.
    pub id: u64,
    /// The transfer extension items; none without START.
    pub items: Items,
    /// The length of the segment's data, in bytes.
    pub length: u64,
}

/// A message of TCPCLv4, without the data of a segment.
#[derive(Debug, PartialEq, Eq, Drop)]
pub enum Message {
    /// SESS_INIT (RFC 9174 section 4.6).
    ///
    /// It has the keepalive interval in seconds, and the longest segment and the longest transfer
    /// in bytes that the sender will receive. It also has the sender's node ID and its session
    /// extension items.
    SessInit {
        keepalive: u16,
        segment_mru: u64,
        transfer_mru: u64,
        node: NodeId,
        items: Items,
    },
    /// XFER_SEGMENT (RFC 9174 section 5.2.2).
    Segment(SegmentHead),
    /// XFER_ACK (RFC 9174 section 5.2.3): `length` bytes of the transfer have been received.
    Ack {
        flags: u8,
        id: u64,
        length: u64,
    },
    /// XFER_REFUSE (RFC 9174 section 5.2.4).
    Refuse {
        reason: u8,
        id: u64,
    },
    /// KEEPALIVE (RFC 9174 section 5.1.1).
    Keepalive,
    /// SESS_TERM (RFC 9174 section 6.1).
    SessTerm {
        flags: u8,
        reason: u8,
    },
    /// MSG_REJECT (RFC 9174 section 5.1.2): the reason, and the type byte of the rejected message.
    MsgReject {
        reason: u8,
        header: u8,
    },
}

impl Message {
    ghost use Rattle.std.specs.Prelude.{◌≡◌};
    ghost use Rattle.link_wire.specs.Message.{data_length};

    /// The number of data bytes after the head; only a segment has data.
    pub fn data_length(&self) -> u64
        ensures { result ≡ data_length self.now }
    {
        match self {
            Message::Segment(head) => head.length,
            _ => 0,
        }
    }
}

/// The numbers of a message: all that it has besides a node ID and extension items.
#[derive(Clone, Copy, Debug, PartialEq, Eq)]
pub enum Fields {
    /// SESS_INIT (RFC 9174 section 4.6).
    SessInit {
        keepalive: u16,
        segment_mru: u64,
        transfer_mru: u64,
    },
    /// XFER_SEGMENT (RFC 9174 section 5.2.2).
    Segment {
        flags: u8,
        id: u64,
        length: u64,
    },
    /// XFER_ACK (RFC 9174 section 5.2.3).
    Ack {
        flags: u8,
        id: u64,
        length: u64,
    },
    /// XFER_REFUSE (RFC 9174 section 5.2.4).
    Refuse {
        reason: u8,
        id: u64,
    },
    /// KEEPALIVE (RFC 9174 section 5.1.1).
    Keepalive,
    /// SESS_TERM (RFC 9174 section 6.1).
    SessTerm {
        flags: u8,
        reason: u8,
    },
    /// MSG_REJECT (RFC 9174 section 5.1.2).
    MsgReject {
        reason: u8,
        header: u8,
    },
}

impl Fields {
    ghost use Rattle.std.specs.Prelude.{◌≡◌};
    ghost use Rattle.link_wire.specs.Message.{data_length};
    ghost use Rattle.link_wire.specs.MessageBuffer.{message_with};

    /// The number of data bytes after the head, whatever the message's node ID and items are.
    #[inline(always)]
    pub(crate) fn data_length(self) -> u64
        ensures { (node : _) (items : _) → result ≡ data_length (message_with self node items) }
    {
        match self {
            Fields::Segment { length, .. } => length,
            _ => 0,
        }
    }
}

/// A buffer for one message after another, so that none is moved.
///
/// It has the message's numbers, and beside them its node ID and its items. If the message has no
/// node ID, `node` has no meaning. If it has no items, `items` has no meaning.
#[derive(Debug, Drop)]
pub struct MessageBuffer {
    pub fields: Fields,
    pub node: NodeId,
    pub items: Items,
}

impl MessageBuffer {
    ghost use Rattle.std.specs.Prelude.{◌≡◌, []};
    ghost use Rattle.link_wire.specs.Message.{data_length};
    ghost use Rattle.link_wire.specs.MessageBuffer.{message_of, message_with, IfSegmentItemsHaveTotals};

    /// Makes a buffer that holds a KEEPALIVE.
    pub fn new() -> MessageBuffer
        ensures { message_of result ≡ Message.Keepalive }
    {
        MessageBuffer {
            fields: Fields::Keepalive,
            node: NodeId::new(),
            items: Items::new(),
        }
    }

    /// Makes the buffer hold a message with these numbers and without items.
    ///
    /// The node ID in the buffer does not change. Only a SESS_INIT shows it.
    #[inline(always)]
    pub(crate) fn set(&mut self, fields: Fields)
        ensures message { message_of self.new
            ≡ message_with fields self.old.node (record { items = [] }) }
        ensures totals { IfSegmentItemsHaveTotals self.new }
    {
        self.fields = fields;
        self.items.clear();
    }

    /// The number of data bytes after the message's head; only a segment has data.
    #[inline(always)]
    pub fn data_length(&self) -> u64
        ensures { result ≡ data_length (message_of self.now) }
    {
        self.fields.data_length()
    }

    /// Returns the message that the buffer holds.
    ///
    /// A segment without START gets no items, since `items` has no meaning for it.
    pub fn into_message(self) -> Message
        ensures { result ≡ message_of self }
    {
        let MessageBuffer {
            fields,
            node,
            items,
        } = self;
        match fields {
            Fields::SessInit {
                keepalive,
                segment_mru,
                transfer_mru,
            } => Message::SessInit {
                keepalive,
                segment_mru,
                transfer_mru,
                node,
                items,
            },
            Fields::Segment { flags, id, length } => Message::Segment(SegmentHead {
                flags,
                id,
                items: if flags & START == START {
                    items
                } else {
                    Items::new()
                },
                length,
            }),
            Fields::Ack { flags, id, length } => Message::Ack { flags, id, length },
            Fields::Refuse { reason, id } => Message::Refuse { reason, id },
            Fields::Keepalive => Message::Keepalive,
            Fields::SessTerm { flags, reason } => Message::SessTerm { flags, reason },
            Fields::MsgReject { reason, header } => Message::MsgReject { reason, header },
        }
    }
}
