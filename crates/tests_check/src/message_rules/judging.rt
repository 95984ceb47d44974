//! Messages, and the rules that they break.

ghost use Rattle.std.specs.Prelude.{◌≡◌};
ghost use Rattle.link_wire.specs.Message.{HasTotalIfLengthItem, HaveTotalsIfLengthItems};
ghost use Rattle.link_wire.specs.MessageBuffer.{IfSegmentItemsHaveTotals};

use link_session_rules::{
    JudgedHeadView, Level, MessageHistory, MessageRule, PeerLimits, contact_flags,
};
use link_transfer::{Event, Joiner, OrderFault};
use link_wire::{Contact, Fields, Item, Items, MessageBuffer, NodeId};
use std::process::Abort;

pub const END: u8 = 0x01;

pub const START: u8 = 0x02;

pub const BOTH: u8 = 0x03;

/// An extension item: its flags, type and length, and its value if this is a total length.
pub type ItemOf = (u8, u16, u16, u64);

/// No items.
pub const NONE: &[ItemOf] = &[];

/// The node ID of most recordings.
pub const NODE: &[u8] = b"ipn:1.0";

/// The first message of most recordings.
pub const INIT: Sent = Sent::Init(60, NODE, NONE);

/// A SESS_INIT with another interval than most.
pub const OTHER_INTERVAL: Sent = Sent::Other(30, SEGMENT_MRU, TRANSFER_MRU);

/// A SESS_INIT with another segment MRU.
pub const OTHER_SEGMENT: Sent = Sent::Other(60, 65_537, TRANSFER_MRU);

/// A SESS_INIT with another transfer MRU.
pub const OTHER_TRANSFER: Sent = Sent::Other(60, SEGMENT_MRU, 1_048_575);

/// The MRUs of most SESS_INITs.
const SEGMENT_MRU: u64 = 65_536;

const TRANSFER_MRU: u64 = 1_048_576;

/// A second SESS_INIT that changes the session.
pub const CHANGED: MessageRule = MessageRule::Order {
    fault: OrderFault::SecondSessInit,
    level: Level::Must,
};

/// Any other second SESS_INIT.
pub const REPEATED: MessageRule = MessageRule::Order {
    fault: OrderFault::SecondSessInit,
    level: Level::Should,
};

/// A segment before the first SESS_INIT.
pub const EARLY: MessageRule = MessageRule::Order {
    fault: OrderFault::SegmentBeforeSessInit,
    level: Level::Must,
};

/// A segment of a transfer that is not open.
pub const STRAY: MessageRule = MessageRule::Order {
    fault: OrderFault::NoSuchOpenTransfer,
    level: Level::Must,
};

/// A START of the open transfer.
pub const RESTARTED: MessageRule = MessageRule::Order {
    fault: OrderFault::StartRepeatsOpenId,
    level: Level::Must,
};

/// A START after a SESS_TERM.
pub const LATE: MessageRule = MessageRule::Order {
    fault: OrderFault::StartAfterSessTerm,
    level: Level::Must,
};

/// A message.
#[derive(Clone, Copy, Debug)]
pub enum Sent {
    /// A SESS_INIT: its interval, node ID and items.
    Init(u16, &'static [u8], &'static [ItemOf]),
    /// A SESS_INIT: its interval, segment MRU and transfer MRU.
    Other(u16, u64, u64),
    /// An XFER_SEGMENT: its flags, ID and items, and the length of its data.
    Segment(u8, u64, &'static [ItemOf], u64),
    /// An XFER_ACK: its flags, ID and length.
    Ack(u8, u64, u64),
    /// An XFER_REFUSE: its reason and its ID.
    Refuse(u8, u64),
    Keepalive,
    /// A SESS_TERM with these flags.
    Term(u8),
    /// A MSG_REJECT: its reason, and the type that it rejects.
    Reject(u8, u8),
}

/// The messages of a recording, and the rules that they break.
pub struct Row {
    pub name: &'static str,
    pub limits: PeerLimits,
    pub sent: &'static [Sent],
    /// Each rule after the number of the message and the level.
    pub broken: &'static [(usize, Level, MessageRule)],
}

pub const NO_LIMITS: PeerLimits = PeerLimits {
    segment: None,
    transfer: None,
};

fn item_of(of: ItemOf) -> Item
    ensures { HasTotalIfLengthItem result }
{
    let (flags, kind, length, value) = of;
    let is_total = kind == 0x0001 && length == 8;
    Item {
        flags,
        kind,
        length,
        total: if is_total { Some(value) } else { None },
    }
}

pub fn items_of(list: &[ItemOf]) -> Items
    ensures { HaveTotalsIfLengthItems result.items }
{
    let mut items = Items::new();
    for of in list {
        if !items.is_full() {
            items.push(item_of(*of));
        }
    }
    items
}

fn node_of(bytes: &[u8]) -> NodeId {
    let mut node = NodeId::new();
    for byte in bytes {
        if !node.is_full() {
            node.push(*byte);
        }
    }
    node
}

fn fields_of(sent: Sent) -> Fields {
    match sent {
        Sent::Init(keepalive, _, _) => Fields::SessInit {
            keepalive,
            segment_mru: SEGMENT_MRU,
            transfer_mru: TRANSFER_MRU,
        },
        Sent::Other(keepalive, segment_mru, transfer_mru) => Fields::SessInit {
            keepalive,
            segment_mru,
            transfer_mru,
        },
        Sent::Segment(flags, id, _, length) => Fields::Segment { flags, id, length },
        Sent::Ack(flags, id, length) => Fields::Ack { flags, id, length },
        Sent::Refuse(reason, id) => Fields::Refuse { reason, id },
        Sent::Keepalive => Fields::Keepalive,
        Sent::Term(flags) => Fields::SessTerm { flags, reason: 0 },
        Sent::Reject(reason, header) => Fields::MsgReject { reason, header },
    }
}

/// The node ID and the items of a message.
fn parts_of(sent: Sent) -> (&'static [u8], &'static [ItemOf]) {
    match sent {
        Sent::Init(_, node, items) => (node, items),
        Sent::Segment(_, _, items, _) => (NODE, items),
        _ => (NODE, NONE),
    }
}

pub fn message_of(sent: Sent) -> MessageBuffer
    ensures { IfSegmentItemsHaveTotals result }
{
    let (node, items) = parts_of(sent);
    MessageBuffer {
        fields: fields_of(sent),
        node: node_of(node),
        items: items_of(items),
    }
}

/// The head of the next message.
pub fn head_of<'a>(joiner: &mut Joiner, message: &'a MessageBuffer) -> JudgedHeadView<'a>
    ensures { result.message.now ≡ message.now }
{
    let taken = joiner.take(Event::of_fields(message.fields));
    JudgedHeadView {
        message,
        fault: taken.fault,
        turn: taken.turn,
    }
}

/// Compares the rules that each message of a row breaks.
fn judge(rt: &impl Abort, row: &Row) {
    let mut joiner = Joiner::new();
    let mut history = MessageHistory::new();
    let mut wanted = row.broken.iter();
    for (number, &sent) in row.sent.iter().enumerate() {
        let message = message_of(sent);
        let head = head_of(&mut joiner, &message);
        for rule in history.rules(&row.limits, &head).as_slice() {
            let got = (number, rule.level(), *rule);
            assert_eq!(rt; Some(&got), wanted.next(), "{}", row.name);
        }
        history.take(&head);
    }
    assert_eq!(rt; wanted.next(), None, "{}", row.name);
}

#[test]
fn judges_node_ids(rt: HostRuntime) {
    for row in &super::alone::NODE_IDS {
        judge(&rt, row);
    }
}

#[test]
fn judges_flags(rt: HostRuntime) {
    for row in &super::alone::FLAGS {
        judge(&rt, row);
    }
}

#[test]
fn judges_order(rt: HostRuntime) {
    for row in &super::alone::ORDER {
        judge(&rt, row);
    }
}

#[test]
fn judges_second_sess_inits(rt: HostRuntime) {
    for row in &super::second::SECOND {
        judge(&rt, row);
    }
}

#[test]
fn judges_open_transfers_and_keepalives(rt: HostRuntime) {
    for row in &super::alone::OPEN {
        judge(&rt, row);
    }
}

#[test]
fn judges_ids(rt: HostRuntime) {
    for row in &super::alone::IDS {
        judge(&rt, row);
    }
}

#[test]
fn judges_names_and_intervals(rt: HostRuntime) {
    for row in &super::assigned::NAMES {
        judge(&rt, row);
    }
}

#[test]
fn judges_types_and_reasons(rt: HostRuntime) {
    for row in &super::assigned::ASSIGNED {
        judge(&rt, row);
    }
}

#[test]
fn judges_the_order_of_messages(rt: HostRuntime) {
    for row in &super::ordered::ORDERED {
        judge(&rt, row);
    }
}

#[test]
fn judges_limits(rt: HostRuntime) {
    for row in &super::alone::LIMITS {
        judge(&rt, row);
    }
}

#[test]
fn judges_several_rules(rt: HostRuntime) {
    for row in &super::together::SEVERAL {
        judge(&rt, row);
    }
}

#[test]
fn judges_transfers(rt: HostRuntime) {
    for row in &super::together::TRANSFERS {
        judge(&rt, row);
    }
}

#[test]
fn judges_rules_once(rt: HostRuntime) {
    for row in &super::together::ONCE {
        judge(&rt, row);
    }
}

#[test]
fn judges_before_faults(rt: HostRuntime) {
    for row in &super::together::FAULTS {
        judge(&rt, row);
    }
}

/// The flags of a contact header, and whether they break its rule.
static CONTACTS: [(u8, bool); 5] = [
    (0x80, true),
    (0xff, true),
    (0x02, true),
    (0x00, false),
    (0x01, false),
];

#[test]
fn judges_contact_headers(rt: HostRuntime) {
    for &(flags, broken) in &CONTACTS {
        let wanted = if broken {
            Some(MessageRule::ContactFlags { flags })
        } else {
            None
        };
        assert_eq!(rt;
            contact_flags(&Contact { flags }),
            wanted,
            "flags {flags:02x}"
        );
    }
}
