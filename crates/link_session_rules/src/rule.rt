//! The rules that can be broken, with what a line says of each.

use link_bundle_types::BundleFault;
use link_rules_shared::{Doubt, Level, NAME_MAX};
use link_transfer::OrderFault;

/// What is wrong with the order of an XFER_ACK or XFER_REFUSE (RFC 9174 sections 5.2.3 and 5.2.4).
#[derive(Clone, Copy, Debug, PartialEq, Eq)]
pub enum AnswerFault {
    /// An XFER_ACK without START has neither the ID of the latest XFER_ACK nor the ID of the latest
    /// XFER_REFUSE.
    NotTheLast,
    /// An XFER_ACK with START has the ID of the latest XFER_ACK.
    StartRepeats,
    /// An XFER_ACK without START has the ID of the latest XFER_ACK, which has END.
    AfterStop,
    /// An XFER_ACK without START has the ID of the latest XFER_REFUSE, and no XFER_ACK with this ID
    /// came since.
    AfterRefusal,
    /// An XFER_REFUSE has the ID of the latest XFER_ACK, which has END.
    RefusedAfterEnd,
}

/// A rule that a contact header or a message breaks (RFC 9174).
#[derive(Clone, Copy, Debug, Default, PartialEq, Eq)]
pub enum MessageRule {
    /// A contact header has a flag other than CAN_TLS (section 4.2).
    ContactFlags { flags: u8 },
    /// The node ID of a SESS_INIT is neither empty nor a URI (section 4.6).
    NodeId { length: u64 },
    /// An extension item, numbered from 0, has a flag other than CRITICAL (sections 4.8 and 5.2.5).
    ItemFlags { item: u64, flags: u8 },
    /// The message is out of order (sections 4, 4.7, 5.1.2, 5.2, 5.2.1, 5.2.2 and 6.1).
    Order { fault: OrderFault, level: Level },
    /// A message of this type comes before any SESS_INIT (sections 4 and 5.1.2).
    BeforeSession { kind: u8 },
    /// A transfer begins while one of another ID is open (sections 5.2 and 5.2.2).
    Interleaved { id: u64, open: u64 },
    /// An XFER_SEGMENT has a flag other than START and END (section 5.2.2).
    SegmentFlags { flags: u8 },
    /// A transfer has the ID of an earlier one (section 5.2.1).
    TransferId { id: u64 },
    /// A segment has more data than the peer's Segment MRU (sections 4.6 and 5.2).
    PeerSegment { length: u64, limit: u64 },
    /// A transfer announces more data than the peer's Transfer MRU (section 4.6).
    PeerTransferAnnounced { announced: u64, limit: u64 },
    /// A transfer has more data than the peer's Transfer MRU (section 4.6).
    ///
    /// `length` is that of the data up to the end of the segment that passes the limit.
    PeerTransferLength { length: u128, limit: u64 },
    /// An XFER_ACK acknowledges less than the one before it (section 5.2.3).
    AckLength { length: u64, before: u64 },
    /// A KEEPALIVE comes after a SESS_INIT whose interval is 0 (sections 4.7 and 5.1.1).
    #[default]
    Keepalive,
    /// A SESS_TERM has a flag other than REPLY (section 6.1).
    TermFlags { flags: u8 },
    /// The node ID of a SESS_INIT does not name a node (section 4.6).
    NodeName { length: u64, level: Level },
    /// The interval of a SESS_INIT is short or long (section 5.1.1).
    KeepaliveInterval { interval: u16 },
    /// An extension item, numbered from 0, has a type that is neither assigned nor for private use
    /// (sections 8.3 and 8.4).
    ItemType { item: u64, kind: u16 },
    /// The ID of a transfer is not the next one (section 5.2.1).
    TransferIdOrder { id: u64 },
    /// An XFER_ACK or XFER_REFUSE does not follow those before it (sections 5.2.3 and 5.2.4).
    AnswerOrder { id: u64, fault: AnswerFault },
    /// A message of this type comes after a MSG_REJECT that ends the session (sections 5.1.2 and
    /// 8.5).
    AfterReject { kind: u8, level: Level },
    /// A MSG_REJECT calls a type from 01 to 07 unknown, or type 00 known (section 5.1.2).
    RejectKnown { reason: u8, header: u8 },
    /// A message of this type has a reason that is neither assigned nor for private use (sections
    /// 8.6, 8.7 and 8.8).
    Reason { kind: u8, reason: u8 },
    /// A SESS_TERM is not the first, or the first SESS_INIT comes after one (section 6.1).
    TermOrder { kind: u8 },
}

impl MessageRule {
    ghost use Rattle.std.specs.Prelude.{◌≡◌, ◌≤◌, length};
    ghost use Rattle.link_session_rules.specs.MessageRules.{level_of, name_of};

    /// The name of the rule.
    #[tactic(auto, unfolding(crate::specs::MessageRules::name_of))]
    pub fn name(&self) -> &'static str
        ensures name { result.now ≡ name_of self.now }
        ensures short { length result.now ≤ NAME_MAX }
    {
        match self {
            MessageRule::ContactFlags { .. } => "contact-flags",
            MessageRule::NodeId { .. } => "node-id",
            MessageRule::ItemFlags { .. } => "item-flags",
            MessageRule::Order { .. } => "order",
            MessageRule::BeforeSession { .. } => "before-session",
            MessageRule::Interleaved { .. } => "interleaved",
            MessageRule::SegmentFlags { .. } => "segment-flags",
            MessageRule::TransferId { .. } => "transfer-id",
            MessageRule::PeerSegment { .. } => "peer-segment",
            MessageRule::PeerTransferAnnounced { .. } | MessageRule::PeerTransferLength { .. } => {
                "peer-transfer"
            }
            MessageRule::AckLength { .. } => "ack-length",
            MessageRule::Keepalive => "keepalive",
            MessageRule::TermFlags { .. } => "term-flags",
            MessageRule::NodeName { .. } => "node-name",
            MessageRule::KeepaliveInterval { .. } => "keepalive-interval",
            MessageRule::ItemType { .. } => "item-type",
            MessageRule::TransferIdOrder { .. } => "transfer-id-order",
            MessageRule::AnswerOrder { .. } => "answer-order",
            MessageRule::AfterReject { .. } => "after-reject",
            MessageRule::RejectKnown { .. } => "reject-known",
            MessageRule::Reason { .. } => "reason",
            MessageRule::TermOrder { .. } => "term-order",
        }
    }

    /// How strictly the rule is meant.
    #[tactic(auto, unfolding(crate::specs::MessageRules::level_of))]
    pub fn level(&self) -> Level
        ensures { result ≡ level_of self.now }
    {
        match self {
            MessageRule::Order { level, .. }
            | MessageRule::NodeName { level, .. }
            | MessageRule::AfterReject { level, .. } => *level,
            MessageRule::BeforeSession { .. }
            | MessageRule::Interleaved { .. }
            | MessageRule::AckLength { .. }
            | MessageRule::Keepalive
            | MessageRule::KeepaliveInterval { .. }
            | MessageRule::ItemType { .. }
            | MessageRule::TransferIdOrder { .. }
            | MessageRule::AnswerOrder { .. }
            | MessageRule::RejectKnown { .. }
            | MessageRule::Reason { .. }
            | MessageRule::TermOrder { .. } => Level::Should,
            _ => Level::Must,
        }
    }
}

/// A rule that a transfer breaks (RFC 9174 sections 5.2, 5.2.2, 5.2.5.1 and 6.1, RFC 9171 section
/// 4).
#[derive(Clone, Copy, Debug, Default, PartialEq, Eq)]
pub enum TransferRule {
    /// The stream ends while the transfer is open, after this many bytes of its data.
    Unfinished { length: u64 },
    /// The transfer has malformed Transfer Length items.
    #[default]
    LengthItem,
    /// The transfer has another length than it announces.
    LengthDiffers { announced: u64, length: u64 },
    /// A transfer of one segment has a Transfer Length item.
    LengthOfOneSegment,
    /// The data is no bundle: the fault, and its offset in the data.
    Bundle { fault: BundleFault, byte: u64 },
    /// The data may be a bundle, but this toolkit does not read it: the fault, and its offset.
    NotRead { fault: BundleFault, byte: u64 },
}

impl TransferRule {
    ghost use Rattle.std.specs.Prelude.{◌≡◌, ◌≤◌, length};
    ghost use Rattle.link_session_rules.specs.TransferRules.{transfer_level_of, transfer_name_of};

    /// The name of the rule.
    #[tactic(auto, unfolding(crate::specs::TransferRules::transfer_name_of))]
    pub fn name(&self) -> &'static str
        ensures name { result.now ≡ transfer_name_of self.now }
        ensures short { length result.now ≤ NAME_MAX }
    {
        match self {
            TransferRule::Unfinished { .. } => "unfinished",
            TransferRule::LengthItem => "length-item",
            TransferRule::LengthDiffers { .. } => "length-differs",
            TransferRule::LengthOfOneSegment => "length-of-one-segment",
            TransferRule::Bundle { .. } => "bundle",
            TransferRule::NotRead { .. } => "not-read",
        }
    }

    /// How strictly the rule is meant. `doubt` is what an unknown part may have changed in the
    /// bundle.
    #[tactic(auto, unfolding(crate::specs::TransferRules::transfer_level_of))]
    pub fn level(&self, doubt: Doubt) -> Level
        ensures { result ≡ transfer_level_of doubt self.now }
    {
        match self {
            TransferRule::LengthItem | TransferRule::LengthDiffers { .. } => Level::Must,
            TransferRule::Bundle { .. } => match doubt {
                Doubt::WholeBundle => Level::Should,
                Doubt::Nothing | Doubt::BlockData => Level::Must,
            },
            TransferRule::Unfinished { .. }
            | TransferRule::LengthOfOneSegment
            | TransferRule::NotRead { .. } => Level::Should,
        }
    }
}
