//! The messages so far, as far as the rules for the next one need them.

use crate::answers::Answers;
use crate::assigned::{item_type, reason, reject_known};
use crate::endings::Endings;
use crate::flags::{item_flags, segment_flags, term_flags};
use crate::head::JudgedHeadView;
use crate::lengths::{TransferSoFar, peer_segment, peer_transfer, so_far_after};
use crate::node::{node_id, node_name};
use crate::rule::MessageRule;
use crate::session::{
    Parameters, Since, before_session, keep_first, keepalive, keepalive_interval, keepalives_after,
    order, session_after,
};
use crate::transfer_ids::{TransferIds, interleaved};
use arrayvec::ArrayVec;
use link_rules_shared::broken_of;
use link_tool_option_types::{NodeId, PeerLimits};
use link_wire::{Fields, MessageBuffer};

/// The number of rules of a message.
const RULES: usize = 21;

/// The rules that a message breaks, in order.
pub type BrokenRules = ArrayVec<MessageRule, RULES>;

/// The messages so far, as far as the rules for the next one need them.
///
/// The node ID is kept for the rules of bundles.
#[derive(Debug, Drop)]
pub struct MessageHistory {
    /// The parameters of the first SESS_INIT.
    parameters: Option<Parameters>,
    /// Whether a SESS_INIT came, and whether a transfer or an answer came since.
    session: Since,
    /// Whether a SESS_INIT disabled KEEPALIVEs by the interval 0 (RFC 9174 section 4.7), and
    /// whether a KEEPALIVE was sent since.
    keepalives: Since,
    /// The IDs of the transfers that began.
    ids: TransferIds,
    /// The latest XFER_ACK and the latest XFER_REFUSE.
    answers: Answers,
    /// What is kept of the latest transfer.
    transfer: Option<TransferSoFar>,
    /// The ends of the session.
    endings: Endings,
    /// The node ID of the first SESS_INIT.
    node: NodeId,
}

impl MessageHistory {
    ghost use Rattle.std.specs.Prelude.{◌≡◌, ℕ, true, false, List, [], ◌∷◌, ◌++◌};
    ghost use Rattle.link_wire.specs.MessageBuffer.{IfSegmentItemsHaveTotals, message_of};
    ghost use Rattle.std.specs.List.{list_any};
    ghost use Rattle.link_session_rules.specs.Heads.{HeadWithOrder, viewed_head, messages_of, newest, is_sess_init};
    ghost use Rattle.link_session_rules.specs.MessageRules.{broken_rules};
    ghost use Rattle.link_session_rules.specs.Kept.{AreAnswerRulesKept, AreSegmentRulesKept, inner_head};
    ghost use Rattle.link_session_rules.specs.Remembered.{IsMessageHistoryAt};
    ghost use Rattle.link_session_rules.specs.Session.{first_node};

    /// The history before the first message.
    pub fn new() -> MessageHistory
        ensures { IsMessageHistoryAt result [] }
    {
        MessageHistory {
            parameters: None,
            session: Since::Neither,
            keepalives: Since::Neither,
            ids: TransferIds::none(),
            answers: Answers::none(),
            transfer: None,
            endings: Endings::none(),
            node: NodeId::new(),
        }
    }

    /// Whether the next message is known to break no rule. This takes less time than `rules`.
    ///
    /// If it returns false, the message may break rules or not. It returns false for each
    /// SESS_INIT, SESS_TERM and MSG_REJECT, for each message that is out of order, and for each
    /// message after a MSG_REJECT that says that a type is unknown. All of these are rare.
    #[inline(always)]
    pub fn keeps_rules(&self, limits: &PeerLimits, head: &JudgedHeadView<'_>) -> bool
        requires { IfSegmentItemsHaveTotals head.now.message.now }
        ensures { (before : List HeadWithOrder) → IsMessageHistoryAt self.now before → result ≡ true
            → broken_rules limits.now before (viewed_head head.now) ≡ [] }
    {
        if head.fault.is_some() {
            return false;
        }
        if self.endings.is_rejected() {
            return false;
        }
        match head.message.fields {
            Fields::Segment { .. } => self.keeps_segment_rules(limits, head),
            Fields::Ack { .. } | Fields::Refuse { .. } | Fields::Keepalive => {
                self.keeps_answer_rules(head.message)
            }
            _ => false,
        }
    }

    /// Whether a SESS_INIT came.
    #[tactic(auto, using(crate::proofs::Pushes::initiated_by))]
    #[inline(always)]
    fn is_initiated(&self) -> bool
        ensures { (before : List HeadWithOrder) → IsMessageHistoryAt self.now before
            → result ≡ list_any is_sess_init (newest before) }
    {
        self.parameters.is_some()
    }

    /// Whether the next message breaks no rule of XFER_ACKs, XFER_REFUSEs and KEEPALIVEs. It is one
    /// of these.
    #[inline(always)]
    fn keeps_answer_rules(&self, message: &MessageBuffer) -> bool
        ensures { (before : List HeadWithOrder) → IsMessageHistoryAt self.now before → result ≡ true
            → AreAnswerRulesKept before (message_of message.now) }
    {
        let initiated = self.is_initiated();
        if before_session(&self.parameters, message).is_some() {
            return false;
        }
        if self.answers.ack_length(message).is_some() {
            return false;
        }
        if self.answers.answer_order(initiated, message).is_some() {
            return false;
        }
        if keepalive(self.keepalives, message).is_some() {
            return false;
        }
        reason(message).is_none()
    }

    /// Whether the next message breaks no rule of segments and of extension items.
    #[inline(always)]
    fn keeps_segment_rules(&self, limits: &PeerLimits, head: &JudgedHeadView<'_>) -> bool
        requires { IfSegmentItemsHaveTotals head.now.message.now }
        ensures { (before : List HeadWithOrder) → IsMessageHistoryAt self.now before → result ≡ true
            → AreSegmentRulesKept limits.now before (viewed_head head.now) }
    {
        let message = head.message;
        let initiated = self.is_initiated();
        if segment_flags(message).is_some() {
            return false;
        }
        if interleaved(head).is_some() {
            return false;
        }
        if self.ids.transfer_id(message).is_some() {
            return false;
        }
        if self.ids.transfer_id_order(initiated, message).is_some() {
            return false;
        }
        if peer_segment(limits.segment, message).is_some() {
            return false;
        }
        if peer_transfer(limits.transfer, self.transfer, head).is_some() {
            return false;
        }
        if item_flags(message).is_some() {
            return false;
        }
        item_type(message).is_none()
    }

    /// The rules that the next message breaks, in order.
    #[tactic(auto, unfolding(crate::specs::MessageRules::broken_rules))]
    #[inline(never)]
    pub fn rules(&self, limits: &PeerLimits, head: &JudgedHeadView<'_>) -> BrokenRules
        requires { IfSegmentItemsHaveTotals head.now.message.now }
        ensures { (before : List HeadWithOrder) → IsMessageHistoryAt self.now before
            → result.items ≡ broken_rules limits.now before (viewed_head head.now) }
    {
        let message = head.message;
        let initiated = self.is_initiated();
        broken_of(&[
            node_id(message),
            item_flags(message),
            order(&self.parameters, self.session, head),
            before_session(&self.parameters, message),
            interleaved(head),
            segment_flags(message),
            self.ids.transfer_id(message),
            peer_segment(limits.segment, message),
            peer_transfer(limits.transfer, self.transfer, head),
            self.answers.ack_length(message),
            keepalive(self.keepalives, message),
            term_flags(message),
            node_name(message),
            keepalive_interval(message),
            item_type(message),
            self.ids.transfer_id_order(initiated, message),
            self.answers.answer_order(initiated, message),
            self.endings.after_reject(message),
            reject_known(message),
            reason(message),
            self.endings.term_order(initiated, message),
        ])
    }

    /// Takes an inner segment with `length` bytes of data, if it is known to break no rule. Returns
    /// whether the segment was taken. If not, the history stays as it was.
    ///
    /// The segment is not taken if a limit of the peer is known, if a MSG_REJECT said that a type
    /// is unknown, or if no transfer began yet. The contract holds for any ID of the segment.
    #[tactic(auto, using(crate::proofs::Kept::none_if, crate::proofs::Inner::inner_kept))]
    #[inline(always)]
    pub fn take_inner(&mut self, limits: &PeerLimits, length: u64) -> bool
        ensures kept { (id : ℕ) (before : List HeadWithOrder) → IsMessageHistoryAt self.old before
            → result ≡ true → broken_rules limits.now before (inner_head id length) ≡ [] }
        ensures taken { (id : ℕ) (before : List HeadWithOrder) → IsMessageHistoryAt self.old before
            → result ≡ true → IsMessageHistoryAt self.new (before ++ inner_head id length ∷ []) }
        ensures same { result ≡ false → self.new ≡ self.old }
    {
        if limits.segment.is_some() {
            return false;
        }
        if limits.transfer.is_some() {
            return false;
        }
        if self.endings.is_rejected() {
            return false;
        }
        match &mut self.transfer {
            Some(transfer) => {
                transfer.add(length);
                self.session = self.session.after_second();
                true
            }
            None => false,
        }
    }

    /// The node ID of the first SESS_INIT; no bytes if none came.
    pub fn node(&self) -> &[u8]
        ensures { (before : List HeadWithOrder) → IsMessageHistoryAt self.now before
            → result.now ≡ first_node (messages_of before) }
    {
        self.node.as_slice()
    }

    /// Takes the next message.
    #[inline(always)]
    pub fn take(&mut self, head: &JudgedHeadView<'_>)
        requires { IfSegmentItemsHaveTotals head.now.message.now }
        ensures { (before : List HeadWithOrder) → IsMessageHistoryAt self.old before
            → IsMessageHistoryAt self.new (before ++ viewed_head head.now ∷ []) }
    {
        let message = head.message;
        let initiated = self.is_initiated();
        self.endings.take(message);
        self.ids.take(initiated, message);
        self.answers.take(message);
        self.transfer = so_far_after(self.transfer, head);
        self.session = session_after(self.session, message);
        self.keepalives = keepalives_after(self.keepalives, message);
        keep_first(&mut self.parameters, &mut self.node, message);
    }
}
