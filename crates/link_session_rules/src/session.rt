//! Rules of a session as a whole.

ghost use Rattle.std.specs.Prelude.{◌≡◌, List, [], ◌∷◌, ◌++◌};
ghost use Rattle.link_wire.specs.MessageBuffer.{message_of};
ghost use Rattle.link_wire.specs.declared.message.Message.{Message};
ghost use Rattle.link_session_rules.specs.Heads.{HeadWithOrder, viewed_head, messages_of, is_sess_init, is_of_transfer, is_keepalive, disables_keepalive, parameters_of};
ghost use Rattle.link_session_rules.specs.Remembered.{next_since, session_of, keepalives_of};
ghost use Rattle.link_session_rules.specs.Session.{order, order_level, changes_session, before_session, keepalive, keepalive_interval, type_after_sess_init, first_parameters, first_node, are_other};

use crate::head::JudgedHeadView;
use crate::rule::MessageRule;
use link_rules_shared::Level;
use link_tool_option_types::NodeId;
use link_transfer::OrderFault;
use link_wire::{Fields, MessageBuffer};

/// Whether a message of one kind came, and one of another kind after it.
#[derive(Clone, Copy, Debug, PartialEq, Eq)]
pub(crate) enum Since {
    /// None of the first kind came.
    Neither,
    /// One of the first kind came, and none of the second since.
    First,
    /// One of the first kind came, and one of the second since.
    Both,
}

impl Since {
    ghost use Rattle.std.specs.Prelude.{◌≡◌, true, false};
    ghost use Rattle.link_session_rules.specs.Remembered.{next_since};

    /// This state after one more message, which is of the first kind.
    pub(crate) fn after_first(self) -> Since
        ensures { result ≡ next_since self true false }
    {
        match self {
            Since::Neither => Since::First,
            Since::First | Since::Both => self,
        }
    }

    /// This state after one more message, which is of the second kind.
    #[inline(always)]
    pub(crate) fn after_second(self) -> Since
        ensures { result ≡ next_since self false true }
    {
        match self {
            Since::Neither => Since::Neither,
            Since::First | Since::Both => Since::Both,
        }
    }
}

/// The parameters of a session that a SESS_INIT sets, beside its node ID and its items (RFC 9174
/// section 4.6).
#[derive(Clone, Copy, Debug, PartialEq, Eq)]
pub(crate) struct Parameters {
    interval: u16,
    segment_mru: u64,
    transfer_mru: u64,
}

/// Whether a SESS_INIT came, and whether a transfer or an answer came since. `session` is this
/// state before the message, and the result is the state after it.
#[tactic(auto, using(crate::proofs::Since::next_same))]
#[inline(always)]
pub(crate) fn session_after(session: Since, message: &MessageBuffer) -> Since
    ensures { result ≡ next_since session (is_sess_init (message_of message.now))
        (is_of_transfer (message_of message.now)) }
{
    match message.fields {
        Fields::Segment { .. } | Fields::Ack { .. } | Fields::Refuse { .. } => {
            session.after_second()
        }
        Fields::SessInit { .. } => session.after_first(),
        _ => session,
    }
}

/// Whether a SESS_INIT disabled KEEPALIVEs, and whether a KEEPALIVE was sent since. `keepalives` is
/// this state before the message, and the result is the state after it.
#[tactic(auto, using(crate::proofs::Since::next_same))]
#[inline(always)]
pub(crate) fn keepalives_after(keepalives: Since, message: &MessageBuffer) -> Since
    ensures { result ≡ next_since keepalives (disables_keepalive (message_of message.now))
        (is_keepalive (message_of message.now)) }
{
    match message.fields {
        Fields::Keepalive => keepalives.after_second(),
        Fields::SessInit { keepalive: 0, .. } => keepalives.after_first(),
        _ => keepalives,
    }
}

/// Whether two SESS_INITs set different parameters; false if there is only one.
fn are_other(first: &Option<Parameters>, second: &Option<Parameters>) -> bool
    ensures { result ≡ are_other first.now second.now }
{
    match (first, second) {
        (Some(first), Some(second)) => first != second,
        _ => false,
    }
}

/// The parameters that a message sets, if it is a SESS_INIT.
fn parameters_of(message: &MessageBuffer) -> Option<Parameters>
    ensures { result ≡ parameters_of (message_of message.now) }
{
    match message.fields {
        Fields::SessInit {
            keepalive,
            segment_mru,
            transfer_mru,
        } => Some(Parameters {
            interval: keepalive,
            segment_mru,
            transfer_mru,
        }),
        _ => None,
    }
}

/// Copies a node ID.
#[cold]
#[inline(never)]
fn copy_node(from: &NodeId, to: &mut NodeId)
    ensures { to.new.items ≡ from.now.items }
{
    // The copy has room for each byte, so this is never an error.
    if let Ok(copied) = NodeId::try_from(from.as_slice()) {
        *to = copied;
    }
}

/// Keeps the parameters and the node ID of the next message, if it is the first SESS_INIT.
#[tactic(auto, using(crate::proofs::Pushes::first_parameters_push, crate::proofs::Pushes::first_node_push))]
#[inline(always)]
pub(crate) fn keep_first(
    parameters: &mut Option<Parameters>,
    node: &mut NodeId,
    message: &MessageBuffer,
)
    ensures parameters { (before : List Message) → parameters.old ≡ first_parameters before
        → parameters.new ≡ first_parameters (before ++ message_of message.now ∷ []) }
    ensures node { (before : List Message) → parameters.old ≡ first_parameters before
        → node.old.items ≡ first_node before
        → node.new.items ≡ first_node (before ++ message_of message.now ∷ []) }
{
    if parameters.is_some() {
        return;
    }
    *parameters = parameters_of(message);
    if parameters.is_some() {
        copy_node(&message.node, node);
    }
}

/// Whether a message is a KEEPALIVE.
fn is_keepalive(message: &MessageBuffer) -> bool
    ensures { result ≡ is_keepalive (message_of message.now) }
{
    matches!(message.fields, Fields::Keepalive)
}

/// The rule of KEEPALIVEs, if it is broken. `keepalives` says whether a SESS_INIT disabled them,
/// and whether one was sent since. Only the first one that is sent since breaks the rule.
#[tactic(auto, using(crate::proofs::Since::keepalive_by, crate::proofs::Since::then_some_rule_in))]
#[inline(always)]
pub(crate) fn keepalive(keepalives: Since, message: &MessageBuffer) -> Option<MessageRule>
    ensures { (before : List HeadWithOrder) → keepalives ≡ keepalives_of (messages_of before)
        → result ≡ keepalive before (message_of message.now) }
{
    match keepalives {
        Since::Neither | Since::Both => None,
        Since::First => is_keepalive(message).then_some(MessageRule::Keepalive),
    }
}

/// The rule of the interval of KEEPALIVEs, if it is broken. The interval is in seconds, and 0
/// disables KEEPALIVEs.
#[tactic(auto, unfolding(crate::specs::Session::keepalive_interval))]
pub(crate) fn keepalive_interval(message: &MessageBuffer) -> Option<MessageRule>
    ensures { result ≡ keepalive_interval (message_of message.now) }
{
    match message.fields {
        Fields::SessInit { keepalive, .. } if !matches!(keepalive, 0 | 30..=600) => {
            Some(MessageRule::KeepaliveInterval {
                interval: keepalive,
            })
        }
        _ => None,
    }
}

/// Whether a message changes the parameters of a session in which a transfer or an answer came. The
/// first SESS_INIT before the message set `parameters`. `session` says whether a transfer or an
/// answer came since.
#[tactic(auto, using(crate::proofs::Changes::changes_by))]
fn changes_session(parameters: &Option<Parameters>, session: Since, message: &MessageBuffer) -> bool
    ensures { (earlier : List Message) → parameters.now ≡ first_parameters earlier
        → session ≡ session_of earlier
        → result ≡ changes_session earlier (message_of message.now) }
{
    matches!(session, Since::Both) && are_other(parameters, &parameters_of(message))
}

/// The level of a fault of the order of messages. A second SESS_INIT is a `should`, unless it
/// changes the parameters after a transfer or an answer came. Any other fault is a `must`.
///
/// The first SESS_INIT before the message set `parameters`. `session` says whether a transfer or an
/// answer came since.
fn order_level(
    parameters: &Option<Parameters>,
    session: Since,
    message: &MessageBuffer,
    fault: OrderFault,
) -> Level
    ensures { (earlier : List Message) → parameters.now ≡ first_parameters earlier
        → session ≡ session_of earlier
        → result ≡ order_level earlier (message_of message.now) fault }
{
    match fault {
        OrderFault::SecondSessInit if !changes_session(parameters, session, message) => {
            Level::Should
        }
        _ => Level::Must,
    }
}

/// The rule of the order of messages, if it is broken. The first SESS_INIT before the message set
/// `parameters`. `session` says whether a transfer or an answer came since.
#[tactic(auto, unfolding(crate::specs::Session::order))]
#[inline(always)]
pub(crate) fn order(
    parameters: &Option<Parameters>,
    session: Since,
    head: &JudgedHeadView<'_>,
) -> Option<MessageRule>
    ensures { (before : List HeadWithOrder) → parameters.now ≡ first_parameters (messages_of before)
        → session ≡ session_of (messages_of before)
        → result ≡ order before (viewed_head head.now) }
{
    let fault = head.fault?;
    let level = order_level(parameters, session, head.message, fault);
    Some(MessageRule::Order { fault, level })
}

/// The type byte (RFC 9174 section 4.5) of an XFER_ACK, XFER_REFUSE or KEEPALIVE. A sender sends
/// these only after its SESS_INIT. `None` for any other message.
fn type_after_sess_init(message: &MessageBuffer) -> Option<u8>
    ensures { result ≡ type_after_sess_init (message_of message.now) }
{
    match message.fields {
        Fields::Ack { .. } => Some(0x02),
        Fields::Refuse { .. } => Some(0x03),
        Fields::Keepalive => Some(0x04),
        _ => None,
    }
}

/// The rule of messages before a SESS_INIT, if it is broken. `parameters` is `None` if no SESS_INIT
/// came before the message.
#[tactic(auto, unfolding(crate::specs::Session::before_session))]
#[inline(always)]
pub(crate) fn before_session(
    parameters: &Option<Parameters>,
    message: &MessageBuffer,
) -> Option<MessageRule>
    ensures { (before : List HeadWithOrder) → parameters.now ≡ first_parameters (messages_of before)
        → result ≡ before_session before (message_of message.now) }
{
    if parameters.is_some() {
        return None;
    }
    let kind = type_after_sess_init(message)?;
    Some(MessageRule::BeforeSession { kind })
}
