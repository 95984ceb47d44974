//! Rules of node IDs.

ghost use Rattle.std.specs.Prelude.{◌≡◌};
ghost use Rattle.link_wire.specs.MessageBuffer.{message_of};
ghost use Rattle.link_session_rules.specs.NodeIds.{node_id, ends_in_zero, name_level, node_name};

use crate::rule::MessageRule;
use link_rules_shared::{
    Level, after_mark, demux_level, demux_of, first_of, is_unjudged, is_uri, is_word,
};
use link_wire::{Fields, MessageBuffer};

/// The rule of the syntax of node IDs, if it is broken. An empty node ID keeps it.
#[tactic(auto, unfolding(crate::specs::NodeIds::node_id))]
pub(crate) fn node_id(message: &MessageBuffer) -> Option<MessageRule>
    ensures { result ≡ node_id (message_of message.now) }
{
    let Fields::SessInit { .. } = message.fields else {
        return None;
    };
    let node = message.node.as_slice();
    if node.is_empty() || is_uri(node) {
        return None;
    }
    Some(MessageRule::NodeId {
        length: node.len() as u64,
    })
}

/// Whether the last of two or three numbers is 0. After two numbers, there is no second point, so
/// the second `after_mark` leaves all bytes.
fn ends_in_zero(part: &[u8]) -> bool
    ensures { result ≡ ends_in_zero part.now }
{
    let last = after_mark(b'.', after_mark(b'.', part));
    last.iter().all(|digit| *digit == b'0')
}

/// How strictly a name is forbidden as a node ID, or `None` if it may be one. The name keeps the
/// syntax of its scheme, and `part` is what follows the colon.
///
/// A dtn name is judged by its demux, and dtn:none names no node. An ipn name is allowed if its
/// last number is 0, and is not judged if `part` begins with `!`. Schemes other than dtn and ipn
/// name no node.
#[tactic(auto, unfolding(crate::specs::NodeIds::name_level))]
fn name_level(scheme: &[u8], part: &[u8]) -> Option<Level>
    ensures { result ≡ name_level scheme.now part.now }
{
    if is_word(b"dtn", scheme) {
        if is_word(b"none", part) {
            return Some(Level::Should);
        }
        return demux_level(demux_of(part));
    }
    if is_word(b"ipn", scheme) && (is_unjudged(part) || ends_in_zero(part)) {
        return None;
    }
    Some(Level::Should)
}

/// The rule of the names of nodes, if it is broken. A node ID that is no URI is not judged.
#[tactic(auto, unfolding(crate::specs::NodeIds::node_name))]
pub(crate) fn node_name(message: &MessageBuffer) -> Option<MessageRule>
    ensures { result ≡ node_name (message_of message.now) }
{
    let Fields::SessInit { .. } = message.fields else {
        return None;
    };
    let node = message.node.as_slice();
    let colon = first_of(b':', node)?;
    if !is_uri(node) {
        return None;
    }
    let level = name_level(&node[..colon], &node[colon + 1..])?;
    Some(MessageRule::NodeName {
        length: node.len() as u64,
        level,
    })
}
