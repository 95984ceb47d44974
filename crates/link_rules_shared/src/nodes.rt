//! Which node a node ID names, and which endpoint IDs are of this node.

ghost use Rattle.std.specs.Prelude.{◌≡◌};
ghost use Rattle.link_bundle_types.specs.EidView.{viewed_eid};
ghost use Rattle.link_rules_shared.specs.Nodes.{part_names_node, names_node, node_name_of, is_same_dtn_node, is_decimal_of, is_same_ipn_node, is_node_of_part, is_node_of};

use crate::dtn::is_dtn_name;
use crate::node_id::{are_two, is_number, is_unjudged, is_uri};
use crate::uri::{after_mark, before_mark, is_word};
use link_bundle_types::EidView;

/// Whether a URI of this scheme, with `part` after its colon, names a node.
fn part_names_node(scheme: &[u8], part: &[u8]) -> bool
    ensures { result ≡ part_names_node scheme.now part.now }
{
    (is_word(b"dtn", scheme) && !is_word(b"none", part))
        || (is_word(b"ipn", scheme) && !is_unjudged(part))
}

/// Whether a text names a node (RFC 9174 section 4.6, RFC 9171 section 4.2.5.2).
///
/// A URI of scheme dtn does, unless it is `dtn:none`. So does one of scheme ipn, unless `!` follows
/// the colon. Neither a demux nor a service number matters.
#[tactic(auto, unfolding(crate::specs::Nodes::names_node))]
pub fn names_node(text: &[u8]) -> bool
    ensures { result ≡ names_node text.now }
{
    is_uri(text) && part_names_node(before_mark(b':', text), after_mark(b':', text))
}

/// The node name of a dtn name: what is between `//` and the next `/`.
fn node_name_of(name: &[u8]) -> &[u8]
    ensures { result.now ≡ node_name_of name.now }
{
    before_mark(b'/', name.get(2..).unwrap_or_default())
}

/// Whether `name` is a dtn name with the node name of `part`.
fn is_same_dtn_node(part: &[u8], name: &[u8]) -> bool
    ensures { result ≡ is_same_dtn_node part.now name.now }
{
    is_dtn_name(name) && is_word(node_name_of(part), node_name_of(name))
}

/// Whether bytes are decimal digits with this value. Leading zeros do not count.
#[tactic(auto, unfolding(crate::specs::Nodes::is_decimal_of))]
fn is_decimal_of(number: u64, digits: &[u8]) -> bool
    ensures { result ≡ is_decimal_of number digits.now }
{
    // `parse` also accepts a plus sign.
    if !is_number(digits) {
        return false;
    }
    let Ok(text) = str::from_utf8(digits) else {
        return false;
    };
    match text.parse::<u64>() {
        Ok(value) => value == number,
        Err(_) => false,
    }
}

/// Whether two or three numbers have this allocator and this node. With two, the allocator is 0.
fn is_same_ipn_node(part: &[u8], allocator: u64, node: u64) -> bool
    ensures { result ≡ is_same_ipn_node part.now allocator node }
{
    let first = before_mark(b'.', part);
    if are_two(part) {
        return allocator == 0 && is_decimal_of(node, first);
    }
    let second = before_mark(b'.', after_mark(b'.', part));
    is_decimal_of(allocator, first) && is_decimal_of(node, second)
}

/// Whether an endpoint ID is one of the node that a URI of this scheme, with `part` after its
/// colon, names.
fn is_node_of_part(scheme: &[u8], part: &[u8], eid: &EidView<'_>) -> bool
    ensures { result ≡ is_node_of_part scheme.now part.now (viewed_eid eid.now) }
{
    match eid {
        EidView::DtnNone => false,
        EidView::Dtn(name) => is_word(b"dtn", scheme) && is_same_dtn_node(part, name),
        EidView::Ipn(node, _) => is_word(b"ipn", scheme) && is_same_ipn_node(part, 0, *node),
        EidView::Ipn3(allocator, node, _) => {
            is_word(b"ipn", scheme) && is_same_ipn_node(part, *allocator, *node)
        }
    }
}

/// Whether a text names a node, as [`names_node`] says, and an endpoint ID is one of this node.
///
/// Both have one scheme. For dtn, they have one node name, whatever the case of letters. For ipn,
/// they have one allocator identifier, which is 0 if it is absent, and one node number.
#[tactic(auto, unfolding(crate::specs::Nodes::is_node_of))]
pub fn is_node_of(text: &[u8], eid: &EidView<'_>) -> bool
    ensures { result ≡ is_node_of text.now (viewed_eid eid.now) }
{
    names_node(text) && is_node_of_part(before_mark(b':', text), after_mark(b':', text), eid)
}
