//! The syntax of node IDs, which are URIs.

ghost use Rattle.std.specs.Prelude.{◌≡◌};
ghost use Rattle.std.specs.{Char.is_ascii_digit, List.list_all};
ghost use Rattle.link_rules_shared.specs.NodeIds.{is_scheme_byte, is_scheme, is_dtn_part, is_number, are_two, are_three_at, is_unjudged, is_ipn_part, is_of_scheme, is_uri};
ghost use Rattle.link_rules_shared.specs.Uri.{first_of};

use crate::dtn::is_dtn_name;
use crate::uri::{are_uri_bytes, first_of, is_word};

/// Whether a byte may be in a scheme after its first (RFC 3986 section 3.1).
fn is_scheme_byte(byte: u8) -> bool
    ensures { result ≡ is_scheme_byte byte }
{
    byte.is_ascii_alphanumeric() || byte == b'+' || byte == b'-' || byte == b'.'
}

/// Whether all bytes may be in a scheme after its first.
fn are_scheme_bytes(bytes: &[u8]) -> bool
    ensures { result ≡ list_all is_scheme_byte bytes.now }
{
    bytes.iter().all(|byte| is_scheme_byte(*byte))
}

/// Whether bytes are the scheme of a URI (RFC 3986 section 3.1).
fn is_scheme(bytes: &[u8]) -> bool
    ensures { result ≡ is_scheme bytes.now }
{
    match bytes {
        [] => false,
        [first, rest @ ..] => first.is_ascii_alphabetic() && are_scheme_bytes(rest),
    }
}

/// Whether bytes may follow `dtn:` (RFC 9171 section 4.2.5.1.1).
#[tactic(auto, unfolding(crate::specs::NodeIds::is_dtn_part))]
fn is_dtn_part(part: &[u8]) -> bool
    ensures { result ≡ is_dtn_part part.now }
{
    is_word(b"none", part) || is_dtn_name(part)
}

/// Whether all bytes are decimal digits. It is true for no bytes.
fn are_digits(bytes: &[u8]) -> bool
    ensures { result ≡ list_all is_ascii_digit bytes.now }
{
    bytes.iter().all(|byte| byte.is_ascii_digit())
}

/// Whether bytes are a decimal number.
pub(crate) fn is_number(digits: &[u8]) -> bool
    ensures { result ≡ is_number digits.now }
{
    !digits.is_empty() && are_digits(digits)
}

/// Whether bytes are two decimal numbers with a point between.
pub(crate) fn are_two(part: &[u8]) -> bool
    ensures { result ≡ are_two part.now }
{
    match first_of(b'.', part) {
        Some(point) => is_number(&part[..point]) && is_number(&part[point + 1..]),
        None => false,
    }
}

/// Whether bytes are three decimal numbers with points between.
fn are_three(part: &[u8]) -> bool
    ensures { result ≡ are_three_at (first_of 0x2e part.now) part.now }
{
    match first_of(b'.', part) {
        Some(point) => is_number(&part[..point]) && are_two(&part[point + 1..]),
        None => false,
    }
}

/// Whether what follows `ipn:` is accepted without a look at it, since it begins with `!`.
pub fn is_unjudged(part: &[u8]) -> bool
    ensures { result ≡ is_unjudged part.now }
{
    part.starts_with(b"!")
}

/// Whether bytes may follow `ipn:` (RFC 9171 section 4.2.5.1.2).
#[tactic(auto, unfolding(crate::specs::NodeIds::is_ipn_part))]
fn is_ipn_part(part: &[u8]) -> bool
    ensures { result ≡ is_ipn_part part.now }
{
    is_unjudged(part) || are_two(part) || are_three(part)
}

/// Whether bytes may follow this scheme and a colon. In an unknown scheme, all bytes may.
fn is_of_scheme(scheme: &[u8], part: &[u8]) -> bool
    ensures { result ≡ is_of_scheme scheme.now part.now }
{
    if is_word(b"dtn", scheme) {
        return is_dtn_part(part);
    }
    if is_word(b"ipn", scheme) {
        return is_ipn_part(part);
    }
    true
}

/// Whether bytes are a URI (RFC 3986 section 3) with the syntax of its scheme.
#[tactic(auto, unfolding(crate::specs::NodeIds::is_uri))]
pub fn is_uri(node: &[u8]) -> bool
    ensures { result ≡ is_uri node.now }
{
    match first_of(b':', node) {
        Some(colon) => {
            is_scheme(&node[..colon])
                && are_uri_bytes(node)
                && is_of_scheme(&node[..colon], &node[colon + 1..])
        }
        None => false,
    }
}
