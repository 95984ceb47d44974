//! What follows `dtn:` in the URI of an endpoint (RFC 9171 section 4.2.5.1.1).

ghost use Rattle.std.specs.Prelude.{◌≡◌};
ghost use Rattle.std.specs.Char.{is_ascii_graphic};
ghost use Rattle.std.specs.List.{list_all};
ghost use Rattle.link_rules_shared.specs.DtnNames.{is_dtn_name, demux_of, demux_level};

use crate::level::Level;
use crate::uri::{after_mark, first_of, is_reg_name};

/// Whether all bytes are from 21 to 7e.
fn is_visible(bytes: &[u8]) -> bool
    ensures { result ≡ list_all is_ascii_graphic bytes.now }
{
    bytes.iter().all(|byte| byte.is_ascii_graphic())
}

/// Whether a text is a dtn name: `//`, a node name, `/`, and a demux.
#[tactic(auto, unfolding(crate::specs::DtnNames::is_dtn_name))]
pub fn is_dtn_name(text: &[u8]) -> bool
    ensures { result ≡ is_dtn_name text.now }
{
    let Some(name) = text.strip_prefix(b"//") else {
        return false;
    };
    match first_of(b'/', name) {
        Some(slash) => is_reg_name(&name[..slash]) && is_visible(text),
        None => false,
    }
}

/// The demux of a dtn name: what follows the third slash.
pub fn demux_of(text: &[u8]) -> &[u8]
    ensures { result.now ≡ demux_of text.now }
{
    after_mark(b'/', after_mark(b'/', after_mark(b'/', text)))
}

/// How strictly a demux is forbidden in the name of a node, or `None` for the empty demux, which is
/// allowed.
pub fn demux_level(demux: &[u8]) -> Option<Level>
    ensures { result ≡ demux_level demux.now }
{
    match demux {
        [] => None,
        [b'~', ..] => Some(Level::Must),
        _ => Some(Level::Should),
    }
}
