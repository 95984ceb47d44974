//! Names in escaped text.

ghost use Rattle.std.specs.Prelude.{◌≡◌, ◌≢◌, ℕ, ◌<◌, ◌≤◌, List, [], ◌∷◌, ◌++◌, length, IfSome, IfNone};
ghost use Rattle.link_io.specs.Bytes.{AreBytes};
ghost use Rattle.link_report.specs.Text.{escaped, escaped_byte, hex2, hex_digit, is_plain};

use crate::prefix::after;
use arrayvec::ArrayVec;
use link_bundle_types::EID_LIMIT;

/// Whether a byte stays as it is in an escaped text.
#[tactic(auto, unfolding(link_report::specs::Text::is_plain))]
fn is_plain(byte: u8) -> bool
    ensures { result ≡ is_plain byte }
{
    byte.is_ascii_graphic() && byte != b'\\'
}

/// The number of a lower-case hexadecimal digit, or `None` for any other byte.
#[tactic(auto, using(crate::proofs::Escapes::digits))]
fn read_digit(digit: u8) -> Option<u8>
    ensures some { IfSome result (λ number. hex_digit number ≡ digit) }
    ensures below { IfSome result (λ number. number < 16) }
    ensures none { IfNone result ((number : ℕ) → number < 16 → hex_digit number ≢ digit) }
{
    match digit {
        b'0'..=b'9' => Some(digit - b'0'),
        b'a'..=b'f' => Some(digit - b'a' + 10),
        _ => None,
    }
}

/// The byte that two lower-case hexadecimal digits show, or `None` for other bytes.
fn read_hex2(high: u8, low: u8) -> Option<u8>
    ensures some { IfSome result (λ byte. hex2 byte ≡ high ∷ low ∷ []) }
    ensures fits { IfSome result (λ byte. byte < 256) }
    ensures none { IfNone result ((byte : ℕ) → byte < 256 → hex2 byte ≢ high ∷ low ∷ []) }
{
    let high = read_digit(high)?;
    let low = read_digit(low)?;
    Some(16 * high + low)
}

/// The byte that an escaped text begins with, and the text after the byte. `None` if the text
/// begins neither with a plain byte nor with the escape of another one.
fn read_byte(text: &[u8]) -> Option<(u8, &[u8])>
    ensures some { IfSome result (λ read. text.now ≡ escaped_byte read.0 ++ read.1.now) }
    ensures fits { IfSome result (λ read. read.0 < 256) }
    ensures none { IfNone result ((byte : ℕ) (more : List ℕ) → byte < 256
        → text.now ≢ escaped_byte byte ++ more) }
{
    if let Some(escape) = after(b"\\x", text) {
        let [high, low, rest @ ..] = escape else {
            return None;
        };
        let byte = read_hex2(*high, *low)?;
        return if is_plain(byte) {
            None
        } else {
            Some((byte, rest))
        };
    }
    let (first, rest) = text.split_first()?;
    if is_plain(*first) {
        Some((*first, rest))
    } else {
        None
    }
}

/// The name of at most 1,024 bytes whose escaped text this is, if there is one.
pub(crate) fn read_name(text: &[u8]) -> Option<ArrayVec<u8, EID_LIMIT>>
    ensures some { IfSome result (λ name. AreBytes name.items × (escaped name.items ≡ text.now)) }
    ensures none { IfNone result ((name : List ℕ) → AreBytes name → length name ≤ 1024
        → escaped name ≢ text.now) }
{
    let mut name = ArrayVec::new();
    let mut rest = text;
    while !rest.is_empty() {
        let (byte, more) = read_byte(rest)?;
        if name.is_full() {
            return None;
        }
        name.push(byte);
        rest = more;
    }
    Some(name)
}
