//! The characters of URIs, and registered names (RFC 3986).

ghost use Rattle.std.specs.Prelude.{◌≡◌};
ghost use Rattle.std.specs.List.{list_all};
ghost use Rattle.link_rules_shared.specs.Uri.{first_of, after_mark, before_mark, is_word, is_uri_byte, begins_octet, has_whole_escapes, are_uri_bytes, is_name_byte, is_reg_name};

/// The bytes from 21 to 7e that are in no URI (section 2).
const OTHERS: [u8; 9] = *b"\"<>\\^`{|}";

/// The bytes that delimit the parts of a URI (section 2.2).
const DELIMITERS: [u8; 7] = *b":/?#[]@";

/// The index of the first byte that is `mark`.
pub fn first_of(mark: u8, bytes: &[u8]) -> Option<usize>
    ensures { result ≡ first_of mark bytes.now }
{
    bytes.iter().position(|byte| *byte == mark)
}

/// The bytes after the first byte that is `mark`, or all if there is none.
pub fn after_mark(mark: u8, bytes: &[u8]) -> &[u8]
    ensures { result.now ≡ after_mark mark bytes.now }
{
    match first_of(mark, bytes) {
        Some(at) => &bytes[at + 1..],
        None => bytes,
    }
}

/// The bytes before the first byte that is `mark`, or all if there is none.
pub fn before_mark(mark: u8, bytes: &[u8]) -> &[u8]
    ensures { result.now ≡ before_mark mark bytes.now }
{
    match first_of(mark, bytes) {
        Some(at) => &bytes[..at],
        None => bytes,
    }
}

/// Whether a text is this word, whatever the case of its letters.
#[tactic(auto, unfolding(crate::specs::Uri::is_word))]
pub fn is_word(word: &[u8], text: &[u8]) -> bool
    ensures { result ≡ is_word word.now text.now }
{
    text.eq_ignore_ascii_case(word)
}

/// Whether a byte may be in a URI (section 2).
#[tactic(auto, unfolding(crate::specs::Uri::is_uri_byte))]
fn is_uri_byte(byte: u8) -> bool
    ensures { result ≡ is_uri_byte byte }
{
    byte.is_ascii_graphic() && !OTHERS.contains(&byte)
}

/// Whether the bytes begin with two hexadecimal digits.
fn begins_octet(bytes: &[u8]) -> bool
    ensures { result ≡ begins_octet bytes.now }
{
    match bytes {
        [high, low, ..] => high.is_ascii_hexdigit() && low.is_ascii_hexdigit(),
        _ => false,
    }
}

/// Whether two hexadecimal digits come after each `%` (section 2.1).
fn has_whole_escapes(bytes: &[u8]) -> bool
    ensures { result ≡ has_whole_escapes bytes.now }
{
    for (at, byte) in bytes.iter().enumerate() {
        if *byte == b'%' && !begins_octet(&bytes[at + 1..]) {
            return false;
        }
    }
    true
}

/// Whether each byte may be in a URI. An escape is not judged here.
fn all_in_uri(bytes: &[u8]) -> bool
    ensures { result ≡ list_all is_uri_byte bytes.now }
{
    bytes.iter().all(|byte| is_uri_byte(*byte))
}

/// Whether bytes may be in a URI: each may be in one (RFC 3986 section 2), and each `%` begins an
/// escape of two hexadecimal digits (section 2.1).
#[tactic(auto, unfolding(crate::specs::Uri::are_uri_bytes))]
pub fn are_uri_bytes(bytes: &[u8]) -> bool
    ensures { result ≡ are_uri_bytes bytes.now }
{
    all_in_uri(bytes) && has_whole_escapes(bytes)
}

/// Whether a byte may be in a registered name (section 3.2.2).
fn is_name_byte(byte: u8) -> bool
    ensures { result ≡ is_name_byte byte }
{
    is_uri_byte(byte) && !DELIMITERS.contains(&byte)
}

/// Whether each byte may be in a registered name. An escape is not judged here.
fn all_in_name(bytes: &[u8]) -> bool
    ensures { result ≡ list_all is_name_byte bytes.now }
{
    bytes.iter().all(|byte| is_name_byte(*byte))
}

/// Whether bytes are a registered name, which may be empty (section 3.2.2).
#[tactic(auto, unfolding(crate::specs::Uri::is_reg_name))]
pub fn is_reg_name(bytes: &[u8]) -> bool
    ensures { result ≡ is_reg_name bytes.now }
{
    all_in_name(bytes) && has_whole_escapes(bytes)
}
