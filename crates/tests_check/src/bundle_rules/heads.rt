//! Walks over heads, at once, byte by byte, and in two pieces cut at every position.
//!
//! The rows are encoded by hand from RFC 8949 section 3. In `ROWS`, each row except the empty one
//! begins with the array head of a bundle, which is passed over.
ghost use Rattle.std.specs.Prelude.{◌≤◌, length};

use link_rules_shared::{HeadWalk, Prefix, Unread};
use std::process::Abort;

/// The bytes of a bundle, the offset of its first head that is longer than its number needs, and
/// those of its first heads that are not read.
type Row = (&'static [u8], Option<u64>, Seen);

/// Heads that are not read, by the offset of the first one.
#[derive(Clone, Copy, Debug)]
pub(crate) enum Seen {
    Nothing,
    /// A byte string of indefinite length.
    String(u64),
    /// A text, an array or a map of indefinite length.
    Item(u64),
    /// Tag 24 in two bytes.
    Encoded(u64),
    /// One of each.
    Each(u64, u64, u64),
    /// Tag 55799 before a bundle.
    Tagged,
}

/// What is not read of a bundle.
pub(crate) fn unread_of(seen: Seen) -> Unread {
    let (string, item, encoded) = match seen {
        Seen::Nothing | Seen::Tagged => (None, None, None),
        Seen::String(at) => (Some(at), None, None),
        Seen::Item(at) => (None, Some(at), None),
        Seen::Encoded(at) => (None, None, Some(at)),
        Seen::Each(string, item, encoded) => (Some(string), Some(item), Some(encoded)),
    };
    Unread {
        string,
        item,
        encoded,
        tagged: matches!(seen, Seen::Tagged),
    }
}

static ROWS: [Row; 47] = [
    (b"", None, Seen::Nothing),
    (b"\x9f", None, Seen::Nothing),
    (b"\x9f\x00\x17\x37\x83\xa2\xc1\xf5\xff", None, Seen::Nothing),
    // The least and the greatest number in each size
    (b"\x9f\x18\x18\x18\xff", None, Seen::Nothing),
    (b"\x9f\x19\x01\x00\x19\xff\xff", None, Seen::Nothing),
    (
        b"\x9f\x1a\x00\x01\x00\x00\x1a\xff\xff\xff\xff",
        None,
        Seen::Nothing,
    ),
    (
        b"\x9f\x1b\x00\x00\x00\x01\x00\x00\x00\x00",
        None,
        Seen::Nothing,
    ),
    (
        b"\x9f\x1b\xff\xff\xff\xff\xff\xff\xff\xff",
        None,
        Seen::Nothing,
    ),
    (b"\x9f\xf8\x20", None, Seen::Nothing),
    // The least and the greatest number that needs fewer bytes
    (b"\x9f\x18\x00", Some(1), Seen::Nothing),
    (b"\x9f\x00\x18\x17", Some(2), Seen::Nothing),
    (b"\x9f\x19\x00\x00", Some(1), Seen::Nothing),
    (b"\x9f\x00\x19\x00\xff", Some(2), Seen::Nothing),
    (b"\x9f\x1a\x00\x00\x00\x00", Some(1), Seen::Nothing),
    (b"\x9f\x00\x1a\x00\x00\xff\xff", Some(2), Seen::Nothing),
    (
        b"\x9f\x1b\x00\x00\x00\x00\x00\x00\x00\x00",
        Some(1),
        Seen::Nothing,
    ),
    (
        b"\x9f\x00\x1b\x00\x00\x00\x00\xff\xff\xff\xff",
        Some(2),
        Seen::Nothing,
    ),
    // A long head of each other major type, and another one after it
    (b"\x9f\x38\x17\x18\x00", Some(1), Seen::Nothing),
    (b"\x9f\x58\x01\xff\x18\x00", Some(1), Seen::Nothing),
    (b"\x9f\x78\x01\xff\x18\x00", Some(1), Seen::Nothing),
    (b"\x9f\x98\x02\x18\x00", Some(1), Seen::Nothing),
    (b"\x9f\xb8\x01\x18\x00", Some(1), Seen::Nothing),
    (b"\x9f\xd8\x01\x18\x00", Some(1), Seen::Nothing),
    // Strings, arrays and maps of indefinite length. The break is none of them.
    (b"\x9f\x00\x5f\x41\x00\xff\x00", None, Seen::String(2)),
    (b"\x9f\x00\x7f\x61\x61\xff\x18\x00", Some(6), Seen::Item(2)),
    (b"\x9f\x18\x00\x9f\xff\x19\x00\x00", Some(1), Seen::Item(3)),
    (b"\x9f\xbf\xff", None, Seen::Item(1)),
    // The first one of each kind
    (
        b"\x9f\x5f\x5f\x7f\x9f\xd8\x18\xd8\x18\x18\x00\x18\x00",
        Some(9),
        Seen::Each(1, 3, 5),
    ),
    // Tag 24 in two bytes, and in three. Another tag, and other items of the value 24
    (b"\x9f\x00\xd8\x18\x41\x05", None, Seen::Encoded(2)),
    (b"\x9f\x00\xd9\x00\x18\x41\x05", Some(2), Seen::Nothing),
    (
        b"\x9f\xd8\x19\x18\x18\x38\x18\xd8\x18",
        None,
        Seen::Encoded(7),
    ),
    (b"\x9f\x98\x18\xb8\x18\x58\x18", None, Seen::Nothing),
    // The bytes of a string are no heads
    (b"\x9f\x42\x18\x00\x00", None, Seen::Nothing),
    (b"\x9f\x43\x18\x00\x5f\x18\x01\x9f", Some(5), Seen::Item(7)),
    (b"\x9f\x42\xd8\x18\xd8\x18", None, Seen::Encoded(4)),
    (b"\x9f\x63\x5f\x18\x00\x00\x7f", None, Seen::Item(6)),
    (
        b"\x9f\x58\x18\x18\x00\x18\x00\x18\x00\x18\x00\x18\x00\x18\x00\x18\x00\x18\x00\x18\x00\
        \x18\x00\x18\x00\x18\x00\x19\x00\x00",
        Some(27),
        Seen::Nothing,
    ),
    (
        b"\x9f\x5b\xff\xff\xff\xff\xff\xff\xff\xff\x18\x00\x5f",
        None,
        Seen::Nothing,
    ),
    // There is no head after one that is ill-formed
    (b"\x9f\x1c\x18\x00\x5f", None, Seen::Nothing),
    (b"\x9f\x1f\x18\x00\x5f", None, Seen::Nothing),
    (b"\x9f\xf8\x1f\x18\x00\x5f", None, Seen::Nothing),
    (
        b"\x9f\x18\x00\x5f\x3e\x19\x00\x00",
        Some(1),
        Seen::String(3),
    ),
    // A head that is cut
    (b"\x9f\x18", None, Seen::Nothing),
    (b"\x9f\xd8", None, Seen::Nothing),
    (b"\x9f\x5a\x00\x00\x00", None, Seen::Nothing),
    (b"\x9f\x1b\x00\x00\x00\x00\x00\x00\x00", None, Seen::Nothing),
    (b"\x9f\x18\x00\x19\x00", Some(1), Seen::Nothing),
];

/// Walks over the bytes one by one.
fn by_bytes(walk: &mut HeadWalk, bytes: &[u8]) {
    walk.restart();
    for byte in bytes {
        walk.take(&[*byte]);
    }
}

/// Walks over the bytes in two pieces.
fn in_two(walk: &mut HeadWalk, bytes: &[u8], cut: usize)
    requires { cut ≤ length bytes.now }
{
    walk.restart();
    walk.take(&bytes[..cut]);
    walk.take(&bytes[cut..]);
}

/// Compares what a walk has found with what it has to find.
fn compare(rt: &impl Abort, walk: &HeadWalk, row: &Row) {
    let (bytes, long, seen) = *row;
    assert_eq!(rt; walk.first_long(), long, "{bytes:?}");
    assert_eq!(rt; walk.unread(false), unread_of(seen), "{bytes:?}");
}

/// Walks over the bytes of a row, in pieces of each size.
fn expect(rt: &impl Abort, row: &Row) {
    let (bytes, ..) = *row;
    let mut walk = HeadWalk::new();
    walk.take(bytes);
    compare(rt, &walk, row);
    by_bytes(&mut walk, bytes);
    compare(rt, &walk, row);
    for cut in 0..bytes.len() {
        in_two(&mut walk, bytes, cut);
        compare(rt, &walk, row);
    }
}

#[test]
fn each_row_is_found(rt: HostRuntime) {
    for row in &ROWS {
        expect(&rt, row);
    }
}

/// The first bytes of a bundle, and whether they are tag 55799 and an array of indefinite length.
static PREFIXES: [(&[u8], bool); 12] = [
    (b"", false),
    (b"\xd9", false),
    (b"\xd9\xd9", false),
    (b"\xd9\xd9\xf7", false),
    (b"\xd9\xd9\xf7\x9f", true),
    (b"\xd9\xd9\xf7\x9f\x89\x07\x00", true),
    // Other arrays, and another tag
    (b"\xd9\xd9\xf7\x98", false),
    (b"\xd9\xd9\xf7\x89\x9f", false),
    (b"\xd9\xd9\xf8\x9f", false),
    (b"\xd8\xd9\xf7\x9f", false),
    // The tag twice, and in a bundle
    (b"\xd9\xd9\xf7\xd9\xd9\xf7\x9f", false),
    (b"\x9f\xd9\xd9\xf7\x9f", false),
];

/// Takes the bytes of the next bundle, in two pieces.
fn prefix_in_two(prefix: &mut Prefix, bytes: &[u8], cut: usize)
    requires { cut ≤ length bytes.now }
{
    prefix.restart();
    prefix.take(&bytes[..cut]);
    prefix.take(&bytes[cut..]);
}

/// Compares whether the bytes begin with the tag, in two pieces cut at every position.
fn expect_prefix(rt: &impl Abort, prefix: &mut Prefix, bytes: &[u8], tagged: bool) {
    for cut in 0..=bytes.len() {
        prefix_in_two(prefix, bytes, cut);
        assert_eq!(rt; prefix.is_tagged(), tagged, "{bytes:?}");
    }
}

#[test]
fn each_prefix_is_tagged_or_not(rt: HostRuntime) {
    let mut prefix = Prefix::new();
    for &(bytes, tagged) in &PREFIXES {
        expect_prefix(&rt, &mut prefix, bytes, tagged);
        let unread = HeadWalk::new().unread(tagged);
        assert_eq!(rt; unread.tagged, tagged);
    }
}
