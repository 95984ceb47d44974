//! Pieces of recorded streams (RFC 9174) and of the lines that list them.

use std::alloc::Global;
use std::str;
use std::test::Fail;

/// A contact header (section 4.2) without flags.
pub const CONTACT: &[u8] = b"dtn!\x04\x00";

/// A SESS_INIT up to its MRUs (section 4.6): its type, keepalive 60 s, MRUs 64 KiB and 1 MiB.
pub const PARAMETERS: &[u8] =
    b"\x07\x00\x3c\x00\x00\x00\x00\x00\x01\x00\x00\x00\x00\x00\x00\x00\x10\x00\x00";

/// A node ID after its length.
pub const NODE: &[u8] = b"\x00\x07ipn:1.0";

/// An empty extension list (section 4.8).
pub const NO_ITEMS: &[u8] = b"\x00\x00\x00\x00";

/// A contact header and a SESS_INIT: 38 bytes.
pub const SESSION: &[&[u8]] = &[CONTACT, PARAMETERS, NODE, NO_ITEMS];

/// A segment up to its data length (section 5.2.2): START and END, transfer 0, no items.
pub const WHOLE_TRANSFER: &[u8] = b"\x01\x03\x00\x00\x00\x00\x00\x00\x00\x00\x00\x00\x00\x00";

/// A segment up to its extension list: START, transfer 0.
pub const FIRST_SEGMENT: &[u8] = b"\x01\x02\x00\x00\x00\x00\x00\x00\x00\x00";

/// A segment up to its data length: END, transfer 0.
pub const LAST_SEGMENT: &[u8] = b"\x01\x01\x00\x00\x00\x00\x00\x00\x00\x00";

/// The data length 34.
pub const LENGTH_34: &[u8] = b"\x00\x00\x00\x00\x00\x00\x00\x22";

/// The data length 17.
pub const LENGTH_17: &[u8] = b"\x00\x00\x00\x00\x00\x00\x00\x11";

/// The first half of a bundle of 34 bytes (RFC 9171 section 4).
///
/// The bundle goes from ipn:1.1 to ipn:2.1, and its payload is `hello`.
pub const FRONT: &[u8] = b"\x9f\x88\x07\x00\x00\x82\x02\x82\x02\x01\x82\x02\x82\x01\x01\x82\x01";

/// The second half of the bundle.
pub const BACK: &[u8] = b"\x00\x82\x00\x00\x00\x85\x01\x01\x00\x00\x45hello\xff";

/// The bundle, in two halves.
pub const PLAIN: &[&[u8]] = &[FRONT, BACK];

/// The first 10 bytes of the bundle.
pub const FIRST_10: &[u8] = b"\x9f\x88\x07\x00\x00\x82\x02\x82\x02\x01";

/// The second half of the bundle with a CRC-16/X-25 in the payload block.
pub const CHECKED_BACK: &[u8] =
    b"\x00\x82\x00\x00\x00\x86\x01\x01\x00\x01\x45hello\x42\x4b\xf3\xff";

/// `CHECKED_BACK` with another first byte of the payload.
pub const CHANGED_BACK: &[u8] =
    b"\x00\x82\x00\x00\x00\x86\x01\x01\x00\x01\x45iello\x42\x4b\xf3\xff";

pub const CONTACT_LINE: &[u8] = b"0 contact version=4 flags=00\n";

/// The line of a SESS_INIT at offset 6, up to its node ID.
pub const SESSION_WORDS: &[u8] = b"6 sess-init keepalive=60 segment-mru=65536 transfer-mru=1048576";

pub const SESSION_LINE: &[u8] =
    b"6 sess-init keepalive=60 segment-mru=65536 transfer-mru=1048576 node=ipn:1.0 items=0\n";

/// The offset at which the first read of a source ends.
pub const EDGE: usize = 8192;

/// Appends the pieces, one after another.
fn append(bytes: &mut Vec<u8>, pieces: &[&[u8]]) -> Result<(), Fail> {
    for piece in pieces {
        bytes.extend_from_slice(piece)?;
    }
    Ok(())
}

/// The pieces, joined.
pub fn joined(alloc: Global, pieces: &[&[u8]]) -> Result<Vec<u8>, Fail> {
    let mut bytes = Vec::new(alloc);
    append(&mut bytes, pieces)?;
    Ok(bytes)
}

/// A part of a stream.
#[derive(Clone, Copy)]
pub enum Part {
    /// The bytes of these pieces, joined.
    Bytes(&'static [&'static [u8]]),
    /// A segment without extension items: its flags, its transfer ID and the pieces of its data.
    Segment(u8, u64, &'static [&'static [u8]]),
    /// A segment with START of transfer 0: the pieces of its extension list, with the list's
    /// length, and the pieces of its data.
    Listed(&'static [&'static [u8]], &'static [&'static [u8]]),
}

/// Appends a segment (section 5.2.2), with an empty extension list if it has START.
pub fn put_segment(stream: &mut Vec<u8>, flags: u8, id: u64, data: &[&[u8]]) -> Result<(), Fail> {
    if flags & 2 != 0 {
        put_listed(stream, flags, id, &[NO_ITEMS], data)
    } else {
        put_listed(stream, flags, id, &[], data)
    }
}

/// Appends a segment with the pieces of its extension list. Without START there are none.
fn put_listed(
    stream: &mut Vec<u8>,
    flags: u8,
    id: u64,
    list: &[&[u8]],
    data: &[&[u8]],
) -> Result<(), Fail> {
    stream.extend_from_slice(&[1, flags])?;
    stream.extend_from_slice(&id.to_be_bytes())?;
    append(stream, list)?;
    let mut length: u64 = 0;
    for piece in data {
        length = length.saturating_add(piece.len() as u64);
    }
    stream.extend_from_slice(&length.to_be_bytes())?;
    append(stream, data)
}

/// The bytes of the parts, joined.
pub fn built(alloc: Global, parts: &[Part]) -> Result<Vec<u8>, Fail> {
    let mut stream = Vec::new(alloc);
    for part in parts {
        match *part {
            Part::Bytes(pieces) => append(&mut stream, pieces)?,
            Part::Segment(flags, id, data) => put_segment(&mut stream, flags, id, data)?,
            Part::Listed(list, data) => put_listed(&mut stream, 2, 0, list, data)?,
        }
    }
    Ok(stream)
}

/// Bytes that were written, as a text that an assertion can show.
pub fn text(bytes: &[u8]) -> Result<&str, Fail> {
    Ok(str::from_utf8(bytes)?)
}
