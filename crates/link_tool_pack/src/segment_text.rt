//! Segments as texts, which are made where the output has room for them.

ghost use Rattle.std.specs.Prelude.{◌≡◌, ◌+◌, ◌≤◌, ◌++◌, length, take};
ghost use Rattle.link_wire.specs.Spelling.{list_bytes, segment_head_bytes};
ghost use Rattle.link_writing.specs.Numbers.{be};
ghost use Rattle.link_tool_pack.specs.Segments.{flags_of};

use byteorder::{BigEndian, ByteOrder};
use link_transfer::Cut;
use link_wire::{END, START, Text, copy_into};

/// The most bytes of a chunk that is written in one text with its head.
pub const CHUNK_MAX: usize = 8192;

/// The type byte of an XFER_SEGMENT (RFC 9174 section 4.5).
const XFER_SEGMENT: u8 = 1;

/// An extension list up to the value of its one item, a Transfer Length item: the length of the
/// list, and the item's flags, type and length (RFC 9174 section 5.2.5.1).
const TOTAL_HEAD: [u8; 9] = [0, 0, 0, 13, 0, 0, 1, 0, 8];

/// A chunk as a segment: its head, and then the chunk.
#[derive(Drop)]
pub struct SegmentText<'a> {
    /// The ID of the transfer.
    pub id: u64,
    pub cut: Cut,
    pub chunk: &'a [u8],
    ghost short: { length chunk.now ≤ 8192 },
}

/// The head of a chunk's segment.
#[derive(Drop)]
pub struct HeadText<'a> {
    /// The ID of the transfer.
    pub id: u64,
    pub cut: Cut,
    pub chunk: &'a [u8],
}

impl<'a> Text for SegmentText<'a> {
    ghost use Rattle.link_tool_pack.specs.Segments.{segment_bytes};

    ghost text = { λ segment. segment_bytes segment.id segment.cut segment.chunk.now };

    /// Writes the segment into the page at index `at`, and returns the index after it.
    #[inline(always)]
    fn put(&self, page: &mut [u8], at: usize) -> usize {
        let at = put_head(page, at, self.id, self.cut, self.chunk.len() as u64);
        copy_into(page, at, self.chunk)
    }
}

impl<'a> Text for HeadText<'a> {
    ghost use Rattle.std.specs.Prelude.{length};
    ghost use Rattle.link_wire.specs.Spelling.{segment_head_bytes};
    ghost use Rattle.link_tool_pack.specs.Segments.{flags_of};

    ghost text = { λ head.
        segment_head_bytes (flags_of head.cut.first head.cut.last) head.id
        (length head.chunk.now) head.cut.announce };

    /// Writes only the head into the page at index `at`, and returns the index after it.
    #[inline(always)]
    fn put(&self, page: &mut [u8], at: usize) -> usize {
        put_head(page, at, self.id, self.cut, self.chunk.len() as u64)
    }
}

/// The flags of a chunk's segment (RFC 9174 section 5.2.2).
#[inline(always)]
fn flags(cut: Cut) -> u8
    ensures { result ≡ flags_of cut.first cut.last }
{
    let start = if cut.first { START } else { 0 };
    let end = if cut.last { END } else { 0 };
    start | end
}

/// Writes a number as eight bytes, big-endian, and returns the index after them.
#[inline(always)]
fn put_number(page: &mut [u8], at: usize, number: u64) -> usize
    requires { at + 8 ≤ length page.old }
    ensures text { take result page.new ≡ take at page.old ++ be 8 number }
    ensures end { result ≡ at + 8 }
    ensures size { length page.new ≡ length page.old }
{
    let mut bytes = [0; 8];
    BigEndian::write_u64(&mut bytes, number);
    copy_into(page, at, &bytes)
}

/// Writes the extension list of a first segment. If the list announces the length, it has 17 bytes.
/// If it is empty, it has 4. Any other segment has no list, so nothing is written.
#[inline(always)]
#[tactic(auto, unfolding(link_wire::specs::Spelling::announce_bytes))]
fn put_list(page: &mut [u8], at: usize, first: bool, announce: Option<u64>) -> usize
    requires { at + 17 ≤ length page.old }
    ensures text { take result page.new ≡ take at page.old ++ list_bytes first announce }
    ensures fits { result ≤ at + 17 }
    ensures size { length page.new ≡ length page.old }
{
    if !first {
        return at;
    }
    match announce {
        None => copy_into(page, at, &[0; 4]),
        Some(total) => {
            let at = copy_into(page, at, &TOTAL_HEAD);
            put_number(page, at, total)
        }
    }
}

/// Writes the head of a chunk's segment, which has at most 35 bytes. `size` is the number of bytes
/// of the chunk.
#[inline(always)]
fn put_head(page: &mut [u8], at: usize, id: u64, cut: Cut, size: u64) -> usize
    requires room { at + 35 ≤ length page.old }
    ensures text { take result page.new ≡ take at page.old
        ++ segment_head_bytes (flags_of cut.first cut.last) id size cut.announce }
    ensures fits { result ≤ at + 35 }
    ensures size { length page.new ≡ length page.old }
{
    let at = copy_into(page, at, &[XFER_SEGMENT, flags(cut)]);
    let at = put_number(page, at, id);
    let at = put_list(page, at, cut.first, cut.announce);
    put_number(page, at, size)
}
