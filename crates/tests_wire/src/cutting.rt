//! Bundles cut into chunks.

ghost use Rattle.std.specs.Prelude.{◌≡◌, ◌<◌, ◌≤◌, false, length};
ghost use Rattle.link_transfer.specs.Cutter.{has_ready_chunk};

use link_transfer::{Cut, Cutter};
use std::alloc::AllocError;
use std::process::Abort;
use std::test::Fail;

/// The bytes to be cut; they need not be a bundle.
const BUNDLE: &[u8] = b"abcdefghijklm";

/// The size of a segment in bytes.
const SEGMENT: usize = 4;

/// The chunks that a cutter with this hold has to cut a bundle into, and how many it has cut.
///
/// They are the chunks of std, with the first and the last marked. The length is announced if the
/// bundle is longer than a segment and not longer than the hold.
#[derive(Clone, Copy)]
struct Chunks<'a> {
    bundle: &'a [u8],
    hold: usize,
    count: usize,
}

impl Chunks<'_> {
    /// The description of the next chunk.
    fn next_cut(&self) -> Cut {
        let length = self.bundle.len();
        let is_announced = SEGMENT < length && length <= self.hold && self.count == 0;
        Cut {
            first: self.count == 0,
            last: length.div_ceil(SEGMENT) == self.count.saturating_add(1),
            announce: is_announced.then_some(length as u64),
        }
    }

    /// Checks the next chunk: its description, and its bytes.
    fn take(&mut self, rt: &impl Abort, cut: Cut, bytes: &[u8]) {
        assert_eq!(rt;
            cut,
            self.next_cut(),
            "{:?}, hold {}",
            self.bundle,
            self.hold
        );
        let chunk = self.bundle.chunks(SEGMENT).nth(self.count);
        assert_eq!(rt; Some(bytes), chunk, "{:?}, hold {}", self.bundle, self.hold);
        self.count = self.count.saturating_add(1);
    }

    /// Checks that the whole bundle was cut, and begins again.
    fn end(&mut self, rt: &impl Abort) {
        let count = self.bundle.len().div_ceil(SEGMENT);
        assert_eq!(rt; self.count, count, "{:?}, hold {}", self.bundle, self.hold);
        self.count = 0;
    }

    /// Checks a cutter after the first `come` bytes of the bundle.
    ///
    /// While the bundle is incomplete and has at most `hold` bytes, no chunk was cut. After more
    /// bytes each full chunk was cut. The other bytes are shown.
    fn leave(&self, rt: &impl Abort, cutter: &Cutter, come: usize) {
        if come == self.bundle.len() {
            assert_eq!(rt; cutter.bytes(), b"".as_slice(), "{come} bytes");
            return;
        }
        let full = if come > self.hold { come / SEGMENT } else { 0 };
        assert_eq!(rt; self.count, full, "{come} bytes");
        let rest = self.bundle.get(full.saturating_mul(SEGMENT)..come);
        assert_eq!(rt; Some(cutter.bytes()), rest, "{come} bytes");
    }
}

/// Takes the chunks that are ready.
fn take_all(rt: &impl Abort, cutter: &mut Cutter, chunks: &mut Chunks<'_>)
    ensures { has_ready_chunk cutter.new ≡ false }
{
    while let Some(cut) = cutter.cut() {
        chunks.take(rt, cut, cutter.bytes());
    }
}

/// Takes a chunk that can be cut where it lies, or else pushes its bytes.
fn take_in_place(
    rt: &impl Abort,
    cutter: &mut Cutter,
    part: &[u8],
    last: bool,
    chunks: &mut Chunks<'_>,
)
    requires { has_ready_chunk cutter.old ≡ false }
{
    match cutter.cut_slice(part, last) {
        Some(cut) => chunks.take(rt, cut, part),
        None => {
            cutter.push_slice(part, last);
        }
    }
}

/// Takes bytes until a chunk is ready, or all, and returns how many.
///
/// With `in_place`, a chunk that can be cut where it lies is taken, and its bytes are not pushed.
fn advance(
    rt: &impl Abort,
    cutter: &mut Cutter,
    piece: &[u8],
    last: bool,
    in_place: bool,
    chunks: &mut Chunks<'_>,
) -> usize
    requires quiet { has_ready_chunk cutter.old ≡ false }
    requires some { 0 < length piece.now }
    ensures some { 0 < result }
    ensures within { result ≤ length piece.now }
{
    if !in_place {
        return cutter.push_slice(piece, last);
    }
    let size = cutter.wanted().min(piece.len());
    let ends = last && size == piece.len();
    take_in_place(rt, cutter, &piece[..size], ends, chunks);
    size
}

/// Pushes a piece of a bundle, and takes each chunk as soon as it is ready.
fn push_piece(
    rt: &impl Abort,
    cutter: &mut Cutter,
    piece: &[u8],
    last: bool,
    in_place: bool,
    chunks: &mut Chunks<'_>,
)
    requires { has_ready_chunk cutter.old ≡ false }
    ensures { has_ready_chunk cutter.new ≡ false }
{
    let mut at = 0;
    while at < piece.len() {
        at += advance(rt, cutter, &piece[at..], last, in_place, chunks);
        take_all(rt, cutter, chunks);
    }
}

/// Pushes the bundle in two pieces.
fn push_in_two(
    rt: &impl Abort,
    cutter: &mut Cutter,
    at: usize,
    in_place: bool,
    chunks: &mut Chunks<'_>,
)
    requires { has_ready_chunk cutter.old ≡ false }
    ensures { has_ready_chunk cutter.new ≡ false }
{
    let (front, back) = chunks.bundle.split_at(chunks.bundle.len().min(at));
    push_piece(rt, cutter, front, false, in_place, chunks);
    push_piece(rt, cutter, back, true, in_place, chunks);
    chunks.end(rt);
}

/// Pushes the bundle byte by byte, and takes each chunk as soon as it is ready.
fn push_bytes(rt: &impl Abort, cutter: &mut Cutter, bundle: &[u8], chunks: &mut Chunks<'_>)
    requires { has_ready_chunk cutter.old ≡ false }
    ensures { has_ready_chunk cutter.new ≡ false }
{
    for (index, &byte) in bundle.iter().enumerate() {
        let come = index.saturating_add(1);
        cutter.push(byte, come == bundle.len());
        take_all(rt, cutter, chunks);
        chunks.leave(rt, cutter, come);
    }
    chunks.end(rt);
}

/// A cutter cuts the bundle and the same bundle again, each pushed in two pieces.
fn cuts_in_two(
    rt: &(impl Abort + AllocGlobal),
    bundle: &[u8],
    hold: usize,
    at: usize,
    in_place: bool,
) -> Result<(), AllocError>
    requires { hold ≤ 1048576 }
{
    let mut cutter = Cutter::new(rt.alloc(), SEGMENT, hold)?;
    let mut chunks = Chunks {
        bundle,
        hold,
        count: 0,
    };
    push_in_two(rt, &mut cutter, at, in_place, &mut chunks);
    push_in_two(rt, &mut cutter, at, in_place, &mut chunks);
    Ok(())
}

/// A cutter cuts the bundle and the same bundle again, each pushed byte by byte.
fn cuts_bytes(rt: &(impl Abort + AllocGlobal), bundle: &[u8], hold: usize) -> Result<(), AllocError>
    requires { hold ≤ 1048576 }
{
    let mut cutter = Cutter::new(rt.alloc(), SEGMENT, hold)?;
    let mut chunks = Chunks {
        bundle,
        hold,
        count: 0,
    };
    push_bytes(rt, &mut cutter, bundle, &mut chunks);
    push_bytes(rt, &mut cutter, bundle, &mut chunks);
    Ok(())
}

/// Checks the chunks of one bundle under this hold.
fn cuts(rt: &(impl Abort + AllocGlobal), bundle: &[u8], hold: usize) -> Result<(), AllocError> {
    assert!(rt; hold <= 1_048_576);
    cuts_bytes(rt, bundle, hold)?;
    for at in 0..bundle.len() {
        cuts_in_two(rt, bundle, hold, at, false)?;
        cuts_in_two(rt, bundle, hold, at, true)?;
    }
    Ok(())
}

/// Lengths around multiples of a segment.
static LENGTHS: [usize; 9] = [1, 3, 4, 5, 7, 8, 9, 12, 13];

/// Holds around a segment and around the lengths.
static HOLDS: [usize; 13] = [0, 1, 3, 4, 5, 7, 8, 9, 11, 12, 13, 14, 1_048_576];

/// Bundles of each length, under each hold.
///
/// Each is pushed byte by byte, whole, and in two pieces cut at every position. The pieces are also
/// cut where they lie.
#[test]
fn gives_the_chunks(rt: HostRuntime) -> Result<(), Fail> {
    for &length in &LENGTHS {
        let bundle = BUNDLE.get(..length).ok_or("more than the bundle")?;
        for &hold in &HOLDS {
            cuts(&rt, bundle, hold)?;
        }
    }
    Ok(())
}
