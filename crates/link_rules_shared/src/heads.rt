//! A walk over the heads of CBOR items that follow one another.
ghost use Rattle.std.specs.Prelude.{◌≡◌, ℕ, ◌/◌, ◌%◌, ◌^◌, ◌<◌, ◌≤◌, not, ◌&&◌, ◌||◌, ◌==◌, nat_lt, Some, List, ◌∷◌, [], ◌++◌, length, take, IsTrue};
ghost use Rattle.link_cbor.specs.HeadScan.{may_scan_head};
ghost use Rattle.link_rules_shared.specs.Heads.{content_size, is_long, is_open_string, is_open_item, is_encoded, first_long, unread_of, is_tagged};

use crate::unread::Unread;
use link_cbor::{Head, HeadScan, HeadStep, Piecewise};

/// The major type of byte strings (RFC 8949 section 3.1).
const BYTE_STRING: u8 = 2;

/// The major type of text strings.
const TEXT_STRING: u8 = 3;

/// The major type of tags.
const TAG: u8 = 6;

/// The tag of a byte string with encoded CBOR (RFC 8949 section 3.4.5.1).
const ENCODED: u64 = 24;

/// Which bytes are small heads, by their top five bits. Bit N is for the eight bytes from 8 N on.
const SMALL_HEADS: u32 = 0x7777_0077;

/// The number of bytes of a string, which follow its head. Other items have none.
#[inline(always)]
fn content_size(head: Head) -> u64
    ensures { result ≡ content_size head }
{
    match head.major {
        BYTE_STRING | TEXT_STRING => head.value.unwrap_or(0),
        _ => 0,
    }
}

/// Whether a byte is a small head: a whole head with a number, and not that of a string.
///
/// Its additional information is below 24, and its major type is neither 2 nor 3.
#[inline(always)]
#[tactic(auto, using(crate::proofs::SmallHeads::by_bits))]
fn is_small_head(byte: u8) -> bool
    ensures { result ≡ (nat_lt (byte % 32) 24 && not ((byte / 32 == 2) || (byte / 32 == 3))) }
{
    SMALL_HEADS >> (byte >> 3) & 1 == 1
}

/// Whether a head of `size` bytes is longer than its number needs (RFC 8949 sections 4.1 and
/// 4.2.1).
///
/// A head of 2, 3, 5 or 9 bytes is long if its number fits in the next smaller size. There are no
/// other sizes above 1.
pub fn is_long(head: Head, size: usize) -> bool
    ensures { result ≡ is_long head size }
{
    let number = head.value.unwrap_or(0);
    match size {
        0 | 1 => false,
        2 => number < 24,
        3 => number < 0x100,
        4 | 5 => number < 0x1_0000,
        6..=9 => number < 0x1_0000_0000,
        _ => true,
    }
}

/// Whether a head, of any size, is that of a byte string of indefinite length.
// Inlined, as the next two: then callers need not store the head in memory.
#[inline(always)]
fn is_open_string(head: Head) -> bool
    ensures { (size : ℕ) → result ≡ is_open_string head size }
{
    head.is_indefinite() && head.major == BYTE_STRING
}

/// Whether a head, of any size, opens a text, an array or a map of indefinite length.
#[inline(always)]
fn is_open_item(head: Head) -> bool
    ensures { (size : ℕ) → result ≡ is_open_item head size }
{
    head.is_indefinite() && head.major != BYTE_STRING
}

/// Whether a head of `size` bytes is tag 24 in two bytes.
#[inline(always)]
fn is_encoded(head: Head, size: usize) -> bool
    ensures { result ≡ is_encoded head size }
{
    head.major == TAG && size == 2 && head.value.unwrap_or(0) == ENCODED
}

/// The offset of the first head of each kind that is sought.
#[derive(Clone, Copy, Debug)]
struct Found {
    /// A head that is longer than its number needs.
    long: Option<u64>,
    /// The head of a byte string of indefinite length.
    string: Option<u64>,
    /// The head of another item of indefinite length.
    item: Option<u64>,
    /// Tag 24 in two bytes.
    encoded: Option<u64>,
}

/// Nothing is found.
const NONE_FOUND: Found = Found {
    long: None,
    string: None,
    item: None,
    encoded: None,
};

impl Found {
    ghost use Rattle.std.specs.{Bool.then_some, Option.option_or};
    ghost use Rattle.link_rules_shared.specs.HeadWalk.{AreFirstSoughtHeads, NotesCborHead};
    ghost use Rattle.link_rules_shared.specs.declared.heads.WalkStage.TheVariants.{Inside};

    /// Keeps the offset of a head of `size` bytes for each kind that it is of, if it is the first
    /// head of that kind.
    ///
    /// A head of one byte with a number is of no kind.
    // Inlined: the head of a short string is one byte, and it should cost no call.
    #[inline(always)]
    fn note(&mut self, offset: u64, head: Head, size: usize)
        ensures { NotesCborHead self.old self.new offset head size }
    {
        if size == 1 && head.value.is_some() {
            return;
        }
        self.note_any(offset, head, size);
    }

    /// Does what `note` does, without its short cut for heads of one byte.
    fn note_any(&mut self, offset: u64, head: Head, size: usize)
        ensures { NotesCborHead self.old self.new offset head size }
    {
        if is_long(head, size) {
            self.note_long(offset);
        }
        if head.is_indefinite() || head.major == TAG {
            let encoded = is_encoded(head, size);
            self.note_unread(offset, is_open_string(head), is_open_item(head), encoded);
        }
    }

    /// Keeps the offset of a long head, if it is the first.
    #[cold]
    #[inline(never)]
    fn note_long(&mut self, offset: u64)
        ensures long { self.new.long ≡ option_or self.old.long (Some offset) }
        ensures string { self.new.string ≡ self.old.string }
        ensures item { self.new.item ≡ self.old.item }
        ensures encoded { self.new.encoded ≡ self.old.encoded }
    {
        self.long = self.long.or(Some(offset));
    }

    /// Keeps the offset of a head for each kind of [`Unread`] that it is of, if it is the first
    /// head of that kind.
    ///
    /// `string`, `item` and `encoded` say whether it is of these kinds.
    // It takes no head, so that callers need not store the head in memory.
    #[cold]
    #[inline(never)]
    fn note_unread(&mut self, offset: u64, string: bool, item: bool, encoded: bool)
        ensures long { self.new.long ≡ self.old.long }
        ensures string { self.new.string
            ≡ option_or self.old.string (then_some string offset) }
        ensures item { self.new.item ≡ option_or self.old.item (then_some item offset) }
        ensures encoded { self.new.encoded
            ≡ option_or self.old.encoded (then_some encoded offset) }
    {
        self.string = self.string.or(string.then_some(offset));
        self.item = self.item.or(item.then_some(offset));
        self.encoded = self.encoded.or(encoded.then_some(offset));
    }

    /// Takes the heads that a piece begins with, and their strings. The first is at `offset`.
    ///
    /// Returns how many bytes it took, and how many bytes of the last string come after the piece.
    /// It stops before a head that is ill-formed or cut.
    #[inline(always)]
    fn take_heads(&mut self, offset: u64, piece: &[u8]) -> (usize, u64)
        ensures within { result.0 ≤ length piece.now }
        ensures none { result.0 ≡ 0 → result.1 ≡ 0 }
        // `seen` is the list of the bytes before the piece.
        ensures found { (seen : List ℕ) → offset ≡ length seen
            → length (seen ++ take result.0 piece.now) < 2 ^ 63
            → AreFirstSoughtHeads self.old (Inside 0) seen
            → AreFirstSoughtHeads self.new (Inside result.1) (seen ++ take result.0 piece.now) }
    {
        let mut taken = 0;
        while taken < piece.len() {
            // Most heads are small, and this way they take few instructions.
            if is_small_head(piece[taken]) {
                taken += 1;
                continue;
            }
            let Some((head, size)) = Head::front(&piece[taken..]) else {
                break;
            };
            self.note(offset.wrapping_add(taken as u64), head, size);
            taken += size;
            let content = content_size(head);
            let left = (piece.len() - taken) as u64;
            if content > left {
                return (piece.len(), content - left);
            }
            taken += content as usize;
        }
        (taken, 0)
    }
}

/// The position of a walk over the heads of a bundle.
#[derive(Clone, Copy, Debug)]
enum WalkStage {
    /// This many more bytes belong to the latest head and to its string. Then a head begins.
    Inside(u64),
    /// The seen bytes end inside the head that begins at this offset.
    Head(u64),
    /// A head is ill-formed, so there is none after it.
    Ended,
}

/// A walk over the heads of a bundle, whose bytes come in pieces of any size.
///
/// It finds the first head that is longer than its number needs, and those of [`Unread`] (RFC 8949
/// section 3). The bundle's own array head is passed over, and so are the bytes of strings. There
/// is no head after one that is ill-formed.
///
/// It keeps numbers, and no bytes of the bundle.
#[derive(Clone, Copy, Debug)]
pub struct HeadWalk {
    stage: WalkStage,
    /// The number of bytes seen.
    count: u64,
    found: Found,
    /// The scan of a head that is cut, and a new one at any other stage.
    head: HeadScan,
    ghost fits: { IsTrue (may_scan_head head) },
}

impl HeadWalk {
    ghost use Rattle.link_rules_shared.specs.HeadWalk.{HasWalked, TakesRun};

    /// A walk that has seen no byte.
    pub fn new() -> HeadWalk
        ensures { HasWalked result [] }
    {
        HeadWalk {
            // The bundle's own array head is one byte.
            stage: WalkStage::Inside(1),
            count: 0,
            found: NONE_FOUND,
            head: HeadScan::new(),
        }
    }

    /// Makes the walk new.
    pub fn restart(&mut self)
        ensures { HasWalked self.new [] }
    {
        *self = HeadWalk::new();
    }

    /// The offset in the bundle of the first head that is longer than its number needs, or `None`
    /// if there is none so far.
    #[tactic(auto, using(crate::proofs::Walks::sought_now))]
    pub fn first_long(&self) -> Option<u64>
        ensures { (seen : List ℕ) → HasWalked self.now seen → result ≡ first_long seen }
    {
        self.found.long
    }

    /// Where the bundle has heads that RFC 9171 permits, and that this toolkit does not read.
    ///
    /// `tagged` is whether the bundle begins with tag 55799.
    #[tactic(auto, using(crate::proofs::Walks::sought_now))]
    pub fn unread(&self, tagged: bool) -> Unread
        ensures { (seen : List ℕ) → HasWalked self.now seen → tagged ≡ is_tagged seen
            → result ≡ unread_of seen }
    {
        Unread {
            string: self.found.string,
            item: self.found.item,
            encoded: self.found.encoded,
            tagged,
        }
    }

    /// Takes the next piece of the bundle. Many pieces lie within a string, and are only counted.
    ///
    /// Offsets are right up to 2^63 - 1 bytes.
    #[inline(always)]
    pub fn take(&mut self, piece: &[u8])
        ensures { (seen : List ℕ) → length (seen ++ piece.now) < 2 ^ 63 → HasWalked self.old seen
            → HasWalked self.new (seen ++ piece.now) }
    {
        if let WalkStage::Inside(left) = self.stage {
            if piece.len() as u64 <= left {
                self.pass(left, piece);
                return;
            }
        }
        self.take_any(piece);
    }

    /// Takes any piece of the bundle.
    fn take_any(&mut self, piece: &[u8])
        ensures { TakesRun self.old self.new piece.now }
    {
        let mut taken = 0;
        while taken < piece.len() {
            taken += self.advance(&piece[taken..]);
        }
    }

    /// Takes the next bytes of a piece, and returns how many, at least one.
    #[inline(always)]
    fn advance(&mut self, piece: &[u8]) -> usize
        requires some { 0 < length piece.now }
        ensures some { 0 < result }
        ensures within { result ≤ length piece.now }
        ensures taken { TakesRun self.old self.new (take result piece.now) }
    {
        match self.stage {
            WalkStage::Inside(0) => self.next_heads(piece),
            WalkStage::Inside(left) => self.pass_first(left, piece),
            WalkStage::Head(offset) => {
                self.head_byte(offset, piece[0]);
                1
            }
            WalkStage::Ended => {
                self.count = self.count.wrapping_add(piece.len() as u64);
                piece.len()
            }
        }
    }

    /// Takes the next bytes, where a head begins, and returns how many, at least one.
    #[inline(always)]
    fn next_heads(&mut self, piece: &[u8]) -> usize
        requires stage { self.old.stage ≡ WalkStage.Inside 0 }
        requires some { 0 < length piece.now }
        ensures some { 0 < result }
        ensures within { result ≤ length piece.now }
        ensures taken { TakesRun self.old self.new (take result piece.now) }
    {
        let offset = self.count;
        let (taken, left) = self.found.take_heads(offset, piece);
        // The head is ill-formed, or the piece ends inside it. So it is taken byte by byte.
        if taken == 0 {
            self.stage = WalkStage::Head(offset);
            self.head_byte(offset, piece[0]);
            return 1;
        }
        self.stage = WalkStage::Inside(left);
        self.count = offset.wrapping_add(taken as u64);
        taken
    }

    /// Passes over the first `left` bytes of a piece, or all if it has fewer, and returns how many.
    /// They belong to the latest head and its string.
    fn pass_first(&mut self, left: u64, piece: &[u8]) -> usize
        requires stage { self.old.stage ≡ WalkStage.Inside left }
        requires left { 0 < left }
        requires some { 0 < length piece.now }
        ensures some { 0 < result }
        ensures within { result ≤ length piece.now }
        ensures taken { TakesRun self.old self.new (take result piece.now) }
    {
        let passed = left.min(piece.len() as u64) as usize;
        self.pass(left, &piece[..passed]);
        passed
    }

    /// Passes over a run of bytes, which is not longer than `left`. The next `left` bytes belong to
    /// the latest head and its string.
    #[inline(always)]
    fn pass(&mut self, left: u64, run: &[u8])
        requires stage { self.old.stage ≡ WalkStage.Inside left }
        requires within { length run.now ≤ left }
        ensures { TakesRun self.old self.new run.now }
    {
        let size = run.len() as u64;
        self.stage = WalkStage::Inside(left - size);
        self.count = self.count.wrapping_add(size);
    }

    /// Takes a byte of the head that begins at `offset`.
    #[cold]
    #[inline(never)]
    fn head_byte(&mut self, offset: u64, byte: u8)
        requires { self.old.stage ≡ WalkStage.Head offset }
        ensures { TakesRun self.old self.new (byte ∷ []) }
    {
        self.count = self.count.wrapping_add(1);
        let mut scan = self.head;
        scan.step(byte);
        match scan.outcome() {
            HeadStep::More => self.head = scan,
            HeadStep::Bad => self.stage = WalkStage::Ended,
            HeadStep::Done(head) => {
                self.head = HeadScan::new();
                self.found.note(offset, head, scan.count() as usize);
                self.stage = WalkStage::Inside(content_size(head));
            }
        }
    }
}
