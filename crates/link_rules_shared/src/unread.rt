//! Heads that a bundle may have, and that this toolkit does not read.

ghost use Rattle.std.specs.Prelude.{◌≡◌, List, ◌++◌, ℕ, take};
ghost use Rattle.link_rules_shared.specs.Heads.{is_tagged};

use arrayvec::ArrayVec;

/// Where a bundle has heads that RFC 9171 permits, and that this toolkit does not read.
///
/// Each is the offset in the bundle of the first such head. The bundle's own array head is passed
/// over.
#[derive(Clone, Copy, Debug, Default, PartialEq, Eq)]
pub struct Unread {
    /// A byte string of indefinite length (RFC 8949 section 3.2.3).
    pub string: Option<u64>,
    /// A text, an array or a map of indefinite length (RFC 8949 section 3.2).
    pub item: Option<u64>,
    /// Tag 24 in two bytes: a byte string with encoded CBOR (RFC 8949 section 3.4.5.1).
    pub encoded: Option<u64>,
    /// Whether the bytes begin as a bundle in tag 55799 does (RFC 8949 section 3.4.6).
    pub tagged: bool,
}

/// The first bytes of a bundle, which comes in pieces of any size.
#[derive(Drop)]
pub struct Prefix {
    bytes: ArrayVec<u8, 4>,
}

impl Prefix {
    ghost use Rattle.std.specs.Prelude.{◌≡◌, [], List, ◌++◌, ℕ};
    ghost use Rattle.link_rules_shared.specs.Heads.{is_tagged};
    ghost use Rattle.link_rules_shared.specs.Prefix.{HasFirstFourBytes};

    /// The prefix of a bundle before its first byte.
    pub fn new() -> Prefix
        ensures { HasFirstFourBytes result [] }
    {
        Prefix {
            bytes: ArrayVec::new(),
        }
    }

    /// Empties the prefix, before the first byte of the next bundle.
    pub fn restart(&mut self)
        ensures { HasFirstFourBytes self.new [] }
    {
        self.bytes.clear();
    }

    /// Takes the next piece of the bundle. Most pieces come after the first bytes.
    #[inline(always)]
    pub fn take(&mut self, piece: &[u8])
        ensures { (seen : List ℕ) → HasFirstFourBytes self.old seen
            → HasFirstFourBytes self.new (seen ++ piece.now) }
    {
        if !self.bytes.is_full() {
            self.take_first(piece);
        }
    }

    /// Takes a piece, and keeps its first bytes while there is room for them.
    fn take_first(&mut self, piece: &[u8])
        ensures { (seen : List ℕ) → HasFirstFourBytes self.old seen
            → HasFirstFourBytes self.new (seen ++ piece.now) }
    {
        for byte in piece {
            if self.bytes.is_full() {
                return;
            }
            self.bytes.push(*byte);
        }
    }

    /// Whether the bundle begins with tag 55799 and an array of indefinite length.
    pub fn is_tagged(&self) -> bool
        ensures { (seen : List ℕ) → HasFirstFourBytes self.now seen → result ≡ is_tagged seen }
    {
        matches!(self.bytes.as_slice(), [0xd9, 0xd9, 0xf7, 0x9f])
    }
}
