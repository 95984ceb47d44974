//! The progress of a scan: the bytes counted, the bytes held, and the check of the current block.
ghost use Rattle.std.specs.Prelude.{◌≡◌, ℕ, ◌+◌, ◌-◌, ◌^◌, ◌<◌, ◌≤◌, List, [], ◌++◌, length, take, min};
ghost use Rattle.link_bundle.specs.Scan.{IfCheckCovers, part_start};

use crate::hold::Hold;
use link_cbor::{Check, CheckKind};

/// The progress of a scan through its bytes.
#[derive(Drop)]
pub(crate) struct Cursor {
    /// The number of bytes seen.
    pub count: u64,
    /// The bytes seen of the part that the scan is in. There are none in a block's data.
    pub hold: Hold,
    /// The check of the current canonical block, if it has one, over its bytes before the part.
    pub check: Check,
}

impl Cursor {
    /// A cursor before the first byte.
    pub fn new() -> Cursor
        ensures count { result.count ≡ 0 }
        ensures hold { result.hold ≡ [] }
    {
        Cursor {
            count: 0,
            hold: Hold::new(),
            // Its kind does not matter: each block with a check begins its own.
            check: Check::new(CheckKind::Crc16),
        }
    }

    /// Moves the cursor before the first byte of a bundle.
    ///
    /// The old check stays until a block with a check begins its own.
    pub fn restart(&mut self)
        ensures count { self.new.count ≡ 0 }
        ensures hold { self.new.hold ≡ [] }
    {
        self.count = 0;
        self.hold.clear();
    }

    /// The offset of the part that the scan is in.
    #[inline(always)]
    pub fn start(&self) -> u64
        requires { length self.now.hold ≤ self.now.count }
        ensures { result ≡ part_start self.now }
    {
        self.count - self.hold.len() as u64
    }

    /// Takes bytes of a piece into the hold, until `limit` bytes are held or the piece ends.
    ///
    /// Returns the number of bytes that were held before.
    ///
    /// The hold has room for 3,257 bytes (`PRIMARY_LIMIT`): the byte before a primary block, three
    /// endpoint IDs of 1,051 bytes, ten heads of 9, and a check field of 13. These are the greatest
    /// lengths.
    pub fn take_in(&mut self, piece: &[u8], limit: usize) -> usize
        requires room { self.old.count + length piece.now ≤ 2 ^ 63 - 1 }
        requires within { length self.old.hold ≤ limit }
        requires most { limit ≤ 3257 }
        ensures held { result ≡ length self.old.hold }
        ensures hold { self.new.hold
            ≡ self.old.hold ++ take (limit - length self.old.hold) piece.now }
        ensures count { self.new.count
            ≡ self.old.count + min (limit - length self.old.hold) (length piece.now) }
        ensures check { self.new.check ≡ self.old.check }
    {
        let held = self.hold.len();
        let size = piece.len().min(limit - held);
        self.hold.extend(&piece[..size]);
        self.count += size as u64;
        held
    }

    /// Gives back the held bytes after the first `size`, as if they had not been seen.
    ///
    /// They were not pushed to the check, so it stays as it is.
    #[inline(always)]
    pub fn give_back(&mut self, size: usize)
        requires within { size ≤ length self.old.hold }
        requires held { length self.old.hold ≤ self.old.count }
        ensures count { self.new.count ≡ part_start self.old + size }
        ensures hold { self.new.hold ≡ take size self.old.hold }
        ensures check { self.new.check ≡ self.old.check }
    {
        self.count -= (self.hold.len() - size) as u64;
        self.hold.truncate(size);
    }

    /// Passes over a part, the first `size` bytes held, and gives back the held bytes after it.
    ///
    /// Then the cursor holds nothing.
    #[inline(always)]
    pub fn pass(&mut self, size: usize)
        requires within { size ≤ length self.old.hold }
        requires held { length self.old.hold ≤ self.old.count }
        ensures count { self.new.count ≡ part_start self.old + size }
        ensures hold { self.new.hold ≡ [] }
        ensures check { self.new.check ≡ self.old.check }
    {
        self.give_back(size);
        self.hold.clear();
    }

    /// Begins the check of a canonical block, and pushes the block's heads to it.
    ///
    /// The heads are the first `size` bytes held. For a block without a check, nothing changes.
    pub fn begin_check(&mut self, check: Option<CheckKind>, size: usize)
        requires { size ≤ length self.old.hold }
        ensures checks { IfCheckCovers check self.new.check (take size self.old.hold) }
        ensures count { self.new.count ≡ self.old.count }
        ensures hold { self.new.hold ≡ self.old.hold }
    {
        if let Some(kind) = check {
            self.check = Check::new(kind);
            self.check.push_slice(&self.hold.as_slice()[..size]);
        }
    }

    /// Takes bytes of a block's data, and pushes them to the block's check if it has one.
    #[inline(always)]
    pub fn data_run(&mut self, check: Option<CheckKind>, run: &[u8])
        requires { self.old.count + length run.now ≤ 2 ^ 63 - 1 }
        ensures checks { (covered : List ℕ) → IfCheckCovers check self.old.check covered
            → IfCheckCovers check self.new.check (covered ++ run.now) }
        ensures count { self.new.count ≡ self.old.count + length run.now }
        ensures hold { self.new.hold ≡ self.old.hold }
    {
        self.count += run.len() as u64;
        if check.is_some() {
            self.check.push_slice(run);
        }
    }
}
