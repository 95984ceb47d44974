//! The blocks of a bundle that is being scanned, one after another.
ghost use Rattle.std.specs.Prelude.{◌≡◌, ◌<◌, ◌==◌, ◌&&◌, false, IsTrue, IfSome, List, ℕ, [], ◌++◌, length, take};

use crate::scan::BundleScan;
use crate::stage::ScanStage;
use link_bundle_blocks::{BlockView, CanonicalBlock, whole_canonical};
use link_cbor::Piecewise;

impl BundleScan {
    ghost use Rattle.link_bundle_blocks.specs.Blocks.{viewed_blocks, viewed_block, IfPrimaryHasShortEids};
    ghost use Rattle.link_bundle.specs.Stages.{follows_block};
    ghost use Rattle.link_bundle_blocks.specs.Bundle.{cut_block_in, bundle_goes};
    ghost use Rattle.link_bundle.specs.Scan.{HasScanned, MayTakeFromPiece, Advances, EndsBlockOnlyAtLastByte, ending, may_scan};

    /// Takes the next bytes of a piece, until a block ends or no more bytes are needed.
    ///
    /// Returns how many it took, at least one. Before the call, the scan must need more bytes, and
    /// the piece must contain some.
    #[inline(always)]
    pub fn feed_block(&mut self, piece: &[u8]) -> usize
        requires may_step { IsTrue (may_scan self.old) }
        requires may_take { MayTakeFromPiece self.old piece.now }
        ensures taken { Advances self.old self.new piece.now result }
        // A block may end with the last byte taken, and none ends before.
        ensures blocks { EndsBlockOnlyAtLastByte self.old self.new piece.now result }
        ensures stops { (seen : List ℕ) → HasScanned self.old seen
            → ending self.new ≡ [] → result < length piece.now
            → bundle_goes (seen ++ take result piece.now) ≡ false }
    {
        let mut taken = self.advance_block(piece);
        while taken < piece.len() && !self.ends_block() && self.going() {
            taken += self.advance_part(&piece[taken..]);
        }
        taken
    }

    /// Takes the next bytes of a piece, and returns how many, at least one.
    ///
    /// The scan must need more bytes. Before the first byte of a block, it tries to take the whole
    /// block at once. Otherwise, or if that fails, it takes bytes of one stage.
    #[inline(always)]
    fn advance_block(&mut self, piece: &[u8]) -> usize
        requires may_step { IsTrue (may_scan self.old) }
        requires may_take { MayTakeFromPiece self.old piece.now }
        ensures advances { Advances self.old self.new piece.now result }
        ensures blocks { EndsBlockOnlyAtLastByte self.old self.new piece.now result }
    {
        match self.stage {
            ScanStage::PrimaryBlock if self.cursor.count == 0 => self.advance_primary(piece),
            ScanStage::BlockHeads if self.cursor.hold.len() == 0 => self.advance_canonical(piece),
            _ => self.advance_part(piece),
        }
    }

    /// Takes the first bytes of a bundle, and returns how many, at least one.
    ///
    /// It tries to take the whole primary block at once. If that fails, it takes bytes up to the
    /// end of the block at most.
    #[inline(never)]
    fn advance_primary(&mut self, piece: &[u8]) -> usize
        requires stage { self.old.stage ≡ ScanStage.PrimaryBlock }
        requires begins { self.old.cursor.hold ≡ [] }
        requires may_take { MayTakeFromPiece self.old piece.now }
        ensures advances { Advances self.old self.new piece.now result }
        ensures blocks { EndsBlockOnlyAtLastByte self.old self.new piece.now result }
    {
        match self.draft.whole_primary(piece) {
            Ok((check, size)) => {
                self.draft.check = check;
                self.draft.whole = true;
                self.cursor.count += size as u64;
                self.stage = ScanStage::BlockHeads;
                size
            }
            Err(_) => self.take_part(piece),
        }
    }

    /// Takes the first bytes of a canonical block, and returns how many, at least one.
    ///
    /// It tries to take the whole block at once. If that fails, it takes bytes up to the end of the
    /// block's heads at most.
    #[inline(never)]
    fn advance_canonical(&mut self, piece: &[u8]) -> usize
        requires stage { self.old.stage ≡ ScanStage.BlockHeads }
        requires begins { self.old.cursor.hold ≡ [] }
        requires may_take { MayTakeFromPiece self.old piece.now }
        ensures advances { Advances self.old self.new piece.now result }
        ensures blocks { EndsBlockOnlyAtLastByte self.old self.new piece.now result }
    {
        match whole_canonical(&self.draft.numbers, piece, 0) {
            Ok((block, size)) => {
                self.draft.keep_block(block.moved(self.cursor.count));
                self.cursor.count += size as u64;
                self.stage = self.draft.after_block();
                size
            }
            Err(_) => self.take_part(piece),
        }
    }

    /// Whether the last byte seen is the last byte of a block.
    #[inline(always)]
    fn ends_block(&self) -> bool
        ensures { result ≡ (follows_block self.now.stage && length self.now.cursor.hold == 0) }
    {
        self.stage.follows_block() && self.cursor.hold.len() == 0
    }

    /// The block whose last byte is the last byte seen, if there is one.
    #[inline(always)]
    pub fn ended_block(&self) -> Option<BlockView<'_>>
        ensures block { viewed_blocks result ≡ ending self.now }
        ensures short { IfSome result (λ block. IfPrimaryHasShortEids (viewed_block block)) }
    {
        if !self.ends_block() {
            return None;
        }
        let end = self.cursor.count;
        if self.draft.numbers.as_slice().is_empty() {
            return Some(BlockView::Primary(self.draft.primary_block(end)));
        }
        Some(BlockView::Canonical(self.draft.canonical_block(end)))
    }

    /// The canonical block that the bytes seen cut short, if they end in its data or check field.
    ///
    /// There is none if they end elsewhere, or if they show a fault.
    #[tactic(auto, using(crate::proofs::Verdicts::of_seen))]
    #[inline(always)]
    pub fn cut_block(&self) -> Option<CanonicalBlock>
        ensures { (seen : List ℕ) → HasScanned self.now seen → result ≡ cut_block_in seen }
    {
        self.draft.block_at(self.stage)
    }
}
