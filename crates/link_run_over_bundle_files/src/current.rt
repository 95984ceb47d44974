//! The bundle that is being read.

ghost use Rattle.std.specs.Prelude.{◌≡◌};

use crate::consumer::WholeView;
use link_bundle::BundleScan;
use link_bundle_types::State;
use link_cbor::Piecewise;
use link_report::Fault;
use link_wire::INPUT_LIMIT;

/// What a run of bytes shows of the current bundle.
#[derive(Clone, Copy, Debug, PartialEq, Eq)]
pub enum Found {
    /// The bundle is incomplete.
    Part,
    /// The bundle is whole.
    Whole,
    /// The bytes are not the start of a bundle that is accepted, because of this fault.
    Refused(Fault),
}

/// The bundle that is being read.
#[derive(Drop)]
pub struct Current {
    /// The number of bundles before it, which is its number.
    pub number: u64,
    pub(crate) scan: BundleScan,
}

impl Current {
    ghost use Rattle.std.specs.Prelude.{true, ◌+◌, ◌-◌, ◌++◌, min, ◌^◌, ◌<◌, ◌≤◌, IfSome, Ok, List, ℕ, [], length, take};
    ghost use Rattle.link_bundle_blocks.specs.Bundle.{bundle_goes, verdict, state_of};
    ghost use Rattle.link_bundle.specs.Scan.{HasScanned, scan_size};
    ghost use Rattle.link_bundle_types.specs.BundleView.{viewed_info};
    ghost use Rattle.link_bundle_types.specs.declared.info.BundleInfo.{BundleInfo};
    ghost use Rattle.link_bundle_types.specs.ShortNames.{HasShortNames};
    ghost use Rattle.link_run_over_bundle_files.specs.Bundles.{IsUnfinishedBundle};
    ghost use Rattle.link_run_over_bundle_files.specs.BundleRun.{AddsToSeenCount, IsCutFault, IsCurrentAt, AfterJudge, HasScannedFromPiece, HasViewOfWholeBundle, found_by};

    /// Makes the state before the first byte of the first bundle.
    #[inline(always)]
    pub fn new() -> Current
        ensures scanned { HasScanned result.scan [] }
        ensures number { result.number ≡ 0 }
    {
        Current {
            number: 0,
            scan: BundleScan::new(),
        }
    }

    /// The number of further bytes that the bundle may have, by this limit and [`INPUT_LIMIT`].
    fn room(&self, limit: u64) -> u64
        ensures { result ≡ min limit (2 ^ 63 - 1) - scan_size self.now.scan }
    {
        limit.min(INPUT_LIMIT).saturating_sub(self.scan.count())
    }

    /// Scans the next bytes of a nonempty piece, and returns how many these are and what they show.
    ///
    /// It scans at most `wanted` bytes, and no more than the limit leaves. If the limit leaves
    /// none, it scans nothing and returns 1, since the next byte shows that the bundle is too long.
    /// If `by_blocks` is true, no block ends before the last of the scanned bytes.
    #[inline(always)]
    pub fn judge(
        &mut self,
        by_blocks: bool,
        limit: u64,
        wanted: usize,
        piece: &[u8],
    ) -> (usize, Found)
        requires some { 0 < length piece.now }
        requires wanted { 0 < wanted }
        ensures within { result.0 ≤ length piece.now }
        ensures few { result.0 ≤ wanted }
        ensures counts { AddsToSeenCount (scan_size self.old.scan) result.0
            (scan_size self.new.scan)
            result.1 }
        ensures some { (begun : List ℕ) → IsCurrentAt limit self.old begun
            → length begun + length piece.now < 2 ^ 63
            → 0 < result.0 }
        ensures took { (begun : List ℕ) → IsCurrentAt limit self.old begun
            → length begun + length piece.now < 2 ^ 63
            → AfterJudge limit by_blocks self.new begun (take result.0 piece.now) result.1 }
        ensures number { self.new.number ≡ self.old.number }
    {
        let room = self.room(limit);
        if room == 0 {
            return (1, Found::Refused(Fault::TooLong(self.number, limit)));
        }
        let size = room.min(piece.len().min(wanted) as u64) as usize;
        let count = self.scan_piece(by_blocks, &piece[..size]);
        (count, self.found())
    }

    /// Scans the next bytes of a nonempty piece until no more are needed. If `by_blocks` is true,
    /// it also stops after the first block that ends. Returns how many bytes were scanned.
    #[inline(always)]
    fn scan_piece(&mut self, by_blocks: bool, piece: &[u8]) -> usize
        requires some { 0 < length piece.now }
        requires room { scan_size self.old.scan + length piece.now ≤ 2 ^ 63 - 1 }
        ensures within { result ≤ length piece.now }
        ensures size { scan_size self.new.scan ≡ scan_size self.old.scan + result }
        ensures number { self.new.number ≡ self.old.number }
        ensures scans { (begun : List ℕ) → HasScanned self.old.scan begun
            → bundle_goes begun ≡ true
            → HasScannedFromPiece by_blocks self.new.scan begun piece.now result }
    {
        if !by_blocks {
            return self.scan.feed(piece);
        }
        // This never happens: a walk that goes on needs more bytes of its bundle.
        if !self.scan.going() {
            return 0;
        }
        self.scan.feed_block(piece)
    }

    /// What the scanned bytes show of the bundle.
    fn found(&self) -> Found
        ensures { (seen : List ℕ) → HasScanned self.now.scan seen
            → result ≡ found_by self.now.number (state_of (verdict seen)) }
    {
        match self.scan.state() {
            State::Going => Found::Part,
            State::Ended => Found::Whole,
            State::Failed(fault, offset) => {
                Found::Refused(Fault::Bundle(self.number, offset, fault))
            }
        }
    }

    /// The number of bytes of the bundle so far.
    #[inline(always)]
    pub fn size(&self) -> u64
        ensures { result ≡ scan_size self.now.scan }
    {
        self.scan.count()
    }

    /// The view of the current bundle, or `None` if the bundle is not whole.
    #[inline(always)]
    pub fn whole(&self) -> Option<WholeView<'_>>
        ensures short { IfSome result (λ whole. HasShortNames (viewed_info whole.info)) }
        ensures shows { (bundle : List ℕ) (info : BundleInfo) → HasScanned self.now.scan bundle
            → verdict bundle ≡ Ok info → HasViewOfWholeBundle bundle result }
    {
        match self.scan.view() {
            Ok(info) => Some(WholeView {
                length: self.scan.count(),
                info,
            }),
            Err(_) => None,
        }
    }

    /// Begins the next bundle. Its number is one more, but never above 2^64 - 1.
    pub fn next(&mut self)
        ensures scanned { HasScanned self.new.scan [] }
        ensures number { self.old.number + 1 < 2 ^ 64 → self.new.number ≡ self.old.number + 1 }
    {
        self.scan.restart();
        self.number = self.number.saturating_add(1);
    }

    /// Returns the fault of an input that ends here, inside a bundle.
    ///
    /// It is `None` if no byte of the bundle has come.
    pub fn cut_short(&self) -> Option<Fault>
        ensures { (limit : ℕ) (begun : List ℕ) → HasScanned self.now.scan begun
            → IsUnfinishedBundle limit begun → IsCutFault limit self.now.number begun result }
    {
        if self.scan.count() == 0 {
            return None;
        }
        match self.scan.view() {
            // This never happens: a bundle that goes on has no view.
            Ok(_) => None,
            Err((fault, offset)) => Some(Fault::Bundle(self.number, offset, fault)),
        }
    }
}
