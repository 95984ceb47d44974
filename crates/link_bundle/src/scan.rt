//! The scan of a bundle.
ghost use Rattle.std.specs.Prelude.{◌≡◌, ℕ, ◌+◌, ◌-◌, ◌^◌, ◌<◌, ◌≤◌, IfOk, IsTrue, List, ◌∷◌, [], ◌++◌, length, take, min};
ghost use Rattle.link_bundle.specs.Fits.{scan_fits};

use crate::cursor::Cursor;
use crate::draft::Draft;
use crate::held::{read_part, shown};
use crate::stage::ScanStage;
use link_bundle_blocks::{PrimaryView, primary_fields};
use link_bundle_types::{BundleFault, BundleInfo, BundleView, State};
use link_cbor::Piecewise;
use std::fmt;

/// Scans one bundle (RFC 9171 section 4) in pieces of any size.
///
/// It keeps the fields of [`BundleInfo`] and the bytes of the part that it is in, at most 3,257. It
/// keeps no bytes of a block's data.
#[derive(Drop)]
pub struct BundleScan {
    pub(crate) stage: ScanStage,
    pub(crate) cursor: Cursor,
    pub(crate) draft: Draft,
    ghost fits: { IsTrue (scan_fits stage cursor draft) },
}

/// The first bytes of a piece, at most `left` of them.
#[inline(always)]
fn first_bytes(piece: &[u8], left: u64) -> &[u8]
    ensures run { result.now ≡ take (length result.now) piece.now }
    ensures size { length result.now ≡ min left (length piece.now) }
{
    let size = left.min(piece.len() as u64) as usize;
    &piece[..size]
}

impl BundleScan {
    ghost use Rattle.link_bundle_blocks.specs.Bundle.{verdict, state_of, payload_seen};
    ghost use Rattle.link_bundle_blocks.specs.PrimaryFields.{primary_fields};
    ghost use Rattle.link_bundle_blocks.specs.PrimaryView.{viewed_fields};
    ghost use Rattle.link_bundle_types.specs.BundleView.{viewed_info, viewed_verdict};
    ghost use Rattle.link_bundle_types.specs.ShortNames.{HasShortNames};
    ghost use Rattle.link_bundle.specs.Scan.{HasScanned, scan_size, may_scan, TakesRun};
    ghost use Rattle.link_bundle.specs.Stages.{takes_bytes};

    /// A scan that has seen no byte.
    #[tactic(auto, using(crate::proofs::Steps::is_new, crate::proofs::Steps::nothing_fits))]
    pub fn new() -> BundleScan
        ensures seen { HasScanned result [] }
        ensures size { scan_size result ≡ 0 }
        ensures may_step { IsTrue (may_scan result) }
    {
        BundleScan {
            stage: ScanStage::PrimaryBlock,
            cursor: Cursor::new(),
            draft: Draft::new(),
        }
    }

    /// Makes the scan new, whatever it has seen, also after a fault.
    ///
    /// The next byte is the first of a bundle. Some fields keep their old values. The next bundle
    /// sets them before they are read.
    #[tactic(auto, using(crate::proofs::Steps::is_new, crate::proofs::Steps::nothing_fits))]
    pub fn restart(&mut self)
        ensures seen { HasScanned self.new [] }
        ensures size { scan_size self.new ≡ 0 }
        ensures may_step { IsTrue (may_scan self.new) }
    {
        self.draft.restart();
        self.cursor.restart();
        self.stage = ScanStage::PrimaryBlock;
    }

    /// The state of the scan, which follows from the verdict on the bytes seen.
    #[tactic(auto, using(crate::proofs::Verdicts::of_seen))]
    pub fn state(&self) -> State
        ensures seen { (seen : List ℕ) → HasScanned self.now seen
            → result ≡ state_of (verdict seen) }
        // A scan that has not failed may take one more byte.
        ensures may_step { may_scan self.now ≡ takes_bytes result }
    {
        self.stage.state()
    }

    /// The verdict on the bytes seen: the bundle that they are, or the first fault and its offset.
    ///
    /// If the bytes end inside a bundle, the fault is [`BundleFault::Cut`], with the number of
    /// bytes as its offset.
    pub fn finish(&self) -> Result<BundleInfo, (BundleFault, u64)>
        ensures { (seen : List ℕ) → HasScanned self.now seen → result ≡ verdict seen }
    {
        match self.view() {
            Ok(view) => Ok(BundleInfo::of(view)),
            Err(stop) => Err(stop),
        }
    }

    /// The verdict that [`finish`](BundleScan::finish) returns, with the bundle by reference.
    #[inline(always)]
    pub fn view(&self) -> Result<BundleView<'_>, (BundleFault, u64)>
        ensures seen { (seen : List ℕ) → HasScanned self.now seen
            → viewed_verdict result ≡ verdict seen }
        // This holds whatever was scanned: a draft has no room for names of more than 1,024 bytes.
        ensures short { IfOk result (λ view. HasShortNames (viewed_info view)) }
    {
        match self.stage.state() {
            State::Going => Err((BundleFault::Cut, self.cursor.count)),
            State::Ended => Ok(self.draft.view()),
            State::Failed(fault, offset) => Err((fault, offset)),
        }
    }

    /// The fields of the primary block at the start of the bytes seen, up to the block's first
    /// fault.
    #[tactic(auto, using(crate::proofs::Steps::fields_whole))]
    pub fn primary(&self) -> PrimaryView<'_>
        ensures { (seen : List ℕ) → HasScanned self.now seen
            → viewed_fields result ≡ primary_fields seen }
    {
        if self.draft.whole {
            PrimaryView::of(self.draft.primary_block(0))
        } else {
            primary_fields(self.cursor.hold.as_slice())
        }
    }

    /// The offset of the payload's first byte, and the number of payload bytes seen.
    ///
    /// It is `None` until the head of the payload block's data (RFC 9171 section 4.3.2) is complete
    /// and accepted. A later fault does not change the result.
    pub fn payload_seen(&self) -> Option<(u64, u64)>
        ensures { (seen : List ℕ) → HasScanned self.now seen → result ≡ payload_seen seen }
    {
        let (offset, size) = self.draft.payload_span?;
        Some((offset, size.min(self.cursor.count.saturating_sub(offset))))
    }

    /// Takes bytes of a block's data, which has `left` bytes left.
    #[inline(always)]
    fn data_run(&mut self, left: u64, run: &[u8])
        requires stage { self.old.stage ≡ ScanStage.BlockData left }
        requires within { length run.now ≤ left }
        requires room { self.old.cursor.count + length run.now ≤ 2 ^ 63 - 1 }
        ensures taken { TakesRun self.old self.new run.now }
        ensures may_step { IsTrue (may_scan self.new) }
    {
        self.cursor.data_run(self.draft.block.check, run);
        let rest = left - run.len() as u64;
        if rest > 0 {
            // A new stage would be written whole, padding included, after each short piece.
            if let ScanStage::BlockData(left) = &mut self.stage {
                *left = rest;
            }
        } else {
            self.stage = self.draft.in_data(0);
        }
    }

    /// Takes a byte after the bundle, which is a fault.
    fn trailing_byte(&mut self, byte: u8)
        requires stage { self.old.stage ≡ ScanStage.Ended }
        requires room { self.old.cursor.count < 2 ^ 63 - 1 }
        ensures { TakesRun self.old self.new (byte ∷ []) }
    {
        self.stage = ScanStage::Failed(BundleFault::Trailing, self.cursor.count);
        self.cursor.count += 1;
    }

    /// Takes one byte, at any stage before a fault.
    fn take_byte(&mut self, byte: u8)
        requires may_step { IsTrue (may_scan self.old) }
        requires room { scan_size self.old < 2 ^ 63 - 1 }
        ensures { TakesRun self.old self.new (byte ∷ []) }
    {
        match self.stage {
            ScanStage::Ended => self.trailing_byte(byte),
            _ => {
                self.advance_part(&[byte]);
            }
        }
    }
}

impl BundleScan {
    ghost use Rattle.link_cbor.specs.Pieces.{taken};
    ghost use Rattle.link_bundle_blocks.specs.Bundle.{bundle_goes};
    ghost use Rattle.link_bundle.specs.Scan.{HasScanned, scan_size, may_scan, MayTakeFromPiece, Advances, EndsBlockOnlyAtLastByte};

    /// Takes bytes of a piece while the scan needs more, and returns how many it took.
    #[inline(always)]
    fn feed_on(&mut self, bytes: &[u8]) -> usize
        requires room { scan_size self.old + length bytes.now ≤ 2 ^ 63 - 1 }
        ensures within { result ≤ length bytes.now }
        ensures size { scan_size self.new ≡ scan_size self.old + result }
        ensures seen { (seen : List ℕ) → HasScanned self.old seen
            → HasScanned self.new (seen ++ taken bundle_goes seen bytes.now) }
        ensures count { (seen : List ℕ) → HasScanned self.old seen
            → result ≡ length (taken bundle_goes seen bytes.now) }
    {
        let mut taken = 0;
        while taken < bytes.len() && self.going() {
            taken += self.advance(&bytes[taken..]);
        }
        taken
    }

    /// Takes the next bytes of a piece, and returns how many, at least one.
    ///
    /// The scan must need more bytes. Before the first byte of a bundle, it tries to take a whole
    /// bundle at once. Otherwise, or if that fails, it takes bytes of one stage.
    #[inline(always)]
    fn advance(&mut self, piece: &[u8]) -> usize
        requires may_step { IsTrue (may_scan self.old) }
        requires may_take { MayTakeFromPiece self.old piece.now }
        ensures { Advances self.old self.new piece.now result }
    {
        match self.stage {
            ScanStage::PrimaryBlock if self.cursor.count == 0 => self.advance_start(piece),
            _ => self.advance_part(piece),
        }
    }

    /// Takes the next bytes of a piece, and returns how many, at least one.
    ///
    /// The scan must need more bytes. It takes bytes of one stage, and a block may end with the
    /// last of them.
    #[inline(always)]
    pub(crate) fn advance_part(&mut self, piece: &[u8]) -> usize
        requires may_step { IsTrue (may_scan self.old) }
        requires may_take { MayTakeFromPiece self.old piece.now }
        ensures advances { Advances self.old self.new piece.now result }
        ensures blocks { EndsBlockOnlyAtLastByte self.old self.new piece.now result }
    {
        match self.stage {
            ScanStage::BlockData(left) => {
                let run = first_bytes(piece, left);
                self.data_run(left, run);
                run.len()
            }
            // This never happens, since a whole bundle needs no more bytes. A byte is taken all the
            // same, because the contract asks for at least one.
            ScanStage::Ended => {
                self.trailing_byte(piece[0]);
                1
            }
            ScanStage::Failed(..) => unreachable!(),
            _ => self.take_part(piece),
        }
    }

    /// Takes the first bytes of a bundle, and returns how many, at least one.
    ///
    /// It tries to take the whole bundle at once. If that fails, it takes bytes up to the end of
    /// the primary block at most.
    #[inline(never)]
    fn advance_start(&mut self, piece: &[u8]) -> usize
        requires stage { self.old.stage ≡ ScanStage.PrimaryBlock }
        requires begins { self.old.cursor.hold ≡ [] }
        requires may_take { MayTakeFromPiece self.old piece.now }
        ensures { Advances self.old self.new piece.now result }
    {
        match self.draft.whole(piece) {
            Ok(size) => {
                self.cursor.count += size as u64;
                self.stage = ScanStage::Ended;
                size
            }
            Err(_) => {
                self.draft.restart();
                self.take_part(piece)
            }
        }
    }
}

/// The parts that the scan holds.
impl BundleScan {
    ghost use Rattle.link_bundle.specs.Scan.{MayTakeFromPiece, Advances, EndsBlockOnlyAtLastByte};
    ghost use Rattle.link_bundle.specs.Stages.{is_part};

    /// Takes bytes of the part that the scan is in, and returns how many, at least one.
    ///
    /// If the part has a fault, it takes only as many bytes as show the fault.
    // Cold, so that the attempt to read a whole bundle or block at once keeps its registers.
    #[cold]
    #[inline(never)]
    pub(crate) fn take_part(&mut self, piece: &[u8]) -> usize
        requires part { IsTrue (is_part self.old.stage) }
        requires may_take { MayTakeFromPiece self.old piece.now }
        ensures advances { Advances self.old self.new piece.now result }
        ensures blocks { EndsBlockOnlyAtLastByte self.old self.new piece.now result }
    {
        let stage = self.stage;
        let held = self.cursor.take_in(piece, stage.limit());
        match read_part(stage, &mut self.draft, &mut self.cursor) {
            Ok((size, next)) => {
                self.cursor.pass(size);
                self.stage = next;
                size - held
            }
            Err(stop) => {
                if let BundleFault::Cut = stop.fault {
                    return self.cursor.hold.len() - held;
                }
                let start = self.cursor.start();
                let bytes = self.cursor.hold.as_slice();
                let size = shown(stage, &self.draft.numbers, self.cursor.check, bytes, held);
                self.cursor.give_back(size);
                // It never saturates: the fault lies within the bytes held.
                let offset = start.saturating_add(stop.offset as u64);
                self.stage = ScanStage::Failed(stop.fault, offset);
                size - held
            }
        }
    }
}

impl BundleScan {
    ghost use Rattle.link_bundle.specs.Scan.{HasJudged, scan_size};

    /// Scans the next piece of a bundle, until no further byte can change the verdict.
    ///
    /// If bytes follow a whole bundle, it scans the first of them, which makes the verdict a fault.
    #[inline(always)]
    pub fn judge_piece(&mut self, piece: &[u8])
        requires room { scan_size self.old + length piece.now ≤ 2 ^ 63 - 1 }
        ensures judged { (content : List ℕ) → HasJudged self.old content
            → HasJudged self.new (content ++ piece.now) }
        ensures size { scan_size self.new ≤ scan_size self.old + length piece.now }
    {
        let taken = self.feed(piece);
        if taken < piece.len() && matches!(self.state(), State::Ended) {
            self.step(piece[taken]);
        }
    }
}

/// Shows the state and the number of bytes seen, and nothing of the bundle.
impl fmt::Debug for BundleScan {
    fn fmt<W: fmt::Write>(&self, f: &mut fmt::Formatter<W>) -> fmt::Result {
        f.debug_struct("BundleScan")
            .field("state", &self.state())
            .field("count", &self.cursor.count)
            .finish_non_exhaustive()
    }
}

impl Piecewise for BundleScan {
    ghost use Rattle.link_bundle_blocks.specs.Bundle.{bundle_goes};
    ghost use Rattle.link_bundle.specs.Scan.{HasScanned, scan_size, may_scan};

    ghost has_seen = { HasScanned };

    ghost size = { scan_size };

    ghost goes = { bundle_goes };

    ghost may_step = { may_scan };

    fn going(&self) -> bool {
        matches!(self.state(), State::Going)
    }

    fn count(&self) -> u64 {
        self.cursor.count
    }

    #[inline(always)]
    fn feed(&mut self, bytes: &[u8]) -> usize {
        match self.stage {
            // Most short pieces lie inside a block's data.
            ScanStage::BlockData(left) if left > bytes.len() as u64 => {
                self.data_run(left, bytes);
                bytes.len()
            }
            _ => self.feed_on(bytes),
        }
    }

    fn step(&mut self, byte: u8) {
        self.take_byte(byte);
    }
}
