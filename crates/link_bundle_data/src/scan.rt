//! The scan of a block's data.
ghost use Rattle.std.specs.Prelude.{◌≡◌, ℕ, ◌+◌, ◌-◌, ◌^◌, ◌<◌, ◌≤◌, false, Err, IfErr, IfOk, IfSome, IsTrue, List, ◌∷◌, [], ◌++◌, length, take, drop, min};
ghost use Rattle.link_cbor.specs.Head.{Whole, head_front};
ghost use Rattle.link_cbor.specs.HeadScan.{HasScannedHead};
ghost use Rattle.std.specs.{Bool.then_some, Option.option_or};
ghost use Rattle.link_rules_shared.specs.Heads.{is_long};
ghost use Rattle.link_bundle_data.specs.BlockData.{exceeds_limit};
ghost use Rattle.link_bundle_data.specs.Fits.{scan_fits, failed_within, long_within};

use crate::draft::Draft;
use crate::due::{DataStage, Due, Found, Owner};
use crate::kind::DataKind;
use crate::values::{DataFault, DataView};
use link_bundle_types::BundleFault;
use link_cbor::{Head, HeadScan, HeadStep, Piecewise};
use link_rules_shared::is_long;
use std::fmt;

/// Reads the data of one block (RFC 9171 section 4.3.2) in pieces of any size.
///
/// It keeps what [`DataView`] shows, and no other bytes of the data.
#[derive(Drop)]
pub struct DataScan {
    stage: DataStage,
    /// The number of bytes seen.
    count: u64,
    /// At a head, the offset of its first byte; after the item, the offset of the next byte.
    offset: u64,
    head: HeadScan,
    draft: Draft,
    /// The offset of the first head that is longer than its number needs, of those before `offset`.
    long: Option<u64>,
    ghost fits: { IsTrue (scan_fits stage head draft) },
    ghost begun: { offset ≤ count },
    ghost failed: { IsTrue (failed_within stage count) },
    ghost noted: { IsTrue (long_within long count) },
}

/// The first bytes of a piece, at most `left` of them.
fn first_bytes(piece: &[u8], left: u64) -> &[u8]
    ensures run { result.now ≡ take (min left (length piece.now)) piece.now }
    ensures size { length result.now ≡ min left (length piece.now) }
{
    let size = left.min(piece.len() as u64) as usize;
    &piece[..size]
}

/// The fault of data that is malformed at an offset for another reason than a limit.
fn no_limit(offset: u64) -> DataFault
    ensures { result ≡ record { offset = offset; is_limit = false } }
{
    DataFault {
        offset,
        is_limit: false,
    }
}

/// Whether an item with this fault exceeds a limit of this toolkit: its scheme is neither dtn nor
/// ipn, its dtn name is long, or its length is indefinite.
///
/// The item fails at `head`. The size of the head does not matter.
fn exceeds_limit(fault: BundleFault, head: Head) -> bool
    ensures { (size : ℕ) → result ≡ exceeds_limit fault (Whole head size) }
{
    match fault {
        BundleFault::BadScheme | BundleFault::EidTooLong => true,
        BundleFault::WrongKind | BundleFault::BadSpecificPart => head.is_indefinite(),
        _ => false,
    }
}

/// Keeps the offset of a head of `size` bytes, if it is the first that is longer than needed.
// Most heads are one byte, which is never too long. Such a head should cost no call and no write.
#[inline(always)]
fn note(long: &mut Option<u64>, offset: u64, size: u64, head: Head)
    ensures first { long.new ≡ option_or long.old (then_some (is_long head size) offset) }
    ensures within { (count : ℕ) → IsTrue (long_within long.old count) → offset ≤ count
        → IsTrue (long_within long.new count) }
{
    if size == 1 {
        return;
    }
    if long.is_none() {
        *long = is_long(head, size as usize).then_some(offset);
    }
}

impl DataScan {
    ghost use Rattle.link_bundle_data.specs.BlockData.{data_of};
    ghost use Rattle.link_bundle_data.specs.LongHeads.{long_head};
    ghost use Rattle.link_bundle_data.specs.DataView.{viewed_data, viewed_result, HasShortName};
    ghost use Rattle.link_bundle_data.specs.Scan.{HasScanned, HasHeadToJudge, TakesRun, IsFirstLongHead, scan_size};
    ghost use Rattle.link_bundle_data.specs.declared.kind.DataKind.{DataKind};

    /// A scan of data of this kind that has seen no byte.
    pub fn new(kind: DataKind) -> DataScan
        ensures seen { HasScanned kind result [] }
        ensures size { scan_size result ≡ 0 }
    {
        DataScan {
            stage: DataStage::Head(kind.first()),
            count: 0,
            offset: 0,
            head: HeadScan::new(),
            draft: Draft::new(),
            long: None,
        }
    }

    /// Makes the scan new, for data of this kind.
    pub fn restart(&mut self, kind: DataKind)
        ensures seen { HasScanned kind self.new [] }
        ensures size { scan_size self.new ≡ 0 }
    {
        // The draft stays as it is, since each of its values is set before it is read.
        self.stage = DataStage::Head(kind.first());
        self.count = 0;
        self.offset = 0;
        self.head = HeadScan::new();
        self.long = None;
    }

    /// What the bytes seen say if they are all of the data, or why that data is malformed.
    ///
    /// It is malformed at the first byte of a head that is ill-formed or not the one due. Data that
    /// ends inside its item is malformed at its end. If bytes follow an item that has to be the
    /// last, the data is malformed at the first of them.
    pub fn view(&self) -> Result<DataView<'_>, DataFault>
        ensures seen { (kind : DataKind) (seen : List ℕ) → HasScanned kind self.now seen
            → viewed_result result ≡ data_of kind seen }
        // A fault before the end of the bytes seen is final: more bytes do not change it.
        ensures lasts { IfErr result (λ fault. fault.offset < scan_size self.now →
            (kind : DataKind) (seen : List ℕ) → HasScanned kind self.now seen →
            (more : List ℕ) → data_of kind (seen ++ more) ≡ Err fault) }
        ensures within { IfErr result (λ fault. fault.offset ≤ scan_size self.now) }
        // This holds whatever was scanned: a draft has no room for a name of more than 1,024 bytes.
        ensures short { IfOk result (λ view. HasShortName (viewed_data view)) }
    {
        match self.stage {
            DataStage::Read(found) => Ok(self.draft.view(found, self.offset)),
            DataStage::Failed(fault) => Err(fault),
            DataStage::Head(_) | DataStage::Name(..) => Err(no_limit(self.count)),
        }
    }

    /// The offset, in the data, of the first head that is longer than its number needs.
    ///
    /// The bytes seen count as all of the data. In a security block, the heads up to the end of its
    /// source are judged. In malformed data and in an administrative record, no head is judged.
    pub fn long_head(&self) -> Option<u64>
        ensures seen { (kind : DataKind) (seen : List ℕ) → HasScanned kind self.now seen
            → result ≡ long_head kind seen }
        ensures within { IfSome result (λ at. at ≤ scan_size self.now) }
    {
        match self.stage {
            DataStage::Read(found) => found.if_judged(self.long),
            DataStage::Failed(_) | DataStage::Head(_) | DataStage::Name(..) => None,
        }
    }

    /// Takes the next piece of the data.
    pub fn take(&mut self, piece: &[u8])
        requires room { scan_size self.old + length piece.now ≤ 2 ^ 63 - 1 }
        ensures { TakesRun self.old self.new piece.now }
    {
        let mut taken = 0;
        while taken < piece.len() {
            taken += self.advance(&piece[taken..]);
        }
    }

    /// Takes the next bytes of a piece, and returns how many, at least one.
    fn advance(&mut self, piece: &[u8]) -> usize
        requires some { 0 < length piece.now }
        requires room { scan_size self.old + length piece.now ≤ 2 ^ 63 - 1 }
        ensures some { 0 < result }
        ensures within { result ≤ length piece.now }
        ensures taken { TakesRun self.old self.new (take result piece.now) }
    {
        match self.stage {
            DataStage::Head(due) => self.advance_head(due, piece),
            DataStage::Name(owner, left) => {
                let run = first_bytes(piece, left);
                self.name_run(owner, left, run);
                run.len()
            }
            DataStage::Read(found) => {
                self.after_item(found, piece);
                piece.len()
            }
            DataStage::Failed(_) => {
                self.count += piece.len() as u64;
                piece.len()
            }
        }
    }

    /// Takes the head that is due, if it begins here and lies whole in the piece, or else its next
    /// byte. Returns the number of bytes taken.
    fn advance_head(&mut self, due: Due, piece: &[u8]) -> usize
        requires stage { self.old.stage ≡ DataStage.Head due }
        requires some { 0 < length piece.now }
        requires room { self.old.count + length piece.now ≤ 2 ^ 63 - 1 }
        ensures some { 0 < result }
        ensures within { result ≤ length piece.now }
        ensures taken { TakesRun self.old self.new (take result piece.now) }
    {
        if self.offset == self.count
            && let Some((head, size)) = Head::front(piece)
        {
            self.head_run(due, head, &piece[..size]);
            return size;
        }
        self.head_byte(due, piece[0]);
        1
    }

    /// Takes a byte of the head that is due.
    fn head_byte(&mut self, due: Due, byte: u8)
        requires stage { self.old.stage ≡ DataStage.Head due }
        requires room { self.old.count < 2 ^ 63 - 1 }
        ensures { TakesRun self.old self.new (byte ∷ []) }
    {
        self.count += 1;
        self.head.step(byte);
        match self.head.outcome() {
            HeadStep::More => {}
            HeadStep::Bad => self.stage = DataStage::Failed(no_limit(self.offset)),
            HeadStep::Done(head) => {
                let size = self.head.count();
                self.head = HeadScan::new();
                self.take_head(due, size, head);
            }
        }
    }

    /// Takes the bytes `run`, which are one whole head.
    fn head_run(&mut self, due: Due, head: Head, run: &[u8])
        requires stage { self.old.stage ≡ DataStage.Head due }
        requires begins { self.old.offset ≡ self.old.count }
        requires whole { head_front run.now ≡ Whole head (length run.now) }
        requires room { self.old.count + length run.now ≤ 2 ^ 63 - 1 }
        ensures { TakesRun self.old self.new run.now }
    {
        self.count += run.len() as u64;
        self.take_head(due, run.len() as u64, head);
    }

    /// Judges a complete head, which begins at `offset`. Its `size` bytes are the last bytes seen,
    /// and `count` includes them.
    fn take_head(&mut self, due: Due, size: u64, head: Head)
        requires stage { self.old.stage ≡ DataStage.Head due }
        ensures size { scan_size self.new ≡ scan_size self.old }
        ensures seen { (kind : DataKind) (seen : List ℕ)
            → HasHeadToJudge kind due self.old.draft self.old.offset self.old.count seen
            → IsFirstLongHead (DataStage.Head due) self.old.long self.old.offset seen
            → head_front (drop self.old.offset seen) ≡ Whole head (length (drop self.old.offset seen))
            → size ≡ length (drop self.old.offset seen)
            → HasScannedHead self.old.head []
            → HasScanned kind self.new seen }
    {
        match self.draft.head(due, size, head) {
            Ok(stage) => {
                note(&mut self.long, self.offset, size, head);
                self.stage = stage;
                self.offset = self.count;
            }
            Err(fault) => {
                self.stage = DataStage::Failed(DataFault {
                    offset: self.offset,
                    is_limit: exceeds_limit(fault, head),
                });
            }
        }
    }

    /// Takes the bytes `run` of a dtn name, of which `left` bytes are left before them.
    fn name_run(&mut self, owner: Owner, left: u64, run: &[u8])
        requires stage { self.old.stage ≡ DataStage.Name owner left }
        requires some { 0 < length run.now }
        requires within { length run.now ≤ left }
        requires room { self.old.count + length run.now ≤ 2 ^ 63 - 1 }
        ensures { TakesRun self.old self.new run.now }
    {
        self.stage = self.draft.name(owner, left, run);
        self.count += run.len() as u64;
        self.offset = self.count;
        self.head = HeadScan::new();
    }

    /// Takes bytes after the item. The data is malformed if the item has to be the last.
    fn after_item(&mut self, found: Found, run: &[u8])
        requires stage { self.old.stage ≡ DataStage.Read found }
        requires some { 0 < length run.now }
        requires room { self.old.count + length run.now ≤ 2 ^ 63 - 1 }
        ensures { TakesRun self.old self.new run.now }
    {
        self.count += run.len() as u64;
        if found.may_follow() {
            return;
        }
        self.stage = DataStage::Failed(no_limit(self.offset));
    }
}

/// Shows the number of bytes seen, and nothing of the data.
impl fmt::Debug for DataScan {
    fn fmt<W: fmt::Write>(&self, f: &mut fmt::Formatter<W>) -> fmt::Result {
        f.debug_struct("DataScan")
            .field("count", &self.count)
            .finish_non_exhaustive()
    }
}
