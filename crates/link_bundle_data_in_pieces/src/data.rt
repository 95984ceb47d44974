//! The data of the blocks of a bundle, read as it comes.

ghost use Rattle.std.specs.Prelude.{◌≡◌, ◌+◌, ◌^◌, ◌≤◌, ◌<◌, [], ◌++◌, IfSome, Some, List, ℕ, length, option_map};
ghost use Rattle.link_bundle_blocks.specs.declared.block.CanonicalBlock.{CanonicalBlock};
ghost use Rattle.link_bundle_data.specs.DataView.{viewed_result};
ghost use Rattle.link_bundle_data.specs.Scan.{HasScanned};
ghost use Rattle.link_bundle_data.specs.declared.kind.DataKind.{DataKind};
ghost use Rattle.link_report_blocks.specs.Fits.{WordsFit};
ghost use Rattle.link_report_blocks.specs.Kinds.{kind_of};
ghost use Rattle.link_bundle_data_in_pieces.specs.Found.{found_in, long_head_in};
ghost use Rattle.link_bundle_data_in_pieces.specs.DataReader.{IsDataReaderAt, IsDataReaderIn, read_size};

use link_bundle::{BlockView, BundleScan, CanonicalBlock, part_in};
use link_bundle_data::{DataFault, DataKind, DataScan, DataView};
use link_report_blocks::data_kind;

/// Reads the data of the blocks of one bundle after another.
#[derive(Drop)]
pub struct DataReader {
    /// The flags of the bundle, once its primary block has come.
    pub(crate) flags: u64,
    /// The kind of the latest block's data, or `None` if that data is not read.
    kind: Option<DataKind>,
    scan: DataScan,
}

impl DataReader {
    ghost use Rattle.std.specs.Prelude.{◌∷◌, fold, true};
    ghost use Rattle.link_bundle_blocks.specs.Blocks.{CanonicalOf, viewed_block};
    ghost use Rattle.link_bundle_blocks.specs.Bundle.{blocks_in, bundle_goes};
    ghost use Rattle.link_bundle.specs.Scan.{HasScanned as HasScannedBundle, ending};
    ghost use Rattle.link_bundle_data_in_pieces.specs.Found.{flags_after};

    /// Makes a reader for the first bundle.
    pub fn new() -> DataReader
        ensures size { read_size result ≡ 0 }
    {
        DataReader {
            flags: 0,
            kind: None,
            // Any kind would do: `begin` restarts the scan before it reads a byte.
            scan: DataScan::new(DataKind::Record),
        }
    }

    /// Begins another bundle, of which no byte has come.
    pub fn restart(&mut self)
        ensures reads { IsDataReaderAt self.new [] }
        ensures size { read_size self.new ≡ 0 }
    {
        self.flags = 0;
        self.kind = None;
    }

    /// Begins the data of a block. If data of its type is not read, the kind is then `None`.
    fn begin(&mut self, block: &CanonicalBlock)
        ensures kind { self.new.kind ≡ kind_of self.old.flags block.now.block_type }
        ensures scan { (kind : DataKind) → self.new.kind ≡ Some kind
            → HasScanned kind self.new.scan [] }
        ensures size { read_size self.new ≡ 0 }
        ensures flags { self.new.flags ≡ self.old.flags }
    {
        self.kind = data_kind(self.flags, block.block_type);
        if let Some(kind) = self.kind {
            self.scan.restart(kind);
        }
    }

    /// Reads those bytes of a block's data that are in `run`, which follows the first `before`
    /// bytes of the bundle. If the data does not begin before `run`, calls `begin` first.
    #[inline(always)]
    fn take(&mut self, block: &CanonicalBlock, before: u64, run: &[u8])
        requires room { before + length run.now < 2 ^ 63 }
        requires size { read_size self.old ≤ before }
        ensures reads { (seen : List ℕ) → length seen ≡ before
            → (block.now.data_start < before → IsDataReaderIn self.old seen block.now)
            → IsDataReaderIn self.new (seen ++ run.now) block.now }
        ensures size { read_size self.new ≤ before + length run.now }
        ensures flags { self.new.flags ≡ self.old.flags }
    {
        if block.data_start >= before {
            self.begin(block);
        }
        if self.kind.is_some() {
            let end = before + run.len() as u64;
            let count = block.data_length.min(end.saturating_sub(block.data_start));
            self.scan
                .take(part_in(run, before, block.data_start, count));
        }
    }

    /// Reads the data in `run`, whose last byte is the last byte of the block `ended`. The run
    /// comes after the bundle's first `before` bytes. If `ended` is the primary block, no data is
    /// read, and the flags of the bundle are kept.
    ///
    /// `scan`, the scan of the bundle, has seen the run. No other block ends in the run.
    #[inline(always)]
    pub fn follow(&mut self, before: u64, run: &[u8], ended: &BlockView<'_>, scan: &BundleScan)
        requires room { before + length run.now < 2 ^ 63 }
        requires size { read_size self.old ≤ before }
        requires ended { ending scan.now ≡ viewed_block ended.now ∷ [] }
        ensures size { read_size self.new ≤ before + length run.now }
        ensures flags { self.new.flags ≡ fold flags_after self.old.flags (ending scan.now) }
        ensures reads { (seen : List ℕ) → length seen ≡ before → IsDataReaderAt self.old seen
            → bundle_goes seen ≡ true
            → HasScannedBundle scan.now (seen ++ run.now)
            → blocks_in (seen ++ run.now) ≡ blocks_in seen ++ ending scan.now
            → IsDataReaderAt self.new (seen ++ run.now) }
        // If `ended` is a canonical block, and data of its type is read, all of its data was read.
        ensures whole { (seen : List ℕ) (block : CanonicalBlock) → length seen ≡ before
            → IsDataReaderAt self.old seen → bundle_goes seen ≡ true
            → blocks_in (seen ++ run.now) ≡ blocks_in seen ++ ending scan.now
            → ending scan.now ≡ CanonicalOf block ∷ []
            → IsDataReaderIn self.new (seen ++ run.now) block }
    {
        match ended {
            BlockView::Primary(block) => self.flags = block.flags,
            BlockView::Canonical(block) => self.take(block, before, run),
        }
    }

    /// Reads the data in a run of the bundle in which no block ends. The run comes after the
    /// bundle's first `before` bytes, and the scan has seen it.
    #[inline(always)]
    pub fn follow_cut(&mut self, before: u64, run: &[u8], scan: &BundleScan)
        requires room { before + length run.now < 2 ^ 63 }
        requires size { read_size self.old ≤ before }
        ensures size { read_size self.new ≤ before + length run.now }
        ensures flags { self.new.flags ≡ self.old.flags }
        ensures reads { (seen : List ℕ) → length seen ≡ before → IsDataReaderAt self.old seen
            → bundle_goes seen ≡ true
            → HasScannedBundle scan.now (seen ++ run.now)
            → blocks_in (seen ++ run.now) ≡ blocks_in seen
            → IsDataReaderAt self.new (seen ++ run.now) }
    {
        if let Some(block) = scan.cut_block() {
            self.take(&block, before, run);
        }
    }

    /// What the data of the latest block says, or why it is malformed. `None` if data of this
    /// block's type is not read.
    #[inline(always)]
    pub fn found(&self) -> Option<Result<DataView<'_>, DataFault>>
        ensures found { (seen : List ℕ) (block : CanonicalBlock)
            → IsDataReaderIn self.now seen block
            → option_map viewed_result result ≡ found_in self.now.flags seen block }
        ensures fits { (start : ℕ) → start + read_size self.now < 2 ^ 64
            → WordsFit start (option_map viewed_result result) }
    {
        match self.kind {
            Some(_) => Some(self.scan.view()),
            None => None,
        }
    }

    /// The offset, in the data of the latest block, of the first head that is longer than its
    /// number needs. `DataScan::long_head` says which heads are judged. `None` if none of them is
    /// so long, or data of this block's type is not read.
    pub fn long_head(&self) -> Option<u64>
        ensures found { (seen : List ℕ) (block : CanonicalBlock)
            → IsDataReaderIn self.now seen block
            → result ≡ long_head_in self.now.flags seen block }
        ensures within { IfSome result (λ at. at ≤ read_size self.now) }
    {
        match self.kind {
            Some(_) => self.scan.long_head(),
            None => None,
        }
    }
}
