//! What the rules for a bundle need of its bytes.

ghost use Rattle.std.specs.Prelude.{◌≡◌, ◌+◌, ◌^◌, ◌≤◌, ◌<◌, ◌++◌, true, List, [], ℕ, length, map};
ghost use Rattle.link_bundle_data_in_pieces.specs.DataReader.{IsDataReaderIn, read_size};
ghost use Rattle.link_bundle_data_in_pieces.specs.Found.{found_in, long_head_in};
ghost use Rattle.link_bundle_rules.specs.History.{bundle_of};
ghost use Rattle.link_bundle_rules.specs.BundleFacts.{with_block};

use crate::lines::write_rules;
use link_bundle::{BlockView, BundleScan, CanonicalBlock};
use link_bundle_data_in_pieces::DataReader;
use link_bundle_rules::{BrokenBundleRules, BundleHistory, KnownSource, ReadBlockView};
use link_bundle_types::BundleView;
use link_report_broken_rules::BundlePlace;
use link_rules_shared::{Doubt, HeadWalk, Prefix, Unread};
use link_run::Writers;
use link_run_over_bundle_files::{BlockConsumer, RunView, tell_piece, tell_run};
use link_tool_option_types::NodeId;
use link_wire::{IoFault, OutDevice};

/// How a good bundle came.
#[derive(Clone, Copy)]
pub(crate) struct Origin<'a> {
    /// The offset that its lines have.
    pub(crate) offset: u64,
    pub(crate) place: BundlePlace,
    /// The node ID of the entity that sent it, or empty.
    pub(crate) sender: &'a [u8],
    /// Whether its transfer has an extension item of an unknown type.
    pub(crate) has_other_item: bool,
}

/// Reads one bundle after another, as far as the rules for bundles need it.
///
/// It has a fixed size. Of the bytes, it keeps the first four, and a name of the current block.
#[derive(Drop)]
pub(crate) struct BundleReader {
    data: DataReader,
    blocks: KeptBlocks,
    heads: HeadWalk,
    prefix: Prefix,
}

/// The whole blocks of a bundle, as far as the rules need them.
#[derive(Drop)]
struct KeptBlocks {
    /// The blocks so far, if it has begun.
    history: BundleHistory,
    /// Whether the history has begun: the primary block is whole.
    begun: bool,
}

impl BlockConsumer for KeptBlocks {
    ghost use Rattle.std.specs.Prelude.{refl};
    ghost use Rattle.link_tool_check.specs.BundleReader.{IsBundleHistoryOnceBegun};
    ghost use Rattle.link_tool_check.specs.BundleRules.{read_bundle};
    ghost use Rattle.link_tool_check.specs.HistoryLaws.{history_same};

    /// The node ID of the node whose security blocks are judged; if it is empty, those of every
    /// node are.
    type Options = NodeId;

    ghost says = { λ number content. [] };

    ghost knows = { λ own kept content. IsBundleHistoryOnceBegun kept.begun kept.history
        (read_bundle own.items content) content };

    #[inline(always)]
    fn block<W: OutDevice, E: OutDevice>(
        &mut self,
        own: &NodeId,
        _number: u64,
        block: &BlockView<'_>,
        reader: &DataReader,
        _writers: &mut Writers<W, E>,
    ) -> Result<(), IoFault> {
        match block {
            BlockView::Primary(block) => {
                self.history.begin(block);
                self.begun = true;
            }
            BlockView::Canonical(block) => add(&mut self.history, own.as_slice(), block, reader),
        }
        Ok(())
    }

    ghost grows = { λ number before more. record { text = []; is = refl } };

    ghost steady = { λ number own kept before more same.
        (refl, history_same own.items before more kept.begun kept.history same) };
}

/// Adds a whole block to a history, and what `reader` found in the block's data.
///
/// If this toolkit reads data of the block's type, `reader` has taken all of it before.
///
/// In the contract, `None` and 0 stand for the bundle's long head and its payload's length. A
/// history keeps neither.
#[inline(always)]
fn add(history: &mut BundleHistory, own: &[u8], block: &CanonicalBlock, reader: &DataReader)
    requires { read_size reader.now < 2 ^ 63 }
    ensures { (seen : List ℕ) → length history.old.blocks.items < 64
        → block.now.data_start < 2 ^ 63
        → IsDataReaderIn reader.now seen block.now
        → bundle_of history.new None 0 ≡ with_block own.now (bundle_of history.old None 0) block.now
        (found_in reader.now.flags seen block.now) (long_head_in reader.now.flags seen block.now) }
{
    match reader.found() {
        None => {
            let long_head = reader.long_head();
            history.take(
                own,
                &ReadBlockView {
                    block,
                    found: None,
                    long_head,
                },
            );
        }
        Some(_) => {
            // The call gets a copy. Otherwise every block would be put into memory for it.
            let block = *block;
            add_read(history, own, &block, reader);
        }
    }
}

/// Does [`add`] for a block in whose data the reader found something. It is not inlined.
#[inline(never)]
fn add_read<'a>(
    history: &mut BundleHistory,
    own: &[u8],
    block: &'a CanonicalBlock,
    reader: &'a DataReader,
)
    requires { read_size reader.now < 2 ^ 63 }
    ensures { (seen : List ℕ) → length history.old.blocks.items < 64
        → block.now.data_start < 2 ^ 63
        → IsDataReaderIn reader.now seen block.now
        → bundle_of history.new None 0 ≡ with_block own.now (bundle_of history.old None 0) block.now
        (found_in reader.now.flags seen block.now) (long_head_in reader.now.flags seen block.now) }
{
    let found = reader.found();
    let long_head = reader.long_head();
    history.take(
        own,
        &ReadBlockView {
            block,
            found,
            long_head,
        },
    );
}

impl BundleReader {
    ghost use Rattle.link_bundle_types.specs.declared.info.BundleInfo.{BundleInfo};
    ghost use Rattle.link_bundle.specs.Scan.{HasJudged, scan_size};
    ghost use Rattle.link_run.specs.Run.{no_texts};
    ghost use Rattle.link_run_over_bundle_files.specs.Telling.{RunViewComes, SoFar, WritesRestOfTexts};
    ghost use Rattle.link_rules_shared.specs.Heads.{unread_of};
    ghost use Rattle.link_bundle_types.specs.BundleView.{viewed_info};
    ghost use Rattle.link_bundle_rules.specs.declared.source.KnownSource.{KnownSource};
    ghost use Rattle.link_tool_check.specs.BundleReader.{IsBundleReaderAt, data_size, viewed_origin};
    ghost use Rattle.link_tool_check.specs.BundleRules.{bundle_doubt, bundle_rules, bundle_texts};
    ghost use Rattle.link_tool_check.specs.Writing.{WritesRules};

    /// Makes a reader for the first bundle. The contract holds for every `own`.
    pub(crate) fn new() -> BundleReader
        ensures reads { (own : List ℕ) → IsBundleReaderAt own result [] }
        ensures size { data_size result ≡ 0 }
    {
        let mut data = DataReader::new();
        data.restart();
        BundleReader {
            data,
            blocks: KeptBlocks {
                history: BundleHistory::new(),
                begun: false,
            },
            heads: HeadWalk::new(),
            prefix: Prefix::new(),
        }
    }

    /// Begins another bundle. The contract holds for every `own`.
    pub(crate) fn restart(&mut self)
        ensures reads { (own : List ℕ) → IsBundleReaderAt own self.new [] }
        ensures size { data_size self.new ≡ 0 }
    {
        self.data.restart();
        self.blocks.begun = false;
        self.heads.restart();
        self.prefix.restart();
    }

    /// Scans and reads the next piece of a bundle, after its first `before` bytes. Writes nothing.
    ///
    /// `own` is the node ID of the node whose security blocks are judged, or empty.
    pub(crate) fn take<W: OutDevice, E: OutDevice>(
        &mut self,
        own: &NodeId,
        before: u64,
        piece: &[u8],
        scan: &mut BundleScan,
        writers: &mut Writers<W, E>,
    ) -> Result<(), IoFault>
        requires room { before + length piece.now < 2 ^ 63 }
        requires scanned { scan_size scan.old ≤ before }
        requires read { data_size self.old ≤ before }
        ensures scanned { scan_size scan.new ≤ before + length piece.now }
        ensures read { data_size self.new ≤ before + length piece.now }
        ensures gives { (content : List ℕ) → length content ≡ before → HasJudged scan.old content
            → IsBundleReaderAt own.now.items self.old content
            → WritesRestOfTexts W.state E.state no_texts no_texts
            (HasJudged scan.new (content ++ piece.now)
            × IsBundleReaderAt own.now.items self.new (content ++ piece.now)) writers.old writers.new result }
    {
        self.heads.take(piece);
        self.prefix.take(piece);
        // The number 0 is not used, since no line is written.
        tell_piece(
            own,
            0,
            before,
            piece,
            scan,
            &mut self.data,
            &mut self.blocks,
            writers,
        )
    }

    /// Reads a run of a bundle that the scan has seen. Writes nothing.
    ///
    /// The contract holds for any `limit` of a bundle's length.
    #[inline(always)]
    pub(crate) fn take_run<W: OutDevice, E: OutDevice>(
        &mut self,
        own: &NodeId,
        run: &RunView<'_, '_>,
        writers: &mut Writers<W, E>,
    ) -> Result<(), IoFault>
        requires room { run.now.before + length run.now.bytes.now < 2 ^ 63 }
        requires read { data_size self.old ≤ run.now.before }
        ensures read { data_size self.new ≤ run.now.before + length run.now.bytes.now }
        ensures gives { (limit : ℕ) (before : SoFar) → IsBundleReaderAt own.now.items self.old before.begun
            → RunViewComes limit true before run.now
            → WritesRestOfTexts W.state E.state no_texts no_texts
            (IsBundleReaderAt own.now.items self.new (before.begun ++ run.now.bytes.now))
            writers.old writers.new result }
    {
        self.heads.take(run.bytes);
        self.prefix.take(run.bytes);
        tell_run(
            own,
            run.number,
            run.before,
            run.bytes,
            run.scan,
            &mut self.data,
            &mut self.blocks,
            writers,
        )
    }

    /// Where the bundle has heads that this toolkit does not read.
    pub(crate) fn unread(&self) -> Unread
        ensures { (own content : List ℕ) → IsBundleReaderAt own self.now content
            → result ≡ unread_of content }
    {
        self.heads.unread(self.prefix.is_tagged())
    }

    /// Whether the bundle is known to break no rule, if it is good and whole. If it returns false,
    /// the bundle may break rules or not.
    #[inline(always)]
    fn keeps_rules(&self) -> bool
        ensures { (own content : List ℕ) (info : BundleInfo) (source : KnownSource)
            → IsBundleReaderAt own self.now content
            → result ≡ true → bundle_rules own source content info ≡ [] }
    {
        // Without a primary block, no rule is broken. A whole bundle has one.
        if !self.blocks.begun {
            return true;
        }
        self.blocks.history.keeps_rules(self.heads.first_long())
    }

    /// The rules that the bundle breaks. It has to be good and whole. `payload` is the number of
    /// bytes of its payload.
    fn rules(&self, payload: u64, source: KnownSource) -> BrokenBundleRules
        ensures { (own content : List ℕ) (info : BundleInfo)
            → IsBundleReaderAt own self.now content
            → payload ≡ info.payload
            → result.items ≡ bundle_rules own source content info }
    {
        // Without a primary block, no rule is broken. A whole bundle has one.
        if !self.blocks.begun {
            return BrokenBundleRules::new();
        }
        let first_long_head = self.heads.first_long();
        self.blocks.history.rules(first_long_head, payload, source)
    }

    /// What may have changed in the bundle. `has_other_item` is whether its transfer has an
    /// extension item of an unknown type.
    fn doubt(&self, has_other_item: bool) -> Doubt
        ensures { (own content : List ℕ) → IsBundleReaderAt own self.now content
            → result ≡ bundle_doubt own has_other_item content }
    {
        if has_other_item {
            return Doubt::WholeBundle;
        }
        if !self.blocks.begun {
            return Doubt::Nothing;
        }
        self.blocks.history.doubt()
    }

    /// Writes the lines of the rules that the bundle breaks. Most bundles break none.
    ///
    /// The bundle has to be good and whole, which is not checked here. `info` has its fields.
    ///
    /// `must` is whether only rules of level `must` count. If one counts, `good` becomes false.
    #[inline(always)]
    pub(crate) fn write_rules<W: OutDevice, E: OutDevice>(
        &self,
        must: bool,
        own: &[u8],
        origin: &Origin<'_>,
        info: &BundleView<'_>,
        writers: &mut Writers<W, E>,
        good: &mut bool,
    ) -> Result<(), IoFault>
        ensures { (content : List ℕ) → IsBundleReaderAt own.now self.now content
            → WritesRules W.state E.state must writers.old writers.new good.old good.new result
            (bundle_texts own.now (viewed_origin origin.now) content (viewed_info info.now)) }
    {
        if self.keeps_rules() {
            return Ok(());
        }
        self.write_broken(must, own, origin, info, writers, good)
    }

    /// Does [`BundleReader::write_rules`] for a bundle that may break a rule.
    #[inline(never)]
    fn write_broken<W: OutDevice, E: OutDevice>(
        &self,
        must: bool,
        own: &[u8],
        origin: &Origin<'_>,
        info: &BundleView<'_>,
        writers: &mut Writers<W, E>,
        good: &mut bool,
    ) -> Result<(), IoFault>
        ensures { (content : List ℕ) → IsBundleReaderAt own.now self.now content
            → WritesRules W.state E.state must writers.old writers.new good.old good.new result
            (bundle_texts own.now (viewed_origin origin.now) content (viewed_info info.now)) }
    {
        let source = KnownSource::of(own, origin.sender, &info.source);
        let rules = self.rules(info.payload, source);
        let doubt = self.doubt(origin.has_other_item);
        write_rules(
            must,
            origin.offset,
            doubt,
            origin.place,
            rules.as_slice(),
            writers,
            good,
        )
    }
}
