//! The blocks of a bundle, as its bytes come.

ghost use Rattle.std.specs.Prelude.{◌≡◌, ◌+◌, ◌^◌, ◌≤◌, ◌<◌, ◌++◌, ◌∷◌, [], true, List, ℕ, length};
ghost use Rattle.link_bundle_blocks.specs.Blocks.{IfPrimaryHasShortEids, viewed_block};
ghost use Rattle.link_bundle_blocks.specs.Bundle.{blocks_in, bundle_goes};
ghost use Rattle.link_bundle.specs.Scan.{HasScanned, HasJudged, ending, scan_size};
ghost use Rattle.link_bundle_data_in_pieces.specs.DataReader.{IsDataReaderAt, read_size};
ghost use Rattle.link_run.specs.Writers.{on_output};
ghost use Rattle.link_run_over_bundle_files.specs.Blocks.{HasReadToBlockEnd, HasLastingText};
ghost use Rattle.link_run_over_bundle_files.specs.Telling.{WritesRestOfTexts};

use link_bundle::{BlockView, BundleScan};
use link_bundle_data_in_pieces::DataReader;
use link_cbor::Piecewise;
use link_run::Writers;
use link_wire::{IoFault, OutDevice};

/// What a tool keeps of the whole blocks of a bundle, and what it says of each.
pub trait BlockConsumer {
    /// What never changes in a run of the tool.
    type Options;

    /// What the tool writes to the output for the whole blocks in the first bytes of the bundle
    /// with this number.
    ghost says: { ℕ → List ℕ → List ℕ };

    /// The tool's fields agree with the whole blocks in these bytes of a bundle.
    ghost knows: { Self.Options → Self → List ℕ → Type 0 };

    /// Writes what the tool says of a block of the bundle with this number.
    ///
    /// In the contract, the block ends with the bytes `run`, which follow the bytes `before` of the
    /// bundle. `reader` has read the block's data.
    fn block<W: OutDevice, E: OutDevice>(
        &mut self,
        options: &Self::Options,
        number: u64,
        block: &BlockView<'_>,
        reader: &DataReader,
        writers: &mut Writers<W, E>,
    ) -> Result<(), IoFault>
        requires read { read_size reader.now < 2 ^ 63 }
        requires short { IfPrimaryHasShortEids (viewed_block block.now) }
        ensures { (before run : List ℕ) → knows options.now self.old before
            → bundle_goes before ≡ true
            → blocks_in (before ++ run) ≡ blocks_in before ++ viewed_block block.now ∷ []
            → length (before ++ run) < 2 ^ 63
            → HasReadToBlockEnd reader.now (before ++ run) (viewed_block block.now)
            → WritesRestOfTexts W.state E.state (on_output (says number before))
            (on_output (says number (before ++ run))) (knows options.now self.new (before ++ run))
            writers.old writers.new result };

    // more bytes add to what the tool says
    ghost grows: { (number : ℕ) (before more : List ℕ) → HasLastingText (says number) before more };

    // bytes with which no block ends change nothing
    ghost steady: { (number : ℕ) (options : Self.Options) (consumer : Self) (before more : List ℕ)
        → blocks_in (before ++ more) ≡ blocks_in before
        → (says number (before ++ more) ≡ says number before)
        × (knows options consumer before → knows options consumer (before ++ more)) };
}

/// Reads the block data in a run of the bundle with this number, and tells the consumer of the
/// block that ends with the run, if one does.
///
/// No block ends earlier in the run. The scan has seen the run, which follows the first `before`
/// bytes of the bundle. In the contract, `seen` is these first bytes.
#[inline(always)]
pub fn tell_run<C: BlockConsumer, W: OutDevice, E: OutDevice>(
    options: &C::Options,
    number: u64,
    before: u64,
    run: &[u8],
    scan: &BundleScan,
    reader: &mut DataReader,
    consumer: &mut C,
    writers: &mut Writers<W, E>,
) -> Result<(), IoFault>
    requires room { before + length run.now < 2 ^ 63 }
    requires read { read_size reader.old ≤ before }
    ensures read { read_size reader.new ≤ before + length run.now }
    ensures gives { (seen : List ℕ) → length seen ≡ before → bundle_goes seen ≡ true
        → HasScanned scan.now (seen ++ run.now)
        → blocks_in (seen ++ run.now) ≡ blocks_in seen ++ ending scan.now
        → IsDataReaderAt reader.old seen → C.knows options.now consumer.old seen
        → WritesRestOfTexts W.state E.state (on_output (C.says number seen))
        (on_output (C.says number (seen ++ run.now)))
        (IsDataReaderAt reader.new (seen ++ run.now)
        × C.knows options.now consumer.new (seen ++ run.now))
        writers.old writers.new result }
{
    match scan.ended_block() {
        Some(_) => tell_ended(
            options, number, before, run, scan, reader, consumer, writers,
        ),
        None => {
            reader.follow_cut(before, run, scan);
            Ok(())
        }
    }
}

/// [`tell_run`] for a run that ends with a block.
//
// Not inlined: most pieces of a bundle in short segments end no block, and should not pay for it.
// The block is looked up again here. If the caller handed it over, the caller would make room for
// it in each piece.
#[inline(never)]
fn tell_ended<C: BlockConsumer, W: OutDevice, E: OutDevice>(
    options: &C::Options,
    number: u64,
    before: u64,
    run: &[u8],
    scan: &BundleScan,
    reader: &mut DataReader,
    consumer: &mut C,
    writers: &mut Writers<W, E>,
) -> Result<(), IoFault>
    requires room { before + length run.now < 2 ^ 63 }
    requires read { read_size reader.old ≤ before }
    requires ended { ending scan.now ≡ [] → ⊥ }
    ensures read { read_size reader.new ≤ before + length run.now }
    ensures gives { (seen : List ℕ) → length seen ≡ before → bundle_goes seen ≡ true
        → HasScanned scan.now (seen ++ run.now)
        → blocks_in (seen ++ run.now) ≡ blocks_in seen ++ ending scan.now
        → IsDataReaderAt reader.old seen → C.knows options.now consumer.old seen
        → WritesRestOfTexts W.state E.state (on_output (C.says number seen))
        (on_output (C.says number (seen ++ run.now)))
        (IsDataReaderAt reader.new (seen ++ run.now)
        × C.knows options.now consumer.new (seen ++ run.now))
        writers.old writers.new result }
{
    match scan.ended_block() {
        // Each arm takes the block out and wraps it again, so that each kind has a call of its own.
        // If both kinds shared a call, the compiler would merge their fields.
        Some(BlockView::Primary(block)) => {
            let block = BlockView::Primary(block);
            tell_block(
                options, number, before, run, &block, scan, reader, consumer, writers,
            )
        }
        Some(BlockView::Canonical(block)) => {
            let block = BlockView::Canonical(block);
            tell_block(
                options, number, before, run, &block, scan, reader, consumer, writers,
            )
        }
        // No run comes here without a block, by the condition `ended`.
        None => Ok(()),
    }
}

/// [`tell_run`] for a run that ends with this block.
#[inline(always)]
fn tell_block<C: BlockConsumer, W: OutDevice, E: OutDevice>(
    options: &C::Options,
    number: u64,
    before: u64,
    run: &[u8],
    block: &BlockView<'_>,
    scan: &BundleScan,
    reader: &mut DataReader,
    consumer: &mut C,
    writers: &mut Writers<W, E>,
) -> Result<(), IoFault>
    requires room { before + length run.now < 2 ^ 63 }
    requires read { read_size reader.old ≤ before }
    requires ended { ending scan.now ≡ viewed_block block.now ∷ [] }
    requires short { IfPrimaryHasShortEids (viewed_block block.now) }
    ensures read { read_size reader.new ≤ before + length run.now }
    ensures gives { (seen : List ℕ) → length seen ≡ before → bundle_goes seen ≡ true
        → HasScanned scan.now (seen ++ run.now)
        → blocks_in (seen ++ run.now) ≡ blocks_in seen ++ ending scan.now
        → IsDataReaderAt reader.old seen → C.knows options.now consumer.old seen
        → WritesRestOfTexts W.state E.state (on_output (C.says number seen))
        (on_output (C.says number (seen ++ run.now)))
        (IsDataReaderAt reader.new (seen ++ run.now)
        × C.knows options.now consumer.new (seen ++ run.now))
        writers.old writers.new result }
{
    reader.follow(before, run, block, scan);
    consumer.block(options, number, block, reader, writers)
}

/// Scans the next piece of a bundle, and tells the consumer of each block that ends in it.
///
/// The piece follows the first `before` bytes of the bundle, which are `seen` in the contract. If
/// the scan needs no more bytes, no block ends in the piece. If bytes follow the whole bundle, the
/// scan takes the first of them, which makes its verdict a fault.
pub fn tell_piece<C: BlockConsumer, W: OutDevice, E: OutDevice>(
    options: &C::Options,
    number: u64,
    before: u64,
    piece: &[u8],
    scan: &mut BundleScan,
    reader: &mut DataReader,
    consumer: &mut C,
    writers: &mut Writers<W, E>,
) -> Result<(), IoFault>
    requires room { before + length piece.now < 2 ^ 63 }
    requires scanned { scan_size scan.old ≤ before }
    requires read { read_size reader.old ≤ before }
    ensures scanned { scan_size scan.new ≤ before + length piece.now }
    ensures read { read_size reader.new ≤ before + length piece.now }
    ensures gives { (seen : List ℕ) → length seen ≡ before → HasJudged scan.old seen
        → IsDataReaderAt reader.old seen → C.knows options.now consumer.old seen
        → WritesRestOfTexts W.state E.state (on_output (C.says number seen))
        (on_output (C.says number (seen ++ piece.now)))
        (HasJudged scan.new (seen ++ piece.now) × IsDataReaderAt reader.new (seen ++ piece.now)
        × C.knows options.now consumer.new (seen ++ piece.now)) writers.old writers.new result }
{
    let mut taken = 0;
    while taken < piece.len() && scan.going() {
        let rest = &piece[taken..];
        let count = scan.feed_block(rest);
        let run = &rest[..count];
        let at = before + taken as u64;
        if let Err(fault) = tell_run(options, number, at, run, scan, reader, consumer, writers) {
            return Err(fault);
        }
        taken += count;
    }
    scan.judge_piece(&piece[taken..]);
    Ok(())
}
