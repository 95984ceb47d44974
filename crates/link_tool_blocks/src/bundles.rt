//! `blocks --bundles`: the lines of the blocks in the bundles of an input.

ghost use Rattle.std.specs.Prelude.{◌≡◌, []};
ghost use Rattle.link_bundle_types.specs.BundleView.{viewed_info};
ghost use Rattle.link_report_blocks.specs.Blocks.{end_text};
ghost use Rattle.link_report.specs.declared.judgement.Judgement.TheVariants.{Good};
ghost use Rattle.link_run.specs.Run.{devices, looks, NoneFailed};
ghost use Rattle.link_run.specs.NewRun.{IsNewRun};
ghost use Rattle.link_run.specs.WholeRun.{AfterRun};
ghost use Rattle.link_run.specs.Writers.{AfterWrite, on_output};
ghost use Rattle.link_bundle_data_in_pieces.specs.DataReader.{IsDataReaderAt, read_size};
ghost use Rattle.link_tool_blocks.specs.Bundles.{bundle_blocks_tool};

use crate::block_lines::BlockLines;
use link_bundle_data_in_pieces::DataReader;
use link_report::JudgementView;
use link_report_blocks::EndText;
use link_run::{Run, RunEnd, Writers};
use link_run_over_bundle_files::{
    BundleConsumer, BundleWalkRun, RunView, WholeView, bundle_walk_run, tell_run,
};
use link_wire::{InDevice, IoFault, OutDevice};

/// Shows the blocks of one bundle after another.
#[derive(Drop)]
pub struct BundleLister {
    reader: DataReader,
}

impl BundleLister {
    /// Makes a lister for the first bundle.
    pub fn new() -> BundleLister
        ensures reads { IsDataReaderAt result.reader [] }
        ensures read { read_size result.reader ≡ 0 }
    {
        let mut reader = DataReader::new();
        reader.restart();
        BundleLister { reader }
    }
}

/// Writes the line of the end of a whole bundle.
#[inline(never)]
fn write_end<W: OutDevice, E: OutDevice>(
    number: u64,
    whole: WholeView<'_>,
    writers: &mut Writers<W, E>,
) -> Result<(), IoFault>
    ensures { AfterWrite W.state E.state writers.old writers.new (on_output (end_text number
        whole.entry.length (Good (viewed_info whole.entry.info)))) result }
{
    writers.write_text(&EndText {
        id: number,
        length: whole.length,
        judgement: &JudgementView::Good(whole.info),
    })
}

impl BundleConsumer for BundleLister {
    ghost use Rattle.std.specs.Prelude.{true, ◌-◌, ◌^◌};
    ghost use Rattle.link_tool_blocks.specs.Bundles.{bundle_blocks_telling};

    type Options = ();

    ghost telling = { λ options. bundle_blocks_telling };

    ghost knows = { λ options lister now. IsDataReaderAt lister.reader now.begun };

    ghost fits = { λ lister. true };

    ghost wants = { λ lister. 2 ^ 64 - 1 };

    ghost tells_blocks = { true };

    ghost read = { λ lister. read_size lister.reader };

    #[inline(always)]
    fn by_blocks() -> bool {
        true
    }

    #[inline(always)]
    fn limit(_options: &()) -> u64 {
        u64::MAX
    }

    #[inline(always)]
    fn wanted(&self) -> usize {
        usize::MAX
    }

    fn begin<W: OutDevice, E: OutDevice>(
        &mut self,
        _options: &(),
        _writers: &mut Writers<W, E>,
    ) -> Result<(), IoFault> {
        Ok(())
    }

    /// If a block ends with the bytes, writes the line of the block. If the bundle is whole with
    /// them, then also writes the line of its end, and begins the next bundle.
    #[inline(always)]
    fn run<W: OutDevice, E: OutDevice>(
        &mut self,
        options: &(),
        run: &RunView<'_, '_>,
        writers: &mut Writers<W, E>,
    ) -> Result<(), IoFault> {
        let written = tell_run(
            options,
            run.number,
            run.before,
            run.bytes,
            run.scan,
            &mut self.reader,
            &mut BlockLines,
            writers,
        );
        let Some(whole) = run.whole else {
            return written;
        };
        self.reader.restart();
        match written {
            Ok(()) => write_end(run.number, whole, writers),
            Err(fault) => Err(fault),
        }
    }

    /// Writes nothing, since no block ends in these bytes.
    fn stop<W: OutDevice, E: OutDevice>(
        &mut self,
        _options: &(),
        _number: u64,
        _bytes: &[u8],
        _writers: &mut Writers<W, E>,
    ) -> Result<(), IoFault> {
        Ok(())
    }

    /// Writes nothing after the line of the last bundle's end.
    fn end<W: OutDevice, E: OutDevice>(
        &mut self,
        _options: &(),
        _writers: &mut Writers<W, E>,
    ) -> Result<(), IoFault> {
        Ok(())
    }

    /// Always true, since the run stops at a bundle with a fault.
    fn is_good(&self, _options: &()) -> bool {
        true
    }
}

/// A run of `blocks --bundles`, step by step.
pub type BundleBlocksRun<R, W, E> = BundleWalkRun<R, W, E, BundleLister>;

/// Makes a run of `blocks --bundles` that has read and written nothing.
pub fn bundle_blocks_run<R: InDevice, W: OutDevice, E: OutDevice>(
    reader: R,
    output: W,
    report: E,
) -> BundleBlocksRun<R, W, E>
    requires sound { NoneFailed (looks R.state W.state E.state) (devices reader output report) }
    ensures { IsNewRun ⟦<BundleBlocksRun<R, W, E> as Run<R, W, E>>⟧ bundle_blocks_tool
        (devices reader output report) result }
{
    bundle_walk_run((), BundleLister::new(), reader, output, report)
}

/// Shows the blocks of the bundles of an input, one after another, to the end of the run.
///
/// The output has a line for each whole block, and a line for the end of each bundle. The first
/// word of a line is the number of the bundle, from 0. The run stops at the first byte that shows a
/// fault of a bundle. That bundle has the lines of the blocks before the fault, and no line of its
/// end. Then the report has the line of the fault, and the status is 3. Otherwise the report is
/// empty, and the status is 0.
///
/// The answer is an error if a device failed, or the input has more than 2^63 - 1 bytes.
#[inline(never)]
pub fn bundle_blocks<R: InDevice, W: OutDevice, E: OutDevice>(
    reader: R,
    output: W,
    report: E,
) -> RunEnd<R, W, E>
    requires sound { NoneFailed (looks R.state W.state E.state) (devices reader output report) }
    ensures { AfterRun (looks R.state W.state E.state) bundle_blocks_tool
        (devices reader output report) result }
{
    bundle_blocks_run(reader, output, report).run()
}
