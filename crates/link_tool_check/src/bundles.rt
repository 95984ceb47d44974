//! `check --bundles`: the lines of the rules that the bundles of an input break.

ghost use Rattle.std.specs.Prelude.{◌≡◌, []};
ghost use Rattle.link_run.specs.Run.{devices, looks, NoneFailed};
ghost use Rattle.link_run.specs.NewRun.{IsNewRun};
ghost use Rattle.link_run.specs.WholeRun.{AfterRun};
ghost use Rattle.link_tool_check.specs.BundleReader.{data_size};
ghost use Rattle.link_tool_check.specs.Bundles.{bundle_check_tool};
ghost use Rattle.link_tool_option_types.specs.declared.check.BundleCheckOptions.{BundleCheckOptions};

use crate::bundle::{BundleReader, Origin};
use link_report_broken_rules::BundlePlace;
use link_run::{Run, RunEnd, Writers};
use link_run_over_bundle_files::{
    BundleConsumer, BundleWalkRun, RunView, WholeView, bundle_walk_run,
};
use link_tool_option_types::BundleCheckOptions;
use link_wire::{InDevice, IoFault, OutDevice};

/// Judges one bundle after another.
#[derive(Drop)]
pub struct BundleChecker {
    bundle: BundleReader,
    /// The offset of the current bundle in the input.
    offset: u64,
    /// Whether no rule that counts was broken.
    good: bool,
}

impl BundleChecker {
    ghost use Rattle.std.specs.Prelude.{◌+◌, ◌^◌, ◌<◌, length};
    ghost use Rattle.link_bundle_types.specs.BundleView.{viewed_info};
    ghost use Rattle.link_run_over_bundle_files.specs.Bundles.{size_of};
    ghost use Rattle.link_run_over_bundle_files.specs.Telling.{SoFar, WritesRestOfTexts, none_yet};
    ghost use Rattle.link_tool_check.specs.BundleChecker.{IsBundleCheckerAt, with_end};
    ghost use Rattle.link_tool_check.specs.Bundles.{bundle_check_telling};

    /// Makes a checker for the first bundle. The contract holds for any options.
    pub fn new() -> BundleChecker
        ensures knows { (options : BundleCheckOptions) → IsBundleCheckerAt options result none_yet }
        ensures read { data_size result.bundle ≡ 0 }
    {
        BundleChecker {
            bundle: BundleReader::new(),
            offset: 0,
            good: true,
        }
    }

    /// The current bundle is whole. Writes the lines of the rules that it breaks, and begins the
    /// next one.
    #[inline(never)]
    fn end_bundle<W: OutDevice, E: OutDevice>(
        &mut self,
        options: &BundleCheckOptions,
        number: u64,
        whole: WholeView<'_>,
        writers: &mut Writers<W, E>,
    ) -> Result<(), IoFault>
        ensures gives { (now : SoFar) → IsBundleCheckerAt options.now self.old now
            → size_of now.bundles + length now.begun < 2 ^ 63
            → whole.entry.length ≡ length now.begun → number ≡ length now.bundles
            → WritesRestOfTexts W.state E.state ((bundle_check_telling options.now).texts now)
            ((bundle_check_telling options.now).texts (with_end now (viewed_info whole.entry.info)))
            (IsBundleCheckerAt options.now self.new (with_end now (viewed_info whole.entry.info)))
            writers.old writers.new result }
        ensures read { data_size self.new.bundle ≡ 0 }
    {
        let origin = Origin {
            offset: self.offset,
            place: BundlePlace::Input(number),
            sender: &[],
            has_other_item: false,
        };
        let written = self.bundle.write_rules(
            options.must,
            options.own.as_slice(),
            &origin,
            &whole.info,
            writers,
            &mut self.good,
        );
        self.offset = self.offset.saturating_add(whole.length);
        self.bundle.restart();
        written
    }
}

impl BundleConsumer for BundleChecker {
    ghost use Rattle.std.specs.Prelude.{true, ◌-◌, ◌^◌};
    ghost use Rattle.link_tool_check.specs.BundleChecker.{IsBundleCheckerAt};
    ghost use Rattle.link_tool_check.specs.Bundles.{bundle_check_telling};

    type Options = BundleCheckOptions;

    ghost telling = { bundle_check_telling };

    ghost knows = { IsBundleCheckerAt };

    ghost fits = { λ checker. true };

    ghost wants = { λ checker. 2 ^ 64 - 1 };

    ghost tells_blocks = { true };

    ghost read = { λ checker. data_size checker.bundle };

    #[inline(always)]
    fn by_blocks() -> bool {
        true
    }

    #[inline(always)]
    fn limit(_options: &BundleCheckOptions) -> u64 {
        u64::MAX
    }

    #[inline(always)]
    fn wanted(&self) -> usize {
        usize::MAX
    }

    fn begin<W: OutDevice, E: OutDevice>(
        &mut self,
        _options: &BundleCheckOptions,
        _writers: &mut Writers<W, E>,
    ) -> Result<(), IoFault> {
        Ok(())
    }

    #[inline(always)]
    fn run<W: OutDevice, E: OutDevice>(
        &mut self,
        options: &BundleCheckOptions,
        run: &RunView<'_, '_>,
        writers: &mut Writers<W, E>,
    ) -> Result<(), IoFault> {
        let written = self.bundle.take_run(&options.own, run, writers);
        let Some(whole) = run.whole else {
            return written;
        };
        match written {
            Ok(()) => self.end_bundle(options, run.number, whole, writers),
            Err(fault) => Err(fault),
        }
    }

    /// Writes nothing, since only a whole bundle has lines.
    fn stop<W: OutDevice, E: OutDevice>(
        &mut self,
        _options: &BundleCheckOptions,
        _number: u64,
        _bytes: &[u8],
        _writers: &mut Writers<W, E>,
    ) -> Result<(), IoFault> {
        Ok(())
    }

    fn end<W: OutDevice, E: OutDevice>(
        &mut self,
        _options: &BundleCheckOptions,
        _writers: &mut Writers<W, E>,
    ) -> Result<(), IoFault> {
        Ok(())
    }

    #[inline(always)]
    fn is_good(&self, _options: &BundleCheckOptions) -> bool {
        self.good
    }
}

/// A run of `check --bundles`, step by step.
pub type BundleCheckRun<R, W, E> = BundleWalkRun<R, W, E, BundleChecker>;

/// Makes a run of `check --bundles` that has read and written nothing.
pub fn bundle_check_run<R: InDevice, W: OutDevice, E: OutDevice>(
    options: BundleCheckOptions,
    reader: R,
    output: W,
    report: E,
) -> BundleCheckRun<R, W, E>
    requires sound { NoneFailed (looks R.state W.state E.state) (devices reader output report) }
    ensures { IsNewRun ⟦<BundleCheckRun<R, W, E> as Run<R, W, E>>⟧ (bundle_check_tool options)
        (devices reader output report) result }
{
    bundle_walk_run(options, BundleChecker::new(), reader, output, report)
}

/// Judges by which rules the bundles of an input were made, one after another, to the end of the
/// run.
///
/// The output has a line for each rule that a bundle breaks, once the bundle is whole.
/// [`BundleCheckOptions`] says which rules have lines. The run stops at the first byte that shows a
/// fault of a bundle. Then the report has the line of the fault, and the status is 3. Otherwise the
/// report is empty, and the status is 1 if the output has a line, and else 0.
///
/// The answer is an error if a device failed, or the input has more than 2^63 - 1 bytes.
#[inline(never)]
pub fn bundle_check<R: InDevice, W: OutDevice, E: OutDevice>(
    options: BundleCheckOptions,
    reader: R,
    output: W,
    report: E,
) -> RunEnd<R, W, E>
    requires sound { NoneFailed (looks R.state W.state E.state) (devices reader output report) }
    ensures { AfterRun (looks R.state W.state E.state) (bundle_check_tool options)
        (devices reader output report) result }
{
    bundle_check_run(options, reader, output, report).run()
}
