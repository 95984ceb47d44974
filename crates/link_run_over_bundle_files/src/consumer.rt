//! What a tool does with the bundles of an input.

ghost use Rattle.std.specs.Prelude.{◌≡◌, ◌+◌, ◌^◌, ◌<◌, ◌≤◌, Bool, IfSome, IsTrue, List, OnOk, length, ℕ};
ghost use Rattle.link_bundle_types.specs.BundleView.{viewed_info};
ghost use Rattle.link_bundle_types.specs.ShortNames.{HasShortNames};
ghost use Rattle.link_run.specs.Run.{no_texts};
ghost use Rattle.link_run_over_bundle_files.specs.Bundles.{BundleWithInfo};
ghost use Rattle.link_run_over_bundle_files.specs.Telling.{BundleTelling, RunViewComes, SoFar, BytesBeforeFaultCome, WritesRestOfTexts, between, come_with, none_yet, size_after, with_bytes};

use link_bundle::BundleScan;
use link_bundle_types::BundleView;
use link_run::Writers;
use link_wire::{IoFault, OutDevice};

/// A bundle that is whole.
#[derive(Clone, Copy)]
pub struct WholeView<'a> {
    /// Its length in bytes.
    pub length: u64,
    /// Its fields.
    pub info: BundleView<'a>,
}

/// Bytes of a bundle that were accepted.
#[derive(Clone, Copy)]
pub struct RunView<'a, 'b> {
    /// The number of bundles before it.
    pub number: u64,
    /// The number of bytes of the bundle before these.
    pub before: u64,
    /// The bytes, at least one.
    pub bytes: &'b [u8],
    /// The scan, which has seen them.
    pub scan: &'a BundleScan,
    /// The bundle, if it is whole with these bytes.
    pub whole: Option<WholeView<'a>>,
}

/// A tool over bundles: what it keeps of those so far, and what it says of them.
///
/// A failed call ends the run.
pub trait BundleConsumer: Sized {
    /// What never changes in a run of the tool.
    type Options: Drop;

    /// What the tool says of bundles.
    ghost telling: { Self.Options → BundleTelling };

    /// Exactly this has come, and the tool's fields agree with it.
    ghost knows: { Self.Options → Self → SoFar → Type 0 };

    /// Whether the tool may be called.
    ghost fits: { Self → Bool };

    /// The most bytes that the tool takes at once.
    ghost wants: { Self → ℕ };

    /// Whether the tool is told of each block by itself.
    ghost tells_blocks: { Bool };

    /// How many bytes of a block's data the tool has read. They are bytes of the current bundle.
    ghost read: { Self → ℕ };

    /// Whether the tool is told of each block by itself: no block ends in a run before its end.
    fn by_blocks() -> bool
        ensures { result ≡ tells_blocks };

    /// The most bytes that a bundle may have. A bundle never has more than
    /// [`INPUT_LIMIT`](link_wire::INPUT_LIMIT).
    fn limit(options: &Self::Options) -> u64
        ensures { result ≡ (telling options.now).limit };

    /// The most bytes that the tool takes at once.
    fn wanted(&self) -> usize
        requires { IsTrue (fits self.now) }
        ensures some { 0 < result }
        ensures value { result ≡ wants self.now };

    /// Writes what comes before the first bundle.
    fn begin<W: OutDevice, E: OutDevice>(
        &mut self,
        options: &Self::Options,
        writers: &mut Writers<W, E>,
    ) -> Result<(), IoFault>
        requires { IsTrue (fits self.old) }
        ensures fits { OnOk result (IsTrue (fits self.new)) }
        ensures read { OnOk result (read self.new ≤ read self.old) }
        ensures gives { knows options.now self.old none_yet
            → WritesRestOfTexts W.state E.state no_texts ((telling options.now).texts none_yet)
            (knows options.now self.new none_yet) writers.old writers.new result };

    /// Takes a run of accepted bytes, with which the bundle goes on or is whole. Writes what the
    /// tool says of them.
    fn run<W: OutDevice, E: OutDevice>(
        &mut self,
        options: &Self::Options,
        run: &RunView<'_, '_>,
        writers: &mut Writers<W, E>,
    ) -> Result<(), IoFault>
        requires fits { IsTrue (fits self.old) }
        requires few { length run.now.bytes.now ≤ wants self.old }
        requires room { run.now.before + length run.now.bytes.now < 2 ^ 63 }
        requires read { read self.old ≤ run.now.before }
        requires short { IfSome run.now.whole (λ whole. HasShortNames (viewed_info whole.info)) }
        ensures fits { OnOk result (IsTrue (fits self.new)) }
        ensures read { OnOk result (read self.new ≤ size_after run.now) }
        ensures gives { (before : SoFar) → knows options.now self.old before
            → RunViewComes (telling options.now).limit tells_blocks before run.now
            → WritesRestOfTexts W.state E.state ((telling options.now).texts before)
            ((telling options.now).texts (come_with before run.now))
            (knows options.now self.new (come_with before run.now))
            writers.old writers.new result };

    /// Takes the last accepted bytes of the bundle with this number, perhaps none. Writes what the
    /// tool says of them.
    ///
    /// The byte after them shows a fault. If [`Self::by_blocks`] is true, no block ends in these
    /// bytes.
    fn stop<W: OutDevice, E: OutDevice>(
        &mut self,
        options: &Self::Options,
        number: u64,
        bytes: &[u8],
        writers: &mut Writers<W, E>,
    ) -> Result<(), IoFault>
        requires fits { IsTrue (fits self.old) }
        requires few { length bytes.now ≤ wants self.old }
        ensures { (before : SoFar) → knows options.now self.old before
            → BytesBeforeFaultCome (telling options.now).limit tells_blocks before number bytes.now
            → WritesRestOfTexts W.state E.state ((telling options.now).texts before)
            ((telling options.now).texts (with_bytes before bytes.now)) (Unit {0})
            writers.old writers.new result };

    /// Writes what comes after the last bundle, if the input ends between two bundles.
    fn end<W: OutDevice, E: OutDevice>(
        &mut self,
        options: &Self::Options,
        writers: &mut Writers<W, E>,
    ) -> Result<(), IoFault>
        ensures { (bundles : List BundleWithInfo) → knows options.now self.old (between bundles)
            → WritesRestOfTexts W.state E.state ((telling options.now).texts (between bundles))
            ((telling options.now).ended bundles) (Unit {0}) writers.old writers.new result };

    /// Whether all bundles so far are good.
    fn is_good(&self, options: &Self::Options) -> bool
        ensures { (bundles : List BundleWithInfo) → knows options.now self.now (between bundles)
            → result ≡ (telling options.now).good bundles };
}
