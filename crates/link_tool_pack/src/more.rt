//! What `pack_more` makes of the bundles that it reads: segments for a session that is open, and a
//! line for each bundle.

ghost use Rattle.std.specs.Prelude.{◌≡◌, IfErr, IfOk};
ghost use Rattle.link_run.specs.NewRun.{IsNewRun};
ghost use Rattle.link_run.specs.Run.{devices, looks, NoneFailed};
ghost use Rattle.link_run.specs.WholeRun.{AfterRun};
ghost use Rattle.link_tool_pack.specs.More.{id_at, more_tool};
ghost use Rattle.link_tool_pack.specs.Packer.{IsNewCutterFor};
ghost use Rattle.link_tool_pack.specs.PackRun.{LacksMemory};

use crate::packer::write_line;
use crate::segments::write_run;
use link_run::{Run, RunEnd, Writers};
use link_run_over_bundle_files::{BundleConsumer, BundleWalkRun, RunView, bundle_walk_run};
use link_tool_option_types::PackOptions;
use link_transfer::Cutter;
use link_wire::{InDevice, IoFault, OutDevice};
use std::alloc::AllocError;

/// The first transfer ID of `pack_more`, and the limits of the peer.
#[derive(Debug, Drop, PartialEq, Eq)]
pub struct MoreOptions {
    /// The ID of the first transfer.
    ///
    /// An input has at least a byte for each bundle. So all IDs fit if `first` and the length of
    /// the input together are less than 2^64. The caller ensures that they fit: after 2^64 - 1, the
    /// IDs go on with 0.
    pub first: u64,
    /// The limits of the peer, and the longest bundle whose length is announced. The other options
    /// are not read.
    pub pack: PackOptions,
}

/// Packs one bundle after another, without what begins and ends a session.
///
/// It holds the same bytes as a [`Packer`](crate::Packer).
#[derive(Drop)]
pub struct MorePacker {
    cutter: Cutter,
}

impl MorePacker {
    /// Makes a packer that has packed nothing, with a new cutter.
    pub fn new(cutter: Cutter) -> MorePacker
        ensures { result.cutter ≡ cutter }
    {
        MorePacker { cutter }
    }
}

/// The ID of the transfer of a bundle, which comes after `number` bundles.
#[inline(always)]
fn id_of(options: &MoreOptions, number: u64) -> u64
    ensures { result ≡ id_at options.now number }
{
    options.first.wrapping_add(number)
}

impl BundleConsumer for MorePacker {
    ghost use Rattle.std.specs.Prelude.{false, not};
    ghost use Rattle.link_transfer.specs.Cutter.{has_ready_chunk, wanted_by};
    ghost use Rattle.link_tool_pack.specs.Packer.{IsCutterIn};
    ghost use Rattle.link_tool_pack.specs.MoreRun.{more_telling};

    type Options = MoreOptions;

    ghost telling = { more_telling };

    ghost knows = { λ options more now. IsCutterIn options.pack more.cutter now.begun };

    ghost fits = { λ more. not (has_ready_chunk more.cutter) };

    ghost wants = { λ more. wanted_by more.cutter };

    ghost tells_blocks = { false };

    ghost read = { λ more. 0 };

    /// False: the lines of `pack` say nothing of blocks, so blocks may end anywhere in a run.
    #[inline(always)]
    fn by_blocks() -> bool {
        false
    }

    /// The most bytes that a bundle may have: as many as the peer takes in a transfer.
    #[inline(always)]
    fn limit(options: &MoreOptions) -> u64 {
        options.pack.peer_transfer
    }

    /// The most bytes that the packer takes at once: those that the next chunk still lacks.
    #[inline(always)]
    fn wanted(&self) -> usize {
        self.cutter.wanted()
    }

    /// Writes nothing: the session is open.
    #[inline(always)]
    fn begin<W: OutDevice, E: OutDevice>(
        &mut self,
        _options: &MoreOptions,
        _writers: &mut Writers<W, E>,
    ) -> Result<(), IoFault> {
        Ok(())
    }

    /// Writes the segments that the bytes make due, and then the line of a whole bundle.
    #[inline(always)]
    fn run<W: OutDevice, E: OutDevice>(
        &mut self,
        options: &MoreOptions,
        run: &RunView<'_, '_>,
        writers: &mut Writers<W, E>,
    ) -> Result<(), IoFault> {
        let id = id_of(options, run.number);
        let Some(whole) = run.whole else {
            return write_run(id, run.bytes, false, &mut self.cutter, writers);
        };
        match write_run(id, run.bytes, true, &mut self.cutter, writers) {
            Ok(()) => write_line(id, &options.pack, whole, writers),
            Err(fault) => Err(fault),
        }
    }

    /// Takes the last accepted bytes of a bundle with a fault, and writes the segments that become
    /// due with them.
    fn stop<W: OutDevice, E: OutDevice>(
        &mut self,
        options: &MoreOptions,
        number: u64,
        bytes: &[u8],
        writers: &mut Writers<W, E>,
    ) -> Result<(), IoFault> {
        let id = id_of(options, number);
        write_run(id, bytes, false, &mut self.cutter, writers)
    }

    /// Writes nothing: the session stays open.
    #[inline(always)]
    fn end<W: OutDevice, E: OutDevice>(
        &mut self,
        _options: &MoreOptions,
        _writers: &mut Writers<W, E>,
    ) -> Result<(), IoFault> {
        Ok(())
    }

    /// Always true, since the run stops at a bundle with a fault.
    fn is_good(&self, _options: &MoreOptions) -> bool {
        true
    }
}

/// A run of `pack_more`, step by step.
pub type MoreRun<R, W, E> = BundleWalkRun<R, W, E, MorePacker>;

/// Makes a run of `pack_more` that has read and written nothing.
///
/// The cutter has to be new, as [`cutter_for`](crate::cutter_for) makes it for `options.pack`.
pub fn more_run<R: InDevice, W: OutDevice, E: OutDevice>(
    cutter: Cutter,
    options: MoreOptions,
    reader: R,
    output: W,
    report: E,
) -> MoreRun<R, W, E>
    requires cutter { IsNewCutterFor options.pack cutter }
    requires sound { NoneFailed (looks R.state W.state E.state) (devices reader output report) }
    ensures { IsNewRun ⟦<MoreRun<R, W, E> as Run<R, W, E>>⟧ (more_tool options)
        (devices reader output report) result }
{
    bundle_walk_run(options, MorePacker::new(cutter), reader, output, report)
}

/// Packs the bundles of an input into a session that is open (RFC 9174), to the end of the run.
///
/// The segments go to the output, and a line for each bundle to the report. The run stops where
/// [`pack`](crate::pack) stops, and has the same status.
///
/// The answer is an error if a device failed, or the input has more than 2^63 - 1 bytes. `memory`
/// is the result of [`cutter_for`](crate::cutter_for). If it is an error, the answer is
/// [`IoFault::Memory`], and the devices are returned as they were.
// Not inlined. Otherwise its locals would take up stack while the other tools run.
#[inline(never)]
pub fn pack_more<R: InDevice, W: OutDevice, E: OutDevice>(
    memory: Result<Cutter, AllocError>,
    options: MoreOptions,
    reader: R,
    output: W,
    report: E,
) -> RunEnd<R, W, E>
    requires cutter { IfOk memory (IsNewCutterFor options.pack) }
    requires sound { NoneFailed (looks R.state W.state E.state) (devices reader output report) }
    ensures ran { IfOk memory (λ _. AfterRun (looks R.state W.state E.state) (more_tool options)
        (devices reader output report) result) }
    ensures lacked { IfErr memory (λ _. LacksMemory (devices reader output report) result) }
{
    match memory {
        Ok(cutter) => more_run(cutter, options, reader, output, report).run(),
        Err(_) => RunEnd::unbegun(reader, output, report, IoFault::Memory),
    }
}
