//! What `pack` makes of the bundles that it reads: segments, and a line for each.

ghost use Rattle.std.specs.Prelude.{◌≡◌, ◌<◌, IfErr, IfOk, [], length};
ghost use Rattle.link_bundle_types.specs.BundleView.{viewed_info};
ghost use Rattle.link_bundle_types.specs.ShortNames.{HasShortNames};
ghost use Rattle.link_run.specs.Run.{devices, looks, NoneFailed};
ghost use Rattle.link_run.specs.NewRun.{IsNewRun};
ghost use Rattle.link_run.specs.WholeRun.{AfterRun};
ghost use Rattle.link_run.specs.Writers.{AfterWrite, on_output, on_report};
ghost use Rattle.link_run_over_bundle_files.specs.Bundles.{BundleWithInfo};
ghost use Rattle.link_tool_pack.specs.Packer.{IsNewCutterFor};
ghost use Rattle.link_tool_pack.specs.Packing.{pack_tool, prelude_bytes, end_bytes, report_line, segment_size};
ghost use Rattle.link_tool_pack.specs.PackRun.{LacksMemory};

use crate::segments::write_run;
use link_report::{PackedText, PackedView};
use link_run::{Run, RunEnd, Writers};
use link_run_over_bundle_files::{
    BundleConsumer, BundleWalkRun, RunView, WholeView, bundle_walk_run,
};
use link_tool_option_types::PackOptions;
use link_transfer::Cutter;
use link_wire::{HeadBuf, InDevice, IoFault, OutDevice, put_contact, put_sess_init, put_sess_term};
use std::alloc::{AllocError, Global};

/// The most bytes of data in a segment, whatever the peer takes.
const SEGMENT_LIMIT: u64 = 65_536;

/// Packs one bundle after another.
///
/// It holds no more bytes than those of one chunk. But while the length of a bundle may still be
/// announced, it holds all bytes of that bundle.
#[derive(Drop)]
pub struct Packer {
    cutter: Cutter,
    /// The buffer for the head of a message.
    head: HeadBuf,
}

/// The most bytes of data in a segment, by the peer's limit and [`SEGMENT_LIMIT`].
fn segment(options: &PackOptions) -> u64
    ensures value { result ≡ segment_size options.now }
    ensures some { 0 < result }
{
    options.peer_segment.min(SEGMENT_LIMIT)
}

/// Makes the cutter for a run of `pack` with these options.
///
/// This is the only request for memory that a run of `pack` makes. It is for the bytes of the
/// longest segment or for one byte more than `announce`, whichever is greater.
///
/// # Errors
///
/// The request was refused.
pub fn cutter_for(alloc: Global, options: &PackOptions) -> Result<Cutter, AllocError>
    ensures { IfOk result (IsNewCutterFor options.now) }
{
    Cutter::new(alloc, segment(options) as usize, options.announce as usize)
}

impl Packer {
    /// Makes a packer that has packed nothing, with a new cutter.
    pub fn new(cutter: Cutter) -> Packer
        ensures { result.cutter ≡ cutter }
    {
        Packer {
            cutter,
            head: HeadBuf::new(),
        }
    }
}

impl BundleConsumer for Packer {
    ghost use Rattle.std.specs.Prelude.{false, not};
    ghost use Rattle.link_transfer.specs.Cutter.{has_ready_chunk, wanted_by};
    ghost use Rattle.link_tool_pack.specs.Packer.{IsCutterIn};
    ghost use Rattle.link_tool_pack.specs.PackRun.{pack_telling};

    type Options = PackOptions;

    ghost telling = { pack_telling };

    ghost knows = { λ options packer now. IsCutterIn options packer.cutter now.begun };

    ghost fits = { λ packer. not (has_ready_chunk packer.cutter) };

    ghost wants = { λ packer. wanted_by packer.cutter };

    ghost tells_blocks = { false };

    ghost read = { λ packer. 0 };

    /// False: the lines of `pack` say nothing of blocks, so blocks may end anywhere in a run.
    #[inline(always)]
    fn by_blocks() -> bool {
        false
    }

    /// The most bytes that a bundle may have: as many as the peer takes in a transfer.
    #[inline(always)]
    fn limit(options: &PackOptions) -> u64 {
        options.peer_transfer
    }

    /// The most bytes that the packer takes at once: those that the next chunk still lacks.
    #[inline(always)]
    fn wanted(&self) -> usize {
        self.cutter.wanted()
    }

    /// Writes the contact header and SESS_INIT.
    #[inline(never)]
    fn begin<W: OutDevice, E: OutDevice>(
        &mut self,
        options: &PackOptions,
        writers: &mut Writers<W, E>,
    ) -> Result<(), IoFault> {
        self.head.clear();
        put_prelude(&mut self.head, options);
        writers.write_output(self.head.as_slice())
    }

    /// Writes the segments that the bytes make due, and then the line of a whole bundle.
    #[inline(always)]
    fn run<W: OutDevice, E: OutDevice>(
        &mut self,
        options: &PackOptions,
        run: &RunView<'_, '_>,
        writers: &mut Writers<W, E>,
    ) -> Result<(), IoFault> {
        let Some(whole) = run.whole else {
            return write_run(run.number, run.bytes, false, &mut self.cutter, writers);
        };
        match write_run(run.number, run.bytes, true, &mut self.cutter, writers) {
            Ok(()) => write_line(run.number, options, whole, writers),
            Err(fault) => Err(fault),
        }
    }

    /// Takes the last accepted bytes of a bundle with a fault, and writes the segments that become
    /// due with them.
    fn stop<W: OutDevice, E: OutDevice>(
        &mut self,
        _options: &PackOptions,
        number: u64,
        bytes: &[u8],
        writers: &mut Writers<W, E>,
    ) -> Result<(), IoFault> {
        write_run(number, bytes, false, &mut self.cutter, writers)
    }

    /// Writes SESS_TERM, if the options ask for it.
    fn end<W: OutDevice, E: OutDevice>(
        &mut self,
        options: &PackOptions,
        writers: &mut Writers<W, E>,
    ) -> Result<(), IoFault> {
        write_end(writers, options, &mut self.head)
    }

    /// Always true, since the run stops at a bundle with a fault.
    fn is_good(&self, _options: &PackOptions) -> bool {
        true
    }
}

/// Appends the contact header, without flags, and SESS_INIT.
#[tactic(auto, unfolding(crate::specs::Packing::prelude_bytes))]
fn put_prelude(head: &mut HeadBuf, options: &PackOptions)
    requires { head.old.items ≡ [] }
    ensures { head.new.items ≡ prelude_bytes options.now }
{
    // By the contract of `len`, the node ID has at most 1,024 bytes. So the buffer has room for
    // all.
    let _length = options.node.len();
    put_contact(head, 0);
    put_sess_init(
        head,
        options.keepalive,
        options.segment_mru,
        options.transfer_mru,
        &options.node,
    );
}

/// Writes the line of a whole bundle to the report.
#[inline(always)]
pub(crate) fn write_line<W: OutDevice, E: OutDevice>(
    number: u64,
    options: &PackOptions,
    whole: WholeView<'_>,
    writers: &mut Writers<W, E>,
) -> Result<(), IoFault>
    requires { HasShortNames (viewed_info whole.info) }
    ensures { (bundle : BundleWithInfo) → viewed_info whole.entry.info ≡ bundle.info
        → whole.entry.length ≡ length bundle.bytes
        → AfterWrite W.state E.state writers.old writers.new
        (on_report (report_line options.now number bundle)) result }
{
    let line = PackedText {
        entry: PackedView {
            number,
            segments: whole.length.div_ceil(segment(options)),
            length: whole.length,
            info: whole.info,
        },
    };
    writers.report_text(&line)
}

/// Writes SESS_TERM, if the options ask for it.
fn write_end<W: OutDevice, E: OutDevice>(
    writers: &mut Writers<W, E>,
    options: &PackOptions,
    head: &mut HeadBuf,
) -> Result<(), IoFault>
    ensures { AfterWrite W.state E.state writers.old writers.new
        (on_output (end_bytes options.now)) result }
{
    if !options.send_term {
        return Ok(());
    }
    head.clear();
    // The message has no flags, and the reason 0.
    put_sess_term(head, 0, 0);
    writers.write_output(head.as_slice())
}

/// A run of `pack`, step by step.
pub type PackRun<R, W, E> = BundleWalkRun<R, W, E, Packer>;

/// Makes a run of `pack` that has read and written nothing.
///
/// The cutter has to be new, as [`cutter_for`](crate::cutter_for) makes it for these options.
pub fn pack_run<R: InDevice, W: OutDevice, E: OutDevice>(
    cutter: Cutter,
    options: PackOptions,
    reader: R,
    output: W,
    report: E,
) -> PackRun<R, W, E>
    requires cutter { IsNewCutterFor options cutter }
    requires sound { NoneFailed (looks R.state W.state E.state) (devices reader output report) }
    ensures { IsNewRun ⟦<PackRun<R, W, E> as Run<R, W, E>>⟧ (pack_tool options)
        (devices reader output report) result }
{
    bundle_walk_run(options, Packer::new(cutter), reader, output, report)
}

/// Packs the bundles of an input into the stream of a sender (RFC 9174), to the end of the run.
///
/// The stream goes to the output, and a line for each bundle to the report. The run stops where a
/// bundle shows a fault, is longer than the peer takes, or is cut short by the input's end. Then
/// the report ends with the line of that fault, and the status is 3. Otherwise the status is 0.
///
/// The answer is an error if a device failed, or the input has more than 2^63 - 1 bytes. `memory`
/// is the result of [`cutter_for`](crate::cutter_for). If it is an error, the answer is
/// [`IoFault::Memory`], and the devices are returned as they were.
// Not inlined. Otherwise its locals would take up stack while the other tools run.
#[inline(never)]
pub fn pack<R: InDevice, W: OutDevice, E: OutDevice>(
    memory: Result<Cutter, AllocError>,
    options: PackOptions,
    reader: R,
    output: W,
    report: E,
) -> RunEnd<R, W, E>
    requires cutter { IfOk memory (IsNewCutterFor options) }
    requires sound { NoneFailed (looks R.state W.state E.state) (devices reader output report) }
    ensures ran { IfOk memory (λ _. AfterRun (looks R.state W.state E.state) (pack_tool options)
        (devices reader output report) result) }
    ensures lacked { IfErr memory (λ _. LacksMemory (devices reader output report) result) }
{
    match memory {
        Ok(cutter) => pack_run(cutter, options, reader, output, report).run(),
        Err(_) => RunEnd::unbegun(reader, output, report, IoFault::Memory),
    }
}
