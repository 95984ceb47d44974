//! One call that runs any of the tools.

ghost use Rattle.std.specs.Prelude.{◌≡◌};
ghost use Rattle.link_run.specs.Run.{devices, looks, NoneFailed};
ghost use Rattle.link_tools.specs.Options.{AfterJob, IfPackHasNewCutter, options_of};

use link_run::RunEnd;
use link_tool_blocks::{blocks, bundle_blocks};
use link_tool_check::{bundle_check, check};
use link_tool_list::list;
use link_tool_option_types::{
    BlockOptions, BundleCheckOptions, CheckOptions, Options, PackOptions, Wanted,
};
use link_tool_pack::{cutter_for, pack};
use link_tool_unpack::unpack;
use link_transfer::Cutter;
use link_wire::{InDevice, OutDevice};
use std::alloc::{AllocError, Global};

/// A tool that is ready to run.
#[derive(Drop)]
pub enum Job {
    /// The tool of [`Options::List`].
    List,
    /// The tool of [`Options::Unpack`].
    Unpack(Wanted),
    /// The tool of [`Options::Blocks`].
    Blocks(BlockOptions),
    /// The tool of [`Options::BundleBlocks`].
    BundleBlocks,
    /// The tool of [`Options::Check`].
    Check(CheckOptions),
    /// The tool of [`Options::BundleCheck`].
    BundleCheck(BundleCheckOptions),
    /// The tool of [`Options::Pack`], with the result of its one request for memory.
    Pack(PackOptions, Result<Cutter, AllocError>),
}

impl Job {
    /// Makes the tool of these options ready to run.
    ///
    /// Only `pack` requests memory: one request, which is made here.
    pub fn new(alloc: Global, options: Options) -> Job
        ensures options { options_of result ≡ options }
        ensures ready { IfPackHasNewCutter result }
    {
        match options {
            Options::List => Job::List,
            Options::Unpack(wanted) => Job::Unpack(wanted),
            Options::Blocks(options) => Job::Blocks(options),
            Options::BundleBlocks => Job::BundleBlocks,
            Options::Check(options) => Job::Check(options),
            Options::BundleCheck(options) => Job::BundleCheck(options),
            Options::Pack(options) => {
                let memory = cutter_for(alloc, &options);
                Job::Pack(options, memory)
            }
        }
    }
}

/// Runs the tool to its end, and returns its devices and its answer.
///
/// If the request for the memory of `pack` failed, the devices are returned as they were, and the
/// answer is `IoFault::Memory`.
pub fn run_tool<R: InDevice, W: OutDevice, E: OutDevice>(
    job: Job,
    reader: R,
    output: W,
    report: E,
) -> RunEnd<R, W, E>
    requires ready { IfPackHasNewCutter job }
    requires sound { NoneFailed (looks R.state W.state E.state) (devices reader output report) }
    ensures { AfterJob (looks R.state W.state E.state) job (devices reader output report) result }
{
    match job {
        Job::List => list(reader, output, report),
        Job::Unpack(wanted) => unpack(wanted, reader, output, report),
        Job::Blocks(options) => blocks(options, reader, output, report),
        Job::BundleBlocks => bundle_blocks(reader, output, report),
        Job::Check(options) => check(options, reader, output, report),
        Job::BundleCheck(options) => bundle_check(options, reader, output, report),
        Job::Pack(options, memory) => pack(memory, options, reader, output, report),
    }
}
