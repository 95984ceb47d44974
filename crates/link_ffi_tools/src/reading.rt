//! The tools that take no memory.

ghost use Rattle.std.specs.Prelude.{Some, ⊤};
ghost use Rattle.link_ffi_tools.specs.Reading.{reading_tool};

use crate::device::{SliceReader, SliceWriter};
use crate::running::SliceTool;
use link_run::RunEnd;
use link_tool_blocks::{blocks, bundle_blocks};
use link_tool_check::{bundle_check, check};
use link_tool_list::list;
use link_tool_option_types::{BlockOptions, BundleCheckOptions, CheckOptions, Wanted};
use link_tool_unpack::unpack;

/// A tool that takes no memory, with its options.
#[derive(Debug, Drop, PartialEq, Eq)]
pub enum Reading {
    /// `list`.
    List,
    /// `unpack`.
    Unpack(Wanted),
    /// `blocks` of a recording.
    Blocks(BlockOptions),
    /// `blocks` of bundles.
    BundleBlocks,
    /// `check` of a recording.
    Check(CheckOptions),
    /// `check` of bundles.
    BundleCheck(BundleCheckOptions),
}

impl SliceTool for Reading {
    ghost tool = { λ reading. Some (reading_tool reading) };

    ghost ready = { λ reading. ⊤ };

    /// Runs the tool that the variant names.
    fn run<'a, 'b, 'c>(
        self,
        reader: SliceReader<'a>,
        output: SliceWriter<'b>,
        report: SliceWriter<'c>,
    ) -> RunEnd<SliceReader<'a>, SliceWriter<'b>, SliceWriter<'c>> {
        match self {
            Reading::List => list(reader, output, report),
            Reading::Unpack(wanted) => unpack(wanted, reader, output, report),
            Reading::Blocks(options) => blocks(options, reader, output, report),
            Reading::BundleBlocks => bundle_blocks(reader, output, report),
            Reading::Check(options) => check(options, reader, output, report),
            Reading::BundleCheck(options) => bundle_check(options, reader, output, report),
        }
    }
}
