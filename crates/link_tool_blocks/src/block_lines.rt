//! The lines of the blocks of a bundle.

ghost use Rattle.std.specs.Prelude.{◌≡◌, ◌^◌, ◌<◌, List, ℕ};
ghost use Rattle.link_bundle_blocks.specs.Blocks.{viewed_primary, HasShortEids};
ghost use Rattle.link_report_blocks.specs.Blocks.{primary_text, block_text};
ghost use Rattle.link_bundle_data_in_pieces.specs.DataReader.{IsDataReaderIn, read_size};
ghost use Rattle.link_bundle_data_in_pieces.specs.Found.{found_in};
ghost use Rattle.link_run.specs.Writers.{AfterWrite, on_output};

use link_bundle::{BlockView, CanonicalBlock, PrimaryBlock};
use link_bundle_data_in_pieces::DataReader;
use link_report_blocks::{BlockText, PrimaryRestText, PrimaryStartText};
use link_run::Writers;
use link_run_over_bundle_files::BlockConsumer;
use link_wire::{INPUT_LIMIT, IoFault, OutDevice};

/// Writes the line of each block.
#[derive(Drop)]
pub(crate) struct BlockLines;

impl BlockConsumer for BlockLines {
    ghost use Rattle.link_tool_blocks.specs.BlockLines.{block_lines};
    ghost use Rattle.link_tool_blocks.specs.LineLaws.{lines_grow, lines_same};

    type Options = ();

    ghost says = { block_lines };

    ghost knows = { λ options lines content. Unit {0} };

    #[inline(always)]
    fn block<W: OutDevice, E: OutDevice>(
        &mut self,
        _options: &(),
        number: u64,
        block: &BlockView<'_>,
        reader: &DataReader,
        writers: &mut Writers<W, E>,
    ) -> Result<(), IoFault> {
        match block {
            BlockView::Primary(block) => write_primary(number, block, writers),
            BlockView::Canonical(block) => write_canonical(number, block, reader, writers),
        }
    }

    ghost grows = { lines_grow };

    ghost steady = { λ number options lines before more same.
        (lines_same number before more same, λ known. known) };
}

/// Writes the line of a primary block, in two texts.
fn write_primary<W: OutDevice, E: OutDevice>(
    id: u64,
    block: &PrimaryBlock<'_>,
    writers: &mut Writers<W, E>,
) -> Result<(), IoFault>
    requires { HasShortEids (viewed_primary block.now) }
    ensures { AfterWrite W.state E.state writers.old writers.new (on_output (primary_text id
        (viewed_primary block.now) block.now.check block.now.end)) result }
{
    if let Err(fault) = writers.write_text(&PrimaryStartText { id, block }) {
        return Err(fault);
    }
    writers.write_text(&PrimaryRestText { block })
}

/// Writes the line of a canonical block whose data was read.
///
/// If the offset of the data is beyond the longest input, it writes nothing. This never happens in
/// a run.
fn write_canonical<W: OutDevice, E: OutDevice>(
    id: u64,
    block: &CanonicalBlock,
    reader: &DataReader,
    writers: &mut Writers<W, E>,
) -> Result<(), IoFault>
    requires { read_size reader.now < 2 ^ 63 }
    ensures { (seen : List ℕ) → block.now.data_start < 2 ^ 63
        → IsDataReaderIn reader.now seen block.now
        → AfterWrite W.state E.state writers.old writers.new (on_output (block_text id block.now
        (found_in reader.now.flags seen block.now))) result }
{
    if block.data_start > INPUT_LIMIT {
        return Ok(());
    }
    writers.write_text(&BlockText {
        id,
        block,
        found: reader.found(),
    })
}
