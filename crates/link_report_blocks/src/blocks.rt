//! The lines of blocks, and of the end of a transfer, as texts.

ghost use Rattle.std.specs.Prelude.{◌≡◌, ◌+◌, ◌≤◌, ◌++◌, length, take, codes, decimal, option_map};
ghost use Rattle.link_bundle_blocks.specs.Blocks.{viewed_primary, HasShortEids};
ghost use Rattle.link_bundle_data.specs.DataView.{viewed_result};
ghost use Rattle.link_report.specs.Judgement.{viewed_judgement};
ghost use Rattle.link_report.specs.Written.{PutsText};
ghost use Rattle.link_report_blocks.specs.Blocks.{primary_start_text, primary_rest_text, fields_text, block_text, end_text};
ghost use Rattle.link_report_blocks.specs.Fits.{HasShortEids-prop, WordsFit, WordsFit-prop};

use crate::fields::{CONTROL_MAX, TYPE_MAX, length_to, write_control, write_type};
use crate::words::write_words;
use link_bundle_blocks::{CanonicalBlock, PrimaryBlock};
use link_bundle_data::{DataFault, DataView};
use link_report::{
    JudgementView, write_bytes, write_decimal, write_eid, write_fragment, write_number,
    write_outcome,
};
use link_wire::{TEXT_MAX, Text};

/// The greatest length in bytes of the fields of a canonical block.
const FIELDS_MAX: usize = 141 + TYPE_MAX + CONTROL_MAX;

/// The line of a primary block up to its source, as a text.
///
/// [`PrimaryRestText`] is the rest of the line.
#[derive(Drop)]
pub struct PrimaryStartText<'a> {
    /// The ID of the transfer, or the number of the bundle.
    pub id: u64,
    /// The block.
    pub block: &'a PrimaryBlock<'a>,
    ghost short: { HasShortEids (viewed_primary block.now) } by { HasShortEids-prop (viewed_primary block.now) },
}

/// The line of a primary block from its report-to endpoint ID on, as a text.
#[derive(Drop)]
pub struct PrimaryRestText<'a> {
    /// The block.
    pub block: &'a PrimaryBlock<'a>,
    ghost short: { HasShortEids (viewed_primary block.now) } by { HasShortEids-prop (viewed_primary block.now) },
}

/// The line of a canonical block, as a text.
#[derive(Drop)]
pub struct BlockText<'a> {
    /// The ID of the transfer, or the number of the bundle.
    pub id: u64,
    /// The block, which is whole.
    pub block: &'a CanonicalBlock,
    /// What the block's data says, or its fault if it is malformed.
    ///
    /// It is `None` for a block whose data is not read.
    pub found: Option<Result<DataView<'a>, DataFault>>,
    ghost fits: { WordsFit block.now.data_start (option_map viewed_result found) } by { WordsFit-prop block.now.data_start (option_map viewed_result found) },
}

/// The line of the end of a transfer or of a good bundle, as a text.
#[derive(Drop)]
pub struct EndText<'a> {
    /// The ID of the transfer, or the number of the bundle.
    pub id: u64,
    /// The number of bytes of its data.
    pub length: u64,
    /// The judgement on these data.
    pub judgement: &'a JudgementView<'a>,
}

/// Writes the line of a primary block up to and with its source, and returns the index after the
/// text.
///
/// The block begins at offset 1, after the opening byte of its bundle.
#[tactic(auto, unfolding(crate::specs::Blocks::primary_start_text))]
#[inline(never)]
fn write_primary_start(page: &mut [u8], at: usize, id: u64, block: &PrimaryBlock<'_>) -> usize
    requires short { HasShortEids (viewed_primary block.now) }
    requires room { at + TEXT_MAX ≤ length page.old }
    ensures text { take result page.new ≡ take at page.old
        ++ primary_start_text id (viewed_primary block.now) block.now.check block.now.end }
    ensures fits { result ≤ at + TEXT_MAX }
    ensures size { length page.new ≡ length page.old }
{
    let at = write_decimal(page, at, id);
    let at = write_number(
        page,
        at,
        *b" primary at=1 length=",
        block.end.saturating_sub(1),
    );
    let at = write_control(page, at, block.flags, block.check);
    let at = write_bytes(page, at, *b" destination=");
    let at = write_eid(page, at, &block.destination);
    let at = write_bytes(page, at, *b" source=");
    write_eid(page, at, &block.source)
}

/// Writes the line of a primary block from its report-to endpoint ID on, and returns the index
/// after the line.
#[tactic(auto, unfolding(crate::specs::Blocks::primary_rest_text))]
#[inline(never)]
fn write_primary_rest(page: &mut [u8], at: usize, block: &PrimaryBlock<'_>) -> usize
    requires short { HasShortEids (viewed_primary block.now) }
    requires room { at + TEXT_MAX ≤ length page.old }
    ensures text { take result page.new
        ≡ take at page.old ++ primary_rest_text (viewed_primary block.now) }
    ensures fits { result ≤ at + TEXT_MAX }
    ensures size { length page.new ≡ length page.old }
{
    let at = write_bytes(page, at, *b" report-to=");
    let at = write_eid(page, at, &block.report_to);
    let at = write_number(page, at, *b" time=", block.time);
    let at = write_number(page, at, *b" sequence=", block.sequence);
    let at = write_number(page, at, *b" lifetime=", block.lifetime);
    let at = write_fragment(page, at, block.fragment);
    write_bytes(page, at, *b"\n")
}

/// Writes the fields of a canonical block, and returns the index after them.
#[tactic(auto, unfolding(crate::specs::Blocks::fields_text))]
#[inline(always)]
fn write_fields(page: &mut [u8], at: usize, block: &CanonicalBlock) -> usize
    requires { at + FIELDS_MAX ≤ length page.old }
    ensures { PutsText page.old page.new at result FIELDS_MAX (fields_text block.now) }
{
    let at = write_number(page, at, *b" block ", block.number);
    let at = write_number(page, at, *b" at=", block.start);
    let at = write_number(page, at, *b" length=", length_to(block.end, block.start));
    let at = write_type(page, at, block.block_type);
    let at = write_control(page, at, block.flags, block.check);
    let at = write_number(page, at, *b" data-at=", block.data_start);
    write_number(page, at, *b" data-length=", block.data_length)
}

/// Writes the line of a canonical block, and returns the index after the line.
#[tactic(auto, unfolding(crate::specs::Blocks::block_text))]
#[inline(never)]
fn write_block(page: &mut [u8], at: usize, line: &BlockText<'_>) -> usize
    requires { at + TEXT_MAX ≤ length page.old }
    ensures { PutsText page.old page.new at result TEXT_MAX
        (block_text line.now.id line.now.block.now (option_map viewed_result line.now.found)) }
{
    let block = line.block;
    let at = write_decimal(page, at, line.id);
    let at = write_fields(page, at, block);
    let at = write_words(page, at, block.data_start, &line.found);
    write_bytes(page, at, *b"\n")
}

/// Writes the line of the end of a transfer or of a good bundle, with its length and its outcome,
/// and returns the index after the line.
#[tactic(auto, unfolding(crate::specs::Blocks::end_text))]
#[inline(never)]
fn write_end(page: &mut [u8], at: usize, line: &EndText<'_>) -> usize
    requires { at + TEXT_MAX ≤ length page.old }
    ensures text { take result page.new ≡ take at page.old
        ++ end_text line.now.id line.now.length (viewed_judgement line.now.judgement.now) }
    ensures fits { result ≤ at + TEXT_MAX }
    ensures size { length page.new ≡ length page.old }
{
    let at = write_decimal(page, at, line.id);
    let at = write_number(page, at, *b" end length=", line.length);
    let at = write_bytes(page, at, *b" ");
    let at = write_outcome(page, at, line.judgement);
    write_bytes(page, at, *b"\n")
}

impl<'a> Text for PrimaryStartText<'a> {
    ghost use Rattle.link_bundle_blocks.specs.Blocks.{viewed_primary, HasShortEids};
    ghost use Rattle.link_report_blocks.specs.Blocks.{primary_start_text};

    ghost text = { λ line. primary_start_text line.id (viewed_primary line.block.now) line.block.now.check line.block.now.end };

    #[inline(always)]
    fn put(&self, page: &mut [u8], at: usize) -> usize {
        write_primary_start(page, at, self.id, self.block)
    }
}

impl<'a> Text for PrimaryRestText<'a> {
    ghost use Rattle.link_bundle_blocks.specs.Blocks.{viewed_primary, HasShortEids};
    ghost use Rattle.link_report_blocks.specs.Blocks.{primary_rest_text};

    ghost text = { λ line. primary_rest_text (viewed_primary line.block.now) };

    #[inline(always)]
    fn put(&self, page: &mut [u8], at: usize) -> usize {
        write_primary_rest(page, at, self.block)
    }
}

impl<'a> Text for BlockText<'a> {
    ghost use Rattle.std.specs.Prelude.{option_map};
    ghost use Rattle.link_bundle_data.specs.DataView.{viewed_result};
    ghost use Rattle.link_report_blocks.specs.Blocks.{block_text};

    ghost text = { λ line. block_text line.id line.block.now (option_map viewed_result line.found) };

    #[inline(always)]
    fn put(&self, page: &mut [u8], at: usize) -> usize {
        write_block(page, at, self)
    }
}

impl<'a> Text for EndText<'a> {
    ghost use Rattle.link_report.specs.Judgement.{viewed_judgement};
    ghost use Rattle.link_report_blocks.specs.Blocks.{end_text};

    ghost text = { λ line. end_text line.id line.length (viewed_judgement line.judgement.now) };

    #[inline(always)]
    fn put(&self, page: &mut [u8], at: usize) -> usize {
        write_end(page, at, self)
    }
}
