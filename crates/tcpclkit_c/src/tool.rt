//! Exports that run a whole tool over a slice, into two slices.
//!
//! A text is wanted if its `wants_` argument is not 0. A text that is not wanted needs no room in
//! its slice. `options` has a number for each option that the caller's version of the header has,
//! in the order of the header.

ghost use Rattle.std.specs.Prelude.{◌≡◌, true, false, length, IfOk};
ghost use Rattle.link_tool_list.specs.Listing.{list_tool};
ghost use Rattle.link_tool_pack.specs.More.{more_tool};
ghost use Rattle.link_tool_pack.specs.Packer.{IsNewCutterFor};
ghost use Rattle.link_tool_pack.specs.Packing.{pack_tool};
ghost use Rattle.link_ffi_numbers.specs.Status.{status_range};
ghost use Rattle.link_ffi_tools.specs.Options.{unpack_in_range, blocks_in_range, check_in_range, pack_in_range, pack_numbers_fit, more_in_range};
ghost use Rattle.link_ffi_tools.specs.Tool.{ReturnsTexts, ReturnsUnpackTexts, ReturnsBlocksTexts, ReturnsCheckTexts};
ghost use Rattle.tcpclkit_c.specs.Packed.{tool_with, packed_by, IsPackMoreOptionsByNumbers, ReturnsPackTexts, ReturnsPackMoreTexts};

use link_ffi_numbers::status::RANGE;
use link_ffi_tools::{
    MoreNumbers, PackNumbers, Run, SliceReader, SliceTool, SliceWriter, Wants, blocks_into,
    check_into, list_into, more_in_range, more_numbers, pack_in_range, pack_numbers, packing_of,
    run_into, unpack_into,
};
use link_tool_pack::{MoreOptions, pack_more};
use link_tools::{PackOptions, RunEnd, cutter_for, pack};
use link_transfer::Cutter;
use std::alloc::{AllocError, Global};

/// Runs `list` over the bytes, and writes its two texts as far as they fit in their slices.
///
/// A text is wanted if its `wants_` argument is not 0. Returns `OK`, or `TOO_SMALL` if a wanted
/// text does not fit.
#[unsafe(no_mangle)]
pub extern "C" fn tcpclkit_raw_list(
    bytes: &[u8],
    wants_output: u64,
    output: &mut [u8],
    wants_report: u64,
    report: &mut [u8],
    answer: &mut Run,
) -> u32
    ensures { ReturnsTexts (list_tool.whole bytes.now)
        (record { output = wants_output; report = wants_report })
        (record { output = output.old; report = report.old })
        (record { output = output.new; report = report.new })
        answer.new result }
{
    let wants = Wants {
        output: wants_output,
        report: wants_report,
    };
    list_into(bytes, wants, output, report, answer)
}

/// Runs `unpack` over the bytes, and writes its two texts as far as they fit in their slices.
///
/// A text is wanted if its `wants_` argument is not 0. Returns `OK`, or `TOO_SMALL` if a wanted
/// text does not fit. If an option is out of range, writes nothing and returns `RANGE`.
#[unsafe(no_mangle)]
pub extern "C" fn tcpclkit_raw_unpack(
    bytes: &[u8],
    options: &[u64],
    wants_output: u64,
    output: &mut [u8],
    wants_report: u64,
    report: &mut [u8],
    answer: &mut Run,
) -> u32
    ensures range { unpack_in_range options.now ≡ false
        → (result ≡ status_range) × (answer.new ≡ answer.old) }
    ensures run { unpack_in_range options.now ≡ true → ReturnsUnpackTexts options.now bytes.now
        (record { output = wants_output; report = wants_report })
        (record { output = output.old; report = report.old })
        (record { output = output.new; report = report.new })
        answer.new result }
    ensures unwritten { result ≡ status_range
        → (output.new ≡ output.old) × (report.new ≡ report.old) }
{
    let wants = Wants {
        output: wants_output,
        report: wants_report,
    };
    unpack_into(bytes, options, wants, output, report, answer)
}

/// Runs `blocks` over the bytes, and writes its two texts as far as they fit in their slices.
///
/// A text is wanted if its `wants_` argument is not 0. Returns `OK`, or `TOO_SMALL` if a wanted
/// text does not fit. If an option is out of range, writes nothing and returns `RANGE`.
#[unsafe(no_mangle)]
pub extern "C" fn tcpclkit_raw_blocks(
    bytes: &[u8],
    options: &[u64],
    wants_output: u64,
    output: &mut [u8],
    wants_report: u64,
    report: &mut [u8],
    answer: &mut Run,
) -> u32
    ensures range { blocks_in_range options.now ≡ false
        → (result ≡ status_range) × (answer.new ≡ answer.old) }
    ensures run { blocks_in_range options.now ≡ true → ReturnsBlocksTexts options.now bytes.now
        (record { output = wants_output; report = wants_report })
        (record { output = output.old; report = report.old })
        (record { output = output.new; report = report.new })
        answer.new result }
    ensures unwritten { result ≡ status_range
        → (output.new ≡ output.old) × (report.new ≡ report.old) }
{
    let wants = Wants {
        output: wants_output,
        report: wants_report,
    };
    blocks_into(bytes, options, wants, output, report, answer)
}

/// Runs `check` over the bytes, and writes its two texts as far as they fit in their slices.
///
/// A text is wanted if its `wants_` argument is not 0. Returns `OK`, or `TOO_SMALL` if a wanted
/// text does not fit. If an option is out of range, writes nothing and returns `RANGE`.
#[unsafe(no_mangle)]
pub extern "C" fn tcpclkit_raw_check(
    bytes: &[u8],
    options: &[u64],
    wants_output: u64,
    output: &mut [u8],
    wants_report: u64,
    report: &mut [u8],
    answer: &mut Run,
) -> u32
    ensures range { check_in_range options.now ≡ false
        → (result ≡ status_range) × (answer.new ≡ answer.old) }
    ensures run { check_in_range options.now ≡ true → ReturnsCheckTexts options.now bytes.now
        (record { output = wants_output; report = wants_report })
        (record { output = output.old; report = report.old })
        (record { output = output.new; report = report.new })
        answer.new result }
    ensures unwritten { result ≡ status_range
        → (output.new ≡ output.old) × (report.new ≡ report.old) }
{
    let wants = Wants {
        output: wants_output,
        report: wants_report,
    };
    check_into(bytes, options, wants, output, report, answer)
}

/// `pack`, with the result of its one request for memory.
#[derive(Drop)]
struct Packing {
    options: PackOptions,
    memory: Result<Cutter, AllocError>,
}

impl SliceTool for Packing {
    ghost tool = { λ packing. tool_with packing.memory (pack_tool packing.options) };

    ghost ready = { λ packing. IfOk packing.memory (IsNewCutterFor packing.options) };

    fn run<'a, 'b, 'c>(
        self,
        reader: SliceReader<'a>,
        output: SliceWriter<'b>,
        report: SliceWriter<'c>,
    ) -> RunEnd<SliceReader<'a>, SliceWriter<'b>, SliceWriter<'c>> {
        pack(self.memory, self.options, reader, output, report)
    }
}

/// Runs `pack` over the bytes, and writes its two texts as far as they fit in their slices.
///
/// A text is wanted if its `wants_` argument is not 0. Returns `OK`, or `TOO_SMALL` if a wanted
/// text does not fit. Without its memory, writes no text and returns `MEMORY`: no clause says that
/// a request was refused. If an option or the length of the node ID is out of range, writes nothing
/// and returns `RANGE`.
#[unsafe(no_mangle)]
pub extern "C" fn tcpclkit_raw_pack(
    alloc: Global,
    bytes: &[u8],
    options: &[u64],
    node: &[u8],
    wants_output: u64,
    output: &mut [u8],
    wants_report: u64,
    report: &mut [u8],
    answer: &mut Run,
) -> u32
    ensures range { pack_in_range options.now (length node.now) ≡ false
        → (result ≡ status_range) × (answer.new ≡ answer.old) }
    ensures run { pack_in_range options.now (length node.now) ≡ true
        → ReturnsPackTexts options.now node.now bytes.now
        (record { output = wants_output; report = wants_report })
        (record { output = output.old; report = report.old })
        (record { output = output.new; report = report.new })
        answer.new result }
    ensures unwritten { result ≡ status_range
        → (output.new ≡ output.old) × (report.new ≡ report.old) }
{
    if !pack_in_range(options, node.len()) {
        return RANGE;
    }
    let options = packing_of(&pack_numbers(options), node);
    let memory = cutter_for(alloc, &options);
    let wants = Wants {
        output: wants_output,
        report: wants_report,
    };
    run_into(
        Packing { options, memory },
        bytes,
        wants,
        output,
        report,
        answer,
    )
}

/// `pack_more`, with the result of its one request for memory.
#[derive(Drop)]
struct MorePacking {
    options: MoreOptions,
    memory: Result<Cutter, AllocError>,
}

impl SliceTool for MorePacking {
    ghost tool = { λ packing. tool_with packing.memory (more_tool packing.options) };

    ghost ready = { λ packing. IfOk packing.memory (IsNewCutterFor packing.options.pack) };

    fn run<'a, 'b, 'c>(
        self,
        reader: SliceReader<'a>,
        output: SliceWriter<'b>,
        report: SliceWriter<'c>,
    ) -> RunEnd<SliceReader<'a>, SliceWriter<'b>, SliceWriter<'c>> {
        pack_more(self.memory, self.options, reader, output, report)
    }
}

/// The options of `pack` with these numbers. Those that `pack_more` does not read are 0.
fn packed_by(numbers: &MoreNumbers) -> PackNumbers
    ensures { result ≡ packed_by numbers.now }
{
    PackNumbers {
        keepalive: 0,
        segment_mru: 0,
        transfer_mru: 0,
        peer_segment: numbers.peer_segment,
        peer_transfer: numbers.peer_transfer,
        announce: numbers.announce,
        send_term: 0,
    }
}

/// The options of `pack_more` with these numbers.
fn more_options(numbers: &MoreNumbers) -> MoreOptions
    requires { pack_numbers_fit (packed_by numbers.now) 0 ≡ true }
    ensures { IsPackMoreOptionsByNumbers result numbers.now }
{
    MoreOptions {
        first: numbers.first,
        pack: packing_of(&packed_by(numbers), &[]),
    }
}

/// Runs `pack_more` over the bytes, and writes its two texts as far as they fit in their slices.
///
/// A text is wanted if its `wants_` argument is not 0. Returns `OK`, or `TOO_SMALL` if a wanted
/// text does not fit. Without its memory, writes no text and returns `MEMORY`: no clause says that
/// a request was refused. If an option is out of range, writes nothing and returns `RANGE`. It does
/// the same if `first` and the number of bytes together exceed 2^64 - 1, since the transfer IDs
/// could then run out.
#[unsafe(no_mangle)]
pub extern "C" fn tcpclkit_raw_pack_more(
    alloc: Global,
    bytes: &[u8],
    options: &[u64],
    wants_output: u64,
    output: &mut [u8],
    wants_report: u64,
    report: &mut [u8],
    answer: &mut Run,
) -> u32
    ensures range { more_in_range options.now (length bytes.now) ≡ false
        → (result ≡ status_range) × (answer.new ≡ answer.old) }
    ensures run { more_in_range options.now (length bytes.now) ≡ true
        → ReturnsPackMoreTexts options.now bytes.now
        (record { output = wants_output; report = wants_report })
        (record { output = output.old; report = report.old })
        (record { output = output.new; report = report.new })
        answer.new result }
    ensures unwritten { result ≡ status_range
        → (output.new ≡ output.old) × (report.new ≡ report.old) }
{
    if !more_in_range(options, bytes.len()) {
        return RANGE;
    }
    let options = more_options(&more_numbers(options));
    let memory = cutter_for(alloc, &options.pack);
    let wants = Wants {
        output: wants_output,
        report: wants_report,
    };
    run_into(
        MorePacking { options, memory },
        bytes,
        wants,
        output,
        report,
        answer,
    )
}
