//! The module for browsers: the tools that take no memory, over slices of the module's memory.
//!
//! The host grows the memory, writes the input into it, and lends slices for the texts, as a caller
//! of the C library does. A slice is an address and a length. `Run` of link_ffi_tools says what a
//! run writes into the answer. A text is wanted if its `wants_` number is not 0. A text that is not
//! wanted needs no room in its slice. `include/tcpclkit.h` has the order of the options and the
//! statuses.
#![tactic(auto)]

ghost use Rattle.std.specs.Prelude.{◌≡◌, true, false};
ghost use Rattle.link_tool_list.specs.Listing.{list_tool};
ghost use Rattle.link_ffi_numbers.specs.Status.{status_range};
ghost use Rattle.link_ffi_tools.specs.Options.{unpack_in_range, blocks_in_range, check_in_range};
ghost use Rattle.link_ffi_tools.specs.Tool.{ReturnsTexts, ReturnsUnpackTexts, ReturnsBlocksTexts, ReturnsCheckTexts};

use link_ffi_tools::{Run, Wants, blocks_into, check_into, list_into, unpack_into};

/// Runs `list` over the bytes, and writes its two texts as far as they fit in their slices.
///
/// A text is wanted if its `wants_` number is not 0. Returns 0, or 5 if a wanted text does not fit.
/// `answer` gets the exit status, and the whole length of each text.
#[unsafe(no_mangle)]
pub extern "C" fn list(
    bytes: &[u8],
    wants_output: u64,
    output: &mut [u8],
    wants_report: u64,
    report: &mut [u8],
    answer: &mut Run,
) -> u32
    ensures { ReturnsTexts (list_tool.whole bytes.now)
        (record { output = wants_output; report = wants_report })
        (record { output = output.old; report = report.old })
        (record { output = output.new; report = report.new })
        answer.new result }
{
    let wants = Wants {
        output: wants_output,
        report: wants_report,
    };
    list_into(bytes, wants, output, report, answer)
}

/// Runs `unpack` over the bytes, and writes its two texts as far as they fit in their slices.
///
/// A text is wanted if its `wants_` number is not 0. Returns 0, or 5 if a wanted text does not fit.
/// If an option is out of range, writes nothing and returns 6. `answer` gets the exit status, and
/// the whole length of each text.
#[unsafe(no_mangle)]
pub extern "C" fn unpack(
    bytes: &[u8],
    options: &[u64],
    wants_output: u64,
    output: &mut [u8],
    wants_report: u64,
    report: &mut [u8],
    answer: &mut Run,
) -> u32
    ensures range { unpack_in_range options.now ≡ false
        → (result ≡ status_range) × (answer.new ≡ answer.old) }
    ensures run { unpack_in_range options.now ≡ true → ReturnsUnpackTexts options.now bytes.now
        (record { output = wants_output; report = wants_report })
        (record { output = output.old; report = report.old })
        (record { output = output.new; report = report.new })
        answer.new result }
    ensures unwritten { result ≡ status_range
        → (output.new ≡ output.old) × (report.new ≡ report.old) }
{
    let wants = Wants {
        output: wants_output,
        report: wants_report,
    };
    unpack_into(bytes, options, wants, output, report, answer)
}

/// Runs `blocks` over the bytes, and writes its two texts as far as they fit in their slices.
///
/// A text is wanted if its `wants_` number is not 0. Returns 0, or 5 if a wanted text does not fit.
/// If an option is out of range, writes nothing and returns 6. `answer` gets the exit status, and
/// the whole length of each text.
#[unsafe(no_mangle)]
pub extern "C" fn blocks(
    bytes: &[u8],
    options: &[u64],
    wants_output: u64,
    output: &mut [u8],
    wants_report: u64,
    report: &mut [u8],
    answer: &mut Run,
) -> u32
    ensures range { blocks_in_range options.now ≡ false
        → (result ≡ status_range) × (answer.new ≡ answer.old) }
    ensures run { blocks_in_range options.now ≡ true → ReturnsBlocksTexts options.now bytes.now
        (record { output = wants_output; report = wants_report })
        (record { output = output.old; report = report.old })
        (record { output = output.new; report = report.new })
        answer.new result }
    ensures unwritten { result ≡ status_range
        → (output.new ≡ output.old) × (report.new ≡ report.old) }
{
    let wants = Wants {
        output: wants_output,
        report: wants_report,
    };
    blocks_into(bytes, options, wants, output, report, answer)
}

/// Runs `check` over the bytes, and writes its two texts as far as they fit in their slices.
///
/// A text is wanted if its `wants_` number is not 0. Returns 0, or 5 if a wanted text does not fit.
/// If an option is out of range, writes nothing and returns 6. `answer` gets the exit status, and
/// the whole length of each text.
#[unsafe(no_mangle)]
pub extern "C" fn check(
    bytes: &[u8],
    options: &[u64],
    wants_output: u64,
    output: &mut [u8],
    wants_report: u64,
    report: &mut [u8],
    answer: &mut Run,
) -> u32
    ensures range { check_in_range options.now ≡ false
        → (result ≡ status_range) × (answer.new ≡ answer.old) }
    ensures run { check_in_range options.now ≡ true → ReturnsCheckTexts options.now bytes.now
        (record { output = wants_output; report = wants_report })
        (record { output = output.old; report = report.old })
        (record { output = output.new; report = report.new })
        answer.new result }
    ensures unwritten { result ≡ status_range
        → (output.new ≡ output.old) × (report.new ≡ report.old) }
{
    let wants = Wants {
        output: wants_output,
        report: wants_report,
    };
    check_into(bytes, options, wants, output, report, answer)
}
