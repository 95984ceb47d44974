//! Runs of whole tools over a slice, into two slices.
//!
//! A text is wanted if its number in `wants` is not 0. A text that is not wanted needs no room in
//! its slice. `options` has a number for each option that the caller's version of the header has,
//! in the order of the header.

ghost use Rattle.std.specs.Prelude.{◌≡◌, true, false};
ghost use Rattle.link_tool_list.specs.Listing.{list_tool};
ghost use Rattle.link_ffi_numbers.specs.Status.{status_range};
ghost use Rattle.link_ffi_tools.specs.Options.{unpack_in_range, blocks_in_range, check_in_range};
ghost use Rattle.link_ffi_tools.specs.Tool.{ReturnsTexts, ReturnsUnpackTexts, ReturnsBlocksTexts, ReturnsCheckTexts};

use crate::options::{blocks_in, check_in, wanted_in};
use crate::reading::Reading;
use crate::running::{Run, Wants, run_into};
use link_ffi_numbers::status::RANGE;

/// Runs `list` over the bytes, and describes the run in `answer`.
///
/// Writes each text to the start of its slice, as far as it fits. Returns `OK`, or `TOO_SMALL` if a
/// wanted text does not fit. A text is wanted if its number in `wants` is not 0.
pub fn list_into(
    bytes: &[u8],
    wants: Wants,
    output: &mut [u8],
    report: &mut [u8],
    answer: &mut Run,
) -> u32
    ensures { ReturnsTexts (list_tool.whole bytes.now) wants
        (record { output = output.old; report = report.old })
        (record { output = output.new; report = report.new })
        answer.new result }
{
    run_into(Reading::List, bytes, wants, output, report, answer)
}

/// Runs `unpack` over the bytes, and describes the run in `answer`.
///
/// Writes each text to the start of its slice, as far as it fits. Returns `OK`, or `TOO_SMALL` if a
/// wanted text does not fit. A text is wanted if its number in `wants` is not 0. If an option is
/// out of range, writes nothing and returns `RANGE`, which is 6.
pub fn unpack_into(
    bytes: &[u8],
    options: &[u64],
    wants: Wants,
    output: &mut [u8],
    report: &mut [u8],
    answer: &mut Run,
) -> u32
    ensures range { unpack_in_range options.now ≡ false
        → (result ≡ status_range) × (answer.new ≡ answer.old) }
    ensures run { unpack_in_range options.now ≡ true
        → ReturnsUnpackTexts options.now bytes.now wants
        (record { output = output.old; report = report.old })
        (record { output = output.new; report = report.new })
        answer.new result }
    ensures unwritten { result ≡ status_range
        → (output.new ≡ output.old) × (report.new ≡ report.old) }
{
    let Some(wanted) = wanted_in(options) else {
        return RANGE;
    };
    run_into(
        Reading::Unpack(wanted),
        bytes,
        wants,
        output,
        report,
        answer,
    )
}

/// Runs `blocks` over the bytes, and describes the run in `answer`.
///
/// Writes each text to the start of its slice, as far as it fits. Returns `OK`, or `TOO_SMALL` if a
/// wanted text does not fit. A text is wanted if its number in `wants` is not 0. If an option is
/// out of range, writes nothing and returns `RANGE`, which is 6.
#[tactic(auto, using(crate::proofs::Runs::in_range))]
pub fn blocks_into(
    bytes: &[u8],
    options: &[u64],
    wants: Wants,
    output: &mut [u8],
    report: &mut [u8],
    answer: &mut Run,
) -> u32
    ensures range { blocks_in_range options.now ≡ false
        → (result ≡ status_range) × (answer.new ≡ answer.old) }
    ensures run { blocks_in_range options.now ≡ true
        → ReturnsBlocksTexts options.now bytes.now wants
        (record { output = output.old; report = report.old })
        (record { output = output.new; report = report.new })
        answer.new result }
    ensures unwritten { result ≡ status_range
        → (output.new ≡ output.old) × (report.new ≡ report.old) }
{
    let Some(reading) = blocks_in(options) else {
        return RANGE;
    };
    run_into(reading, bytes, wants, output, report, answer)
}

/// Runs `check` over the bytes, and describes the run in `answer`.
///
/// Writes each text to the start of its slice, as far as it fits. Returns `OK`, or `TOO_SMALL` if a
/// wanted text does not fit. A text is wanted if its number in `wants` is not 0. If an option is
/// out of range, writes nothing and returns `RANGE`, which is 6.
#[tactic(auto, using(crate::proofs::Runs::in_range))]
pub fn check_into(
    bytes: &[u8],
    options: &[u64],
    wants: Wants,
    output: &mut [u8],
    report: &mut [u8],
    answer: &mut Run,
) -> u32
    ensures range { check_in_range options.now ≡ false
        → (result ≡ status_range) × (answer.new ≡ answer.old) }
    ensures run { check_in_range options.now ≡ true → ReturnsCheckTexts options.now bytes.now wants
        (record { output = output.old; report = report.old })
        (record { output = output.new; report = report.new })
        answer.new result }
    ensures unwritten { result ≡ status_range
        → (output.new ≡ output.old) × (report.new ≡ report.old) }
{
    let Some(reading) = check_in(options) else {
        return RANGE;
    };
    run_into(reading, bytes, wants, output, report, answer)
}
