//! The words that end the line of a block: what its data says (RFC 9171 sections 4.4 and 6.1, RFC
//! 9172 section 3.6).
//!
//! Each `write_` function writes a text into a page, from an index on, and returns the index after
//! the text.

ghost use Rattle.std.specs.Prelude.{◌≡◌, ◌+◌, ◌≤◌, ◌++◌, length, take, codes, decimal, option_map};
ghost use Rattle.link_bundle_types.specs.EidView.{viewed_eid};
ghost use Rattle.link_bundle_types.specs.ShortNames.{HasNoLongName};
ghost use Rattle.link_bundle_data.specs.DataView.{viewed_data, viewed_result, HasShortName};
ghost use Rattle.link_report.specs.Eid.{eid_text};
ghost use Rattle.link_report.specs.Reason.{name_in};
ghost use Rattle.link_report.specs.Text.{number_text};
ghost use Rattle.link_report.specs.Written.{PutsText};
ghost use Rattle.link_report_blocks.specs.Fields.{flags_text};
ghost use Rattle.link_report_blocks.specs.Fits.{WordsFit};
ghost use Rattle.link_report_blocks.specs.Words.{report_names, integer_text, context_text, assertion_text, statuses_text, subject_fragment, subject_text, data_text, words_text};

use crate::fields::write_flags;
use link_bundle_data::{Assertion, DataFault, DataView, Integer, Report, SecurityBlock};
use link_bundle_types::EidView;
use link_report::{EID_MAX, write_bytes, write_decimal, write_eid, write_number, write_text};

/// The greatest length in bytes of the text of a security context.
const CONTEXT_MAX: usize = 61;

/// The greatest length in bytes of the text of statuses and a reason.
const STATUSES_MAX: usize = 184;

/// The greatest length in bytes of the text of the fragment that a status report is about.
const SUBJECT_FRAGMENT_MAX: usize = 54;

/// The greatest length in bytes of the text of the bundle that a status report is about.
const SUBJECT_MAX: usize = 73 + EID_MAX + SUBJECT_FRAGMENT_MAX;

/// The greatest length in bytes of the words for a block's data: those for a status report.
pub const WORDS_MAX: usize = 23 + STATUSES_MAX + SUBJECT_MAX;

/// The name of the reason of a status report, or `?` for other codes.
///
/// The codes are those of RFC 9171 section 6.1.1 and RFC 9172 section 7.1.
#[tactic(auto, unfolding(link_report::specs::Reason::name_in))]
pub fn report_reason_name(reason: u64) -> &'static str
    ensures name { result.now ≡ name_in report_names reason }
    ensures short { length result.now ≤ 34 }
{
    match reason {
        0 => "no-additional-information",
        1 => "lifetime-expired",
        2 => "forwarded-over-unidirectional-link",
        3 => "transmission-canceled",
        4 => "depleted-storage",
        5 => "destination-unavailable",
        6 => "no-known-route",
        7 => "no-timely-contact",
        8 => "block-unintelligible",
        9 => "hop-limit-exceeded",
        10 => "traffic-pared",
        11 => "block-unsupported",
        12 => "missing-security-operation",
        13 => "unknown-security-operation",
        14 => "unexpected-security-operation",
        15 => "failed-security-operation",
        16 => "conflicting-security-operation",
        _ => "?",
    }
}

/// Writes `number` + 1 in decimal, also if the sum needs more than 64 bits.
fn write_next(page: &mut [u8], at: usize, number: u64) -> usize
    requires { at + 20 ≤ length page.old }
    ensures text { take result page.new ≡ take at page.old ++ decimal (number + 1) }
    ensures fits { result ≤ at + 20 }
    ensures size { length page.new ≡ length page.old }
{
    match number {
        u64::MAX => write_bytes(page, at, *b"18446744073709551616"),
        _ => write_decimal(page, at, number + 1),
    }
}

/// Writes an integer in decimal, and returns the index after it.
#[tactic(auto, unfolding(crate::specs::Words::integer_text))]
pub fn write_integer(page: &mut [u8], at: usize, number: Integer) -> usize
    requires { at + 21 ≤ length page.old }
    ensures { PutsText page.old page.new at result 21 (integer_text number) }
{
    if !number.negative {
        return write_decimal(page, at, number.argument);
    }
    let at = write_bytes(page, at, *b"-");
    write_next(page, at, number.argument)
}

/// Writes the ID and the flags of a security context.
#[tactic(auto, unfolding(crate::specs::Words::context_text))]
fn write_context(page: &mut [u8], at: usize, block: &SecurityBlock) -> usize
    requires { at + CONTEXT_MAX ≤ length page.old }
    ensures text { take result page.new ≡ take at page.old ++ context_text block.now }
    ensures fits { result ≤ at + CONTEXT_MAX }
    ensures size { length page.new ≡ length page.old }
{
    let at = write_bytes(page, at, *b" context=");
    let at = write_integer(page, at, block.context);
    let at = write_bytes(page, at, *b" context-flags=");
    write_flags(page, at, block.flags)
}

/// Writes a label and a status: `no`, `yes`, or the time at which it is asserted.
#[tactic(auto, unfolding(crate::specs::Words::assertion_text))]
fn write_assertion<const N: usize>(
    page: &mut [u8],
    at: usize,
    label: [u8; N],
    assertion: Assertion,
) -> usize
    requires { at + N + 20 ≤ length page.old }
    ensures { PutsText page.old page.new at result (N + 20)
        (label.entry ++ assertion_text assertion) }
{
    let at = write_bytes(page, at, label);
    match assertion {
        Assertion::No => write_bytes(page, at, *b"no"),
        Assertion::Yes => write_bytes(page, at, *b"yes"),
        Assertion::YesAt(time) => write_decimal(page, at, time),
    }
}

/// Writes the statuses of a status report, and the code and the name of its reason.
#[tactic(auto, unfolding(crate::specs::Words::statuses_text))]
fn write_statuses(page: &mut [u8], at: usize, report: &Report) -> usize
    requires { at + STATUSES_MAX ≤ length page.old }
    ensures text { take result page.new ≡ take at page.old ++ statuses_text report.now }
    ensures fits { result ≤ at + STATUSES_MAX }
    ensures size { length page.new ≡ length page.old }
{
    let at = write_assertion(page, at, *b" received=", report.received);
    let at = write_assertion(page, at, *b" forwarded=", report.forwarded);
    let at = write_assertion(page, at, *b" delivered=", report.delivered);
    let at = write_assertion(page, at, *b" deleted=", report.deleted);
    let at = write_number(page, at, *b" reason=", report.reason);
    let at = write_bytes(page, at, *b"/");
    write_text(page, at, report_reason_name(report.reason))
}

/// Writes the offset and the length of the fragment that a status report is about. For a report on
/// a whole bundle, it writes nothing.
#[tactic(auto, unfolding(crate::specs::Words::subject_fragment))]
fn write_subject_fragment(page: &mut [u8], at: usize, fragment: Option<(u64, u64)>) -> usize
    requires { at + SUBJECT_FRAGMENT_MAX ≤ length page.old }
    ensures text { take result page.new ≡ take at page.old ++ subject_fragment fragment }
    ensures fits { result ≤ at + SUBJECT_FRAGMENT_MAX }
    ensures size { length page.new ≡ length page.old }
{
    match fragment {
        Some((offset, size)) => {
            let at = write_number(page, at, *b" of-fragment=", offset);
            write_number(page, at, *b"+", size)
        }
        None => at,
    }
}

/// Writes which bundle a status report is about: its source, its timestamp and its fragment.
#[tactic(auto, unfolding(crate::specs::Words::subject_text))]
fn write_subject(page: &mut [u8], at: usize, report: &Report, source: &EidView<'_>) -> usize
    requires short { HasNoLongName (viewed_eid source.now) }
    requires room { at + SUBJECT_MAX ≤ length page.old }
    ensures text { take result page.new
        ≡ take at page.old ++ subject_text report.now (viewed_eid source.now) }
    ensures fits { result ≤ at + SUBJECT_MAX }
    ensures size { length page.new ≡ length page.old }
{
    let at = write_bytes(page, at, *b" of-source=");
    let at = write_eid(page, at, source);
    let at = write_number(page, at, *b" of-time=", report.time);
    let at = write_number(page, at, *b" of-sequence=", report.sequence);
    write_subject_fragment(page, at, report.fragment)
}

/// Writes the words of a status report.
#[inline(never)]
fn write_report(page: &mut [u8], at: usize, report: &Report, source: &EidView<'_>) -> usize
    requires short { HasNoLongName (viewed_eid source.now) }
    requires room { at + WORDS_MAX ≤ length page.old }
    ensures text { take result page.new ≡ take at page.old ++ codes " record=1/status-report"
        ++ statuses_text report.now ++ subject_text report.now (viewed_eid source.now) }
    ensures fits { result ≤ at + WORDS_MAX }
    ensures size { length page.new ≡ length page.old }
{
    let at = write_bytes(page, at, *b" record=1/status-report");
    let at = write_statuses(page, at, report);
    write_subject(page, at, report, source)
}

/// Writes the words of a security block.
#[inline(never)]
fn write_security(page: &mut [u8], at: usize, block: &SecurityBlock, source: &EidView<'_>) -> usize
    requires short { HasNoLongName (viewed_eid source.now) }
    requires room { at + WORDS_MAX ≤ length page.old }
    ensures { PutsText page.old page.new at result WORDS_MAX
        (number_text (codes " targets=") block.now.targets ++ context_text block.now
        ++ codes " source=" ++ eid_text (viewed_eid source.now)) }
{
    let at = write_number(page, at, *b" targets=", block.targets);
    let at = write_context(page, at, block);
    let at = write_bytes(page, at, *b" source=");
    write_eid(page, at, source)
}

/// Writes the words for well-formed data.
#[tactic(auto, unfolding(crate::specs::Words::data_text))]
#[inline(always)]
fn write_data(page: &mut [u8], at: usize, found: &DataView<'_>) -> usize
    requires short { HasShortName (viewed_data found.now) }
    requires room { at + WORDS_MAX ≤ length page.old }
    ensures { PutsText page.old page.new at result WORDS_MAX (data_text (viewed_data found.now)) }
{
    match found {
        DataView::PreviousNode(node) => {
            let at = write_bytes(page, at, *b" node=");
            write_eid(page, at, node)
        }
        DataView::BundleAge(age) => write_number(page, at, *b" age=", *age),
        DataView::HopCount(limit, count) => {
            let at = write_number(page, at, *b" limit=", *limit);
            write_number(page, at, *b" count=", *count)
        }
        DataView::Security(block, _, source) => write_security(page, at, block, source),
        DataView::StatusReport(report, source) => write_report(page, at, report, source),
        DataView::OtherRecord(record_type) => {
            let at = write_number(page, at, *b" record=", *record_type);
            write_bytes(page, at, *b"/?")
        }
    }
}

/// Writes the words that end a block's line: what its data says, or where the data has its fault.
///
/// `found` is `None` for a block whose data is not read: then nothing is written. `data_start` is
/// the offset in the bundle where the data begins. Returns the index after the words.
#[tactic(auto, unfolding(crate::specs::Words::words_text))]
#[inline(always)]
pub fn write_words(
    page: &mut [u8],
    at: usize,
    data_start: u64,
    found: &Option<Result<DataView<'_>, DataFault>>,
) -> usize
    requires fits { WordsFit data_start (option_map viewed_result found.now) }
    requires room { at + WORDS_MAX ≤ length page.old }
    ensures { PutsText page.old page.new at result WORDS_MAX
        (words_text data_start (option_map viewed_result found.now)) }
{
    match found {
        None => at,
        Some(Ok(view)) => write_data(page, at, view),
        Some(Err(fault)) => {
            write_number(page, at, *b" malformed-at=", data_start + fault.offset)
        }
    }
}
