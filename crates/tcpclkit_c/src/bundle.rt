//! Exports about a bundle that lies in one slice.

ghost use Rattle.std.specs.Prelude.{◌≡◌, ℕ, List};
ghost use Rattle.link_bundle_types.specs.BundleView.{viewed_info};
ghost use Rattle.link_bundle_blocks.specs.Bundle.{verdict, payload_seen, state_of};
ghost use Rattle.link_bundle.specs.Scan.{HasJudged};
ghost use Rattle.link_bundle_blocks.specs.PrimaryFields.{primary_fields};
ghost use Rattle.link_bundle_blocks.specs.PrimaryView.{viewed_fields};
ghost use Rattle.link_ffi_numbers.specs.Bundle.{state_status, verdict_shown, ReturnsVerdict};
ghost use Rattle.tcpclkit_c.specs.Bundle.{three_names, CopiesNames, names_status, ReturnsBundle, ReturnsBadBundle, ReturnsBundleOrFault};

use link_bundle::{BundleScan, BundleView, State};
use link_bundle_blocks::PrimaryView;
use link_ffi_numbers::bundle::{
    Bundle, Verdict, bundle_shown, fault_of, name_of, name_or_none, primary_shown, state_status,
    with_span,
};
use link_ffi_numbers::status::{OK, TOO_SMALL};
use link_ffi_tools::copy_front;

/// What a scan has found of the bytes that it has judged.
fn found(scan: &BundleScan) -> Verdict
    ensures { (bytes : List ℕ) → HasJudged scan.now bytes
        → result ≡ verdict_shown (verdict bytes) (payload_seen bytes) }
{
    with_span(fault_of(scan.view()), scan.payload_seen())
}

/// Writes the verdict on the bytes that a scan has judged to `answer`, and returns its status.
pub(crate) fn give_verdict(scan: &BundleScan, answer: &mut Verdict) -> u32
    ensures { (bytes : List ℕ) → HasJudged scan.now bytes → ReturnsVerdict bytes answer.new result }
{
    *answer = found(scan);
    state_status(scan.state())
}

/// Judges the bytes as one bundle. Returns `OK`, `TRUNCATED` or `FAULT`.
#[unsafe(no_mangle)]
pub extern "C" fn tcpclkit_raw_judge_bundle(bytes: &[u8], answer: &mut Verdict) -> u32
    ensures status { result ≡ state_status (state_of (verdict bytes.now)) }
    ensures answer { answer.new ≡ verdict_shown (verdict bytes.now) (payload_seen bytes.now) }
{
    let mut scan = BundleScan::new();
    scan.judge_piece(bytes);
    give_verdict(&scan, answer)
}

/// Copies the names, as far as they fit. Returns `OK`, or `TOO_SMALL` if one does not fit.
fn give_names(
    destination: &[u8],
    source: &[u8],
    report_to: &[u8],
    destination_name: &mut [u8],
    source_name: &mut [u8],
    report_to_name: &mut [u8],
) -> u32
    ensures names { CopiesNames
        (three_names destination.now source.now report_to.now)
        (three_names destination_name.old source_name.old report_to_name.old)
        (three_names destination_name.new source_name.new report_to_name.new) }
    ensures status { result ≡ names_status
        (three_names destination.now source.now report_to.now)
        (three_names destination_name.new source_name.new report_to_name.new) }
{
    let destination_fits = copy_front(destination_name, destination);
    let source_fits = copy_front(source_name, source);
    let report_to_fits = copy_front(report_to_name, report_to);
    if destination_fits && source_fits && report_to_fits {
        OK
    } else {
        TOO_SMALL
    }
}

/// Writes the fields and the names of a good bundle. Returns `OK` or `TOO_SMALL`.
fn give_good(
    info: &BundleView<'_>,
    verdict: Verdict,
    primary: &PrimaryView<'_>,
    destination_name: &mut [u8],
    source_name: &mut [u8],
    report_to_name: &mut [u8],
    answer: &mut Bundle,
) -> u32
    ensures { ReturnsBundle (viewed_info info.now) verdict (viewed_fields primary.now)
        (three_names destination_name.old source_name.old report_to_name.old)
        (three_names destination_name.new source_name.new report_to_name.new)
        answer.new result }
{
    *answer = bundle_shown(verdict, primary, info);
    give_names(
        name_of(&info.destination),
        name_of(&info.source),
        name_of(&info.report_to),
        destination_name,
        source_name,
        report_to_name,
    )
}

/// Writes the fields and the names before the first fault, and returns the status of `state`.
///
/// A name that does not fit in its slice is cut, and `answer` gets its length after the cut. The
/// status is never `TOO_SMALL`.
fn give_bad(
    state: State,
    verdict: Verdict,
    primary: &PrimaryView<'_>,
    destination_name: &mut [u8],
    source_name: &mut [u8],
    report_to_name: &mut [u8],
    answer: &mut Bundle,
) -> u32
    ensures { ReturnsBadBundle verdict state (viewed_fields primary.now)
        (three_names destination_name.old source_name.old report_to_name.old)
        (three_names destination_name.new source_name.new report_to_name.new)
        answer.new result }
{
    let shown = primary_shown(verdict, primary);
    *answer = Bundle {
        destination: shown.destination.cut_to(destination_name.len()),
        source: shown.source.cut_to(source_name.len()),
        report_to: shown.report_to.cut_to(report_to_name.len()),
        ..shown
    };
    give_names(
        name_or_none(&primary.destination),
        name_or_none(&primary.source),
        name_or_none(&primary.report_to),
        destination_name,
        source_name,
        report_to_name,
    );
    state_status(state)
}

/// Writes the verdict on the bytes that a scan has judged, and the fields and names that were
/// accepted.
///
/// Returns `OK` or `TOO_SMALL` for a good bundle, and else `TRUNCATED` or `FAULT`.
pub(crate) fn give_info(
    scan: &BundleScan,
    primary: &PrimaryView<'_>,
    destination_name: &mut [u8],
    source_name: &mut [u8],
    report_to_name: &mut [u8],
    answer: &mut Bundle,
) -> u32
    ensures { (bytes : List ℕ) → HasJudged scan.now bytes
        → ReturnsBundleOrFault (verdict bytes) (payload_seen bytes) (viewed_fields primary.now)
        (three_names destination_name.old source_name.old report_to_name.old)
        (three_names destination_name.new source_name.new report_to_name.new)
        answer.new result }
{
    let verdict = found(scan);
    match scan.view() {
        Ok(info) => give_good(
            &info,
            verdict,
            primary,
            destination_name,
            source_name,
            report_to_name,
            answer,
        ),
        Err(_) => give_bad(
            scan.state(),
            verdict,
            primary,
            destination_name,
            source_name,
            report_to_name,
            answer,
        ),
    }
}

/// Judges the bytes as one bundle, and writes the verdict, and the fields and names that were
/// accepted.
///
/// For a good bundle, returns `OK`, or `TOO_SMALL` if a name does not fit in its slice. For other
/// bytes, returns `TRUNCATED` or `FAULT`, whether the names fit or not.
#[unsafe(no_mangle)]
pub extern "C" fn tcpclkit_raw_describe_bundle(
    bytes: &[u8],
    destination_name: &mut [u8],
    source_name: &mut [u8],
    report_to_name: &mut [u8],
    answer: &mut Bundle,
) -> u32
    ensures { ReturnsBundleOrFault (verdict bytes.now) (payload_seen bytes.now)
        (primary_fields bytes.now)
        (three_names destination_name.old source_name.old report_to_name.old)
        (three_names destination_name.new source_name.new report_to_name.new)
        answer.new result }
{
    let mut scan = BundleScan::new();
    scan.judge_piece(bytes);
    give_info(
        &scan,
        &scan.primary(),
        destination_name,
        source_name,
        report_to_name,
        answer,
    )
}
