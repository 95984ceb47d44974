//! The words of a block's type, by the data of the block.
//!
//! The rows are encoded by hand from RFC 8949, RFC 9171 and RFC 9172.
ghost use Rattle.link_bundle_data.specs.DataView.{viewed_data, HasShortName};

use crate::lines::expect;
use link_bundle_blocks::CanonicalBlock;
use link_bundle_data::{Assertion, DataKind, DataScan, DataView, Report};
use link_bundle_types::EidView;
use link_report_blocks::BlockText;
use std::process::Abort;
use std::test::Fail;

/// A block whose data begins at 28.
const BLOCK: CanonicalBlock = CanonicalBlock {
    start: 22,
    block_type: 192,
    number: 2,
    flags: 0,
    check: None,
    data_start: 28,
    data_length: 9,
    end: Some(37),
};

/// The line of the block, before the words of its type.
const FIELDS: &str =
    "0 block 2 at=22 length=15 type=192/? flags=00 check=none data-at=28 data-length=9";

/// Checks the words of data of this kind.
fn expect_words(
    rt: &(impl Abort + AllocGlobal),
    kind: DataKind,
    bytes: &[u8],
    words: &str,
) -> Result<(), Fail> {
    assert!(rt; bytes.len() < 100_000);
    let mut scan = DataScan::new(kind);
    scan.take(bytes);
    let text = BlockText {
        id: 0,
        block: &BLOCK,
        found: Some(scan.view()),
    };
    let want = format!(in rt.alloc(); "{FIELDS} {words}\n")?;
    expect(rt, &text, &want);
    Ok(())
}

/// Data, and its words.
static WORDS: [(DataKind, &[u8], &str); 29] = [
    (
        DataKind::PreviousNode,
        b"\x82\x02\x82\x05\x00",
        "node=ipn:5.0",
    ),
    (
        DataKind::PreviousNode,
        b"\x82\x02\x83\x01\x05\x00",
        "node=ipn:1.5.0",
    ),
    (DataKind::PreviousNode, b"\x82\x01\x00", "node=dtn:none"),
    (
        DataKind::PreviousNode,
        b"\x82\x01\x65\x2f\x2f\x61\x5c\x2f",
        "node=dtn://a\\x5c/",
    ),
    (DataKind::PreviousNode, b"\x82\x01\x60", "node=dtn:"),
    (DataKind::BundleAge, b"\x00", "age=0"),
    (DataKind::BundleAge, b"\x18\x64", "age=100"),
    (
        DataKind::BundleAge,
        b"\x1b\xff\xff\xff\xff\xff\xff\xff\xff",
        "age=18446744073709551615",
    ),
    (DataKind::HopCount, b"\x82\x18\x20\x01", "limit=32 count=1"),
    (
        DataKind::HopCount,
        b"\x82\x00\x19\xff\xff",
        "limit=0 count=65535",
    ),
    (
        DataKind::Security,
        b"\x81\x00\x01\x00\x82\x02\x82\x01\x01",
        "targets=1 context=1 context-flags=00 source=ipn:1.1",
    ),
    (
        DataKind::Security,
        b"\x82\x00\x01\x01\x01\x82\x01\x63\x2f\x2f\x61\x82\x01\x02",
        "targets=2 context=1 context-flags=01 source=dtn://a",
    ),
    (
        DataKind::Security,
        b"\x80\x20\x00\x82\x01\x00",
        "targets=0 context=-1 context-flags=00 source=dtn:none",
    ),
    (
        DataKind::Security,
        b"\x80\x3b\xff\xff\xff\xff\xff\xff\xff\xff\x00\x82\x01\x00",
        "targets=0 context=-18446744073709551616 context-flags=00 source=dtn:none",
    ),
    (
        DataKind::Security,
        b"\x80\x1b\xff\xff\xff\xff\xff\xff\xff\xff\x00\x82\x01\x00",
        "targets=0 context=18446744073709551615 context-flags=00 source=dtn:none",
    ),
    (
        DataKind::Security,
        b"\x81\x01\x02\x01\x82\x02\x82\x01\x01\x80\x80",
        "targets=1 context=2 context-flags=01 source=ipn:1.1",
    ),
    // flags in as many pairs of digits as they need
    (
        DataKind::Security,
        b"\x80\x01\x18\xff\x82\x01\x00",
        "targets=0 context=1 context-flags=ff source=dtn:none",
    ),
    (
        DataKind::Security,
        b"\x80\x01\x19\x01\x02\x82\x01\x00",
        "targets=0 context=1 context-flags=0102 source=dtn:none",
    ),
    (
        DataKind::Security,
        b"\x80\x01\x1b\xff\xff\xff\xff\xff\xff\xff\xff\x82\x01\x00",
        "targets=0 context=1 context-flags=ffffffffffffffff source=dtn:none",
    ),
    (DataKind::Record, b"\x82\x02", "record=2/?"),
    (DataKind::Record, b"\x98\x02\x18\xff", "record=255/?"),
    (
        DataKind::Record,
        b"\x82\x01\x84\x84\x81\xf4\x81\xf4\x81\xf4\x81\xf4\x00\x82\x02\x82\x05\x00\x82\x00\
        \x00",
        "record=1/status-report received=no forwarded=no delivered=no deleted=no \
        reason=0/no-additional-information of-source=ipn:5.0 of-time=0 of-sequence=0",
    ),
    (
        DataKind::Record,
        b"\x82\x01\x86\x84\x82\xf5\x19\x03\xe8\x81\xf5\x82\xf5\x00\x81\xf4\x01\x82\x02\x82\
        \x05\x07\x82\x1a\x00\x01\x00\x00\x09\x06\x0c",
        "record=1/status-report received=1000 forwarded=yes delivered=0 deleted=no \
        reason=1/lifetime-expired of-source=ipn:5.7 of-time=65536 of-sequence=9 \
        of-fragment=6+12",
    ),
    (
        DataKind::Record,
        b"\x82\x01\x84\x85\x81\xf4\x81\xf4\x81\xf4\x81\xf5\x81\xf5\x00\x82\x02\x82\x05\x00\
        \x82\x00\x00",
        "record=1/status-report received=no forwarded=no delivered=no deleted=yes \
        reason=0/no-additional-information of-source=ipn:5.0 of-time=0 of-sequence=0",
    ),
    (
        DataKind::Record,
        b"\x82\x01\x84\x86\x81\xf4\x81\xf4\x81\xf4\x81\xf4\x81\xf5\x82\xf5\x07\x00\x82\x02\
        \x82\x05\x00\x82\x00\x00",
        "record=1/status-report received=no forwarded=no delivered=no deleted=no \
        reason=0/no-additional-information of-source=ipn:5.0 of-time=0 of-sequence=0",
    ),
    (DataKind::PreviousNode, b"", "malformed-at=28"),
    (
        DataKind::PreviousNode,
        b"\x82\x01\x62\x61",
        "malformed-at=32",
    ),
    (DataKind::HopCount, b"\x82\x05\x06\x07", "malformed-at=31"),
    (
        DataKind::Record,
        b"\x82\x01\x84\x84\x81\xf6",
        "malformed-at=33",
    ),
];

#[test]
fn words_of_data(rt: HostRuntime) -> Result<(), Fail> {
    for (kind, bytes, words) in &WORDS {
        expect_words(&rt, *kind, bytes, words)?;
    }
    Ok(())
}

/// The reasons of status reports, and their names.
static REASONS: [(u64, &str); 20] = [
    (0, "no-additional-information"),
    (1, "lifetime-expired"),
    (2, "forwarded-over-unidirectional-link"),
    (3, "transmission-canceled"),
    (4, "depleted-storage"),
    (5, "destination-unavailable"),
    (6, "no-known-route"),
    (7, "no-timely-contact"),
    (8, "block-unintelligible"),
    (9, "hop-limit-exceeded"),
    (10, "traffic-pared"),
    (11, "block-unsupported"),
    (12, "missing-security-operation"),
    (13, "unknown-security-operation"),
    (14, "unexpected-security-operation"),
    (15, "failed-security-operation"),
    (16, "conflicting-security-operation"),
    (17, "?"),
    (256, "?"),
    (u64::MAX, "?"),
];

/// A status report with this reason, on a bundle of `dtn:none`.
fn report(reason: u64) -> DataView<'static>
    ensures { HasShortName (viewed_data result) }
{
    let report = Report {
        received: Assertion::No,
        forwarded: Assertion::Yes,
        delivered: Assertion::YesAt(1000),
        deleted: Assertion::YesAt(u64::MAX),
        timed: true,
        untimed: true,
        reason,
        time: 0,
        sequence: 9,
        fragment: None,
    };
    DataView::StatusReport(report, EidView::DtnNone)
}

/// Checks the words of a status report with this reason.
fn expect_reason(rt: &(impl Abort + AllocGlobal), reason: u64, name: &str) -> Result<(), Fail> {
    let text = BlockText {
        id: 0,
        block: &BLOCK,
        found: Some(Ok(report(reason))),
    };
    let want = format!(in rt.alloc();
        "{FIELDS} record=1/status-report received=no forwarded=yes delivered=1000 \
        deleted=18446744073709551615 reason={reason}/{name} of-source=dtn:none of-time=0 \
        of-sequence=9\n"
    )?;
    expect(rt, &text, &want);
    Ok(())
}

#[test]
fn names_of_reasons(rt: HostRuntime) -> Result<(), Fail> {
    for (reason, name) in &REASONS {
        expect_reason(&rt, *reason, name)?;
    }
    Ok(())
}
