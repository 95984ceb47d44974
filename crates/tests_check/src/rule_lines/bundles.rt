//! The lines of the rules of bundles. They are those of tests/python/rows.

use super::messages::{MAX, expect, expect_in_doubt};
use link_bundle_data::Integer;
use link_bundle_rules::{BundleRule as Rule, Doubt, Endpoint, Level};
use link_report_broken_rules::{BrokenRule, BundlePlace};
use std::process::Abort;

/// A rule, and the line of a bundle that breaks it. The bundle is the first of an input.
type Row = (Rule, &'static str);

static ROWS: [Row; 28] = [
    (
        Rule::LongHead {
            byte: 2,
            level: Level::Must,
        },
        "0 must long-head bundle=0 byte=2\n",
    ),
    (
        Rule::BundleFlags { flags: 0x20_0000 },
        "0 should bundle-flags bundle=0 flags=200000\n",
    ),
    (
        Rule::BundleFlags { flags: 0x08 },
        "0 should bundle-flags bundle=0 flags=08\n",
    ),
    (
        Rule::BundleFlags { flags: MAX },
        "0 should bundle-flags bundle=0 flags=ffffffffffffffff\n",
    ),
    (
        Rule::PrimaryCheck { level: Level::Must },
        "0 must primary-check bundle=0\n",
    ),
    (
        Rule::PrimaryCheck {
            level: Level::Should,
        },
        "0 should primary-check bundle=0\n",
    ),
    (
        Rule::Anonymous { flags: 0 },
        "0 must anonymous bundle=0 flags=00\n",
    ),
    (
        Rule::Anonymous { flags: 0x01_0004 },
        "0 must anonymous bundle=0 flags=010004\n",
    ),
    (
        Rule::RecordReports { flags: 0x4002 },
        "0 must record-reports bundle=0 flags=4002\n",
    ),
    (
        Rule::BlockReports { block: 2 },
        "0 must block-reports bundle=0 block=2\n",
    ),
    (
        Rule::BlockFlags {
            block: 2,
            flags: 0x08,
        },
        "0 should block-flags bundle=0 block=2 flags=08\n",
    ),
    (
        Rule::BlockFlags {
            block: 1,
            flags: 0x0100,
        },
        "0 should block-flags bundle=0 block=1 flags=0100\n",
    ),
    (
        Rule::DtnName {
            of: Endpoint::Destination,
        },
        "0 must dtn-name bundle=0 of=destination\n",
    ),
    (
        Rule::DtnName {
            of: Endpoint::Source,
        },
        "0 must dtn-name bundle=0 of=source\n",
    ),
    (
        Rule::DtnName {
            of: Endpoint::ReportTo,
        },
        "0 must dtn-name bundle=0 of=report-to\n",
    ),
    (
        Rule::Fragment {
            offset: 2,
            size: 1,
            total: 3,
            level: Level::Must,
        },
        "0 must fragment bundle=0 offset=2 length=1 total=3\n",
    ),
    (
        Rule::WholeFragment { total: 300 },
        "0 should whole-fragment bundle=0 total=300\n",
    ),
    (
        Rule::Age {
            blocks: 0,
            level: Level::Must,
        },
        "0 must age bundle=0 blocks=0\n",
    ),
    (
        Rule::Age {
            blocks: 0,
            level: Level::Should,
        },
        "0 should age bundle=0 blocks=0\n",
    ),
    (
        Rule::PreviousNode { blocks: 2 },
        "0 must previous-node bundle=0 blocks=2\n",
    ),
    (
        Rule::HopCount {
            blocks: 2,
            limit: Some(30),
        },
        "0 must hop-count bundle=0 blocks=2 limit=30\n",
    ),
    (
        Rule::HopCount {
            blocks: 2,
            limit: None,
        },
        "0 must hop-count bundle=0 blocks=2\n",
    ),
    (
        Rule::ConfidentialPrimary { block: 2 },
        "0 must confidential-primary bundle=0 block=2\n",
    ),
    (
        Rule::Hops { limit: 5, count: 6 },
        "0 should hops bundle=0 limit=5 count=6\n",
    ),
    (
        Rule::BlockData { block: 3, byte: 38 },
        "0 must block-data bundle=0 block=3 byte=38\n",
    ),
    (
        Rule::DataNotRead { block: 1, byte: 45 },
        "0 should data-not-read bundle=0 block=1 byte=45\n",
    ),
    (
        Rule::Record { byte: 32 },
        "0 must record bundle=0 byte=32\n",
    ),
    (
        Rule::HopCount {
            blocks: 1,
            limit: Some(0),
        },
        "0 must hop-count bundle=0 blocks=1 limit=0\n",
    ),
];

/// Rules of endpoint IDs in data, of lifetimes, of block types and of status reports.
static DATA: [Row; 14] = [
    (
        Rule::LongHead {
            byte: 31,
            level: Level::Should,
        },
        "0 should long-head bundle=0 byte=31\n",
    ),
    (
        Rule::DtnName {
            of: Endpoint::PreviousNode(2),
        },
        "0 must dtn-name bundle=0 of=previous-node block=2\n",
    ),
    (
        Rule::DtnName {
            of: Endpoint::SecuritySource(300),
        },
        "0 must dtn-name bundle=0 of=security-source block=300\n",
    ),
    (
        Rule::DtnName {
            of: Endpoint::ReportSource,
        },
        "0 must dtn-name bundle=0 of=report-source\n",
    ),
    (Rule::SourceNode, "0 must source-node bundle=0\n"),
    (
        Rule::PreviousNodeId {
            block: 2,
            level: Level::Must,
        },
        "0 must previous-node-id bundle=0 block=2\n",
    ),
    (
        Rule::PreviousNodeId {
            block: MAX,
            level: Level::Should,
        },
        "0 should previous-node-id bundle=0 block=18446744073709551615\n",
    ),
    (
        Rule::Expired {
            lifetime: 4,
            age: 5,
        },
        "0 should expired bundle=0 lifetime=4 age=5\n",
    ),
    (
        Rule::BlockType {
            block: 2,
            block_type: 256,
        },
        "0 should block-type bundle=0 block=2 type=256\n",
    ),
    (
        Rule::RecordType { record_type: 2 },
        "0 should record-type bundle=0 type=2\n",
    ),
    (Rule::ReportTimes, "0 must report-times bundle=0\n"),
    (Rule::ReportEmpty, "0 should report-empty bundle=0\n"),
    (
        Rule::ReportReason { reason: 255 },
        "0 should report-reason bundle=0 reason=255\n",
    ),
    (Rule::ReportSource, "0 should report-source bundle=0\n"),
];

/// Rules of security blocks.
static SECURITY: [Row; 14] = [
    (
        Rule::SecurityTargets {
            block: 2,
            target: None,
            level: Level::Must,
        },
        "0 must security-targets bundle=0 block=2\n",
    ),
    (
        Rule::SecurityTargets {
            block: 2,
            target: Some(0),
            level: Level::Must,
        },
        "0 must security-targets bundle=0 block=2 target=0\n",
    ),
    (
        Rule::SecurityTargets {
            block: 9,
            target: Some(300),
            level: Level::Should,
        },
        "0 should security-targets bundle=0 block=9 target=300\n",
    ),
    (
        Rule::SecurityTwice {
            block: 3,
            target: 1,
        },
        "0 must security-twice bundle=0 block=3 target=1\n",
    ),
    (
        Rule::SecurityFlags {
            block: 2,
            flags: 0x02,
        },
        "0 must security-flags bundle=0 block=2 flags=02\n",
    ),
    (
        Rule::SecurityFlags {
            block: 2,
            flags: 0x0100,
        },
        "0 must security-flags bundle=0 block=2 flags=0100\n",
    ),
    (
        Rule::SecurityContext {
            block: 2,
            context: Integer {
                negative: false,
                argument: 0,
            },
        },
        "0 should security-context bundle=0 block=2 context=0\n",
    ),
    (
        Rule::SecurityContext {
            block: 9,
            context: Integer {
                negative: true,
                argument: 0,
            },
        },
        "0 should security-context bundle=0 block=9 context=-1\n",
    ),
    (
        Rule::SecurityContext {
            block: 9,
            context: Integer {
                negative: true,
                argument: MAX,
            },
        },
        "0 should security-context bundle=0 block=9 context=-18446744073709551616\n",
    ),
    (
        Rule::IntegrityTarget {
            block: 2,
            target: 9,
        },
        "0 must integrity-target bundle=0 block=2 target=9\n",
    ),
    (
        Rule::ConfidentialTarget {
            block: 9,
            target: 8,
        },
        "0 must confidential-target bundle=0 block=9 target=8\n",
    ),
    (
        Rule::ConfidentialFlags {
            block: 9,
            flags: 0x10,
        },
        "0 must confidential-flags bundle=0 block=9 flags=10\n",
    ),
    (
        Rule::ConfidentialContext { block: 9 },
        "0 must confidential-context bundle=0 block=9\n",
    ),
    (
        Rule::SharedTarget {
            block: 2,
            target: 1,
        },
        "0 should shared-target bundle=0 block=2 target=1\n",
    ),
];

/// How much an unknown part may have changed, a rule, and the line of a bundle that breaks it.
type DoubtRow = (Doubt, Rule, &'static str);

/// Lines with a level that may depend on an unknown part.
static IN_DOUBT: [DoubtRow; 14] = [
    (
        Doubt::BlockData,
        Rule::BlockData { block: 2, byte: 31 },
        "0 should block-data bundle=0 block=2 byte=31\n",
    ),
    (
        Doubt::WholeBundle,
        Rule::BlockData { block: 2, byte: 31 },
        "0 should block-data bundle=0 block=2 byte=31\n",
    ),
    (
        Doubt::BlockData,
        Rule::SecurityTargets {
            block: 2,
            target: None,
            level: Level::Must,
        },
        "0 should security-targets bundle=0 block=2\n",
    ),
    (
        Doubt::BlockData,
        Rule::ConfidentialContext { block: 9 },
        "0 should confidential-context bundle=0 block=9\n",
    ),
    (
        Doubt::BlockData,
        Rule::DtnName {
            of: Endpoint::ReportSource,
        },
        "0 should dtn-name bundle=0 of=report-source\n",
    ),
    (
        Doubt::BlockData,
        Rule::DtnName {
            of: Endpoint::ReportTo,
        },
        "0 must dtn-name bundle=0 of=report-to\n",
    ),
    (
        Doubt::BlockData,
        Rule::HopCount {
            blocks: 1,
            limit: Some(0),
        },
        "0 should hop-count bundle=0 blocks=1 limit=0\n",
    ),
    (
        Doubt::BlockData,
        Rule::HopCount {
            blocks: 2,
            limit: Some(30),
        },
        "0 must hop-count bundle=0 blocks=2 limit=30\n",
    ),
    (
        Doubt::BlockData,
        Rule::LongHead {
            byte: 55,
            level: Level::Must,
        },
        "0 must long-head bundle=0 byte=55\n",
    ),
    (
        Doubt::BlockData,
        Rule::PrimaryCheck { level: Level::Must },
        "0 must primary-check bundle=0\n",
    ),
    (
        Doubt::WholeBundle,
        Rule::PrimaryCheck { level: Level::Must },
        "0 should primary-check bundle=0\n",
    ),
    (
        Doubt::BlockData,
        Rule::Fragment {
            offset: 0,
            size: 0,
            total: 2,
            level: Level::Must,
        },
        "0 must fragment bundle=0 offset=0 length=0 total=2\n",
    ),
    (
        Doubt::BlockData,
        Rule::SourceNode,
        "0 must source-node bundle=0\n",
    ),
    (
        Doubt::BlockData,
        Rule::ReportEmpty,
        "0 should report-empty bundle=0\n",
    ),
];

/// Checks the lines of the first bundle of an input.
fn expect_all(rt: &impl Abort, rows: &[Row]) {
    for &(rule, want) in rows {
        expect(rt, 0, BrokenRule::Bundle(BundlePlace::Input(0), rule), want);
    }
}

#[test]
fn has_lines_of_bundles(rt: HostRuntime) {
    expect_all(&rt, &ROWS);
}

#[test]
fn has_lines_of_data(rt: HostRuntime) {
    expect_all(&rt, &DATA);
}

#[test]
fn has_lines_of_security_blocks(rt: HostRuntime) {
    expect_all(&rt, &SECURITY);
}

#[test]
fn has_lines_of_what_is_in_doubt(rt: HostRuntime) {
    for &(doubt, rule, want) in &IN_DOUBT {
        let broken = BrokenRule::Bundle(BundlePlace::Input(0), rule);
        expect_in_doubt(&rt, 0, doubt, broken, want);
    }
}

#[test]
fn names_the_transfer_or_the_bundle(rt: HostRuntime) {
    let rule = Rule::Anonymous { flags: 0 };
    let in_transfer = BrokenRule::Bundle(BundlePlace::Transfer(5), rule);
    expect(
        &rt,
        300,
        in_transfer,
        "300 must anonymous transfer=5 flags=00\n",
    );
    let third = BrokenRule::Bundle(BundlePlace::Input(2), rule);
    expect(&rt, 300, third, "300 must anonymous bundle=2 flags=00\n");
}

/// No line is longer.
#[test]
fn has_the_longest_line(rt: HostRuntime) {
    let rule = Rule::Fragment {
        offset: MAX,
        size: MAX,
        total: MAX,
        level: Level::Must,
    };
    let want = "18446744073709551615 must fragment transfer=18446744073709551615 \
        offset=18446744073709551615 length=18446744073709551615 total=18446744073709551615\n";
    assert_eq!(rt; want.len(), 148);
    expect(
        &rt,
        MAX,
        BrokenRule::Bundle(BundlePlace::Transfer(MAX), rule),
        want,
    );
}
