//! The lines of the rules of transfers. They are those of tests/python/rows.

use super::messages::{MAX, expect, expect_in_doubt};
use link_bundle_types::BundleFault;
use link_report_broken_rules::BrokenRule;
use link_session_rules::{Doubt, TransferRule as Rule};

/// A rule, and the line of a transfer that breaks it. The transfer has the ID 0 and begins at 38.
type Row = (Rule, &'static str);

static ROWS: [Row; 7] = [
    (
        Rule::Unfinished { length: 2 },
        "38 should unfinished transfer=0 length=2\n",
    ),
    (Rule::LengthItem, "38 must length-item transfer=0\n"),
    (
        Rule::LengthDiffers {
            announced: 34,
            length: 33,
        },
        "38 must length-differs transfer=0 announced=34 length=33\n",
    ),
    (
        Rule::LengthOfOneSegment,
        "38 should length-of-one-segment transfer=0\n",
    ),
    (
        Rule::Bundle {
            fault: BundleFault::Cut,
            byte: 0,
        },
        "38 must bundle transfer=0 code=B1 byte=0\n",
    ),
    (
        Rule::Bundle {
            fault: BundleFault::NoPayloadLast,
            byte: 32,
        },
        "38 must bundle transfer=0 code=B17 byte=32\n",
    ),
    (
        Rule::NotRead {
            fault: BundleFault::TooManyBlocks,
            byte: 451,
        },
        "38 should not-read transfer=0 code=B16 byte=451\n",
    ),
];

#[test]
fn has_lines_of_transfers(rt: HostRuntime) {
    for &(rule, want) in &ROWS {
        expect(&rt, 38, BrokenRule::Transfer(0, rule), want);
    }
    let rule = Rule::Unfinished { length: MAX };
    let want = "18446744073709551615 should unfinished transfer=18446744073709551615 \
        length=18446744073709551615\n";
    expect(&rt, MAX, BrokenRule::Transfer(MAX, rule), want);
}

/// An extension item of an unknown type lessens the level of `bundle`, and not that of a length.
#[test]
fn has_lines_of_transfers_in_doubt(rt: HostRuntime) {
    let fault = BundleFault::NotABundle;
    let none = BrokenRule::Transfer(0, Rule::Bundle { fault, byte: 0 });
    let want = "38 should bundle transfer=0 code=B3 byte=0\n";
    expect_in_doubt(&rt, 38, Doubt::WholeBundle, none, want);
    let malformed = BrokenRule::Transfer(0, Rule::LengthItem);
    let want = "38 must length-item transfer=0\n";
    expect_in_doubt(&rt, 38, Doubt::WholeBundle, malformed, want);
}
