//! The lines of the rules of messages. They are those of tests/python/rows.

use link_report_broken_rules::{BrokenRule, RuleText};
use link_session_rules::{AnswerFault, Doubt, Level, MessageRule as Rule};
use link_transfer::OrderFault;
use link_wire::{TEXT_MAX, Text};
use std::process::Abort;

pub(crate) const MAX: u64 = u64::MAX;

/// Checks the line of a broken rule, if nothing is in doubt.
pub(crate) fn expect(rt: &impl Abort, offset: u64, rule: BrokenRule, want: &str) {
    expect_in_doubt(rt, offset, Doubt::Nothing, rule, want);
}

/// Checks the line of a broken rule, if an unknown part may have changed this much of the bundle.
pub(crate) fn expect_in_doubt(
    rt: &impl Abort,
    offset: u64,
    doubt: Doubt,
    rule: BrokenRule,
    want: &str,
) {
    let mut page = [0; TEXT_MAX];
    let line = RuleText {
        offset,
        level: rule.level(doubt),
        rule,
    };
    let end = line.put(&mut page, 0);
    assert_eq!(rt; &page[..end], want.as_bytes(), "{want}");
}

/// The offset of a message, a rule that it breaks, and the line.
type Row = (u64, Rule, &'static str);

static ROWS: [Row; 29] = [
    (
        0,
        Rule::ContactFlags { flags: 0x80 },
        "0 must contact-flags flags=80\n",
    ),
    (6, Rule::NodeId { length: 7 }, "6 must node-id length=7\n"),
    (
        6,
        Rule::ItemFlags {
            item: 1,
            flags: 0x03,
        },
        "6 must item-flags item=1 flags=03\n",
    ),
    (
        6,
        Rule::BeforeSession { kind: 0x02 },
        "6 should before-session type=02\n",
    ),
    (
        60,
        Rule::Interleaved { id: 1, open: 0 },
        "60 should interleaved id=1 open=0\n",
    ),
    (
        38,
        Rule::SegmentFlags { flags: 0x07 },
        "38 must segment-flags flags=07\n",
    ),
    (
        93,
        Rule::TransferId { id: MAX },
        "93 must transfer-id id=18446744073709551615\n",
    ),
    (
        38,
        Rule::PeerSegment {
            length: 33,
            limit: 32,
        },
        "38 must peer-segment length=33 limit=32\n",
    ),
    (
        38,
        Rule::PeerTransferAnnounced {
            announced: 33,
            limit: 32,
        },
        "38 must peer-transfer announced=33 limit=32\n",
    ),
    (
        69,
        Rule::PeerTransferLength {
            length: 33,
            limit: 32,
        },
        "69 must peer-transfer length=33 limit=32\n",
    ),
    // The sum of two lengths of 64 bits, and the greatest number.
    (
        MAX,
        Rule::PeerTransferLength {
            length: 36_893_488_147_419_103_230,
            limit: MAX,
        },
        "18446744073709551615 must peer-transfer length=36893488147419103230 \
        limit=18446744073709551615\n",
    ),
    (
        0,
        Rule::PeerTransferLength {
            length: u128::MAX,
            limit: 0,
        },
        "0 must peer-transfer length=340282366920938463463374607431768211455 limit=0\n",
    ),
    (
        56,
        Rule::AckLength {
            length: 19,
            before: 20,
        },
        "56 should ack-length length=19 before=20\n",
    ),
    (38, Rule::Keepalive, "38 should keepalive\n"),
    (
        38,
        Rule::TermFlags { flags: 0x02 },
        "38 must term-flags flags=02\n",
    ),
    (
        0,
        Rule::ContactFlags { flags: 0xff },
        "0 must contact-flags flags=ff\n",
    ),
    (
        6,
        Rule::NodeName {
            length: 9,
            level: Level::Should,
        },
        "6 should node-name length=9\n",
    ),
    (
        6,
        Rule::NodeName {
            length: 1024,
            level: Level::Must,
        },
        "6 must node-name length=1024\n",
    ),
    (
        6,
        Rule::KeepaliveInterval { interval: 65535 },
        "6 should keepalive-interval interval=65535\n",
    ),
    (
        38,
        Rule::ItemType {
            item: 63,
            kind: 0x7ffe,
        },
        "38 should item-type item=63 type=7ffe\n",
    ),
    (
        38,
        Rule::TransferIdOrder { id: MAX },
        "38 should transfer-id-order id=18446744073709551615\n",
    ),
    (
        41,
        Rule::AfterReject {
            kind: 0x04,
            level: Level::Should,
        },
        "41 should after-reject type=04\n",
    ),
    (
        41,
        Rule::AfterReject {
            kind: 0x07,
            level: Level::Must,
        },
        "41 must after-reject type=07\n",
    ),
    (
        38,
        Rule::RejectKnown {
            reason: 0x02,
            header: 0x00,
        },
        "38 should reject-known reason=02 header=00\n",
    ),
    (
        38,
        Rule::Reason {
            kind: 0x06,
            reason: 0xef,
        },
        "38 should reason type=06 reason=ef\n",
    ),
    (
        41,
        Rule::TermOrder { kind: 0x05 },
        "41 should term-order type=05\n",
    ),
    (
        56,
        Rule::AnswerOrder {
            id: 0,
            fault: AnswerFault::NotTheLast,
        },
        "56 should answer-order id=0 fault=not-the-last\n",
    ),
    (
        56,
        Rule::AnswerOrder {
            id: 1,
            fault: AnswerFault::AfterRefusal,
        },
        "56 should answer-order id=1 fault=after-refusal\n",
    ),
    (
        MAX,
        Rule::AnswerOrder {
            id: MAX,
            fault: AnswerFault::RefusedAfterEnd,
        },
        "18446744073709551615 should answer-order id=18446744073709551615 \
        fault=refused-after-end\n",
    ),
];

#[test]
fn has_lines_of_messages(rt: HostRuntime) {
    for &(offset, rule, want) in &ROWS {
        expect(&rt, offset, BrokenRule::Message(rule), want);
    }
}

/// The offset of a message, a fault of the order with its level, and the line.
static FAULTS: [(u64, OrderFault, Level, &str); 6] = [
    (
        38,
        OrderFault::SecondSessInit,
        Level::Should,
        "38 should order fault=second-session-initiation\n",
    ),
    (
        93,
        OrderFault::SecondSessInit,
        Level::Must,
        "93 must order fault=second-session-initiation\n",
    ),
    (
        6,
        OrderFault::SegmentBeforeSessInit,
        Level::Must,
        "6 must order fault=segment-before-session-initiation\n",
    ),
    (
        38,
        OrderFault::NoSuchOpenTransfer,
        Level::Must,
        "38 must order fault=no-such-open-transfer\n",
    ),
    (
        69,
        OrderFault::StartRepeatsOpenId,
        Level::Must,
        "69 must order fault=start-repeats-the-open-transfer\n",
    ),
    (
        41,
        OrderFault::StartAfterSessTerm,
        Level::Must,
        "41 must order fault=start-after-session-termination\n",
    ),
];

#[test]
fn has_lines_of_faults_of_the_order(rt: HostRuntime) {
    for &(offset, fault, level, want) in &FAULTS {
        let rule = Rule::Order { fault, level };
        expect(&rt, offset, BrokenRule::Message(rule), want);
    }
}
