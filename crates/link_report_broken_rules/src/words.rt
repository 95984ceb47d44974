//! The words of rules: what broke a rule.
//!
//! Each function writes to a page from the index `at` on, and returns the index after its text. A
//! value comes after its label, such as ` id=`.

ghost use Rattle.std.specs.Prelude.{◌≡◌, ◌+◌, ◌≤◌, ◌++◌, length, take, codes, decimal};
ghost use Rattle.link_report_blocks.specs.Words.{integer_text};
ghost use Rattle.link_report.specs.Message.{flags_text};
ghost use Rattle.link_report.specs.Text.{hex2, hex4, number_text};
ghost use Rattle.link_report.specs.Written.{PutsText};
ghost use Rattle.link_report_broken_rules.specs.Words.{answer_text, hyphenated, order_field, message_words, fault_fields, transfer_words, control_field, endpoint_name, endpoint_block, limit_field, target_field, bundle_words, rule_words};

use crate::rule::BrokenRule;
use itoa::Buffer;
use link_bundle_data::Integer;
use link_bundle_rules::{BundleRule, Endpoint};
use link_bundle_types::BundleFault;
use link_report::{code_of, order_words, write_bytes, write_hex2, write_number, write_text};
use link_report_blocks::{write_flags, write_integer};
use link_session_rules::{AnswerFault, MessageRule, TransferRule};
use link_transfer::OrderFault;

/// The greatest length in bytes of the words of a rule: those of a fragment, 23 bytes and three
/// numbers.
pub(crate) const WORDS_MAX: usize = 83;

/// The greatest length in bytes of a fault of the order of messages, as one word.
const ORDER_MAX: usize = 47;

/// The greatest length in bytes of the flags of a bundle or of a block.
const CONTROL_MAX: usize = 23;

/// Writes two labels, each with a number of at most 20 digits.
#[inline(always)]
fn write_two<const N: usize, const M: usize>(
    page: &mut [u8],
    at: usize,
    label: [u8; N],
    number: u64,
    next_label: [u8; M],
    next: u64,
) -> usize
    requires { at + N + M + 40 ≤ length page.old }
    ensures { PutsText page.old page.new at result (N + M + 40)
        (number_text label.entry number ++ number_text next_label.entry next) }
{
    let at = write_number(page, at, label, number);
    write_number(page, at, next_label, next)
}

/// Writes the flags of a message, which are one byte.
#[tactic(auto, unfolding(link_report::specs::Message::flags_text))]
fn write_byte_flags(page: &mut [u8], at: usize, flags: u8) -> usize
    requires { at + 9 ≤ length page.old }
    ensures text { take result page.new ≡ take at page.old ++ flags_text flags }
    ensures end { result ≡ at + 9 }
    ensures size { length page.new ≡ length page.old }
{
    let at = write_bytes(page, at, *b" flags=");
    write_hex2(page, at, flags)
}

/// Writes the type byte of a message.
fn write_type(page: &mut [u8], at: usize, kind: u8) -> usize
    requires { at + 8 ≤ length page.old }
    ensures { PutsText page.old page.new at result 8 (codes " type=" ++ hex2 kind) }
{
    let at = write_bytes(page, at, *b" type=");
    write_hex2(page, at, kind)
}

/// Writes the type of an extension item, which is two bytes.
#[tactic(auto, unfolding(link_report::specs::Text::hex4))]
fn write_item_type(page: &mut [u8], at: usize, kind: u16) -> usize
    requires { at + 10 ≤ length page.old }
    ensures { PutsText page.old page.new at result 10 (codes " type=" ++ hex4 kind) }
{
    let [high, low] = kind.to_be_bytes();
    let at = write_bytes(page, at, *b" type=");
    let at = write_hex2(page, at, high);
    write_hex2(page, at, low)
}

/// Writes a reason, which is one byte.
fn write_reason(page: &mut [u8], at: usize, reason: u8) -> usize
    requires { at + 10 ≤ length page.old }
    ensures { PutsText page.old page.new at result 10 (codes " reason=" ++ hex2 reason) }
{
    let at = write_bytes(page, at, *b" reason=");
    write_hex2(page, at, reason)
}

/// The word for what is wrong with an answer.
#[tactic(auto, unfolding(crate::specs::Words::answer_text))]
fn answer_text(fault: AnswerFault) -> &'static str
    ensures text { result.now ≡ answer_text fault }
    ensures short { length result.now ≤ 17 }
{
    match fault {
        AnswerFault::NotTheLast => "not-the-last",
        AnswerFault::StartRepeats => "start-repeats",
        AnswerFault::AfterStop => "after-end",
        AnswerFault::AfterRefusal => "after-refusal",
        AnswerFault::RefusedAfterEnd => "refused-after-end",
    }
}

/// Writes the ID of a transfer, and what is wrong with an answer to it.
fn write_answer(page: &mut [u8], at: usize, id: u64, fault: AnswerFault) -> usize
    requires { at + 48 ≤ length page.old }
    ensures { PutsText page.old page.new at result 48
        (number_text (codes " id=") id ++ codes " fault=" ++ answer_text fault) }
{
    let at = write_number(page, at, *b" id=", id);
    let at = write_bytes(page, at, *b" fault=");
    write_text(page, at, answer_text(fault))
}

/// Writes a text with hyphens for its spaces.
#[tactic(auto, unfolding(crate::specs::Words::hyphenated))]
fn write_hyphenated(page: &mut [u8], at: usize, text: &str) -> usize
    requires { at + length text.now ≤ length page.old }
    ensures text { take result page.new ≡ take at page.old ++ hyphenated text.now }
    ensures end { result ≡ at + length text.now }
    ensures size { length page.new ≡ length page.old }
{
    let mut end = at;
    for byte in text.as_bytes() {
        let shown = if *byte == b' ' { b'-' } else { *byte };
        end = write_bytes(page, end, [shown]);
    }
    end
}

/// Writes the label ` fault=`, and a fault of the order of messages with hyphens for its spaces.
#[tactic(auto, unfolding(crate::specs::Words::order_field))]
fn write_order(page: &mut [u8], at: usize, fault: OrderFault) -> usize
    requires { at + ORDER_MAX ≤ length page.old }
    ensures { PutsText page.old page.new at result ORDER_MAX (order_field fault) }
{
    let at = write_bytes(page, at, *b" fault=");
    write_hyphenated(page, at, order_words(fault))
}

/// Writes the length of a transfer, which may exceed 64 bits, and the limit that it exceeds.
#[tactic(auto, unfolding(link_report::specs::Text::number_text))]
fn write_passed(page: &mut [u8], at: usize, size: u128, limit: u64) -> usize
    requires { at + WORDS_MAX ≤ length page.old }
    ensures { PutsText page.old page.new at result WORDS_MAX
        (number_text (codes " length=") size ++ number_text (codes " limit=") limit) }
{
    let at = write_bytes(page, at, *b" length=");
    let at = write_text(page, at, Buffer::new().format(size));
    write_number(page, at, *b" limit=", limit)
}

/// Writes what the line of a broken rule of messages says after the rule's name.
#[tactic(auto, unfolding(crate::specs::Words::message_words))]
fn write_message(page: &mut [u8], at: usize, rule: &MessageRule) -> usize
    requires { at + WORDS_MAX ≤ length page.old }
    ensures { PutsText page.old page.new at result WORDS_MAX (message_words rule.now) }
{
    match *rule {
        MessageRule::ContactFlags { flags }
        | MessageRule::SegmentFlags { flags }
        | MessageRule::TermFlags { flags } => write_byte_flags(page, at, flags),
        MessageRule::NodeId { length } => write_number(page, at, *b" length=", length),
        MessageRule::ItemFlags { item, flags } => {
            let at = write_number(page, at, *b" item=", item);
            write_byte_flags(page, at, flags)
        }
        MessageRule::Order { fault, .. } => write_order(page, at, fault),
        MessageRule::BeforeSession { kind } => write_type(page, at, kind),
        MessageRule::Interleaved { id, open } => {
            write_two(page, at, *b" id=", id, *b" open=", open)
        }
        MessageRule::TransferId { id } => write_number(page, at, *b" id=", id),
        MessageRule::PeerSegment { length, limit } => {
            write_two(page, at, *b" length=", length, *b" limit=", limit)
        }
        MessageRule::PeerTransferAnnounced { announced, limit } => {
            write_two(page, at, *b" announced=", announced, *b" limit=", limit)
        }
        MessageRule::PeerTransferLength { length, limit } => write_passed(page, at, length, limit),
        MessageRule::AckLength { length, before } => {
            write_two(page, at, *b" length=", length, *b" before=", before)
        }
        // The name of the rule says all.
        MessageRule::Keepalive => at,
        MessageRule::NodeName { length, .. } => write_number(page, at, *b" length=", length),
        MessageRule::KeepaliveInterval { interval } => {
            write_number(page, at, *b" interval=", u64::from(interval))
        }
        MessageRule::ItemType { item, kind } => {
            let at = write_number(page, at, *b" item=", item);
            write_item_type(page, at, kind)
        }
        MessageRule::TransferIdOrder { id } => write_number(page, at, *b" id=", id),
        MessageRule::AnswerOrder { id, fault } => write_answer(page, at, id, fault),
        MessageRule::AfterReject { kind, .. } => write_type(page, at, kind),
        MessageRule::RejectKnown { reason, header } => {
            let at = write_reason(page, at, reason);
            let at = write_bytes(page, at, *b" header=");
            write_hex2(page, at, header)
        }
        MessageRule::Reason { kind, reason } => {
            let at = write_type(page, at, kind);
            write_reason(page, at, reason)
        }
        MessageRule::TermOrder { kind } => write_type(page, at, kind),
    }
}

/// Writes the code of a fault of a bundle, and its offset in the bundle.
#[tactic(auto, unfolding(crate::specs::Words::fault_fields))]
fn write_fault(page: &mut [u8], at: usize, fault: BundleFault, byte: u64) -> usize
    requires { at + WORDS_MAX ≤ length page.old }
    ensures { PutsText page.old page.new at result WORDS_MAX (fault_fields fault byte) }
{
    let at = write_bytes(page, at, *b" code=");
    let at = write_text(page, at, code_of(fault));
    write_number(page, at, *b" byte=", byte)
}

/// Writes what the line of a broken rule of transfers says after the transfer's ID.
#[tactic(auto, unfolding(crate::specs::Words::transfer_words))]
fn write_transfer(page: &mut [u8], at: usize, rule: &TransferRule) -> usize
    requires { at + WORDS_MAX ≤ length page.old }
    ensures { PutsText page.old page.new at result WORDS_MAX (transfer_words rule.now) }
{
    match *rule {
        TransferRule::Unfinished { length } => write_number(page, at, *b" length=", length),
        TransferRule::LengthDiffers { announced, length } => {
            write_two(page, at, *b" announced=", announced, *b" length=", length)
        }
        // The name of the rule says all.
        TransferRule::LengthItem | TransferRule::LengthOfOneSegment => at,
        TransferRule::Bundle { fault, byte } | TransferRule::NotRead { fault, byte } => {
            write_fault(page, at, fault, byte)
        }
    }
}

/// Writes the label ` flags=`, and the flags of a bundle or of a block.
#[tactic(auto, unfolding(crate::specs::Words::control_field))]
fn write_control(page: &mut [u8], at: usize, flags: u64) -> usize
    requires { at + CONTROL_MAX ≤ length page.old }
    ensures { PutsText page.old page.new at result CONTROL_MAX (control_field flags) }
{
    let at = write_bytes(page, at, *b" flags=");
    write_flags(page, at, flags)
}

/// The word for the role of an endpoint ID in its bundle.
#[tactic(auto, unfolding(crate::specs::Words::endpoint_name))]
fn endpoint_name(endpoint: Endpoint) -> &'static str
    ensures text { result.now ≡ endpoint_name endpoint }
    ensures short { length result.now ≤ 15 }
{
    match endpoint {
        Endpoint::Destination => "destination",
        Endpoint::Source => "source",
        Endpoint::ReportTo => "report-to",
        Endpoint::PreviousNode(_) => "previous-node",
        Endpoint::SecuritySource(_) => "security-source",
        Endpoint::ReportSource => "report-source",
    }
}

/// Writes the number of the block that contains the endpoint ID, if a bundle can have several such
/// blocks. Otherwise it writes nothing.
#[tactic(auto, unfolding(crate::specs::Words::endpoint_block))]
fn write_endpoint_block(page: &mut [u8], at: usize, endpoint: Endpoint) -> usize
    requires { at + 27 ≤ length page.old }
    ensures { PutsText page.old page.new at result 27 (endpoint_block endpoint) }
{
    match endpoint {
        Endpoint::PreviousNode(block) | Endpoint::SecuritySource(block) => {
            write_number(page, at, *b" block=", block)
        }
        _ => at,
    }
}

/// Writes the role of an endpoint ID in its bundle, and the number of the block that contains it,
/// if a bundle can have several such blocks.
fn write_endpoint(page: &mut [u8], at: usize, endpoint: Endpoint) -> usize
    requires { at + WORDS_MAX ≤ length page.old }
    ensures { PutsText page.old page.new at result WORDS_MAX
        (codes " of=" ++ endpoint_name endpoint ++ endpoint_block endpoint) }
{
    let at = write_bytes(page, at, *b" of=");
    let at = write_text(page, at, endpoint_name(endpoint));
    write_endpoint_block(page, at, endpoint)
}

/// Writes the number of a block, and the flags of the block or of its security context.
fn write_block_flags(page: &mut [u8], at: usize, block: u64, flags: u64) -> usize
    requires { at + WORDS_MAX ≤ length page.old }
    ensures { PutsText page.old page.new at result WORDS_MAX
        (number_text (codes " block=") block ++ control_field flags) }
{
    let at = write_number(page, at, *b" block=", block);
    write_control(page, at, flags)
}

/// Writes the number of a security block, and the target that breaks the rule. If the block has no
/// targets, no target is written.
#[tactic(auto, unfolding(crate::specs::Words::target_field))]
fn write_target(page: &mut [u8], at: usize, block: u64, target: Option<u64>) -> usize
    requires { at + WORDS_MAX ≤ length page.old }
    ensures { PutsText page.old page.new at result WORDS_MAX
        (number_text (codes " block=") block ++ target_field target) }
{
    let at = write_number(page, at, *b" block=", block);
    match target {
        Some(target) => write_number(page, at, *b" target=", target),
        None => at,
    }
}

/// Writes the number of a security block, and the ID of its security context.
fn write_context(page: &mut [u8], at: usize, block: u64, context: Integer) -> usize
    requires { at + WORDS_MAX ≤ length page.old }
    ensures { PutsText page.old page.new at result WORDS_MAX
        (number_text (codes " block=") block ++ codes " context=" ++ integer_text context) }
{
    let at = write_number(page, at, *b" block=", block);
    let at = write_bytes(page, at, *b" context=");
    write_integer(page, at, context)
}

/// Writes the offset, the length and the total length of a fragment.
fn write_fragment(page: &mut [u8], at: usize, offset: u64, size: u64, total: u64) -> usize
    requires { at + WORDS_MAX ≤ length page.old }
    ensures { PutsText page.old page.new at result WORDS_MAX
        (number_text (codes " offset=") offset ++ number_text (codes " length=") size
        ++ number_text (codes " total=") total) }
{
    let at = write_two(page, at, *b" offset=", offset, *b" length=", size);
    write_number(page, at, *b" total=", total)
}

/// Writes the number of hop count blocks, and the hop limit if one was read from the first block.
#[tactic(auto, unfolding(crate::specs::Words::limit_field))]
fn write_hop_limit(page: &mut [u8], at: usize, blocks: u64, limit: Option<u64>) -> usize
    requires { at + WORDS_MAX ≤ length page.old }
    ensures { PutsText page.old page.new at result WORDS_MAX
        (number_text (codes " blocks=") blocks ++ limit_field limit) }
{
    let at = write_number(page, at, *b" blocks=", blocks);
    match limit {
        Some(limit) => write_number(page, at, *b" limit=", limit),
        None => at,
    }
}

/// Writes what the line of a broken rule of bundles says after the bundle's place.
#[tactic(auto, unfolding(crate::specs::Words::bundle_words))]
fn write_bundle(page: &mut [u8], at: usize, rule: &BundleRule) -> usize
    requires { at + WORDS_MAX ≤ length page.old }
    ensures { PutsText page.old page.new at result WORDS_MAX (bundle_words rule.now) }
{
    match *rule {
        // The name of the rule says all.
        BundleRule::PrimaryCheck { .. }
        | BundleRule::SourceNode
        | BundleRule::ReportTimes
        | BundleRule::ReportEmpty
        | BundleRule::ReportSource => at,
        BundleRule::LongHead { byte, .. } | BundleRule::Record { byte } => {
            write_number(page, at, *b" byte=", byte)
        }
        BundleRule::BundleFlags { flags }
        | BundleRule::Anonymous { flags }
        | BundleRule::RecordReports { flags } => write_control(page, at, flags),
        BundleRule::BlockReports { block }
        | BundleRule::ConfidentialPrimary { block }
        | BundleRule::PreviousNodeId { block, .. }
        | BundleRule::ConfidentialContext { block } => write_number(page, at, *b" block=", block),
        BundleRule::BlockFlags { block, flags }
        | BundleRule::SecurityFlags { block, flags }
        | BundleRule::ConfidentialFlags { block, flags } => {
            write_block_flags(page, at, block, flags)
        }
        BundleRule::DtnName { of } => write_endpoint(page, at, of),
        BundleRule::Fragment {
            offset,
            size,
            total,
            ..
        } => write_fragment(page, at, offset, size, total),
        BundleRule::WholeFragment { total } => write_number(page, at, *b" total=", total),
        BundleRule::Age { blocks, .. } | BundleRule::PreviousNode { blocks } => {
            write_number(page, at, *b" blocks=", blocks)
        }
        BundleRule::HopCount { blocks, limit } => write_hop_limit(page, at, blocks, limit),
        BundleRule::Hops { limit, count } => {
            write_two(page, at, *b" limit=", limit, *b" count=", count)
        }
        BundleRule::BlockData { block, byte } | BundleRule::DataNotRead { block, byte } => {
            write_two(page, at, *b" block=", block, *b" byte=", byte)
        }
        BundleRule::Expired { lifetime, age } => {
            write_two(page, at, *b" lifetime=", lifetime, *b" age=", age)
        }
        BundleRule::BlockType { block, block_type } => {
            write_two(page, at, *b" block=", block, *b" type=", block_type)
        }
        BundleRule::RecordType { record_type } => write_number(page, at, *b" type=", record_type),
        BundleRule::ReportReason { reason } => write_number(page, at, *b" reason=", reason),
        BundleRule::SecurityTargets { block, target, .. } => write_target(page, at, block, target),
        BundleRule::SecurityTwice { block, target }
        | BundleRule::IntegrityTarget { block, target }
        | BundleRule::ConfidentialTarget { block, target }
        | BundleRule::SharedTarget { block, target } => {
            write_two(page, at, *b" block=", block, *b" target=", target)
        }
        BundleRule::SecurityContext { block, context } => write_context(page, at, block, context),
    }
}

/// Writes what the line of a broken rule says last: what broke the rule.
#[tactic(auto, unfolding(crate::specs::Words::rule_words))]
pub(crate) fn write_words(page: &mut [u8], at: usize, rule: &BrokenRule) -> usize
    requires { at + WORDS_MAX ≤ length page.old }
    ensures { PutsText page.old page.new at result WORDS_MAX (rule_words rule.now) }
{
    match rule {
        BrokenRule::Message(rule) => write_message(page, at, rule),
        BrokenRule::Transfer(_, rule) => write_transfer(page, at, rule),
        BrokenRule::Bundle(_, rule) => write_bundle(page, at, rule),
    }
}
