//! What the rules need of a canonical block.

ghost use Rattle.std.specs.Prelude.{◌≡◌, ◌+◌, ◌^◌, ◌<◌, IfSome, option_map};
ghost use Rattle.std.specs.List.{find};
ghost use Rattle.link_bundle_data.specs.DataView.{viewed_data, viewed_result};
ghost use Rattle.link_bundle_rules.specs.BundleFacts.{read_facts, unjudged_facts, has_known_type, has_readable_type, data_facts, said_facts, fault_facts, node_facts, report_facts, long_head_at, malformed_at, is_of_type, is_extension, is_security, is_security_block};
ghost use Rattle.link_bundle_types.specs.EidView.{viewed_eid};

use crate::names::{has_bad_name, node_level};
use crate::primary::is_none_eid;
use link_bundle_blocks::CanonicalBlock;
use link_bundle_data::{DataFault, DataView, Report};
use link_bundle_types::EidView;
use link_rules_shared::Level;

/// The block type codes of the rules (RFC 9171 sections 4.3.2 and 4.4, RFC 9172 section 3).
pub(crate) const PAYLOAD: u64 = 1;

pub(crate) const PREVIOUS_NODE: u64 = 6;

pub(crate) const BUNDLE_AGE: u64 = 7;

pub(crate) const HOP_COUNT: u64 = 10;

pub(crate) const BLOCK_INTEGRITY: u64 = 11;

pub(crate) const BLOCK_CONFIDENTIALITY: u64 = 12;

/// A canonical block, with what its data says.
#[derive(Clone, Copy, Debug)]
pub struct ReadBlockView<'a> {
    pub block: &'a CanonicalBlock,
    /// What the data says, or why it is malformed.
    ///
    /// It is `None` if data of this type is not read. The payload is read if it is an
    /// administrative record and the bundle is no fragment.
    pub found: Option<Result<DataView<'a>, DataFault>>,
    /// The offset in the data of the first head that is longer than its number needs. Heads that
    /// are not read do not count.
    pub long_head: Option<u64>,
}

/// What the rules need of the node of a previous node block.
#[derive(Clone, Copy, Debug, PartialEq, Eq)]
pub(crate) struct NodeFacts {
    /// Whether it is a text of scheme dtn, and no dtn name.
    pub(crate) has_bad_name: bool,
    /// How strictly it is forbidden as a node ID.
    pub(crate) level: Option<Level>,
}

impl NodeFacts {
    /// What the rules need of this node.
    fn of(node: &EidView<'_>) -> NodeFacts
        ensures { result ≡ node_facts (viewed_eid node.now) }
    {
        NodeFacts {
            has_bad_name: has_bad_name(node),
            level: node_level(node),
        }
    }
}

/// What the rules need of a status report.
#[derive(Clone, Copy, Debug, PartialEq, Eq)]
pub(crate) struct ReportFacts {
    /// Whether some status that is asserted has a time.
    pub(crate) timed: bool,
    /// Whether some status that is asserted has no time.
    pub(crate) untimed: bool,
    pub(crate) reason: u64,
    /// Whether the bundle that it is about has no source.
    pub(crate) has_no_source: bool,
    /// Whether the source of that bundle is a text of scheme dtn, and no dtn name.
    pub(crate) has_bad_source: bool,
}

impl ReportFacts {
    /// What the rules need of this status report. It is about a bundle with this source.
    fn of(report: &Report, source: &EidView<'_>) -> ReportFacts
        ensures { result ≡ report_facts report.now (viewed_eid source.now) }
    {
        ReportFacts {
            timed: report.timed,
            untimed: report.untimed,
            reason: report.reason,
            has_no_source: is_none_eid(source),
            has_bad_source: has_bad_name(source),
        }
    }
}

/// What the rules need of the data of a block. Each offset is one in the bundle.
#[derive(Clone, Copy, Debug, Default, PartialEq, Eq)]
pub(crate) enum DataFacts {
    /// No rule needs anything of it.
    #[default]
    Nothing,
    /// The node that forwarded the bundle (RFC 9171 section 4.4.1).
    PreviousNode(NodeFacts),
    /// The age in milliseconds (RFC 9171 section 4.4.2).
    BundleAge(u64),
    /// A hop limit and a hop count (RFC 9171 section 4.4.3).
    HopCount(u64, u64),
    /// Whether the security source is a text of scheme dtn, and no dtn name (RFC 9172 section 3.6).
    Security(bool),
    StatusReport(ReportFacts),
    /// An administrative record of another type, by its type code (RFC 9171 section 6.1).
    OtherRecord(u64),
    /// The data is malformed at this offset.
    Malformed(u64),
    /// At this offset, an item exceeds a limit of this toolkit.
    NotRead(u64),
}

/// What the rules need of a canonical block.
#[derive(Clone, Copy, Debug, Default, PartialEq, Eq)]
pub(crate) struct BlockFacts {
    pub(crate) number: u64,
    pub(crate) block_type: u64,
    /// The block processing control flags (RFC 9171 section 4.2.4).
    pub(crate) flags: u64,
    pub(crate) data: DataFacts,
    /// The offset in the bundle of the first head in the data that is longer than its number needs.
    pub(crate) long_head: Option<u64>,
}

/// What the rules need of a fault in the data of a block. The data is malformed, or it exceeds a
/// limit of this toolkit. The data begins at offset `data_start` of the bundle.
fn fault_facts(data_start: u64, fault: DataFault) -> DataFacts
    ensures { data_start + fault.offset < 2 ^ 64 → result ≡ fault_facts data_start fault }
{
    let byte = data_start.saturating_add(fault.offset);
    if fault.is_limit {
        DataFacts::NotRead(byte)
    } else {
        DataFacts::Malformed(byte)
    }
}

/// What the rules need of well-formed data.
#[inline(always)]
fn said_facts(view: &DataView<'_>) -> DataFacts
    ensures { result ≡ said_facts (viewed_data view.now) }
{
    match view {
        DataView::PreviousNode(node) => DataFacts::PreviousNode(NodeFacts::of(node)),
        DataView::BundleAge(age) => DataFacts::BundleAge(*age),
        DataView::HopCount(limit, count) => DataFacts::HopCount(*limit, *count),
        DataView::Security(_, _, source) => DataFacts::Security(has_bad_name(source)),
        DataView::StatusReport(report, source) => {
            DataFacts::StatusReport(ReportFacts::of(report, source))
        }
        DataView::OtherRecord(kind) => DataFacts::OtherRecord(*kind),
    }
}

/// What the rules need of the data of a block. It is `Nothing` for data of a type that is not read.
///
/// The premise of the contract is about data with a fault: this fault lies at an offset of the
/// bundle that is below 2^64.
#[inline(always)]
fn data_facts(read: &ReadBlockView<'_>) -> DataFacts
    ensures { IfSome (malformed_at read.now.block.now (option_map viewed_result read.now.found))
        (λ byte. byte < 2 ^ 64)
        → result ≡ data_facts read.now.block.now.data_start (option_map viewed_result read.now.found) }
{
    match &read.found {
        Some(Ok(view)) => said_facts(view),
        Some(Err(fault)) => fault_facts(read.block.data_start, *fault),
        None => DataFacts::Nothing,
    }
}

/// The offset in the bundle of the first long head in the data of a block. The premise of the
/// contract is that this offset is below 2^64.
#[inline(always)]
fn long_head_at(read: &ReadBlockView<'_>) -> Option<u64>
    ensures { IfSome (long_head_at read.now.block.now read.now.long_head) (λ byte. byte < 2 ^ 64)
        → result ≡ long_head_at read.now.block.now read.now.long_head }
{
    let offset = read.long_head?;
    Some(read.block.data_start.saturating_add(offset))
}

impl BlockFacts {
    /// What the rules need of a block, whose offsets in the bundle are below 2^64.
    #[inline(always)]
    pub(crate) fn of(read: &ReadBlockView<'_>) -> BlockFacts
        ensures { IfSome (malformed_at read.now.block.now (option_map viewed_result read.now.found))
            (λ byte. byte < 2 ^ 64)
            → IfSome (long_head_at read.now.block.now read.now.long_head) (λ byte. byte < 2 ^ 64)
            → result ≡ read_facts read.now.block.now (option_map viewed_result read.now.found)
            read.now.long_head }
    {
        BlockFacts {
            number: read.block.number,
            block_type: read.block.block_type,
            flags: read.block.flags,
            data: data_facts(read),
            long_head: long_head_at(read),
        }
    }

    /// What the rules need of a block whose data is not judged.
    pub(crate) fn unjudged(block: &CanonicalBlock) -> BlockFacts
        ensures { result ≡ unjudged_facts block.now }
    {
        BlockFacts {
            number: block.number,
            block_type: block.block_type,
            flags: block.flags,
            data: DataFacts::Nothing,
            long_head: None,
        }
    }
}

/// Whether a block is of this type.
pub(crate) fn is_of_type(block_type: u64, block: &BlockFacts) -> bool
    ensures { result ≡ is_of_type block_type block.now }
{
    block.block_type == block_type
}

/// Whether a block is a previous node, bundle age or hop count block.
pub(crate) fn is_extension(block: &BlockFacts) -> bool
    ensures { result ≡ is_extension block.now }
{
    is_of_type(PREVIOUS_NODE, block)
        || is_of_type(BUNDLE_AGE, block)
        || is_of_type(HOP_COUNT, block)
}

/// Whether a block of this type is a security block.
pub(crate) fn is_security(block_type: u64) -> bool
    ensures { result ≡ is_security block_type }
{
    block_type == BLOCK_INTEGRITY || block_type == BLOCK_CONFIDENTIALITY
}

pub(crate) fn is_security_block(block: &BlockFacts) -> bool
    ensures { result ≡ is_security_block block.now }
{
    is_security(block.block_type)
}

/// Whether this toolkit reads the data of each block with this type: an extension block or a
/// security block. Of payloads, it reads only whole administrative records.
pub(crate) fn has_readable_type(block: &BlockFacts) -> bool
    ensures { result ≡ has_readable_type block.now }
{
    is_extension(block) || is_security_block(block)
}

/// Whether the type of a block is known: it is the payload, or its data is read.
pub(crate) fn has_known_type(block: &BlockFacts) -> bool
    ensures { result ≡ has_known_type block.now }
{
    is_of_type(PAYLOAD, block) || has_readable_type(block)
}

/// The first block of a type, if there is one.
pub(crate) fn first_of_type(block_type: u64, blocks: &[BlockFacts]) -> Option<&BlockFacts>
    ensures { option_map (λ block. block.now) result ≡ find (is_of_type block_type) blocks.now }
{
    blocks.iter().find(|block| is_of_type(block_type, block))
}

/// The numbers of blocks of the types that may occur once.
#[derive(Clone, Copy, Debug, PartialEq, Eq)]
pub(crate) struct Counts {
    pub(crate) previous_nodes: u64,
    pub(crate) ages: u64,
    pub(crate) hop_counts: u64,
}

impl Counts {
    ghost use Rattle.std.specs.Prelude.{◌≡◌};
    ghost use Rattle.link_bundle_rules.specs.Kept.{counts_of};

    /// Counts the previous node, bundle age and hop count blocks.
    pub(crate) fn of(blocks: &[BlockFacts]) -> Counts
        ensures { result ≡ counts_of blocks.now }
    {
        let mut counts = Counts {
            previous_nodes: 0,
            ages: 0,
            hop_counts: 0,
        };
        for block in blocks {
            match block.block_type {
                PREVIOUS_NODE => counts.previous_nodes += 1,
                BUNDLE_AGE => counts.ages += 1,
                HOP_COUNT => counts.hop_counts += 1,
                _ => {}
            }
        }
        counts
    }
}
