//! The rules that can be broken, with what a line says of each.

use link_bundle_data::Integer;
use link_rules_shared::{Doubt, Level, NAME_MAX};

/// An endpoint ID of a bundle.
#[derive(Clone, Copy, Debug, PartialEq, Eq)]
pub enum Endpoint {
    Destination,
    Source,
    ReportTo,
    /// The node of the previous node block with this number (RFC 9171 section 4.4.1).
    PreviousNode(u64),
    /// The source of the security block with this number (RFC 9172 section 3.6).
    SecuritySource(u64),
    /// The source of the bundle that a status report is about (RFC 9171 section 6.1.1).
    ReportSource,
}

impl Endpoint {
    ghost use Rattle.std.specs.Prelude.{◌≡◌};
    ghost use Rattle.link_bundle_rules.specs.BundleRules.{is_in_data};

    /// Whether it lies in the data of a block.
    fn is_in_data(&self) -> bool
        ensures { result ≡ is_in_data self.now }
    {
        match self {
            Endpoint::Destination | Endpoint::Source | Endpoint::ReportTo => false,
            Endpoint::PreviousNode(_) | Endpoint::SecuritySource(_) | Endpoint::ReportSource => {
                true
            }
        }
    }
}

/// A rule that a bundle breaks (RFC 9171, where no other RFC is named).
///
/// A `byte` is an offset in the bundle, and a `block` is the number of a block.
#[derive(Clone, Copy, Debug, PartialEq, Eq)]
pub enum BundleRule {
    /// A head is longer than its number needs (section 4.1), also in the data of security blocks
    /// (RFC 9172 section 3.6), and of previous node, bundle age and hop count blocks (should).
    LongHead {
        byte: u64,
        level: Level,
    },
    /// The bundle has a flag that is not defined (section 4.2.3).
    BundleFlags {
        flags: u64,
    },
    /// Neither a check nor a block integrity block protects the primary block (section 4.3.1).
    PrimaryCheck {
        level: Level,
    },
    /// A bundle without a source may be fragmented, or requests status reports (section 4.2.3).
    Anonymous {
        flags: u64,
    },
    /// An administrative record requests status reports (section 4.2.3).
    RecordReports {
        flags: u64,
    },
    /// A block of an administrative record, or of a bundle without a source, requests a status
    /// report (section 4.2.4).
    BlockReports {
        block: u64,
    },
    /// A block has a flag that is not defined (section 4.2.4).
    BlockFlags {
        block: u64,
        flags: u64,
    },
    /// An endpoint ID of scheme dtn is no dtn name (section 4.2.5.1.1).
    DtnName {
        of: Endpoint,
    },
    /// A fragment must not be one, or its payload is empty or ends after the total length (sections
    /// 3.1, 4.3.1 and 5.8).
    Fragment {
        offset: u64,
        size: u64,
        total: u64,
        level: Level,
    },
    /// The payload of a fragment has the total length (sections 5.8 and 5.9).
    WholeFragment {
        total: u64,
    },
    /// The bundle has no bundle age block, and needs one, or it has two or more (section 4.4.2).
    Age {
        blocks: u64,
        level: Level,
    },
    /// The bundle has two or more previous node blocks (section 4.4.1).
    PreviousNode {
        blocks: u64,
    },
    /// The bundle has two or more hop count blocks, or a hop limit that is not from 1 to 255
    /// (section 4.4.3).
    HopCount {
        blocks: u64,
        limit: Option<u64>,
    },
    /// A block confidentiality block has the primary block as a target (RFC 9172 section 3.8).
    ConfidentialPrimary {
        block: u64,
    },
    /// The hop count is greater than the hop limit (section 4.4.3).
    Hops {
        limit: u64,
        count: u64,
    },
    /// The data of a previous node, bundle age, hop count or security block is malformed (sections
    /// 4.4.1, 4.4.2 and 4.4.3, RFC 9172 section 3.6).
    BlockData {
        block: u64,
        byte: u64,
    },
    /// The data of an extension or security block, or an administrative record, exceeds a limit of
    /// this toolkit, and RFC 9171 may permit it (section 4.1).
    DataNotRead {
        block: u64,
        byte: u64,
    },
    /// An administrative record is malformed (sections 6.1 and 6.1.1).
    Record {
        byte: u64,
    },
    /// The source is no singleton (section 5.2).
    SourceNode,
    /// The node of the first previous node block has no node ID (sections 4.4.1 and 4.2.5.2).
    PreviousNodeId {
        block: u64,
        level: Level,
    },
    /// The age of the first bundle age block exceeds the lifetime (sections 4.3.1 and 5.5).
    Expired {
        lifetime: u64,
        age: u64,
    },
    /// A block has a type that is reserved (sections 4.3.2 and 9.1).
    BlockType {
        block: u64,
        block_type: u64,
    },
    /// The type of an administrative record is reserved (section 6.1).
    RecordType {
        record_type: u64,
    },
    /// Some statuses of a status report have a time, and others have none (section 6.1.1).
    ReportTimes,
    /// A status report asserts nothing (sections 5.1 and 6.1.1).
    ReportEmpty,
    /// The reason of a status report is reserved (sections 6.1.1 and 9.5).
    ReportReason {
        reason: u64,
    },
    /// A status report is about a bundle without a source (sections 4.2.3 and 6.1.1).
    ReportSource,
    /// A security block has no target, or one twice (must), or one that is no block of the bundle
    /// (should; RFC 9172 section 3.6).
    SecurityTargets {
        block: u64,
        target: Option<u64>,
        level: Level,
    },
    /// Two security blocks of one type have a target in common (RFC 9172 section 3.2).
    SecurityTwice {
        block: u64,
        target: u64,
    },
    /// A security context has a flag that is not defined (RFC 9172 section 3.6).
    SecurityFlags {
        block: u64,
        flags: u64,
    },
    /// The ID of a security context is reserved (RFC 9172 sections 3.6 and 11.3).
    SecurityContext {
        block: u64,
        context: Integer,
    },
    /// A security block is a target of a block integrity block (RFC 9172 section 3.7).
    IntegrityTarget {
        block: u64,
        target: u64,
    },
    /// A block confidentiality block is a target of one (RFC 9172 section 3.8).
    ConfidentialTarget {
        block: u64,
        target: u64,
    },
    /// A block confidentiality block may be discarded, or has the payload as a target and is not
    /// copied into every fragment (RFC 9172 section 3.8).
    ConfidentialFlags {
        block: u64,
        flags: u64,
    },
    /// The context of a block confidentiality block has no cipher (RFC 9172 section 3.8, RFC 9173
    /// sections 3.1 and 5.1).
    ConfidentialContext {
        block: u64,
    },
    /// A block integrity block has a target in common with a block confidentiality block (RFC 9172
    /// section 3.9).
    SharedTarget {
        block: u64,
        target: u64,
    },
}

impl BundleRule {
    ghost use Rattle.std.specs.Prelude.{◌≡◌, ◌≤◌, length};
    ghost use Rattle.link_bundle_rules.specs.BundleRules.{bundle_level_of, bundle_name_of, is_in_data, rests_on_data, sure_level_of};

    /// The name of the rule.
    #[tactic(auto, unfolding(crate::specs::BundleRules::bundle_name_of))]
    pub fn name(&self) -> &'static str
        ensures name { result.now ≡ bundle_name_of self.now }
        ensures short { length result.now ≤ NAME_MAX }
    {
        match self {
            BundleRule::LongHead { .. } => "long-head",
            BundleRule::BundleFlags { .. } => "bundle-flags",
            BundleRule::PrimaryCheck { .. } => "primary-check",
            BundleRule::Anonymous { .. } => "anonymous",
            BundleRule::RecordReports { .. } => "record-reports",
            BundleRule::BlockReports { .. } => "block-reports",
            BundleRule::BlockFlags { .. } => "block-flags",
            BundleRule::DtnName { .. } => "dtn-name",
            BundleRule::Fragment { .. } => "fragment",
            BundleRule::WholeFragment { .. } => "whole-fragment",
            BundleRule::Age { .. } => "age",
            BundleRule::PreviousNode { .. } => "previous-node",
            BundleRule::HopCount { .. } => "hop-count",
            BundleRule::ConfidentialPrimary { .. } => "confidential-primary",
            BundleRule::Hops { .. } => "hops",
            BundleRule::BlockData { .. } => "block-data",
            BundleRule::DataNotRead { .. } => "data-not-read",
            BundleRule::Record { .. } => "record",
            BundleRule::SourceNode => "source-node",
            BundleRule::PreviousNodeId { .. } => "previous-node-id",
            BundleRule::Expired { .. } => "expired",
            BundleRule::BlockType { .. } => "block-type",
            BundleRule::RecordType { .. } => "record-type",
            BundleRule::ReportTimes => "report-times",
            BundleRule::ReportEmpty => "report-empty",
            BundleRule::ReportReason { .. } => "report-reason",
            BundleRule::ReportSource => "report-source",
            BundleRule::SecurityTargets { .. } => "security-targets",
            BundleRule::SecurityTwice { .. } => "security-twice",
            BundleRule::SecurityFlags { .. } => "security-flags",
            BundleRule::SecurityContext { .. } => "security-context",
            BundleRule::IntegrityTarget { .. } => "integrity-target",
            BundleRule::ConfidentialTarget { .. } => "confidential-target",
            BundleRule::ConfidentialFlags { .. } => "confidential-flags",
            BundleRule::ConfidentialContext { .. } => "confidential-context",
            BundleRule::SharedTarget { .. } => "shared-target",
        }
    }

    /// How strictly the rule is meant, if an unknown part may have changed this much of the bundle.
    #[tactic(auto, unfolding(crate::specs::BundleRules::bundle_level_of))]
    pub fn level(&self, doubt: Doubt) -> Level
        ensures { result ≡ bundle_level_of doubt self.now }
    {
        match doubt {
            Doubt::Nothing => self.sure_level(),
            Doubt::BlockData if !self.rests_on_data() => self.sure_level(),
            Doubt::BlockData | Doubt::WholeBundle => Level::Should,
        }
    }

    /// Whether the rule is broken by the data of a block, and its level does not say so already.
    fn rests_on_data(&self) -> bool
        ensures { result ≡ rests_on_data self.now }
    {
        match self {
            BundleRule::DtnName { of } => of.is_in_data(),
            // Two blocks break the rule, whatever their data.
            BundleRule::HopCount { blocks, .. } => *blocks <= 1,
            BundleRule::ConfidentialPrimary { .. }
            | BundleRule::BlockData { .. }
            | BundleRule::Record { .. }
            | BundleRule::PreviousNodeId { .. }
            | BundleRule::ReportTimes
            | BundleRule::SecurityTargets { .. }
            | BundleRule::SecurityTwice { .. }
            | BundleRule::SecurityFlags { .. }
            | BundleRule::IntegrityTarget { .. }
            | BundleRule::ConfidentialTarget { .. }
            | BundleRule::ConfidentialFlags { .. }
            | BundleRule::ConfidentialContext { .. } => true,
            _ => false,
        }
    }

    /// How strictly the rule is meant if nothing is in doubt.
    #[tactic(auto, unfolding(crate::specs::BundleRules::sure_level_of))]
    fn sure_level(&self) -> Level
        ensures { result ≡ sure_level_of self.now }
    {
        match self {
            BundleRule::LongHead { level, .. }
            | BundleRule::PrimaryCheck { level }
            | BundleRule::Fragment { level, .. }
            | BundleRule::Age { level, .. }
            | BundleRule::PreviousNodeId { level, .. }
            | BundleRule::SecurityTargets { level, .. } => *level,
            BundleRule::BundleFlags { .. }
            | BundleRule::BlockFlags { .. }
            | BundleRule::WholeFragment { .. }
            | BundleRule::Hops { .. }
            | BundleRule::DataNotRead { .. }
            | BundleRule::Expired { .. }
            | BundleRule::BlockType { .. }
            | BundleRule::RecordType { .. }
            | BundleRule::ReportEmpty
            | BundleRule::ReportReason { .. }
            | BundleRule::ReportSource
            | BundleRule::SecurityContext { .. }
            | BundleRule::SharedTarget { .. } => Level::Should,
            _ => Level::Must,
        }
    }
}

/// Any rule, for the places of a list that are not used.
impl Default for BundleRule {
    // Not inlined: the compiler would fill the 36 places of a list one by one, in 1,700
    // instructions.
    #[inline(never)]
    fn default() -> BundleRule {
        BundleRule::PreviousNode { blocks: 0 }
    }
}
