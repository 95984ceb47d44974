//! What the rules need of a security block, and the rules of single security blocks (RFC 9171
//! section 4.3.1, RFC 9172).

ghost use Rattle.std.specs.Prelude.{◌≡◌, ◌==◌, option_map, take, None};
ghost use Rattle.std.specs.List.{list_any};
ghost use Rattle.link_bundle_data.specs.DataView.{viewed_result};
ghost use Rattle.link_bundle_rules.specs.Hidden.{has_known_targets, may_hide};
ghost use Rattle.link_bundle_rules.specs.History.{bundle_of};
ghost use Rattle.link_bundle_rules.specs.BundleFacts.{is_judged_security, security_facts};
ghost use Rattle.link_bundle_rules.specs.Security.{may_protect_primary, if_confidential_primary, if_other_context_flags, if_reserved_context, may_be_lost, if_may_be_lost, if_no_cipher};
ghost use Rattle.link_bundle_rules.specs.Targets.{has_target, is_integrity, is_confidentiality};

use crate::block::{BLOCK_CONFIDENTIALITY, BLOCK_INTEGRITY, ReadBlockView};
use crate::flags::is_set;
use crate::hidden::PAYLOAD_NUMBER;
use crate::history::BundleHistory;
use crate::rule::BundleRule;
use arrayvec::ArrayVec;
use link_bundle_blocks::CanonicalBlock;
use link_bundle_data::{DataView, Integer, TARGETS_KEPT};
use link_rules_shared::{has_other_flags, is_node_of};

/// The flags of a security context that are defined (RFC 9172 section 3.6).
const CONTEXT_FLAGS: u64 = 0x01;

/// The flag that asks for a copy of the block in every fragment (RFC 9171 section 4.2.4).
const COPIED: u64 = 0x01;

/// The flag that discards the block if it cannot be processed (RFC 9171 section 4.2.4).
const DISCARDED: u64 = 0x10;

/// The security context BIB-HMAC-SHA2 (RFC 9173 section 5.1).
const HMAC_SHA2: u64 = 1;

/// What the rules need of a security block (RFC 9172 section 3.6).
#[derive(Default, Drop)]
pub(crate) struct SecurityFacts {
    pub(crate) number: u64,
    pub(crate) block_type: u64,
    /// The block processing control flags (RFC 9171 section 4.2.4).
    flags: u64,
    /// Whether its data is malformed or not read. Then what it says is not known.
    pub(crate) is_malformed: bool,
    /// Whether it is judged: `check --own` judges only security blocks of one node.
    pub(crate) is_judged: bool,
    /// Whether the primary block is among its targets.
    targets_primary: bool,
    /// The number of its targets.
    pub(crate) count: u64,
    /// The first of its targets.
    pub(crate) targets: ArrayVec<u64, TARGETS_KEPT>,
    /// The ID of its security context.
    context: Integer,
    /// The flags of its security context.
    context_flags: u64,
}

/// Whether a number is among these.
pub(crate) fn has_number(number: u64, numbers: &[u64]) -> bool
    ensures { result ≡ list_any (λ other. other == number) numbers.now }
{
    numbers.iter().any(|&other| other == number)
}

/// The first 64 of these targets.
fn kept_targets(targets: &[u64]) -> ArrayVec<u64, TARGETS_KEPT>
    ensures { result.items ≡ take 64 targets.now }
{
    let mut kept = ArrayVec::new();
    let count = targets.len().min(TARGETS_KEPT);
    let _ = kept.try_extend_from_slice(&targets[..count]);
    kept
}

/// Whether a security block is judged: `own` is empty, or the block's source is known and is of the
/// node `own`.
pub(crate) fn is_judged_security(own: &[u8], read: &ReadBlockView<'_>) -> bool
    ensures { result ≡ is_judged_security own.now (option_map viewed_result read.now.found) }
{
    match (own, &read.found) {
        ([], _) => true,
        (_, Some(Ok(DataView::Security(_, _, source)))) => is_node_of(own, source),
        _ => false,
    }
}

impl SecurityFacts {
    /// What the rules need of a security block. If its data is malformed or not read, what it says
    /// is not known.
    pub(crate) fn of(is_judged: bool, read: &ReadBlockView<'_>) -> SecurityFacts
        ensures { result ≡ security_facts is_judged read.now.block.now
            (option_map viewed_result read.now.found) }
    {
        let CanonicalBlock {
            number,
            block_type,
            flags,
            ..
        } = *read.block;
        match &read.found {
            Some(Ok(DataView::Security(block, targets, _))) => SecurityFacts {
                number,
                block_type,
                flags,
                is_malformed: false,
                is_judged,
                targets_primary: block.targets_primary,
                count: block.targets,
                targets: kept_targets(targets),
                context: block.context,
                context_flags: block.flags,
            },
            _ => SecurityFacts {
                number,
                block_type,
                flags,
                is_malformed: true,
                is_judged,
                targets_primary: false,
                count: 0,
                targets: ArrayVec::new(),
                context: Integer {
                    negative: false,
                    argument: 0,
                },
                context_flags: 0,
            },
        }
    }

    /// Whether the targets of this security block are all known: only the first 64 are kept.
    fn has_known_targets(&self) -> bool
        ensures { result ≡ has_known_targets self.now }
    {
        !self.is_malformed && self.count <= TARGETS_KEPT as u64
    }

    /// Whether the block with this number is among the first 64 targets.
    pub(crate) fn has_target(&self, number: u64) -> bool
        ensures { result ≡ has_target number self.now }
    {
        has_number(number, self.targets.as_slice())
    }

    pub(crate) fn is_integrity(&self) -> bool
        ensures { result ≡ is_integrity self.now }
    {
        self.block_type == BLOCK_INTEGRITY
    }

    pub(crate) fn is_confidentiality(&self) -> bool
        ensures { result ≡ is_confidentiality self.now }
    {
        self.block_type == BLOCK_CONFIDENTIALITY
    }

    /// Whether this security block encrypts, or may encrypt, the block with this number.
    pub(crate) fn may_hide(&self, number: u64) -> bool
        ensures { result ≡ may_hide number self.now }
    {
        self.block_type == BLOCK_CONFIDENTIALITY
            && (!self.has_known_targets() || self.has_target(number))
    }

    /// Whether this is a block integrity block that has the primary block as a target, or that
    /// might have it, because its targets are not known.
    pub(crate) fn may_protect_primary(&self, history: &BundleHistory) -> bool
        ensures { result ≡ may_protect_primary (bundle_of history.now None 0) self.now }
    {
        let may_target = self.targets_primary
            || self.is_malformed
            || history.is_hidden(self.number);
        self.block_type == BLOCK_INTEGRITY && may_target
    }

    /// The rule that a block confidentiality block breaks by having the primary block as a target.
    pub(crate) fn if_confidential_primary(&self) -> Option<BundleRule>
        ensures { result ≡ if_confidential_primary self.now }
    {
        let is_wrong = self.block_type == BLOCK_CONFIDENTIALITY
            && self.targets_primary
            && self.is_judged;
        is_wrong.then_some(BundleRule::ConfidentialPrimary { block: self.number })
    }

    /// The rule that this block breaks by a flag of its context that is not defined.
    pub(crate) fn if_other_context_flags(&self) -> Option<BundleRule>
        ensures { result ≡ if_other_context_flags self.now }
    {
        let flags = self.context_flags;
        has_other_flags(CONTEXT_FLAGS, flags).then_some(BundleRule::SecurityFlags {
            block: self.number,
            flags,
        })
    }

    /// The rule that this block breaks by a context whose ID is reserved: 0 or negative.
    pub(crate) fn if_reserved_context(&self) -> Option<BundleRule>
        ensures { result ≡ if_reserved_context self.now }
    {
        let context = self.context;
        let is_reserved = context.negative || context.argument == 0;
        is_reserved.then_some(BundleRule::SecurityContext {
            block: self.number,
            context,
        })
    }

    /// Whether the flags permit the loss of this block. A node may discard it, or may leave it out
    /// of a fragment although the payload is one of its targets.
    fn may_be_lost(&self) -> bool
        ensures { result ≡ may_be_lost self.now }
    {
        is_set(DISCARDED, self.flags)
            || (self.has_target(PAYLOAD_NUMBER) && !is_set(COPIED, self.flags))
    }

    /// The rule that a block confidentiality block breaks if its flags permit its loss.
    pub(crate) fn if_may_be_lost(&self) -> Option<BundleRule>
        ensures { result ≡ if_may_be_lost self.now }
    {
        let is_wrong = self.is_confidentiality() && self.may_be_lost();
        is_wrong.then_some(BundleRule::ConfidentialFlags {
            block: self.number,
            flags: self.flags,
        })
    }

    /// The rule that a block confidentiality block breaks by the context BIB-HMAC-SHA2, which has
    /// no cipher.
    pub(crate) fn if_no_cipher(&self) -> Option<BundleRule>
        ensures { result ≡ if_no_cipher self.now }
    {
        let is_hmac = !self.context.negative && self.context.argument == HMAC_SHA2;
        (self.is_confidentiality() && is_hmac).then_some(BundleRule::ConfidentialContext {
            block: self.number,
        })
    }
}
