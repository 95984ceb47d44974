//! Rules of the targets of security blocks (RFC 9172). They look at the first 64 targets.

ghost use Rattle.std.specs.Prelude.{◌≡◌, []};
ghost use Rattle.link_bundle_rules.specs.Targets.{first_repeated, if_bad_targets};

use crate::block::BLOCK_CONFIDENTIALITY;
use crate::history::BundleHistory;
use crate::rule::BundleRule;
use crate::rules::first_found;
use crate::security::{SecurityFacts, has_number};
use link_rules_shared::Level;

/// The first number that also comes earlier in the list, or `None` if no number is repeated.
fn first_repeated(targets: &[u64]) -> Option<u64>
    ensures { result ≡ first_repeated [] targets.now }
{
    for (at, target) in targets.iter().enumerate() {
        if has_number(*target, &targets[..at]) {
            return Some(*target);
        }
    }
    None
}

/// The rule that a security block breaks if it has no target, or names one twice. In the rule,
/// `None` stands for no target.
fn if_bad_targets(block: &SecurityFacts) -> Option<BundleRule>
    ensures { result ≡ if_bad_targets block.now }
{
    let level = Level::Must;
    if block.count == 0 {
        return Some(BundleRule::SecurityTargets {
            block: block.number,
            target: None,
            level,
        });
    }
    let target = first_repeated(block.targets.as_slice())?;
    Some(BundleRule::SecurityTargets {
        block: block.number,
        target: Some(target),
        level,
    })
}

/// What is wrong with a target of a security block, so that the target breaks a rule.
#[derive(Clone, Copy, Debug, PartialEq, Eq)]
enum TargetFault {
    /// It is no block of the bundle.
    IsMissing,
    /// It is a target of an earlier security block of the same type.
    IsTargetOfEarlierBlock,
    /// A block integrity block and a block confidentiality block share it.
    IsSharedByBothTypes,
    /// It is a security block, and a target of a block integrity block.
    IsProtectedSecurityBlock,
    /// It is a block confidentiality block, and a target of one.
    IsEncryptedConfidentialityBlock,
}

impl BundleHistory {
    ghost use Rattle.std.specs.Prelude.{◌≡◌, ◌==◌, ◌&&◌, ℕ, Option, None, if◌then◌else◌};
    ghost use Rattle.std.specs.Bool.{then_some};
    ghost use Rattle.std.specs.List.{list_any};
    ghost use Rattle.link_bundle_rules.specs.History.{bundle_of};
    ghost use Rattle.link_bundle_rules.specs.Targets.{is_confidentiality, counts, if_counted, first_counted, first_target, is_target_of, if_bad_targets, missing_target, security_targets, first_with, is_target_of_earlier_block, security_twice, is_confidential, shared_target, integrity_target, confidential_target, has_fault};

    /// Whether a security block counts. It counts if it is judged, and its data is neither
    /// malformed nor unread, and cannot be ciphertext.
    pub(crate) fn counts(&self, block: &SecurityFacts) -> bool
        ensures { result ≡ counts (bundle_of self.now None 0) block.now }
    {
        block.is_judged
            && !block.is_malformed
            && !self.is_hidden_block(block.block_type, block.number)
    }

    /// Returns `broken` if this security block counts, and `None` otherwise. `broken` is the rule
    /// that the block breaks, if any.
    pub(crate) fn broken_if_counted(
        &self,
        block: &SecurityFacts,
        broken: Option<BundleRule>,
    ) -> Option<BundleRule>
        ensures { result ≡ (if counts (bundle_of self.now None 0) block.now then broken else None) }
    {
        if self.counts(block) { broken } else { None }
    }

    /// Whether a security block is of this type, has this target, and counts.
    fn is_target_of(&self, block_type: u64, target: u64, block: &SecurityFacts) -> bool
        ensures { result ≡ is_target_of (bundle_of self.now None 0) block_type target block.now }
    {
        block.block_type == block_type && block.has_target(target) && self.counts(block)
    }

    /// The number of the first block of a type that has this target, and counts.
    fn first_with(&self, block_type: u64, target: u64) -> Option<u64>
        ensures { result ≡ first_with (bundle_of self.now None 0) block_type target }
    {
        first_found(
            self.security.as_slice(),
            |block| self
                .is_target_of(block_type, target, block)
                .then_some(block.number),
        )
    }

    /// Whether an earlier block of the same type has this target.
    fn is_target_of_earlier_block(&self, block: &SecurityFacts, target: u64) -> bool
        ensures { result ≡ is_target_of_earlier_block (bundle_of self.now None 0) block.now target }
    {
        match self.first_with(block.block_type, target) {
            Some(first) => first != block.number,
            None => false,
        }
    }

    /// Whether a block confidentiality block that counts has this target.
    fn is_confidential(&self, target: u64) -> bool
        ensures { result ≡ is_confidential (bundle_of self.now None 0) target }
    {
        let security = self.security.as_slice();
        security.iter().any(|block| self.is_target_of(BLOCK_CONFIDENTIALITY, target, block))
    }

    /// Whether some block after the primary one has this number.
    fn has_block(&self, number: u64) -> bool
        ensures { result ≡ list_any (λ block. block.number == number) self.now.blocks.items }
    {
        let blocks = self.blocks.as_slice();
        blocks.iter().any(|block| block.number == number)
    }

    /// Whether some security block has this number.
    fn is_security_block(&self, number: u64) -> bool
        ensures { result ≡ list_any (λ other. other.number == number) self.now.security.items }
    {
        let security = self.security.as_slice();
        security.iter().any(|other| other.number == number)
    }

    /// Whether some block confidentiality block has this number.
    fn is_confidentiality_block(&self, number: u64) -> bool
        ensures { result ≡ list_any (λ other. (other.number == number) && is_confidentiality other)
            self.now.security.items }
    {
        let security = self.security.as_slice();
        security.iter().any(|other| other.number == number && other.is_confidentiality())
    }

    /// Whether a target of a security block has this fault.
    fn has_fault(&self, fault: TargetFault, block: &SecurityFacts, target: u64) -> bool
        ensures { result ≡ has_fault fault (bundle_of self.now None 0) block.now target }
    {
        match fault {
            TargetFault::IsMissing => target != 0 && !self.has_block(target),
            TargetFault::IsTargetOfEarlierBlock => self.is_target_of_earlier_block(block, target),
            TargetFault::IsSharedByBothTypes => {
                block.is_integrity() && self.is_confidential(target)
            }
            TargetFault::IsProtectedSecurityBlock => {
                block.is_integrity() && self.is_security_block(target)
            }
            TargetFault::IsEncryptedConfidentialityBlock => {
                block.is_confidentiality() && self.is_confidentiality_block(target)
            }
        }
    }

    /// The number of a block, and its first target that has this fault. `None` without such a
    /// target, or if the block does not count.
    fn first_target_if_counted(
        &self,
        fault: TargetFault,
        block: &SecurityFacts,
    ) -> Option<(u64, u64)>
        ensures { result ≡ if_counted (bundle_of self.now None 0)
            (first_target (has_fault fault (bundle_of self.now None 0))) block.now }
    {
        if !self.counts(block) {
            return None;
        }
        first_found(
            block.targets.as_slice(),
            |target| self
                .has_fault(fault, block, *target)
                .then_some((block.number, *target)),
        )
    }

    /// Finds the first block that counts and has a target with this fault. The result is the number
    /// of the block, and its first such target.
    fn first_target_that(&self, fault: TargetFault) -> Option<(u64, u64)>
        ensures { result ≡ first_counted (bundle_of self.now None 0)
            (first_target (has_fault fault (bundle_of self.now None 0))) }
    {
        first_found(
            self.security.as_slice(),
            |block| self.first_target_if_counted(fault, block),
        )
    }

    /// The rule that the first security block without a target, or with a repeated one, breaks.
    fn bad_targets(&self) -> Option<BundleRule>
        ensures { result ≡ first_counted (bundle_of self.now None 0) if_bad_targets }
    {
        first_found(
            self.security.as_slice(),
            |block| self.broken_if_counted(block, if_bad_targets(block)),
        )
    }

    /// The rule `security-targets`, if a target is no block. A fragment may lack blocks, so this is
    /// not judged in a fragment.
    fn missing_target(&self) -> Option<BundleRule>
        ensures { result ≡ missing_target (bundle_of self.now None 0) }
    {
        if self.primary.fragment.is_some() {
            return None;
        }
        let (block, target) = self.first_target_that(TargetFault::IsMissing)?;
        Some(BundleRule::SecurityTargets {
            block,
            target: Some(target),
            level: Level::Should,
        })
    }

    /// A security block names a target, and names none twice. In a bundle that is no fragment, each
    /// target is a block of the bundle (section 3.6). Returns the rule `security-targets` if the
    /// targets of a security block are otherwise.
    #[tactic(auto, unfolding(crate::specs::Targets::security_targets))]
    pub(crate) fn security_targets(&self) -> Option<BundleRule>
        ensures { (long_head : Option ℕ) (payload_length : ℕ)
            → result ≡ security_targets (bundle_of self.now long_head payload_length) }
    {
        let bad = self.bad_targets();
        if bad.is_some() {
            return bad;
        }
        self.missing_target()
    }

    /// No two security blocks of one type share a target (section 3.2). Returns the rule
    /// `security-twice` if two of them do.
    #[tactic(auto, unfolding(crate::specs::Targets::security_twice))]
    pub(crate) fn security_twice(&self) -> Option<BundleRule>
        ensures { (long_head : Option ℕ) (payload_length : ℕ)
            → result ≡ security_twice (bundle_of self.now long_head payload_length) }
    {
        let (block, target) = self.first_target_that(TargetFault::IsTargetOfEarlierBlock)?;
        Some(BundleRule::SecurityTwice { block, target })
    }

    /// A block integrity block shares no target with a block confidentiality block (section 3.9).
    /// Returns the rule `shared-target` if one does.
    #[tactic(auto, unfolding(crate::specs::Targets::shared_target))]
    pub(crate) fn shared_target(&self) -> Option<BundleRule>
        ensures { (long_head : Option ℕ) (payload_length : ℕ)
            → result ≡ shared_target (bundle_of self.now long_head payload_length) }
    {
        let (block, target) = self.first_target_that(TargetFault::IsSharedByBothTypes)?;
        Some(BundleRule::SharedTarget { block, target })
    }

    /// No security block is a target of a block integrity block (section 3.7). Returns the rule
    /// `integrity-target` if one is.
    #[tactic(auto, unfolding(crate::specs::Targets::integrity_target))]
    pub(crate) fn integrity_target(&self) -> Option<BundleRule>
        ensures { (long_head : Option ℕ) (payload_length : ℕ)
            → result ≡ integrity_target (bundle_of self.now long_head payload_length) }
    {
        let (block, target) = self.first_target_that(TargetFault::IsProtectedSecurityBlock)?;
        Some(BundleRule::IntegrityTarget { block, target })
    }

    /// No block confidentiality block is a target of another or of itself (section 3.8). Returns
    /// the rule `confidential-target` if one is.
    #[tactic(auto, unfolding(crate::specs::Targets::confidential_target))]
    pub(crate) fn confidential_target(&self) -> Option<BundleRule>
        ensures { (long_head : Option ℕ) (payload_length : ℕ)
            → result ≡ confidential_target (bundle_of self.now long_head payload_length) }
    {
        let (block, target) = self.first_target_that(TargetFault::IsEncryptedConfidentialityBlock)?;
        Some(BundleRule::ConfidentialTarget { block, target })
    }
}
