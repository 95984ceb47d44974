//! The rules that a good bundle breaks, by what a history keeps of it.

ghost use Rattle.std.specs.Prelude.{◌≡◌, Option};
ghost use Rattle.std.specs.Fn.{FnReturnsAt};
ghost use Rattle.link_bundle_rules.specs.BundleFacts.{find_map};

use crate::block::Counts;
use crate::flags::{
    BUNDLE_FLAGS, NO_FRAGMENTS, RECORD, if_other_block_flags, if_reporting, is_set,
    requests_reports,
};
use crate::history::BundleHistory;
use crate::rule::BundleRule;
use crate::source::KnownSource;
use arrayvec::ArrayVec;
use link_rules_shared::{broken_of, has_other_flags};

/// The number of rules of a bundle.
const RULES: usize = 36;

/// The rules that a bundle breaks, in order.
pub type BrokenBundleRules = ArrayVec<BundleRule, RULES>;

/// The first `Some` that `find` returns for the elements, in order. In the contract, `found` is a
/// definition of what `find` returns.
pub(crate) fn first_found<T, U, F: Fn(&T) -> Option<U>>(elements: &[T], find: F) -> Option<U>
    requires { F.IsAlwaysCallable find }
    ensures { (found : T → Option U)
        → ((element : T) (answer : Option U) → FnReturnsAt F.Fn find element answer
        → answer ≡ found element)
        → result ≡ find_map found elements.now }
{
    for element in elements {
        if let Some(found) = find(element) {
            return Some(found);
        }
    }
    None
}

impl BundleHistory {
    ghost use Rattle.std.specs.Prelude.{◌≡◌, ℕ, Option};
    ghost use Rattle.std.specs.List.{list_all};
    ghost use Rattle.link_bundle_rules.specs.BundleRules.{broken_bundle_rules};
    ghost use Rattle.link_bundle_rules.specs.Flags.{bundle_flags, anonymous, record_reports, block_reports, block_flags};
    ghost use Rattle.link_bundle_rules.specs.History.{bundle_of};
    ghost use Rattle.link_bundle_rules.specs.Kept.{is_plain_block};

    /// The rules that the bundle breaks, in order, if it is good and all its blocks came.
    ///
    /// `first_long_head` is the offset of the first head that is longer than its number needs,
    /// outside the data of blocks, and `payload_length` the number of bytes of the payload. If the
    /// source is [`KnownSource::Other`], the rules that bind it are not judged.
    #[tactic(auto, unfolding(crate::specs::BundleRules::broken_bundle_rules))]
    pub fn rules(
        &self,
        first_long_head: Option<u64>,
        payload_length: u64,
        source: KnownSource,
    ) -> BrokenBundleRules
        ensures { result.items ≡ broken_bundle_rules source
            (bundle_of self.now first_long_head payload_length) }
    {
        let plain = self.has_plain_blocks();
        let counts = Counts::of(self.blocks.as_slice());
        broken_of(&[
            self.long_head(source.if_judged(first_long_head)),
            source.if_judged(self.bundle_flags()),
            source.if_judged(self.primary_check(source)),
            source.if_judged(self.anonymous()),
            source.if_judged(self.record_reports()),
            source.if_judged(self.block_reports(plain)),
            source.if_judged(self.block_flags(plain)),
            self.dtn_name(source),
            source.if_judged(self.fragment(payload_length)),
            source.if_judged(self.whole_fragment(payload_length)),
            source.if_judged(self.age(counts)),
            self.previous_node(counts),
            source.if_judged(self.hop_count(plain, counts)),
            self.confidential_primary(),
            self.hops(plain),
            self.block_data(plain),
            self.data_not_read(source, plain),
            source.if_judged(self.administrative_record()),
            source.if_judged(self.source_node()),
            self.previous_node_id(),
            self.expired(),
            source.if_judged(self.block_type()),
            source.if_judged(self.record_type()),
            source.if_judged(self.report_times()),
            source.if_judged(self.report_empty()),
            source.if_judged(self.report_reason()),
            source.if_judged(self.report_source()),
            self.security_targets(),
            self.security_twice(),
            self.security_flags(),
            self.security_context(),
            self.integrity_target(),
            self.confidential_target(),
            self.confidential_flags(),
            self.confidential_context(),
            self.shared_target(),
        ])
    }

    /// The rule `bundle-flags`, if the flags of the bundle break it.
    #[tactic(auto, unfolding(crate::specs::Flags::bundle_flags))]
    fn bundle_flags(&self) -> Option<BundleRule>
        ensures { (long_head : Option ℕ) (payload_length : ℕ)
            → result ≡ bundle_flags (bundle_of self.now long_head payload_length) }
    {
        let flags = self.primary.flags;
        has_other_flags(BUNDLE_FLAGS, flags).then_some(BundleRule::BundleFlags { flags })
    }

    /// The rule `anonymous` of bundles without a source, if it is broken.
    #[tactic(auto, unfolding(crate::specs::Flags::anonymous))]
    fn anonymous(&self) -> Option<BundleRule>
        ensures { (long_head : Option ℕ) (payload_length : ℕ)
            → result ≡ anonymous (bundle_of self.now long_head payload_length) }
    {
        let flags = self.primary.flags;
        let is_wrong = !is_set(NO_FRAGMENTS, flags) || requests_reports(flags);
        (self.primary.is_anonymous && is_wrong).then_some(BundleRule::Anonymous { flags })
    }

    /// The rule `record-reports`, if an administrative record breaks it.
    #[tactic(auto, unfolding(crate::specs::Flags::record_reports))]
    fn record_reports(&self) -> Option<BundleRule>
        ensures { (long_head : Option ℕ) (payload_length : ℕ)
            → result ≡ record_reports (bundle_of self.now long_head payload_length) }
    {
        let flags = self.primary.flags;
        let is_wrong = is_set(RECORD, flags) && requests_reports(flags);
        is_wrong.then_some(BundleRule::RecordReports { flags })
    }

    /// The rule `block-reports`, if a block breaks it.
    ///
    /// `plain` is whether all blocks are plain. If so, no block is looked at, since plain blocks do
    /// not break the rule.
    #[tactic(auto, unfolding(crate::specs::Flags::block_reports))]
    fn block_reports(&self, plain: bool) -> Option<BundleRule>
        ensures { (long_head : Option ℕ) (payload_length : ℕ)
            → plain ≡ list_all (is_plain_block self.now.primary.lifetime) self.now.blocks.items
            → result ≡ block_reports (bundle_of self.now long_head payload_length) }
    {
        if plain {
            return None;
        }
        if !self.primary.forbids_reports() {
            return None;
        }
        first_found(self.blocks.as_slice(), |block| if_reporting(block))
    }

    /// The rule `block-flags`, if the flags of a block break it.
    ///
    /// `plain` is whether all blocks are plain. If so, no block is looked at, since plain blocks do
    /// not break the rule.
    #[tactic(auto, unfolding(crate::specs::Flags::block_flags))]
    fn block_flags(&self, plain: bool) -> Option<BundleRule>
        ensures { (long_head : Option ℕ) (payload_length : ℕ)
            → plain ≡ list_all (is_plain_block self.now.primary.lifetime) self.now.blocks.items
            → result ≡ block_flags (bundle_of self.now long_head payload_length) }
    {
        if plain {
            return None;
        }
        first_found(self.blocks.as_slice(), |block| if_other_block_flags(block))
    }
}
