//! Whether a bundle is known to keep the rules.

ghost use Rattle.std.specs.Prelude.{◌≡◌};
ghost use Rattle.link_bundle_rules.specs.Kept.{is_plain_data, is_plain_block, is_plain_primary};

use crate::block::{BlockFacts, Counts, DataFacts};
use crate::extensions::if_reserved;
use crate::flags::{
    BUNDLE_FLAGS, RECORD, if_other_block_flags, if_reporting, is_set, requests_reports,
};
use crate::history::BundleHistory;
use crate::primary::PrimaryFacts;
use link_rules_shared::has_other_flags;

/// Whether this data is known to break no rule of data. Rare kinds of data are never plain.
#[inline(always)]
fn is_plain_data(lifetime: u64, found: DataFacts) -> bool
    ensures { result ≡ is_plain_data lifetime found }
{
    match found {
        DataFacts::Nothing => true,
        DataFacts::PreviousNode(node) => !node.has_bad_name && node.level.is_none(),
        DataFacts::BundleAge(age) => age <= lifetime,
        DataFacts::HopCount(limit, count) => limit > 0 && limit < 256 && count <= limit,
        DataFacts::Security(_)
        | DataFacts::StatusReport(_)
        | DataFacts::OtherRecord(_)
        | DataFacts::Malformed(_)
        | DataFacts::NotRead(_) => false,
    }
}

/// Whether this block can break no rule of single blocks.
#[inline(always)]
fn is_plain_block(lifetime: u64, block: &BlockFacts) -> bool
    ensures { result ≡ is_plain_block lifetime block.now }
{
    if_reporting(block).is_none()
        && if_other_block_flags(block).is_none()
        && if_reserved(block).is_none()
        && block.long_head.is_none()
        && is_plain_data(lifetime, block.data)
}

/// Whether this primary block can break no rule of primary blocks, whatever the other blocks are.
#[inline(always)]
fn is_plain_primary(primary: &PrimaryFacts) -> bool
    ensures { result ≡ is_plain_primary primary.now }
{
    primary.has_check
        && !primary.is_anonymous
        && primary.bad_name.is_none()
        && !primary.has_group_source
        && primary.fragment.is_none()
        && !has_other_flags(BUNDLE_FLAGS, primary.flags)
        && !(is_set(RECORD, primary.flags) && requests_reports(primary.flags))
}

impl BundleHistory {
    ghost use Rattle.std.specs.Prelude.{◌≡◌, ℕ, true, [], Option, None};
    ghost use Rattle.std.specs.List.{list_all};
    ghost use Rattle.link_bundle_rules.specs.BundleRules.{broken_bundle_rules};
    ghost use Rattle.link_bundle_rules.specs.History.{bundle_of};
    ghost use Rattle.link_bundle_rules.specs.declared.source.KnownSource.{KnownSource};
    ghost use Rattle.link_bundle_rules.specs.Kept.{is_plain_block, has_plain_counts, is_plain};

    /// Whether the bundle is known to break no rule, whatever its source, if it is good and all its
    /// blocks came.
    ///
    /// This takes less time than `rules`. If it returns false, the bundle may break rules or not.
    ///
    /// It returns false for each fragment, and for each bundle without a source, without a check of
    /// its primary block, with an administrative record that is read or with a security block.
    ///
    /// `first_long_head` is as for [`BundleHistory::rules`].
    #[inline(always)]
    pub fn keeps_rules(&self, first_long_head: Option<u64>) -> bool
        ensures { (payload_length : ℕ) (source : KnownSource) → result ≡ true
            → broken_bundle_rules source (bundle_of self.now first_long_head payload_length) ≡ [] }
    {
        first_long_head.is_none() && self.is_plain()
    }

    /// Whether the bundle is known to break no rule other than `long-head`. It can break this rule
    /// only by a head outside the data of blocks.
    #[inline(always)]
    fn is_plain(&self) -> bool
        ensures { (long_head : Option ℕ) (payload_length : ℕ) → result ≡ is_plain (bundle_of self.now long_head payload_length) }
    {
        is_plain_primary(&self.primary)
            && self.has_plain_blocks()
            && self.has_plain_counts()
            && self.security.is_empty()
    }

    /// Whether all blocks are plain, so that no rule of single blocks is broken.
    #[inline(always)]
    pub(crate) fn has_plain_blocks(&self) -> bool
        ensures { result
            ≡ list_all (is_plain_block self.now.primary.lifetime) self.now.blocks.items }
    {
        let lifetime = self.primary.lifetime;
        self.blocks
            .as_slice()
            .iter()
            .all(|block| is_plain_block(lifetime, block))
    }

    /// Whether the numbers of previous node, hop count and bundle age blocks break no rule.
    #[inline(always)]
    fn has_plain_counts(&self) -> bool
        ensures { result ≡ has_plain_counts (bundle_of self.now None 0) }
    {
        let counts = Counts::of(self.blocks.as_slice());
        counts.previous_nodes <= 1
            && counts.hop_counts <= 1
            && (counts.ages == 1 || (counts.ages == 0 && !self.primary.has_zero_time))
    }
}
