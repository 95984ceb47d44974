//! Rules of extension blocks (RFC 9171 sections 4.3.2 and 4.4), and of data that is not read.

ghost use Rattle.std.specs.Prelude.{◌≡◌, None};
ghost use Rattle.link_bundle_rules.specs.History.{bundle_of};
ghost use Rattle.link_bundle_rules.specs.Extensions.{hops_in, has_bad_limit, if_exceeded, if_no_node_id, if_expired, is_reserved, if_reserved, is_judged_by_limits, if_malformed_extension, if_unread};
ghost use Rattle.link_bundle_rules.specs.Hidden.{is_hidden_block};

use crate::block::{
    BUNDLE_AGE, BlockFacts, Counts, DataFacts, HOP_COUNT, PAYLOAD, PREVIOUS_NODE,
    has_readable_type, is_of_type,
};
use crate::history::BundleHistory;
use crate::rule::BundleRule;
use crate::rules::first_found;
use crate::source::KnownSource;
use link_rules_shared::Level;

/// A hop limit and a hop count (RFC 9171 section 4.4.3).
#[derive(Clone, Copy, Debug, PartialEq, Eq)]
pub(crate) struct Hops {
    pub(crate) limit: u64,
    pub(crate) count: u64,
}

/// Whether there is a hop limit that is not from 1 to 255.
pub(crate) fn has_bad_limit(hops: &Option<Hops>) -> bool
    ensures { result ≡ has_bad_limit hops.now }
{
    match hops {
        Some(hops) => hops.limit == 0 || hops.limit > 255,
        None => false,
    }
}

impl Hops {
    /// The hop limit and the hop count that the data of a block contains. `None` for data of
    /// another kind.
    fn of(found: DataFacts) -> Option<Hops>
        ensures { result ≡ hops_in found }
    {
        match found {
            DataFacts::HopCount(limit, count) => Some(Hops { limit, count }),
            _ => None,
        }
    }

    /// The rule that is broken if the hop count is above the hop limit, and else `None`.
    pub(crate) fn if_exceeded(self) -> Option<BundleRule>
        ensures { result ≡ if_exceeded self }
    {
        let Hops { limit, count } = self;
        (limit < count).then_some(BundleRule::Hops { limit, count })
    }
}

/// The rule that a previous node block breaks if its node is forbidden as a node ID. `None` for a
/// block of another type.
fn if_no_node_id(block: &BlockFacts) -> Option<BundleRule>
    ensures { result ≡ if_no_node_id block.now }
{
    let DataFacts::PreviousNode(node) = block.data else {
        return None;
    };
    let level = node.level?;
    Some(BundleRule::PreviousNodeId {
        block: block.number,
        level,
    })
}

/// The rule that a block breaks by an age above the lifetime. `None` for a block of another type.
fn if_expired(lifetime: u64, block: &BlockFacts) -> Option<BundleRule>
    ensures { result ≡ if_expired lifetime block.now }
{
    match block.data {
        DataFacts::BundleAge(age) if lifetime < age => Some(BundleRule::Expired { lifetime, age }),
        _ => None,
    }
}

/// Whether a block type is reserved: 0, a type that only version 6 of the protocol has, or a type
/// above 255.
fn is_reserved(block_type: u64) -> bool
    ensures { result ≡ is_reserved block_type }
{
    matches!(block_type, 0 | 2..=5 | 8 | 9) || block_type > 255
}

/// The rule that a block breaks by a type that is reserved.
pub(crate) fn if_reserved(block: &BlockFacts) -> Option<BundleRule>
    ensures { result ≡ if_reserved block.now }
{
    is_reserved(block.block_type).then_some(BundleRule::BlockType {
        block: block.number,
        block_type: block.block_type,
    })
}

/// Whether the data of a block may be ciphertext.
fn is_hidden(history: &BundleHistory, block: &BlockFacts) -> bool
    ensures { result ≡ is_hidden_block (bundle_of history.now None 0) block.now.block_type
        block.now.number }
{
    history.is_hidden_block(block.block_type, block.number)
}

/// The rule that an extension block or a security block breaks by malformed data, unless the data
/// may be ciphertext. A block of another type does not break it.
pub(crate) fn if_malformed_extension(
    history: &BundleHistory,
    block: &BlockFacts,
) -> Option<BundleRule>
    ensures { result ≡ if_malformed_extension (bundle_of history.now None 0) block.now }
{
    match block.data {
        DataFacts::Malformed(byte) if has_readable_type(block) && !is_hidden(history, block) => {
            Some(BundleRule::BlockData {
                block: block.number,
                byte,
            })
        }
        _ => None,
    }
}

/// Whether the data of a block is judged by its limits: that of an extension block or a security
/// block, or an administrative record, which binds the source.
fn is_judged_by_limits(source: KnownSource, block: &BlockFacts) -> bool
    ensures { result ≡ is_judged_by_limits source block.now }
{
    has_readable_type(block) || (is_of_type(PAYLOAD, block) && source.is_judged())
}

/// The rule that a block breaks by data that exceeds a limit of this toolkit, unless the data may
/// be ciphertext.
pub(crate) fn if_unread(
    source: KnownSource,
    history: &BundleHistory,
    block: &BlockFacts,
) -> Option<BundleRule>
    ensures { result ≡ if_unread source (bundle_of history.now None 0) block.now }
{
    let is_judged = is_judged_by_limits(source, block);
    match block.data {
        DataFacts::NotRead(byte) if is_judged && !is_hidden(history, block) => {
            Some(BundleRule::DataNotRead {
                block: block.number,
                byte,
            })
        }
        _ => None,
    }
}

impl BundleHistory {
    ghost use Rattle.std.specs.Prelude.{◌≡◌, ℕ, Option, None};
    ghost use Rattle.std.specs.List.{list_all};
    ghost use Rattle.link_bundle_rules.specs.Extensions.{age, previous_node, previous_node_id, expired, first_hops, hop_count, hops, block_type, block_data, data_not_read};
    ghost use Rattle.link_bundle_rules.specs.History.{bundle_of};
    ghost use Rattle.link_bundle_rules.specs.Kept.{is_plain_block, counts_of};

    /// The rule `age` of bundle age blocks, if it is broken. In a later fragment, a missing block
    /// breaks it only as a `should`.
    #[tactic(auto, unfolding(crate::specs::Extensions::age))]
    pub(crate) fn age(&self, counts: Counts) -> Option<BundleRule>
        ensures { (long_head : Option ℕ) (payload_length : ℕ)
            → counts ≡ counts_of self.now.blocks.items
            → result ≡ age (bundle_of self.now long_head payload_length) }
    {
        let blocks = counts.ages;
        if blocks > 1 {
            let level = Level::Must;
            return Some(BundleRule::Age { blocks, level });
        }
        if blocks == 0 && self.primary.has_zero_time {
            let level = self.primary.level();
            return Some(BundleRule::Age { blocks, level });
        }
        None
    }

    /// The rule `previous-node`, if the number of previous node blocks breaks it.
    #[tactic(auto, unfolding(crate::specs::Extensions::previous_node))]
    pub(crate) fn previous_node(&self, counts: Counts) -> Option<BundleRule>
        ensures { (long_head : Option ℕ) (payload_length : ℕ)
            → counts ≡ counts_of self.now.blocks.items
            → result ≡ previous_node (bundle_of self.now long_head payload_length) }
    {
        let blocks = counts.previous_nodes;
        (blocks > 1).then_some(BundleRule::PreviousNode { blocks })
    }

    /// The rule that the first previous node block has a node ID, if the rule is broken.
    #[tactic(auto, unfolding(crate::specs::Extensions::previous_node_id))]
    pub(crate) fn previous_node_id(&self) -> Option<BundleRule>
        ensures { (long_head : Option ℕ) (payload_length : ℕ)
            → result ≡ previous_node_id (bundle_of self.now long_head payload_length) }
    {
        if_no_node_id(&self.first_readable(PREVIOUS_NODE)?)
    }

    /// The rule that the age is not above the lifetime, if the first bundle age block breaks it.
    #[tactic(auto, unfolding(crate::specs::Extensions::expired))]
    pub(crate) fn expired(&self) -> Option<BundleRule>
        ensures { (long_head : Option ℕ) (payload_length : ℕ)
            → result ≡ expired (bundle_of self.now long_head payload_length) }
    {
        if_expired(self.primary.lifetime, &self.first_readable(BUNDLE_AGE)?)
    }

    /// What the first hop count block says, unless its data is malformed, is not read, or may be
    /// ciphertext.
    #[tactic(auto, unfolding(crate::specs::Extensions::first_hops))]
    fn first_hops(&self) -> Option<Hops>
        ensures { (long_head : Option ℕ) (payload_length : ℕ)
            → result ≡ first_hops (bundle_of self.now long_head payload_length) }
    {
        Hops::of(self.first_readable(HOP_COUNT)?.data)
    }

    /// The rule `hop-count`, if it is broken.
    ///
    /// `plain` is whether all blocks are plain. If so, only the number of hop count blocks can
    /// break the rule, since the hop limit of a plain block is good.
    #[tactic(auto, unfolding(crate::specs::Extensions::hop_count))]
    pub(crate) fn hop_count(&self, plain: bool, counts: Counts) -> Option<BundleRule>
        ensures { (long_head : Option ℕ) (payload_length : ℕ)
            → plain ≡ list_all (is_plain_block self.now.primary.lifetime) self.now.blocks.items
            → counts ≡ counts_of self.now.blocks.items
            → result ≡ hop_count (bundle_of self.now long_head payload_length) }
    {
        let blocks = counts.hop_counts;
        if plain && blocks <= 1 {
            return None;
        }
        let first = self.first_hops();
        let is_wrong = blocks > 1 || has_bad_limit(&first);
        let limit = first.map(|hops| hops.limit);
        is_wrong.then_some(BundleRule::HopCount { blocks, limit })
    }

    /// The rule that the first hop count is within its hop limit, if the rule is broken.
    ///
    /// `plain` is whether all blocks are plain. If so, no block is looked at, since plain blocks do
    /// not break the rule.
    #[tactic(auto, unfolding(crate::specs::Extensions::hops))]
    pub(crate) fn hops(&self, plain: bool) -> Option<BundleRule>
        ensures { (long_head : Option ℕ) (payload_length : ℕ)
            → plain ≡ list_all (is_plain_block self.now.primary.lifetime) self.now.blocks.items
            → result ≡ hops (bundle_of self.now long_head payload_length) }
    {
        if plain {
            return None;
        }
        self.first_hops()?.if_exceeded()
    }

    /// The rule `block-type`, if a block breaks it.
    #[tactic(auto, unfolding(crate::specs::Extensions::block_type))]
    pub(crate) fn block_type(&self) -> Option<BundleRule>
        ensures { (long_head : Option ℕ) (payload_length : ℕ)
            → result ≡ block_type (bundle_of self.now long_head payload_length) }
    {
        first_found(self.blocks.as_slice(), |block| if_reserved(block))
    }

    /// The rule `block-data`, if the data of a block breaks it.
    ///
    /// `plain` is whether all blocks are plain. If so, no block is looked at, since plain blocks do
    /// not break the rule.
    #[tactic(auto, unfolding(crate::specs::Extensions::block_data))]
    pub(crate) fn block_data(&self, plain: bool) -> Option<BundleRule>
        ensures { (long_head : Option ℕ) (payload_length : ℕ)
            → plain ≡ list_all (is_plain_block self.now.primary.lifetime) self.now.blocks.items
            → result ≡ block_data (bundle_of self.now long_head payload_length) }
    {
        if plain {
            return None;
        }
        first_found(
            self.blocks.as_slice(),
            |block| if_malformed_extension(self, block),
        )
    }

    /// The rule `data-not-read`, if the data of a block breaks it.
    ///
    /// `plain` is whether all blocks are plain. If so, no block is looked at, since plain blocks do
    /// not break the rule.
    #[tactic(auto, unfolding(crate::specs::Extensions::data_not_read))]
    pub(crate) fn data_not_read(&self, source: KnownSource, plain: bool) -> Option<BundleRule>
        ensures { (long_head : Option ℕ) (payload_length : ℕ)
            → plain ≡ list_all (is_plain_block self.now.primary.lifetime) self.now.blocks.items
            → result ≡ data_not_read source (bundle_of self.now long_head payload_length) }
    {
        if plain {
            return None;
        }
        first_found(
            self.blocks.as_slice(),
            |block| if_unread(source, self, block),
        )
    }
}
