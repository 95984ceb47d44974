//! Data that may be ciphertext (RFC 9172 section 3.8).

use crate::block::{BLOCK_CONFIDENTIALITY, BlockFacts, first_of_type, has_known_type};
use crate::history::BundleHistory;
use link_rules_shared::{Doubt, Level};

/// The number of the payload block (RFC 9171 section 4.1).
pub(crate) const PAYLOAD_NUMBER: u64 = 1;

impl BundleHistory {
    ghost use Rattle.std.specs.Prelude.{◌≡◌, ℕ, Option, None};
    ghost use Rattle.std.specs.List.{list_any};
    ghost use Rattle.link_bundle_rules.specs.Hidden.{may_hide, is_hidden, is_hidden_block, unless_hidden, first_readable};
    ghost use Rattle.link_bundle_rules.specs.BundleFacts.{has_unknown_block};
    ghost use Rattle.link_bundle_rules.specs.BundleRules.{doubt_in};
    ghost use Rattle.link_bundle_rules.specs.Fragments.{data_level, has_hidden_payload};
    ghost use Rattle.link_bundle_rules.specs.History.{bundle_of};

    /// Whether the data of the block with this number may be ciphertext. The block is of another
    /// type than block confidentiality.
    pub(crate) fn is_hidden(&self, number: u64) -> bool
        ensures { result ≡ is_hidden (bundle_of self.now None 0) number }
    {
        (self.primary.is_later() && number != PAYLOAD_NUMBER) || self.has_hider(number)
    }

    /// Whether a block confidentiality block encrypts, or may encrypt, the block with this number.
    fn has_hider(&self, number: u64) -> bool
        ensures { result ≡ list_any (may_hide number) self.now.security.items }
    {
        let security = self.security.as_slice();
        security.iter().any(|block| block.may_hide(number))
    }

    /// Whether the data of the block with this type and this number may be ciphertext.
    pub(crate) fn is_hidden_block(&self, block_type: u64, number: u64) -> bool
        ensures { result ≡ is_hidden_block (bundle_of self.now None 0) block_type number }
    {
        block_type != BLOCK_CONFIDENTIALITY && self.is_hidden(number)
    }

    /// A block, unless its data may be ciphertext.
    pub(crate) fn unless_hidden(&self, block: &BlockFacts) -> Option<BlockFacts>
        ensures { result ≡ unless_hidden (bundle_of self.now None 0) block.now }
    {
        if self.is_hidden_block(block.block_type, block.number) {
            return None;
        }
        Some(*block)
    }

    /// The first block of a type, or `None` if there is none or its data may be ciphertext.
    #[tactic(auto, unfolding(crate::specs::Hidden::first_readable))]
    pub(crate) fn first_readable(&self, block_type: u64) -> Option<BlockFacts>
        ensures { (long_head : Option ℕ) (payload_length : ℕ)
            → result ≡ first_readable block_type (bundle_of self.now long_head payload_length) }
    {
        let first = first_of_type(block_type, self.blocks.as_slice())?;
        self.unless_hidden(first)
    }

    /// Whether a block of an unknown type is in the bundle, which may encrypt other blocks.
    pub(crate) fn has_unknown_block(&self) -> bool
        ensures { result ≡ has_unknown_block (bundle_of self.now None 0) }
    {
        let blocks = self.blocks.as_slice();
        blocks.iter().any(|block| !has_known_type(block))
    }

    /// What a block of an unknown type may have changed in the bundle.
    pub fn doubt(&self) -> Doubt
        ensures { (long_head : Option ℕ) (payload_length : ℕ)
            → result ≡ doubt_in (bundle_of self.now long_head payload_length) }
    {
        if self.has_unknown_block() {
            Doubt::BlockData
        } else {
            Doubt::Nothing
        }
    }

    /// The level of a rule that rests on data.
    pub(crate) fn data_level(&self) -> Level
        ensures { result ≡ data_level (bundle_of self.now None 0) }
    {
        if self.has_unknown_block() {
            Level::Should
        } else {
            Level::Must
        }
    }

    /// Whether the payload may be ciphertext.
    pub(crate) fn has_hidden_payload(&self) -> bool
        ensures { result ≡ has_hidden_payload (bundle_of self.now None 0) }
    {
        self.is_hidden(PAYLOAD_NUMBER)
    }
}
