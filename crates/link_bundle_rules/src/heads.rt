//! The rule of long heads (RFC 9171 section 4.1).

ghost use Rattle.std.specs.Prelude.{◌≡◌, Option, option_map};
ghost use Rattle.link_bundle_rules.specs.Heads.{least, of_level};

use crate::block::{BlockFacts, has_readable_type, is_security_block};
use crate::history::BundleHistory;
use crate::rule::BundleRule;
use crate::rules::first_found;
use link_rules_shared::Level;

/// The lesser of two offsets, or the only one, or `None`.
fn least(one: Option<u64>, other: Option<u64>) -> Option<u64>
    ensures { result ≡ least one other }
{
    match (one, other) {
        (Some(byte), Some(other)) => Some(byte.min(other)),
        (Some(byte), None) => Some(byte),
        (None, other) => other,
    }
}

/// The rule that a long head at this offset breaks. `None` without a long head.
fn of_level(level: Level, byte: Option<u64>) -> Option<BundleRule>
    ensures { result ≡ of_level level byte }
{
    let byte = byte?;
    Some(BundleRule::LongHead { byte, level })
}

impl BundleHistory {
    ghost use Rattle.std.specs.Prelude.{◌≡◌, ℕ, Option, None, if◌then◌else◌};
    ghost use Rattle.link_bundle_rules.specs.Heads.{readable_head, data_head, sure_security_head, long_head};
    ghost use Rattle.link_bundle_rules.specs.History.{bundle_of};
    ghost use Rattle.link_bundle_rules.specs.BundleFacts.{has_readable_type, is_security_block};

    /// The first long head in the data of a block, unless the data may be ciphertext.
    fn readable_head(&self, block: &BlockFacts) -> Option<u64>
        ensures { result ≡ readable_head (bundle_of self.now None 0) block.now }
    {
        self.unless_hidden(block)?.long_head
    }

    /// The first long head in the data of a security block. `None` for another block, or if the
    /// data may be ciphertext.
    fn head_of_security(&self, block: &BlockFacts) -> Option<u64>
        ensures { result ≡ (if is_security_block block.now
            then readable_head (bundle_of self.now None 0) block.now
            else None) }
    {
        if is_security_block(block) {
            self.readable_head(block)
        } else {
            None
        }
    }

    /// The first long head in the data of an extension block or a security block. `None` for
    /// another block, or if the data may be ciphertext.
    fn head_if_readable(&self, block: &BlockFacts) -> Option<u64>
        ensures { result ≡ (if has_readable_type block.now
            then readable_head (bundle_of self.now None 0) block.now
            else None) }
    {
        if has_readable_type(block) {
            self.readable_head(block)
        } else {
            None
        }
    }

    /// The first long head in the data of security blocks, unless a block of an unknown type may
    /// have encrypted the data.
    fn sure_security_head(&self) -> Option<u64>
        ensures { result ≡ sure_security_head (bundle_of self.now None 0) }
    {
        if self.has_unknown_block() {
            return None;
        }
        first_found(self.blocks.as_slice(), |block| self.head_of_security(block))
    }

    /// The first long head in the data of extension blocks and security blocks.
    fn data_head(&self) -> Option<u64>
        ensures { result ≡ data_head has_readable_type (bundle_of self.now None 0) }
    {
        first_found(self.blocks.as_slice(), |block| self.head_if_readable(block))
    }

    /// The rule `long-head`, if it is broken. It is a `must` for a long head outside the data of
    /// blocks, or in the data of security blocks, if this data is sure. Without such a head, it is
    /// a `should` for a long head in the data of extension blocks and security blocks.
    ///
    /// `byte` is the offset of the first long head outside the data of blocks. The result is the
    /// same for any length of the payload.
    #[tactic(auto, unfolding(crate::specs::Heads::long_head))]
    pub(crate) fn long_head(&self, byte: Option<u64>) -> Option<BundleRule>
        ensures { (size : ℕ) → result ≡ long_head (bundle_of self.now byte size) }
    {
        let must = of_level(Level::Must, least(byte, self.sure_security_head()));
        if must.is_some() {
            return must;
        }
        of_level(Level::Should, self.data_head())
    }
}
