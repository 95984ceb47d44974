//! A broken rule, and what breaks it.

ghost use Rattle.std.specs.Prelude.{◌≡◌};

use link_bundle_rules::BundleRule;
use link_rules_shared::{Doubt, Level};
use link_session_rules::{MessageRule, TransferRule};

/// Where a bundle is that breaks a rule.
#[derive(Clone, Copy, Debug, PartialEq, Eq)]
pub enum BundlePlace {
    /// It is the data of the transfer with this ID.
    Transfer(u64),
    /// It has this number, from 0, in an input of bundles.
    Input(u64),
}

/// A broken rule, and what breaks it.
#[derive(Clone, Copy, Debug, PartialEq, Eq)]
pub enum BrokenRule {
    /// A contact header or a message breaks it.
    Message(MessageRule),
    /// The transfer with this ID breaks it.
    Transfer(u64, TransferRule),
    /// A good bundle breaks it.
    Bundle(BundlePlace, BundleRule),
}

impl BrokenRule {
    ghost use Rattle.std.specs.Prelude.{◌≡◌};
    ghost use Rattle.link_report_broken_rules.specs.Names.{rule_level};

    /// How strictly the rule is meant, if an unknown part may have changed this much of the bundle.
    #[tactic(auto, unfolding(crate::specs::Names::rule_level))]
    pub fn level(&self, doubt: Doubt) -> Level
        ensures { result ≡ rule_level doubt self.now }
    {
        match self {
            BrokenRule::Message(rule) => rule.level(),
            BrokenRule::Transfer(_, rule) => rule.level(doubt),
            BrokenRule::Bundle(_, rule) => rule.level(doubt),
        }
    }
}
