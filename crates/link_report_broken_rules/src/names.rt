//! The names of rules and of their levels.

ghost use Rattle.std.specs.Prelude.{◌≡◌, ◌≤◌, length};
ghost use Rattle.link_report_broken_rules.specs.Names.{level_name, rule_name};

use crate::rule::BrokenRule;
use link_rules_shared::{Level, NAME_MAX};

/// The greatest length of a level's name in bytes.
pub(crate) const LEVEL_MAX: usize = 6;

/// The word for a level.
#[tactic(auto, unfolding(crate::specs::Names::level_name))]
pub(crate) fn level_name(level: Level) -> &'static str
    ensures name { result.now ≡ level_name level }
    ensures short { length result.now ≤ LEVEL_MAX }
{
    match level {
        Level::Must => "must",
        Level::Should => "should",
    }
}

/// The name of a rule, as in its line.
#[tactic(auto, unfolding(crate::specs::Names::rule_name))]
pub(crate) fn rule_name(rule: &BrokenRule) -> &'static str
    ensures name { result.now ≡ rule_name rule.now }
    ensures short { length result.now ≤ NAME_MAX }
{
    match rule {
        BrokenRule::Message(rule) => rule.name(),
        BrokenRule::Transfer(_, rule) => rule.name(),
        BrokenRule::Bundle(_, rule) => rule.name(),
    }
}
