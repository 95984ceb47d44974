//! The lines of broken rules, as they are written.

ghost use Rattle.std.specs.Prelude.{◌≡◌, ◌&&◌, not, map};
ghost use Rattle.link_run.specs.Writers.{AfterWrite, on_output};
ghost use Rattle.link_report_broken_rules.specs.declared.rule.BrokenRule.{BrokenRule};
ghost use Rattle.link_tool_check.specs.Lines.{counts, at_offset, line_of, text_of};
ghost use Rattle.link_tool_check.specs.Writing.{WritesRules};

use link_bundle_rules::BundleRule;
use link_report_broken_rules::{BrokenRule, BundlePlace, RuleText};
use link_rules_shared::{Doubt, Level};
use link_run::Writers;
use link_session_rules::{MessageRule, TransferRule};
use link_wire::{IoFault, OutDevice};

/// A rule that a message, a transfer or a bundle can break.
pub(crate) trait Rule: Copy {
    /// What breaks the rule.
    type Owner: Copy;

    // the broken rule, with what breaks it
    ghost broken: { Self.Owner → Self → BrokenRule };

    /// The broken rule, with what breaks it.
    fn broken_by(self, owner: Self::Owner) -> BrokenRule
        ensures { result ≡ broken owner self };
}

impl Rule for MessageRule {
    ghost use Rattle.link_report_broken_rules.specs.declared.rule.BrokenRule.TheVariants.{Message};

    type Owner = ();

    ghost broken = { λ owner rule. Message rule };

    fn broken_by(self, _owner: ()) -> BrokenRule {
        BrokenRule::Message(self)
    }
}

impl Rule for TransferRule {
    ghost use Rattle.link_report_broken_rules.specs.declared.rule.BrokenRule.TheVariants.{Transfer};

    /// The transfer ID.
    type Owner = u64;

    ghost broken = { λ id rule. Transfer id rule };

    fn broken_by(self, id: u64) -> BrokenRule {
        BrokenRule::Transfer(id, self)
    }
}

impl Rule for BundleRule {
    ghost use Rattle.link_report_broken_rules.specs.declared.rule.BrokenRule.TheVariants.{Bundle};

    type Owner = BundlePlace;

    ghost broken = { λ place rule. Bundle place rule };

    fn broken_by(self, place: BundlePlace) -> BrokenRule {
        BrokenRule::Bundle(place, self)
    }
}

/// Whether a broken rule has a line, and counts for the status.
///
/// `must` is whether only rules of level `must` count.
fn counts(must: bool, broken: &RuleText) -> bool
    ensures { result ≡ counts must broken.now }
{
    !must || matches!(broken.level, Level::Must)
}

/// If a broken rule counts, writes its line, and sets `good` to false. If not, does nothing.
///
/// `must` is whether only rules of level `must` count.
#[inline(always)]
fn write_line<W: OutDevice, E: OutDevice>(
    must: bool,
    broken: &RuleText,
    writers: &mut Writers<W, E>,
    good: &mut bool,
) -> Result<(), IoFault>
    ensures gives { AfterWrite W.state E.state writers.old writers.new
        (on_output (line_of must broken.now)) result }
    ensures good { good.new ≡ (good.old && not (counts must broken.now)) }
{
    if !counts(must, broken) {
        return Ok(());
    }
    *good = false;
    writers.write_text(broken)
}

/// A rule that is broken at this offset, with its level.
fn text_of(offset: u64, doubt: Doubt, rule: BrokenRule) -> RuleText
    ensures { result ≡ text_of offset doubt rule }
{
    RuleText {
        offset,
        level: rule.level(doubt),
        rule,
    }
}

/// Writes a line for each of these rules that counts. If one counts, sets `good` to false.
///
/// `owner` breaks the rules at `offset`. `must` is whether only rules of level `must` count.
/// `doubt` is what an unknown part may have changed in the bundle.
#[inline(never)]
pub(crate) fn write_rules<T: Rule, W: OutDevice, E: OutDevice>(
    must: bool,
    offset: u64,
    doubt: Doubt,
    owner: T::Owner,
    rules: &[T],
    writers: &mut Writers<W, E>,
    good: &mut bool,
) -> Result<(), IoFault>
    ensures { WritesRules W.state E.state must writers.old writers.new good.old good.new result
        (at_offset offset doubt (map (T.broken owner) rules.now)) }
{
    for rule in rules {
        let broken = text_of(offset, doubt, rule.broken_by(owner));
        if let Err(fault) = write_line(must, &broken, writers, good) {
            return Err(fault);
        }
    }
    Ok(())
}
