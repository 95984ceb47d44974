//! The line of a broken rule, as a text.

ghost use Rattle.std.specs.Prelude.{◌+◌, ◌≤◌, length};
ghost use Rattle.link_report.specs.Written.{PutsText};
ghost use Rattle.link_report_broken_rules.specs.Line.{place_text, subject_text, rule_line};

use crate::names::{LEVEL_MAX, level_name, rule_name};
use crate::rule::{BrokenRule, BundlePlace};
use crate::words::{WORDS_MAX, write_words};
use link_report::{write_bytes, write_decimal, write_number, write_text};
use link_rules_shared::{Level, NAME_MAX};
use link_wire::Text;

/// The greatest length in bytes of the words for a transfer or a bundle.
const SUBJECT_MAX: usize = 30;

/// A bound on the length of a line in bytes, with its newline.
///
/// The longest line, of a fragment, has 148 bytes: no rule has the longest name and words.
pub const RULE_LINE_MAX: usize = 23 + LEVEL_MAX + NAME_MAX + SUBJECT_MAX + WORDS_MAX;

/// The line of a broken rule, as a text.
#[derive(Clone, Copy, Debug, PartialEq, Eq)]
pub struct RuleText {
    /// The offset of the message, or of the message with which the transfer begins.
    ///
    /// For an input of bundles, it is the offset of the bundle.
    pub offset: u64,
    /// How strictly the rule is meant, which may be less than without a doubt about the bundle.
    pub level: Level,
    pub rule: BrokenRule,
}

/// Writes the words for the place of a bundle.
#[tactic(auto, unfolding(crate::specs::Line::place_text))]
fn write_place(page: &mut [u8], at: usize, place: BundlePlace) -> usize
    requires { at + SUBJECT_MAX ≤ length page.old }
    ensures { PutsText page.old page.new at result SUBJECT_MAX (place_text place) }
{
    match place {
        BundlePlace::Transfer(id) => write_number(page, at, *b" transfer=", id),
        BundlePlace::Input(number) => write_number(page, at, *b" bundle=", number),
    }
}

/// Writes the words for the transfer or the bundle that breaks a rule. For a rule of messages there
/// are none.
#[tactic(auto, unfolding(crate::specs::Line::subject_text))]
fn write_subject(page: &mut [u8], at: usize, rule: &BrokenRule) -> usize
    requires { at + SUBJECT_MAX ≤ length page.old }
    ensures { PutsText page.old page.new at result SUBJECT_MAX (subject_text rule.now) }
{
    match *rule {
        BrokenRule::Message(_) => at,
        BrokenRule::Transfer(id, _) => write_place(page, at, BundlePlace::Transfer(id)),
        BrokenRule::Bundle(place, _) => write_place(page, at, place),
    }
}

/// Writes the line of a broken rule, and returns the index after it.
#[tactic(auto, unfolding(crate::specs::Line::rule_line))]
#[inline(never)]
pub fn write_rule(page: &mut [u8], at: usize, line: &RuleText) -> usize
    requires { at + RULE_LINE_MAX ≤ length page.old }
    ensures { PutsText page.old page.new at result RULE_LINE_MAX
        (rule_line line.now.offset line.now.level line.now.rule) }
{
    let rule = &line.rule;
    let at = write_decimal(page, at, line.offset);
    let at = write_bytes(page, at, *b" ");
    let at = write_text(page, at, level_name(line.level));
    let at = write_bytes(page, at, *b" ");
    let at = write_text(page, at, rule_name(rule));
    let at = write_subject(page, at, rule);
    let at = write_words(page, at, rule);
    write_bytes(page, at, *b"\n")
}

impl Text for RuleText {
    ghost use Rattle.link_report_broken_rules.specs.Line.{rule_line};

    ghost text = { λ line. rule_line line.offset line.level line.rule };

    /// Writes the line into the page at index `at`, and returns the index after it.
    #[inline(always)]
    fn put(&self, page: &mut [u8], at: usize) -> usize {
        write_rule(page, at, self)
    }
}
