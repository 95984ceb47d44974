//! The lines of broken rules.
//!
//! A line says at which offset a rule is broken, how strictly the rule is meant, its name, the
//! transfer or the bundle that breaks it, and what breaks it:
//!
//! ```text
//! 0 must contact-flags flags=80
//! 171 should interleaved id=5 open=4
//! 300 must anonymous transfer=5 flags=00
//! 0 should hops bundle=2 limit=3 count=4
//! ```
//!
//! [`RuleText`] is such a line. A text of several lines can be made with [`write_rule`].
#![tactic(auto)]

mod line;
mod names;
mod rule;
mod words;

pub use line::{RULE_LINE_MAX, RuleText, write_rule};
pub use rule::{BrokenRule, BundlePlace};
