//! The rules that a good bundle breaks (RFC 9171 and RFC 9172).
//!
//! A [`BundleHistory`] keeps what the rules need of the blocks so far. It has a fixed size.
//!
//! ```ignore
//! let mut history = BundleHistory::new();
//! history.begin(&primary);
//! // for each canonical block, one after another
//! history.take(own, &ReadBlockView { block: &block, found, long_head });
//! // at the end, if the bundle is good
//! let source = KnownSource::of(own, sender, &info.source);
//! for rule in history.rules(first_long_head, payload_length, source).as_slice() {
//!     // .. rule.level(history.doubt()) says how strictly the rule is meant
//! }
//! ```
#![tactic(auto)]

mod block;
mod contexts;
mod endpoints;
mod extensions;
mod flags;
mod fragments;
mod heads;
mod hidden;
mod history;
mod kept;
mod names;
mod primary;
mod records;
mod rule;
mod rules;
mod security;
mod source;
mod targets;

pub use block::ReadBlockView;
pub use history::BundleHistory;
pub use link_rules_shared::{Doubt, Level};
pub use rule::{BundleRule, Endpoint};
pub use rules::BrokenBundleRules;
pub use source::KnownSource;
