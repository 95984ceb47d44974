//! The rules that a node breaks with a message, and with a transfer (RFC 9174).
//!
//! A [`MessageHistory`] keeps what the rules need of the messages so far, and the first node ID. It
//! has a fixed size.
//!
//! ```ignore
//! let mut history = MessageHistory::new();
//! // for the head of each message, one after another
//! for rule in history.rules(&limits, &head).as_slice() {
//!     // .. rule.level() says how strictly the rule is meant
//! }
//! history.take(&head);
//! ```
//!
//! Once all data of a transfer has come, [`Opening::rules`] has the rules that its length breaks,
//! and [`data_rule`] the rule that the data breaks if it is no bundle. [`contact_flags`] is the one
//! rule of a contact header.
#![tactic(auto)]

mod answers;
mod assigned;
mod endings;
mod flags;
mod head;
mod history;
mod lengths;
mod node;
mod opening;
mod rule;
mod session;
mod transfer_data;
mod transfer_ids;

pub use flags::contact_flags;
pub use head::JudgedHeadView;
pub use history::{BrokenRules, MessageHistory};
pub use link_rules_shared::{Doubt, Level};
pub use link_tool_option_types::PeerLimits;
pub use opening::{BrokenTransferRules, Opening};
pub use rule::{AnswerFault, MessageRule, TransferRule};
pub use transfer_data::data_rule;
