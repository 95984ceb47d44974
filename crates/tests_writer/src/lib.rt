//! Tests of the writers of messages and bundles, of the texts of endpoint IDs, and of the judgement
//! of answers.
#![tactic(auto)]

#[cfg(test)]
mod answers;
#[cfg(test)]
mod bundles;
#[cfg(test)]
mod messages;
#[cfg(test)]
mod packing;
#[cfg(test)]
mod texts;
