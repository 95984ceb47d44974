//! Tests of the command line: words, and what they ask for.
#![tactic(auto)]

#[cfg(test)]
mod node_ids;
#[cfg(test)]
mod options;
#[cfg(test)]
mod texts;
