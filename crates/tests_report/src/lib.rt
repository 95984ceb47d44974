//! Tests of the report lines: of messages, faults, transfers and packed bundles.
#![tactic(auto)]

#[cfg(test)]
mod bundles;
#[cfg(test)]
mod lines;
