//! Tests of check values, of CBOR heads, and of verdicts on bundles.
#![tactic(auto)]

#[cfg(test)]
mod checks;
#[cfg(test)]
mod heads;
#[cfg(test)]
mod verdicts;
