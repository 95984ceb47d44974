//! Tests of messages, of what a session reads and waits for, of the order of messages, and of the
//! cutting of bundles.
#![tactic(auto)]

#[cfg(test)]
mod cutting;
#[cfg(test)]
mod lengths;
#[cfg(test)]
mod orders;
#[cfg(test)]
mod sessions;
