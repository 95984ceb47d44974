//! Tests of `list`: worked streams, and the texts that `list` must write for them.
#![tactic(auto)]

#[cfg(test)]
mod failures;
#[cfg(test)]
mod listings;
#[cfg(test)]
mod rows;
#[cfg(test)]
mod sessions;
#[cfg(test)]
mod windows;
