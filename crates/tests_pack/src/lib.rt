//! Tests of `pack`: worked bundles, and the texts that `pack` must write for them.
#![tactic(auto)]

#[cfg(test)]
mod failures;
#[cfg(test)]
mod memory;
#[cfg(test)]
mod packing;
#[cfg(test)]
mod packings;
