//! Tests of `unpack`: worked streams, and the texts that `unpack` must write for them.
#![tactic(auto)]

#[cfg(test)]
mod disorder;
#[cfg(test)]
mod failures;
#[cfg(test)]
mod going_on;
#[cfg(test)]
mod transfers;
#[cfg(test)]
mod unpacking;
#[cfg(test)]
mod verdicts;
