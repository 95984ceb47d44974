//! Tests of `blocks` and of what it is made of: the data of blocks, and their lines.
#![tactic(auto)]

#[cfg(test)]
mod data;
#[cfg(test)]
mod failures;
#[cfg(test)]
mod lines;
#[cfg(test)]
mod rows;
#[cfg(test)]
mod showing;
#[cfg(test)]
mod words;
