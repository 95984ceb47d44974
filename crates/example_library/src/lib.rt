//! Examples of how the libraries are called, to which docs/LIBRARIES.md points.
#![tactic(auto)]

pub mod counting;
pub mod cutting;
pub mod reading;
pub mod scanning;
#[cfg(test)]
mod tests;
