//! Laws over the definitions of the tools, which say how the tools are related.
#![tactic(auto)]

pub mod laws;
pub mod withheld;
