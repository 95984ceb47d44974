//! The judgement of each head of a bundle (RFC 9171 section 4) that is complete and well-formed.
//!
//! The kind of the item is judged first, and then its value.
//!
//! ```ignore
//! let lifetime = row::unsigned(head)?; // a fault, if the head is no unsigned integer
//! ```
#![tactic(auto)]

mod endpoint;
pub mod row;

pub use endpoint::Scheme;
