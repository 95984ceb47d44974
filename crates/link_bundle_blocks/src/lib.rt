//! The blocks of a bundle (RFC 9171 section 4): what they are, and how they are read from a slice.
//!
//! specs/Bundle.antt defines which bytes are a bundle, which bundle they are, and the verdict on
//! all other bytes. The functions with names in `_at` read the parts of a bundle where they lie.
//!
//! Those that return a [`PartFault`] read every part, and tell the first fault of a bad one. The
//! others are faster, and each has the name of its definition. An error of one of these means only
//! that nothing was read: the part is cut or has a fault, or a head in it is spelled at greater
//! length than it has to be.
#![tactic(auto)]

mod block;
mod exact;
mod item;
pub mod laws;
mod primary_view;
mod whole;

pub use block::{BlockView, CanonicalBlock, PrimaryBlock};
pub use exact::{
    OPENING, PartFault, break_at, check_field_at, next_block_at, primary_at, primary_fields,
};
pub use item::{pair_at, small_at, unsigned_at};
pub use primary_view::{PRIMARY_LIMIT, PrimaryView};
pub use whole::{blocks_at, check_of, eid_at, field_at, fragment_at, number_of, whole_canonical};
