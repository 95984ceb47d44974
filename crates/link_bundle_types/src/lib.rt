//! The result of a scan of a bundle (RFC 9171 section 4): the bundle, or its fault.
//!
//! [`BundleInfo`] has the fields of a whole bundle, with its endpoint IDs as [`Eid`].
//! [`BundleView`] and [`EidView`] are the same by reference. [`State`] is the state of a scan.
//! [`BundleFault`] is the reason why bytes are no bundle.
//!
//! A scan keeps two values in place, and empties them without overwriting what they held. A
//! [`KeptEid`] is an endpoint ID whose dtn name comes in pieces of any size. [`BlockNumbers`] has
//! the numbers of the canonical blocks.
//!
//! ```ignore
//! match state {
//!     State::Going => {}                 // more bytes are needed
//!     State::Ended => {}                 // the bytes are a bundle
//!     State::Failed(fault, offset) => {} // the bytes are no bundle, which shows at this offset
//! }
//! ```
#![tactic(auto)]

mod eid;
mod fault;
mod info;
mod kept_eid;
mod numbers;

pub use eid::{EID_LIMIT, Eid, EidView};
pub use fault::{BundleFault, State};
pub use info::{BLOCK_LIMIT, BundleInfo, BundleView};
pub use kept_eid::{EidForm, KeptEid};
pub use numbers::BlockNumbers;
