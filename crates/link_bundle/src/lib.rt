//! Bundles of the Bundle Protocol version 7 (RFC 9171 section 4), scanned in pieces of any size.
//!
//! ```text
//! |<-1->|                                                          |<-1->|
//! +-----+----------------+------------------+--+-------------------+-----+
//! | 9f  | primary block  | canonical blocks |..| payload block     | ff  |
//! |     | (section 4.3.1)| (section 4.3.2)  |  | (number 1, last)  |     |
//! +-----+----------------+------------------+--+-------------------+-----+
//! ```
//!
//! A [`BundleScan`] is fed the bytes of a bundle as they come. It holds the bytes seen of the
//! primary block, of a canonical block's heads or of a check field, and reads them as a whole. Its
//! findings can be read at any time, and one scan serves many bundles:
//!
//! ```text
//! let mut scan = BundleScan::new();
//! let taken = scan.feed(piece);            // stops after the bundle or a fault
//! match scan.state() {
//!     State::Going => {}                   // more bytes are needed
//!     State::Ended => {
//!         let bundle = scan.view()?;       // by reference; `finish` returns a value
//!         let payload = scan.payload_seen();
//!     }
//!     State::Failed(fault, offset) => {}
//! }
//! scan.restart();                          // the next byte is a bundle's first
//! ```
//!
//! The verdict depends only on the bytes, however they are cut into pieces. It is the definition
//! `verdict` of link_bundle_blocks. The crate `link_bundle_types` has the types, and
//! `link_bundle_heads` judges the heads.
#![tactic(auto)]

mod block_scan;
mod cursor;
mod draft;
mod held;
mod hold;
mod part;
mod scan;
mod stage;
mod whole;

pub use link_bundle_blocks::{BlockView, CanonicalBlock, PrimaryBlock, PrimaryView};
pub use link_bundle_types::{
    BLOCK_LIMIT, BundleFault, BundleInfo, BundleView, EID_LIMIT, Eid, EidView, State,
};
pub use part::part_in;
pub use scan::BundleScan;
