//! The block-type-specific data of canonical blocks (RFC 9171 section 4.3.2), read in pieces of any
//! size.
//!
//! A [`DataScan`] takes the data of a block as it comes. At the end of the data its
//! [`view`](DataScan::view) is what the data says, or the offset in the data at which it is
//! malformed, and whether a limit of this toolkit is the reason. It needs no memory beside itself:
//!
//! ```text
//! let mut scan = DataScan::new(DataKind::HopCount);
//! scan.take(b"\x82\x18");
//! scan.take(b"\x20\x01");
//! scan.view();                          // Ok(DataView::HopCount(32, 1))
//! scan.restart(DataKind::BundleAge);    // the data of another block begins
//! scan.view();                          // Err: the data ends where its first head is due
//! ```
//!
//! The result depends only on the bytes, however they are cut into pieces. It is the definition
//! `data_of` of specs/BlockData.antt. The scan also finds the first head that is longer than its
//! number needs ([`long_head`](DataScan::long_head)).
#![tactic(auto)]

mod draft;
mod due;
mod kind;
mod row;
mod scan;
mod values;

pub use kind::DataKind;
pub use scan::DataScan;
pub use values::{Assertion, DataFault, DataView, Integer, Report, SecurityBlock, TARGETS_KEPT};
