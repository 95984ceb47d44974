//! The data of the blocks of a bundle, read as the bundle comes (RFC 9171 section 4.4).
//!
//! A [`DataReader`] follows the scan of a bundle block by block. It reads the data of each block in
//! place, where the block's type says that this data is read.
//!
//! ```ignore
//! let count = scan.feed_block(piece);
//! match scan.ended_block() {
//!     Some(ended) => reader.follow(before, &piece[..count], &ended, &scan),
//!     None => reader.follow_cut(before, &piece[..count], &scan),
//! }
//! let found = reader.found();
//! ```
#![tactic(auto)]

mod data;

pub use data::DataReader;
