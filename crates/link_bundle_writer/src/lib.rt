//! Writing bundles (RFC 9171) piece by piece into slices.
//!
//! A bundle is [`FIRST_BYTE`], its primary block, canonical blocks of which the payload block is
//! the last, and [`LAST_BYTE`]. The head of a canonical block is written apart from its data, since
//! a payload may be large, and so is its check field:
//!
//! ```ignore
//! let head = BlockHead { block_type: 1, number: 1, flags: 0, check, data_length };
//! let size = write_block_head(&head, &mut bytes)?;
//! let mut sum = Check::new(kind);
//! sum.push_slice(&bytes[..size]);
//! send(&bytes[..size])?;
//! for piece in payload {
//!     sum.push_slice(piece);
//!     send(piece)?;
//! }
//! let size = write_check(kind, &sum, &mut bytes)?;
//! send(&bytes[..size])?;
//! ```
//!
//! Heads are as short as can be. What a scan refuses is not written: a dtn name of more than 1,024
//! bytes, flags that do not say whether the bundle is a fragment, a block number that the type does
//! not have. The caller sees to the rest: at most 64 canonical blocks, whose numbers are distinct,
//! with the payload block as the last. Then the bundle is good ([`laws::bundle_reads_back`]).
#![tactic(auto)]

mod block;
mod check;
mod contents;
mod eid;
mod head;
pub mod laws;
mod primary;

pub use block::{BLOCK_HEAD_MAX, BlockHead, write_block_head};
pub use check::{CHECK_MAX, write_check};
pub use contents::{AGE_MAX, HOP_COUNT_MAX, write_age, write_hop_count};
pub use eid::{EID_MAX, write_eid};
pub use link_bundle_types::EidView;
pub use link_cbor::{Check, CheckKind};
pub use link_writing::WriteFault;
pub use primary::{NewPrimary, PRIMARY_MAX, write_primary};

/// The first byte of a bundle: it opens an array of indefinite length (RFC 9171 section 4.1).
pub const FIRST_BYTE: u8 = 0x9f;

/// The last byte of a bundle: the break of this array (RFC 8949 section 3.2.1).
pub const LAST_BYTE: u8 = 0xff;
