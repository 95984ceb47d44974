//! CBOR heads (RFC 8949 section 3) and the check values of bundles (RFC 9171 section 4.2.1).
//!
//! Both are computed from bytes that come one at a time or in slices of any size.
//!
//! ```text
//! |<---------- first byte ---------->|
//! +------------+---------------------+--------------------------------+
//! | major type | additional          | argument: 0, 1, 2, 4 or 8      |
//! | 3 bits     | information, 5 bits | bytes, most significant first  |
//! +------------+---------------------+--------------------------------+
//! |<------------------------------ head ----------------------------->|
//! ```
//!
//! A [`HeadScan`] is fed bytes until its [`Head`] is complete. The head has the major type and the
//! value of the argument. The caller reads what follows the head, such as the bytes of a string or
//! the items of an array:
//!
//! ```rust
//! let mut scan = HeadScan::new();
//! scan.feed(b"\x19\x03"); // 2: both bytes belong to the head
//! scan.outcome(); // HeadStep::More
//! scan.feed(b"\xe8\xff"); // 1: the head ends with the first of them
//! scan.outcome(); // HeadStep::Done(Head { major: 0, value: Some(1000) })
//! ```
//!
//! A [`Check`] is pushed the bytes of a block and returns their check value:
//!
//! ```rust
//! let mut check = Check::new(CheckKind::Crc32);
//! check.push_slice(b"12345678");
//! check.push(b'9');
//! check.value(); // 0xe306_9283
//! ```
//!
//! [`Piecewise`] is the trait of [`HeadScan`] and of the scans that are built on it. Such a scan
//! consumes the same bytes however they are cut into slices.
#![tactic(auto)]

mod check;
mod head;
mod head_scan;
mod piecewise;

pub use check::{Check, CheckKind};
pub use head::{Head, HeadStep};
pub use head_scan::HeadScan;
pub use piecewise::Piecewise;
