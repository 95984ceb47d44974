//! The lines of the tool that shows the blocks of bundles (RFC 9171 section 4.3).
//!
//! A primary block has a line in two texts, [`PrimaryStartText`] and [`PrimaryRestText`]. A
//! canonical block has the line [`BlockText`], and the end of a transfer has [`EndText`]:
//!
//! ```text
//! 0 primary at=1 length=21 flags=00 check=none destination=ipn:2.1 source=ipn:1.1
//!     report-to=dtn:none time=0 sequence=0 lifetime=0          (one line)
//! 0 block 2 at=22 length=8 type=7/bundle-age flags=00 check=none data-at=28 data-length=2 age=100
//! 0 block 1 at=30 length=7 type=1/payload flags=00 check=none data-at=36 data-length=1
//! 0 end length=38 good
//! ```
//!
//! [`data_kind`] says which data is read for the last words of a block's line, such as ` age=100`.
//! [`write_words`] writes these words. [`write_flags`] writes flags as the lines have them, and
//! [`block_type_name`] and [`report_reason_name`] are the names that the lines have.
#![tactic(auto)]

mod blocks;
mod fields;
mod kinds;
mod words;

pub use blocks::{BlockText, EndText, PrimaryRestText, PrimaryStartText};
pub use fields::{block_type_name, write_flags};
pub use kinds::data_kind;
pub use words::{WORDS_MAX, report_reason_name, write_integer, write_words};
