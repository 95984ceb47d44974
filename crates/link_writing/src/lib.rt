//! What all writers of messages and bundles share: how they write into a slice of the caller.
//!
//! A writer makes its bytes, and then writes them to the start of a slice. If the slice is too
//! small, nothing is written, and the error says which length would do. The `put_` calls append to
//! a buffer of fixed size, in which short pieces are made.
#![tactic(auto)]

mod fault;
mod give;
mod put;

pub use fault::WriteFault;
pub use give::{write_bytes, write_parts};
pub use put::{put_bytes, put_u8, put_u16, put_u32, put_u64};
