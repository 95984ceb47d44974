//! What the writers of the C library take and return, as structs of numbers.
//!
//! The functions make the values that the writers take of the structs of
//! [`link_ffi_numbers`](link_ffi_numbers), and of what the writers return the struct [`Written`]
//! and a status. Numbers that are those of no value have no result: the export then answers
//! `TCPCLKIT_RANGE`.
//!
//! A caller in C keeps a check between two calls, as [`KeptCheck`].
#![tactic(auto)]

mod bundle;
mod check;
mod message;
mod written;

pub use bundle::{block_head_by, check_by, form_shown, primary_by};
pub use check::KeptCheck;
pub use message::{fields_by, item_numbers, reason_of_by};
pub use written::{Written, written_shown};
