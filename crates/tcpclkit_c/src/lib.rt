//! The C library: what a program in C calls, over the libraries of this repository.
//!
//! `include/tcpclkit.h` declares every export and says what its caller owes. An export takes
//! slices, numbers and the structs of numbers of `link_ffi_numbers`. It tests what a caller may get
//! wrong, calls one proved function, and writes the answer as numbers. Its contract has the words
//! of that function's contract.
//!
//! An export of [`scan`] that takes a pointer has a condition: a scan lies there, or memory for
//! one. No loan follows a raw pointer, so the contract says what memory the caller gives up and
//! gets back. No other export has a condition.
#![tactic(auto)]

ghost use Rattle.std.specs.Prelude.{◌≡◌};

mod announced;
mod answer;
mod bundle;
mod order;
mod recording;
mod scan;
mod text;
mod tool;
mod writing;

/// The version of the interface, `TCPCLKIT_ABI`.
const ABI: u32 = 4;

/// The version of the interface of the header that this library belongs to.
#[unsafe(no_mangle)]
pub extern "C" fn tcpclkit_abi() -> u32
    ensures { result ≡ 4 }
{
    ABI
}
