//! Test devices, worked streams, and checks of runs of the tools over test devices.
//!
//! The devices move bytes in small pieces, hold some of them, and fail at a chosen call. The tests
//! of each tool are in a crate of their own, such as `tests_list`. A check of this crate returns a
//! [`std::test::Fail`] that says what differs.
#![tactic(auto)]

pub mod checks;
mod device;
pub mod failures;
mod holding;
pub mod judging;
mod pace;
pub mod packing;
pub mod rows;
pub mod running;
pub mod stepping;
pub mod stream;

pub use device::{TestReader, TestWriter};
pub use holding::HoldingReader;
pub use pace::Failing;
