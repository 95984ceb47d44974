//! Whole tools over slices: a recording or bundles are read from one slice, and the two texts are
//! written into two others.
//!
//! [`list_into`], [`unpack_into`], [`blocks_into`] and [`check_into`] run a tool that takes no
//! memory. The exports of the C library and of the module for browsers call them. [`run_into`] runs
//! any [`SliceTool`]. Options are numbers, in the order of the structs of `include/tcpclkit.h`.
#![tactic(auto)]

mod device;
mod history;
mod options;
mod reading;
mod running;
mod slice;
mod tool;

pub use device::{SliceReader, SliceWriter};
pub use options::{
    MoreNumbers, PackNumbers, more_in_range, more_numbers, pack_in_range, pack_numbers, packing_of,
};
pub use running::{Run, SliceTool, Wants, run_into};
pub use slice::copy_front;
pub use tool::{blocks_into, check_into, list_into, unpack_into};
