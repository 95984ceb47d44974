//! Tests of the data of blocks.

mod rows;
mod scans;
