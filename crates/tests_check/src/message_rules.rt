//! Tests of the rules of messages and of transfers.

mod alone;
mod assigned;
mod judging;
mod lengths;
mod ordered;
mod second;
mod together;
