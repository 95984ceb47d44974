//! What the C library shows, as structs of numbers.
//!
//! `include/tcpclkit.h` declares these structs, whose fields have 64 bits. The functions make them
//! from messages, blocks, bundles and faults, or read them. A field that a value does not have is
//! 0. The exports of `tcpclkit_c` take and give these structs.
#![tactic(auto)]

pub mod block;
pub mod bundle;
pub mod fault;
pub mod named;
pub mod order;
pub mod recording;
pub mod status;
