//! Tests of the node IDs of a command line: how long they may be.

use crate::options::comes_to;
use std::alloc::{AllocError, Global};
use std::process::Abort;
use std::test::Fail;

/// A node ID of this many characters, and one byte more.
fn node_of(alloc: Global, size: usize) -> Result<String, AllocError> {
    let mut node = String::from_str(alloc, "é")?;
    for _ in 1..size {
        node.push_str("n")?;
    }
    Ok(node)
}

/// Checks the outcome of a node ID of this many characters.
fn node_comes_to(rt: &impl Abort, alloc: Global, size: usize, expected: &str) -> Result<(), Fail> {
    let node = node_of(alloc, size)?;
    comes_to(rt, alloc, expected, &["pack", "--node", node.as_str()])
}

#[test]
fn node_ids(rt: HostRuntime) -> Result<(), Fail> {
    node_comes_to(&rt, rt.alloc(), 1023, "taken")?;
    node_comes_to(&rt, rt.alloc(), 1024, "node too long")?;
    node_comes_to(&rt, rt.alloc(), 2000, "node too long")
}

/// A node ID of this many characters, which names a node if there are 7 or more.
fn own_of(alloc: Global, size: usize) -> Result<String, AllocError> {
    let mut own = String::from_str(alloc, "dtn://")?;
    for _ in 7..size {
        own.push_str("n")?;
    }
    own.push_str("/")?;
    Ok(own)
}

/// Checks the outcome of a value of `--own` of this many characters.
fn own_comes_to(rt: &impl Abort, alloc: Global, size: usize, expected: &str) -> Result<(), Fail> {
    let own = own_of(alloc, size)?;
    comes_to(rt, alloc, expected, &["check", "--own", own.as_str()])?;
    comes_to(
        rt,
        alloc,
        expected,
        &["check", "--bundles", "--own", own.as_str()],
    )
}

#[test]
fn own_ids(rt: HostRuntime) -> Result<(), Fail> {
    own_comes_to(&rt, rt.alloc(), 1024, "taken")?;
    own_comes_to(&rt, rt.alloc(), 1025, "node too long")
}
