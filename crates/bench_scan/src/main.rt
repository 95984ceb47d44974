//! Scans and checks over 64 MiB each, for a comparison of their user times.
//!
//! - `scan` feeds a scan a bundle with a CRC-32C in the payload block.
//! - `plain` feeds a scan a bundle without a check.
//! - `bundles` feeds a scan small bundles, one after another, with a CRC-32C in the primary block.
//! - `crc16-slices` and `crc32-slices` push the bytes into a check in pieces.
//! - `crc16-bytes` and `crc32-bytes` push the bytes into a check one by one.
#![tactic(auto)]

ghost use Rattle.std.specs.Prelude.{◌≤◌, length};

use link_bundle::{BundleScan, State};
use link_cbor::{Check, CheckKind, Piecewise};
use std::{env, io};

/// A bundle up to its payload, which has 64 MiB by its head.
///
/// The check type of the payload block is CRC-32C.
const FRONT: &[u8] =
    b"\x9f\x88\x07\x00\x00\x82\x02\x82\x02\x01\x82\x02\x82\x01\x01\x82\x01\x00\x82\x00\x00\x00\x86\x01\x01\x00\x02\x5a\x04\x00\x00\x00";

/// The same bundle without a check.
const PLAIN_FRONT: &[u8] =
    b"\x9f\x88\x07\x00\x00\x82\x02\x82\x02\x01\x82\x02\x82\x01\x01\x82\x01\x00\x82\x00\x00\x00\x85\x01\x01\x00\x00\x5a\x04\x00\x00\x00";

/// A bundle up to its payload, which has 153 bytes by its head.
///
/// The primary block has a CRC-32C and a dtn name.
const SMALL_FRONT: &[u8] =
    b"\x9f\x89\x07\x00\x02\x82\x01\x68\x2f\x2f\x6e\x6f\x64\x65\x2f\x61\x82\x02\x82\x01\x01\x82\x01\x00\x82\x19\xff\xff\x00\x1a\x00\x36\xee\x80\x44\x48\xff\xfe\x80\x85\x01\x01\x00\x00\x58\x99";

/// The number of bundles of 200 bytes that make 64 MiB.
const BUNDLES: u32 = 335_544;

/// The number of pieces of 4,096 bytes that make 64 MiB.
const PIECES: u32 = 16_384;

fn scanned(front: &[u8]) -> u64
    requires { length front.now ≤ 32 }
{
    let piece = [0xa5; 4096];
    let mut scan = BundleScan::new();
    scan.feed(front);
    for _done in 0..PIECES {
        scan.feed(&piece);
    }
    scan.count()
}

/// Scans the small bundles, and returns how many are whole.
fn bundles() -> u64 {
    let mut bytes = [0xff; 200];
    bytes[..46].copy_from_slice(SMALL_FRONT);
    let mut scan = BundleScan::new();
    let mut whole = 0;
    for _done in 0..BUNDLES {
        scan.restart();
        scan.feed(&bytes);
        if matches!(scan.state(), State::Ended) {
            whole += 1;
        }
    }
    whole
}

/// Pushes the bytes of a piece one by one.
#[inline(always)]
fn push_bytes(check: &mut Check, piece: &[u8]) {
    for byte in piece {
        check.push(*byte);
    }
}

fn checked(kind: CheckKind) -> u64 {
    let piece = [0xa5; 4096];
    let mut check = Check::new(kind);
    for _ in 0..PIECES {
        push_bytes(&mut check, &piece);
    }
    u64::from(check.value())
}

fn checked_in_slices(kind: CheckKind) -> u64 {
    let piece = [0xa5; 4096];
    let mut check = Check::new(kind);
    for _ in 0..PIECES {
        check.push_slice(&piece);
    }
    u64::from(check.value())
}

/// The answer of the work of this name, or this answer if there is no such work.
#[inline(never)]
fn measured(work: &str, answer: u64) -> u64 {
    match work {
        "scan" => scanned(FRONT),
        "plain" => scanned(PLAIN_FRONT),
        "bundles" => bundles(),
        "crc32-bytes" => checked(CheckKind::Crc32),
        "crc32-slices" => checked_in_slices(CheckKind::Crc32),
        "crc16-bytes" => checked(CheckKind::Crc16),
        "crc16-slices" => checked_in_slices(CheckKind::Crc16),
        _ => answer,
    }
}

fn main(rt: HostRuntime) -> io::Result<()> {
    let mut answer = 0;
    for word in env::args(&rt)? {
        answer = measured(word.as_str(), answer);
    }
    println!(rt; "{answer}")?;
    Ok(())
}
