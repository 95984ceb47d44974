//! Scans bundles, one after another, in pieces of any size.

use link_bundle::{BundleFault, BundleScan, State};
use link_cbor::Piecewise;

/// The result of scanning a piece.
#[derive(Clone, Copy, Debug, PartialEq, Eq)]
pub enum Found {
    /// The bundle goes on. If its payload was reached: the payload's offset in the bundle, and the
    /// number of its bytes seen.
    Part(Option<(u64, u64)>),
    /// A bundle ended: its sequence number, the length of its payload, and the number of bytes of
    /// the piece that belong to it.
    Bundle {
        sequence: u64,
        payload: u64,
        taken: usize,
    },
    /// The bytes are no bundle: the first fault, and its offset in the bundle.
    Fault(BundleFault, u64),
    /// The bundle so far and the piece have 2^63 bytes or more, which no scan takes.
    TooLong,
}

/// Scans the next piece.
///
/// After a bundle or a fault the scan is new. The bytes of the piece that follow a bundle are for
/// the next call.
pub fn scan_piece(scan: &mut BundleScan, piece: &[u8]) -> Found {
    if scan.count().saturating_add(piece.len() as u64) >= 1 << 63 {
        return Found::TooLong;
    }
    let taken = scan.feed(piece);
    if matches!(scan.state(), State::Going) {
        return Found::Part(scan.payload_seen());
    }
    let found = match scan.view() {
        Ok(bundle) => Found::Bundle {
            sequence: bundle.sequence,
            payload: bundle.payload,
            taken,
        },
        Err((fault, offset)) => Found::Fault(fault, offset),
    };
    scan.restart();
    found
}
