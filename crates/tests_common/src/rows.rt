//! Worked streams that the tests of several tools use, and their texts.

use crate::stream::{
    BACK, CONTACT, CONTACT_LINE, FRONT, LENGTH_34, NO_ITEMS, NODE, PARAMETERS, Part, SESSION,
    SESSION_LINE, WHOLE_TRANSFER,
};
use link_tools::Wanted;

/// A stream of one transfer in one segment.
pub const TRANSFER: &[&[u8]] = &[
    CONTACT,
    PARAMETERS,
    NODE,
    NO_ITEMS,
    WHOLE_TRANSFER,
    LENGTH_34,
    FRONT,
    BACK,
];

/// The lines of `TRANSFER`.
pub const TRANSFER_LINES: &[&[u8]] = &[
    CONTACT_LINE,
    SESSION_LINE,
    b"38 xfer-segment flags=03 id=0 items=0 length=34\n",
];

/// The bundle in two transfers of two segments each: 186 bytes.
pub const TWO_BUNDLES: &[Part] = &[
    Part::Bytes(SESSION),
    Part::Segment(2, 0, &[FRONT]),
    Part::Segment(1, 0, &[BACK]),
    Part::Segment(2, 1, &[FRONT]),
    Part::Segment(1, 1, &[BACK]),
];

/// The end of a transfer's line, if the data of the transfer is the bundle.
pub const GOOD: &[u8] = b" good source=ipn:1.1 time=0 sequence=0 destination=ipn:2.1 payload=5\n";

/// The report of unpacking the bundle in one transfer.
pub const BUNDLE_REPORT: &[&[u8]] = &[b"transfer 0 start=0 written=34 length=34", GOOD];

/// The report of unpacking `TWO_BUNDLES`.
pub const TWO_BUNDLES_REPORT: &[&[u8]] = &[
    b"transfer 0 start=0 written=34 length=34",
    GOOD,
    b"transfer 1 start=34 written=34 length=34",
    GOOD,
];

/// All data of all transfers.
pub const ALL: Wanted = Wanted {
    only: None,
    payload: false,
    keep_going: false,
};
