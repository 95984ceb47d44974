//! Verdicts on bytes fed at once, byte by byte, and in two pieces cut at every position.
ghost use Rattle.std.specs.Prelude.{◌<◌};

use link_bundle::{BundleFault, BundleScan, BundleView, EidView, State};
use link_cbor::Piecewise;
use std::alloc::{AllocError, Global};
use std::ops::Range;
use std::process::Abort;
use std::test::Fail;

mod outside;

use outside::{BUNDLES, LARGE_FRONT, LARGE_REST};

/// The expected fault and its offset, or `None` for a bundle.
type Fault = Option<(BundleFault, u64)>;

/// A bundle without checks, from ipn:1.1 to ipn:2.1, with report-to dtn:none and payload `hello`.
const PLAIN: &[u8] =
    b"\x9f\x88\x07\x00\x00\x82\x02\x82\x02\x01\x82\x02\x82\x01\x01\x82\x01\x00\x82\x00\x00\x00\x85\x01\x01\x00\x00\x45\x68\x65\x6c\x6c\x6f\xff";

/// Bytes with a fault, and the offset of the fault.
static FAULTS: [(&[u8], BundleFault, u64); 37] = [
    // a byte changed that the check covers
    (
        b"\x9f\x88\x07\x00\x00\x82\x02\x82\x02\x01\x82\x02\x82\x01\x01\x82\x01\x00\x82\x00\x00\x00\x86\x01\x01\x00\x01\x45\x69\x65\x6c\x6c\x6f\x42\x4b\xf3\xff",
        BundleFault::CheckDiffers,
        33,
    ),
    // a check of three bytes
    (
        b"\x9f\x88\x07\x00\x00\x82\x02\x82\x02\x01\x82\x02\x82\x01\x01\x82\x01\x00\x82\x00\x00\x00\x86\x01\x01\x00\x01\x45\x68\x65\x6c\x6c\x6f\x43\x4b\xf3\x00\xff",
        BundleFault::BadCheckLength,
        33,
    ),
    // a byte after the break
    (
        b"\x9f\x88\x07\x00\x00\x82\x02\x82\x02\x01\x82\x02\x82\x01\x01\x82\x01\x00\x82\x00\x00\x00\x85\x01\x01\x00\x00\x45\x68\x65\x6c\x6c\x6f\xff\x00",
        BundleFault::Trailing,
        34,
    ),
    // the last byte missing
    (
        b"\x9f\x88\x07\x00\x00\x82\x02\x82\x02\x01\x82\x02\x82\x01\x01\x82\x01\x00\x82\x00\x00\x00\x85\x01\x01\x00\x00\x45\x68\x65\x6c\x6c\x6f",
        BundleFault::Cut,
        33,
    ),
    // no byte
    (b"", BundleFault::Cut, 0),
    // no array of indefinite length
    (
        b"\x85\x88\x07\x00\x00\x82\x02\x82\x02\x01\x82\x02\x82\x01\x01\x82\x01\x00\x82\x00\x00\x00\x85\x01\x01\x00\x00\x45\x68\x65\x6c\x6c\x6f\xff",
        BundleFault::NotABundle,
        0,
    ),
    // seven elements
    (
        b"\x9f\x87\x07\x00\x00\x82\x02\x82\x02\x01\x82\x02\x82\x01\x01\x82\x01\x00\x82\x00\x00\x00\x85\x01\x01\x00\x00\x45\x68\x65\x6c\x6c\x6f\xff",
        BundleFault::BadCount,
        1,
    ),
    // version 6
    (
        b"\x9f\x88\x06\x00\x00\x82\x02\x82\x02\x01\x82\x02\x82\x01\x01\x82\x01\x00\x82\x00\x00\x00\x85\x01\x01\x00\x00\x45\x68\x65\x6c\x6c\x6f\xff",
        BundleFault::BadVersion,
        2,
    ),
    // an ill-formed head
    (
        b"\x9f\x88\x07\x1c\x00\x82\x02\x82\x02\x01\x82\x02\x82\x01\x01\x82\x01\x00\x82\x00\x00\x00\x85\x01\x01\x00\x00\x45\x68\x65\x6c\x6c\x6f\xff",
        BundleFault::BadHead,
        3,
    ),
    // bytes in place of the flags
    (
        b"\x9f\x88\x07\x40\x00\x82\x02\x82\x02\x01\x82\x02\x82\x01\x01\x82\x01\x00\x82\x00\x00\x00\x85\x01\x01\x00\x00\x45\x68\x65\x6c\x6c\x6f\xff",
        BundleFault::WrongKind,
        3,
    ),
    // check type 3
    (
        b"\x9f\x88\x07\x00\x03\x82\x02\x82\x02\x01\x82\x02\x82\x01\x01\x82\x01\x00\x82\x00\x00\x00\x85\x01\x01\x00\x00\x45\x68\x65\x6c\x6c\x6f\xff",
        BundleFault::BadCheckType,
        4,
    ),
    // a check type without its field
    (
        b"\x9f\x88\x07\x00\x01\x82\x02\x82\x02\x01\x82\x02\x82\x01\x01\x82\x01\x00\x82\x00\x00\x00\x85\x01\x01\x00\x00\x45\x68\x65\x6c\x6c\x6f\xff",
        BundleFault::BadCount,
        4,
    ),
    // scheme 3
    (
        b"\x9f\x88\x07\x00\x00\x82\x03\x82\x02\x01\x82\x02\x82\x01\x01\x82\x01\x00\x82\x00\x00\x00\x85\x01\x01\x00\x00\x45\x68\x65\x6c\x6c\x6f\xff",
        BundleFault::BadScheme,
        6,
    ),
    // no array in scheme ipn
    (
        b"\x9f\x88\x07\x00\x00\x82\x02\x00\x02\x01\x82\x02\x82\x01\x01\x82\x01\x00\x82\x00\x00\x00\x85\x01\x01\x00\x00\x45\x68\x65\x6c\x6c\x6f\xff",
        BundleFault::BadSpecificPart,
        7,
    ),
    // a payload block of number 2
    (
        b"\x9f\x88\x07\x00\x00\x82\x02\x82\x02\x01\x82\x02\x82\x01\x01\x82\x01\x00\x82\x00\x00\x00\x85\x01\x02\x00\x00\x45\x68\x65\x6c\x6c\x6f\xff",
        BundleFault::BadBlockNumber,
        24,
    ),
    // a simple value below 32 in two bytes
    (
        b"\x9f\x88\x07\xf8\x1f\x00\x82\x02\x82\x02\x01\x82\x02\x82\x01\x01\x82\x01\x00\x82\x00\x00\x00\x85\x01\x01\x00\x00\x45\x68\x65\x6c\x6c\x6f\xff",
        BundleFault::BadHead,
        3,
    ),
    // a simple value
    (
        b"\x9f\x88\x07\xf8\x20\x00\x82\x02\x82\x02\x01\x82\x02\x82\x01\x01\x82\x01\x00\x82\x00\x00\x00\x85\x01\x01\x00\x00\x45\x68\x65\x6c\x6c\x6f\xff",
        BundleFault::WrongKind,
        3,
    ),
    // a name of 1,025 bytes
    (
        b"\x9f\x88\x07\x00\x00\x82\x01\x79\x04\x01",
        BundleFault::EidTooLong,
        7,
    ),
    // a block number twice
    (
        b"\x9f\x88\x07\x00\x00\x82\x02\x82\x02\x01\x82\x02\x82\x01\x01\x82\x01\x00\x82\x00\x00\x00\x85\x0a\x02\x00\x00\x40\x85\x0a\x02\x00\x00\x40\x85\x01\x01\x00\x00\x45\x68\x65\x6c\x6c\x6f\xff",
        BundleFault::RepeatedBlockNumber,
        30,
    ),
    // a block after the payload block
    (
        b"\x9f\x88\x07\x00\x00\x82\x02\x82\x02\x01\x82\x02\x82\x01\x01\x82\x01\x00\x82\x00\x00\x00\x85\x01\x01\x00\x00\x45\x68\x65\x6c\x6c\x6f\x85\x0a\x02\x00\x00\x40\xff",
        BundleFault::NoPayloadLast,
        33,
    ),
    // no payload block
    (
        b"\x9f\x88\x07\x00\x00\x82\x02\x82\x02\x01\x82\x02\x82\x01\x01\x82\x01\x00\x82\x00\x00\x00\xff",
        BundleFault::NoPayloadLast,
        22,
    ),
    // a payload of 2^64 - 1 bytes
    (
        b"\x9f\x88\x07\x00\x00\x82\x02\x82\x02\x01\x82\x02\x82\x01\x01\x82\x01\x00\x82\x00\x00\x00\x85\x01\x01\x00\x00\x5b\xff\xff\xff\xff\xff\xff\xff\xff\x01\x02\x03",
        BundleFault::Cut,
        39,
    ),
    // a block of 2^64 - 1 elements
    (
        b"\x9f\x9b\xff\xff\xff\xff\xff\xff\xff\xff",
        BundleFault::BadCount,
        1,
    ),
    // a cut head after the payload
    (
        b"\x9f\x88\x07\x00\x00\x82\x02\x82\x02\x01\x82\x02\x82\x01\x01\x82\x01\x00\x82\x00\x00\x00\x85\x01\x01\x00\x00\x45\x68\x65\x6c\x6c\x6f\x1b\x00",
        BundleFault::Cut,
        35,
    ),
    // an ill-formed head after the payload
    (
        b"\x9f\x88\x07\x00\x00\x82\x02\x82\x02\x01\x82\x02\x82\x01\x01\x82\x01\x00\x82\x00\x00\x00\x85\x01\x01\x00\x00\x45\x68\x65\x6c\x6c\x6f\xf8\x1f",
        BundleFault::BadHead,
        33,
    ),
    // a block number twice, the second time encoded in more bytes than needed
    (
        b"\x9f\x88\x07\x00\x00\x82\x02\x82\x02\x01\x82\x02\x82\x01\x01\x82\x01\x00\x82\x00\x00\x00\x85\x0a\x02\x00\x00\x40\x85\x0a\x18\x02\x00\x00\x40\x85\x01\x01\x00\x00\x45\x68\x65\x6c\x6c\x6f\xff",
        BundleFault::RepeatedBlockNumber,
        30,
    ),
    // type 1 with the number of an earlier block
    (
        b"\x9f\x88\x07\x00\x00\x82\x02\x82\x02\x01\x82\x02\x82\x01\x01\x82\x01\x00\x82\x00\x00\x00\x85\x0a\x02\x00\x00\x40\x85\x01\x02\x00\x00\x45\x68\x65\x6c\x6c\x6f\xff",
        BundleFault::BadBlockNumber,
        30,
    ),
    // a check field whose length is encoded in more bytes than needed
    (
        b"\x9f\x88\x07\x00\x00\x82\x02\x82\x02\x01\x82\x02\x82\x01\x01\x82\x01\x00\x82\x00\x00\x00\x86\x01\x01\x00\x01\x45\x68\x65\x6c\x6c\x6f\x58\x02\x4b\xf3\xff",
        BundleFault::CheckDiffers,
        33,
    ),
    // an ipn part of four numbers
    (
        b"\x9f\x88\x07\x00\x00\x82\x02\x84\x00\x02\x01\x01\x82\x02\x82\x01\x01\x82\x01\x00\x82\x00\x00\x00\x85\x01\x01\x00\x00\x45\x68\x65\x6c\x6c\x6f\xff",
        BundleFault::BadCount,
        7,
    ),
    // an ipn part of one number
    (
        b"\x9f\x88\x07\x00\x00\x82\x02\x81\x02\x82\x02\x82\x01\x01\x82\x01\x00\x82\x00\x00\x00\x85\x01\x01\x00\x00\x45\x68\x65\x6c\x6c\x6f\xff",
        BundleFault::BadCount,
        7,
    ),
    // bytes in place of the service number, after an allocator identifier
    (
        b"\x9f\x88\x07\x00\x00\x82\x02\x83\x00\x02\x40\x82\x02\x82\x01\x01\x82\x01\x00\x82\x00\x00\x00\x85\x01\x01\x00\x00\x45\x68\x65\x6c\x6c\x6f\xff",
        BundleFault::WrongKind,
        10,
    ),
    // a payload of indefinite length
    (
        b"\x9f\x88\x07\x00\x00\x82\x02\x82\x02\x01\x82\x02\x82\x01\x01\x82\x01\x00\x82\x00\x00\x00\x85\x01\x01\x00\x00\x5f\x45\x68\x65\x6c\x6c\x6f\xff\xff",
        BundleFault::WrongDataKind,
        27,
    ),
    // tag 24 before a payload
    (
        b"\x9f\x88\x07\x00\x00\x82\x02\x82\x02\x01\x82\x02\x82\x01\x01\x82\x01\x00\x82\x00\x00\x00\x85\x01\x01\x00\x00\xd8\x18\x45\x68\x65\x6c\x6c\x6f\xff",
        BundleFault::WrongDataKind,
        27,
    ),
    // a text in place of the data of another block
    (
        b"\x9f\x88\x07\x00\x00\x82\x02\x82\x02\x01\x82\x02\x82\x01\x01\x82\x01\x00\x82\x00\x00\x00\x85\x0a\x02\x00\x00\x60",
        BundleFault::WrongDataKind,
        27,
    ),
    // a text in place of a check value, in the primary block and in the payload block
    (
        b"\x9f\x89\x07\x00\x01\x82\x02\x82\x02\x01\x82\x02\x82\x01\x01\x82\x01\x00\x82\x00\x00\x00\x62\x00\x00",
        BundleFault::WrongCheckKind,
        22,
    ),
    (
        b"\x9f\x88\x07\x00\x00\x82\x02\x82\x02\x01\x82\x02\x82\x01\x01\x82\x01\x00\x82\x00\x00\x00\x86\x01\x01\x00\x01\x45\x68\x65\x6c\x6c\x6f\x00\xff",
        BundleFault::WrongCheckKind,
        33,
    ),
    // a check value of indefinite length
    (
        b"\x9f\x88\x07\x00\x00\x82\x02\x82\x02\x01\x82\x02\x82\x01\x01\x82\x01\x00\x82\x00\x00\x00\x86\x01\x01\x00\x01\x45\x68\x65\x6c\x6c\x6f\x5f\x42\x4b\xf3\xff\xff",
        BundleFault::WrongCheckKind,
        33,
    ),
];

/// Whole bundles, and their fields.
static WHOLE: [Expected; 10] = [
    // the plain bundle
    Expected {
        bytes: PLAIN,
        destination: EidView::Ipn(2, 1),
        source: EidView::Ipn(1, 1),
        report_to: EidView::DtnNone,
        numbers: [0, 0, 0, 0, 1, 5],
        fragment: None,
    },
    // with a check
    Expected {
        bytes: b"\x9f\x88\x07\x00\x00\x82\x02\x82\x02\x01\x82\x02\x82\x01\x01\x82\x01\x00\x82\x00\x00\x00\x86\x01\x01\x00\x01\x45\x68\x65\x6c\x6c\x6f\x42\x4b\xf3\xff",
        destination: EidView::Ipn(2, 1),
        source: EidView::Ipn(1, 1),
        report_to: EidView::DtnNone,
        numbers: [0, 0, 0, 0, 1, 5],
        fragment: None,
    },
    // the version encoded in more bytes than needed
    Expected {
        bytes: b"\x9f\x88\x1a\x00\x00\x00\x07\x00\x00\x82\x02\x82\x02\x01\x82\x02\x82\x01\x01\x82\x01\x00\x82\x00\x00\x00\x85\x01\x01\x00\x00\x45\x68\x65\x6c\x6c\x6f\xff",
        destination: EidView::Ipn(2, 1),
        source: EidView::Ipn(1, 1),
        report_to: EidView::DtnNone,
        numbers: [0, 0, 0, 0, 1, 5],
        fragment: None,
    },
    // a fragment
    Expected {
        bytes: b"\x9f\x8a\x07\x01\x00\x82\x02\x82\x02\x01\x82\x02\x82\x01\x01\x82\x01\x00\x82\x00\x00\x00\x05\x0a\x85\x01\x01\x00\x00\x45\x68\x65\x6c\x6c\x6f\xff",
        destination: EidView::Ipn(2, 1),
        source: EidView::Ipn(1, 1),
        report_to: EidView::DtnNone,
        numbers: [1, 0, 0, 0, 1, 5],
        fragment: Some((5, 10)),
    },
    // a dtn name
    Expected {
        bytes: b"\x9f\x88\x07\x00\x00\x82\x01\x68\x2f\x2f\x6e\x6f\x64\x65\x2f\x61\x82\x02\x82\x01\x01\x82\x01\x00\x82\x00\x00\x00\x85\x01\x01\x00\x00\x45\x68\x65\x6c\x6c\x6f\xff",
        destination: EidView::Dtn(b"//node/a"),
        source: EidView::Ipn(1, 1),
        report_to: EidView::DtnNone,
        numbers: [0, 0, 0, 0, 1, 5],
        fragment: None,
    },
    // a block number that differs from an earlier one above 32 bits
    Expected {
        bytes: b"\x9f\x88\x07\x00\x00\x82\x02\x82\x02\x01\x82\x02\x82\x01\x01\x82\x01\x00\x82\x00\x00\x00\x85\x0a\x02\x00\x00\x40\x85\x0a\x1b\x00\x00\x00\x01\x00\x00\x00\x02\x00\x00\x40\x85\x01\x01\x00\x00\x45\x68\x65\x6c\x6c\x6f\xff",
        destination: EidView::Ipn(2, 1),
        source: EidView::Ipn(1, 1),
        report_to: EidView::DtnNone,
        numbers: [0, 0, 0, 0, 3, 5],
        fragment: None,
    },
    // three ipn numbers, with the allocator identifier 0
    Expected {
        bytes: b"\x9f\x88\x07\x00\x00\x82\x02\x83\x00\x02\x01\x82\x02\x82\x01\x01\x82\x01\x00\x82\x00\x00\x00\x85\x01\x01\x00\x00\x45\x68\x65\x6c\x6c\x6f\xff",
        destination: EidView::Ipn3(0, 2, 1),
        source: EidView::Ipn(1, 1),
        report_to: EidView::DtnNone,
        numbers: [0, 0, 0, 0, 1, 5],
        fragment: None,
    },
    // three ipn numbers
    Expected {
        bytes: b"\x9f\x88\x07\x00\x00\x82\x02\x82\x02\x01\x82\x02\x83\x19\x03\xe8\x01\x01\x82\x01\x00\x82\x00\x00\x00\x85\x01\x01\x00\x00\x45\x68\x65\x6c\x6c\x6f\xff",
        destination: EidView::Ipn(2, 1),
        source: EidView::Ipn3(1000, 1, 1),
        report_to: EidView::DtnNone,
        numbers: [0, 0, 0, 0, 1, 5],
        fragment: None,
    },
    // three dtn names
    Expected {
        bytes: b"\x9f\x88\x07\x00\x00\x82\x01\x68\x2f\x2f\x6e\x6f\x64\x65\x2f\x61\x82\x01\x63\x2f\x2f\x62\x82\x01\x65\x2f\x2f\x63\x63\x63\x82\x00\x00\x00\x85\x01\x01\x00\x00\x45\x68\x65\x6c\x6c\x6f\xff",
        destination: EidView::Dtn(b"//node/a"),
        source: EidView::Dtn(b"//b"),
        report_to: EidView::Dtn(b"//ccc"),
        numbers: [0, 0, 0, 0, 1, 5],
        fragment: None,
    },
    // three ipn numbers as report-to endpoint
    Expected {
        bytes: b"\x9f\x88\x07\x00\x00\x82\x02\x82\x02\x01\x82\x02\x82\x01\x01\x82\x02\x83\x07\x08\x09\x82\x00\x00\x00\x85\x01\x01\x00\x00\x45\x68\x65\x6c\x6c\x6f\xff",
        destination: EidView::Ipn(2, 1),
        source: EidView::Ipn(1, 1),
        report_to: EidView::Ipn3(7, 8, 9),
        numbers: [0, 0, 0, 0, 1, 5],
        fragment: None,
    },
];

/// The offset of the payload, and the number of its bytes that are there.
static PAYLOADS: [(&[u8], Option<(u64, u64)>); 9] = [
    // nothing of the payload block
    (
        b"\x9f\x88\x07\x00\x00\x82\x02\x82\x02\x01\x82\x02\x82\x01\x01\x82\x01\x00\x82\x00\x00\x00",
        None,
    ),
    // without the data's head
    (
        b"\x9f\x88\x07\x00\x00\x82\x02\x82\x02\x01\x82\x02\x82\x01\x01\x82\x01\x00\x82\x00\x00\x00\x85\x01\x01\x00\x00",
        None,
    ),
    // the data's head alone
    (
        b"\x9f\x88\x07\x00\x00\x82\x02\x82\x02\x01\x82\x02\x82\x01\x01\x82\x01\x00\x82\x00\x00\x00\x85\x01\x01\x00\x00\x45",
        Some((28, 0)),
    ),
    // cut after the payload
    (
        b"\x9f\x88\x07\x00\x00\x82\x02\x82\x02\x01\x82\x02\x82\x01\x01\x82\x01\x00\x82\x00\x00\x00\x85\x01\x01\x00\x00\x45\x68\x65\x6c\x6c\x6f",
        Some((28, 5)),
    ),
    // whole
    (PLAIN, Some((28, 5))),
    // a check that differs
    (
        b"\x9f\x88\x07\x00\x00\x82\x02\x82\x02\x01\x82\x02\x82\x01\x01\x82\x01\x00\x82\x00\x00\x00\x86\x01\x01\x00\x01\x45\x69\x65\x6c\x6c\x6f\x42\x4b\xf3\xff",
        Some((28, 5)),
    ),
    // trailing bytes
    (
        b"\x9f\x88\x07\x00\x00\x82\x02\x82\x02\x01\x82\x02\x82\x01\x01\x82\x01\x00\x82\x00\x00\x00\x85\x01\x01\x00\x00\x45\x68\x65\x6c\x6c\x6f\xff\x00\x00",
        Some((28, 5)),
    ),
    // a fault before the payload
    (
        b"\x9f\x88\x07\x40\x00\x82\x02\x82\x02\x01\x82\x02\x82\x01\x01\x82\x01\x00\x82\x00\x00\x00\x85\x01\x01\x00\x00\x45\x68\x65\x6c\x6c\x6f\xff",
        None,
    ),
    // three bytes of a payload of 2^64 - 1 bytes
    (
        b"\x9f\x88\x07\x00\x00\x82\x02\x82\x02\x01\x82\x02\x82\x01\x01\x82\x01\x00\x82\x00\x00\x00\x85\x01\x01\x00\x00\x5b\xff\xff\xff\xff\xff\xff\xff\xff\x01\x02\x03",
        Some((36, 3)),
    ),
];

/// A bundle, and the fields that a scan of it has to report.
struct Expected {
    bytes: &'static [u8],
    destination: EidView<'static>,
    source: EidView<'static>,
    report_to: EidView<'static>,
    /// Flags, time, sequence number, lifetime, blocks and payload length.
    numbers: [u64; 6],
    fragment: Option<(u64, u64)>,
}

/// Feeds a piece, and passes the byte after the end of a bundle to `step`.
fn give(rt: &impl Abort, scan: &mut BundleScan, bytes: &[u8]) {
    assert!(rt; scan.count() < 1_000_000 && bytes.len() < 1_000_000);
    let taken = scan.feed(bytes);
    if let (State::Ended, [byte, ..]) = (scan.state(), &bytes[taken..]) {
        scan.step(*byte);
    }
}

fn in_two(rt: &impl Abort, bytes: &[u8], cut: usize) -> BundleScan {
    let (front, back) = bytes.split_at(bytes.len().min(cut));
    let mut scan = BundleScan::new();
    give(rt, &mut scan, front);
    give(rt, &mut scan, back);
    scan
}

fn by_bytes(rt: &impl Abort, bytes: &[u8]) -> BundleScan {
    let mut scan = BundleScan::new();
    for byte in bytes {
        give(rt, &mut scan, &[*byte]);
    }
    scan
}

/// Checks how a scan ends. The bytes were cut at this position, or into pieces of this size.
fn ends(rt: &impl Abort, scan: &BundleScan, fault: Fault, cut: usize) {
    assert_eq!(rt; scan.finish().err(), fault, "cut at {cut}");
}

fn expect_cuts(rt: &impl Abort, bytes: &[u8], cuts: Range<usize>, fault: Fault) {
    for cut in cuts {
        ends(rt, &in_two(rt, bytes, cut), fault, cut);
    }
}

fn expect_fault(rt: &impl Abort, bytes: &[u8], fault: Fault) {
    ends(rt, &by_bytes(rt, bytes), fault, 1);
    expect_cuts(rt, bytes, 0..bytes.len(), fault);
}

#[test]
fn faults(rt: HostRuntime) {
    for &(bytes, fault, place) in &FAULTS {
        expect_fault(&rt, bytes, Some((fault, place)));
    }
}

/// Checks the offset and the size of the payload that a scan saw, as `ends` does.
fn saw(rt: &impl Abort, scan: &BundleScan, payload: Option<(u64, u64)>, cut: usize) {
    assert_eq!(rt; scan.payload_seen(), payload, "cut at {cut}");
}

fn expect_payload(rt: &impl Abort, bytes: &[u8], payload: Option<(u64, u64)>) {
    saw(rt, &by_bytes(rt, bytes), payload, 1);
    for cut in 0..bytes.len() {
        saw(rt, &in_two(rt, bytes, cut), payload, cut);
    }
}

#[test]
fn payloads(rt: HostRuntime) {
    for &(bytes, payload) in &PAYLOADS {
        expect_payload(&rt, bytes, payload);
    }
}

#[test]
fn a_scan_shows_its_state_and_count(rt: HostRuntime) -> Result<(), Fail> {
    let mut scan = BundleScan::new();
    scan.feed(b"\x9f\x88\x07");
    let text = format!(in rt.alloc(); "{scan:?}")?;
    assert_eq!(rt; text.as_str(), "BundleScan { state: Going, count: 3, .. }");
    Ok(())
}

/// Checks the state of a scan.
fn is_in(rt: &impl Abort, scan: &BundleScan, state: State) {
    assert_eq!(rt; scan.state(), state);
}

/// Checks how many bytes a scan takes of these.
fn takes(rt: &impl Abort, scan: &mut BundleScan, bytes: &[u8], count: usize) {
    assert!(rt; scan.count() < 1_000_000 && bytes.len() < 1_000_000);
    assert_eq!(rt; scan.feed(bytes), count);
}

#[test]
fn steps_past_the_end(rt: HostRuntime) {
    let mut scan = BundleScan::new();
    is_in(&rt, &scan, State::Going);
    ends(&rt, &scan, Some((BundleFault::Cut, 0)), 0);
    takes(&rt, &mut scan, PLAIN, PLAIN.len());
    is_in(&rt, &scan, State::Ended);
    give(&rt, &mut scan, b"\x00");
    is_in(&rt, &scan, State::Failed(BundleFault::Trailing, 34));
    takes(&rt, &mut scan, b"\x00", 0);
}

fn expect_info(rt: &impl Abort, info: &BundleView, expected: &Expected) {
    let names = [info.destination, info.source, info.report_to];
    assert_eq!(rt;
        names,
        [expected.destination, expected.source, expected.report_to]
    );
    let numbers = [
        info.flags,
        info.time,
        info.sequence,
        info.lifetime,
        info.blocks,
        info.payload,
    ];
    assert_eq!(rt;
        (numbers, info.fragment),
        (expected.numbers, expected.fragment)
    );
}

fn expect_view(rt: &impl Abort, scan: &BundleScan, expected: &Expected) {
    match scan.view() {
        Ok(view) => expect_info(rt, &view, expected),
        Err(_) => assert!(rt; false),
    }
}

/// Checks the fields of a bundle that was scanned, by reference and as they are kept.
fn expect_both(rt: &impl Abort, scan: &BundleScan, expected: &Expected) {
    expect_view(rt, scan, expected);
    match scan.finish() {
        Ok(info) => expect_info(rt, &info.view(), expected),
        Err(_) => assert!(rt; false),
    }
}

fn expect_bundles(rt: &impl Abort, bundles: &[Expected]) {
    for expected in bundles {
        expect_fault(rt, expected.bytes, None);
        expect_both(rt, &by_bytes(rt, expected.bytes), expected);
    }
}

/// Restarts the scan and feeds it the bytes in pieces of this size.
fn in_pieces(rt: &impl Abort, scan: &mut BundleScan, bytes: &[u8], size: usize)
    requires { 0 < size }
{
    scan.restart();
    for piece in bytes.chunks(size) {
        give(rt, scan, piece);
    }
}

/// Feeds the scan the bundle in pieces of 1 to 40 bytes, and restarts it for each size.
fn expect_pieces(rt: &impl Abort, scan: &mut BundleScan, expected: &Expected) {
    let payload = by_bytes(rt, expected.bytes).payload_seen();
    for size in 1..41 {
        in_pieces(rt, scan, expected.bytes, size);
        ends(rt, scan, None, size);
        saw(rt, scan, payload, size);
        expect_view(rt, scan, expected);
    }
}

/// Feeds one scan all bundles in pieces.
fn expect_all_pieces(rt: &impl Abort, bundles: &[Expected]) {
    let mut scan = BundleScan::new();
    for expected in bundles {
        expect_pieces(rt, &mut scan, expected);
    }
}

#[test]
fn whole_bundles_in_pieces(rt: HostRuntime) {
    expect_all_pieces(&rt, &WHOLE);
}

#[test]
fn bundles_of_another_encoder_in_pieces(rt: HostRuntime) {
    expect_all_pieces(&rt, &BUNDLES);
}

/// Compares a scan with one that was fed nothing.
fn expect_new(rt: &impl Abort, scan: &BundleScan) {
    assert!(rt; scan.count() == 0);
    is_in(rt, scan, State::Going);
    saw(rt, scan, None, 0);
}

/// Feeds a scan bytes and restarts it, and feeds it the plain bundle.
fn expect_restart(rt: &impl Abort, scan: &mut BundleScan, bytes: &[u8]) {
    scan.restart();
    expect_new(rt, scan);
    give(rt, scan, bytes);
    scan.restart();
    give(rt, scan, PLAIN);
    is_in(rt, scan, State::Ended);
}

/// A restarted scan is like a new one after each fault.
#[test]
fn faults_do_not_outlast_a_restart(rt: HostRuntime) {
    let mut scan = BundleScan::new();
    for &(bytes, _, _) in &FAULTS {
        expect_restart(&rt, &mut scan, bytes);
    }
}

#[test]
fn whole_bundles(rt: HostRuntime) {
    expect_bundles(&rt, &WHOLE);
}

#[test]
fn bundles_of_another_encoder(rt: HostRuntime) {
    expect_bundles(&rt, &BUNDLES);
}

/// The bundle with a payload of 70,000 bytes.
fn large(alloc: Global) -> Result<Vec<u8>, AllocError> {
    let mut bytes = LARGE_FRONT.to_vec(alloc)?;
    bytes.resize(LARGE_FRONT.len() + 70_000, 0xa5)?;
    bytes.extend_from_slice(LARGE_REST)?;
    Ok(bytes)
}

#[test]
fn a_large_payload_by_bytes(rt: HostRuntime) -> Result<(), Fail> {
    let bytes = large(rt.alloc())?;
    let scan = by_bytes(&rt, &bytes);
    ends(&rt, &scan, None, 1);
    saw(&rt, &scan, Some((LARGE_FRONT.len() as u64, 70_000)), 1);
    Ok(())
}

/// Cuts the bundle with the large payload in two, at each position of one of its eighths.
///
/// A test of all 70,042 positions would be near its time limit.
fn cut_in_eighth(rt: &(impl Abort + AllocGlobal), eighth: usize) -> Result<(), Fail>
    requires { eighth < 8 }
{
    let bytes = large(rt.alloc())?;
    let size = bytes.len().div_ceil(8).min(100_000);
    let end = bytes.len().min((eighth + 1) * size);
    expect_cuts(rt, &bytes, eighth * size..end, None);
    Ok(())
}

#[test]
fn a_large_payload_cut_in_its_first_eighth(rt: HostRuntime) -> Result<(), Fail> {
    cut_in_eighth(&rt, 0)
}

#[test]
fn a_large_payload_cut_in_its_second_eighth(rt: HostRuntime) -> Result<(), Fail> {
    cut_in_eighth(&rt, 1)
}

#[test]
fn a_large_payload_cut_in_its_third_eighth(rt: HostRuntime) -> Result<(), Fail> {
    cut_in_eighth(&rt, 2)
}

#[test]
fn a_large_payload_cut_in_its_fourth_eighth(rt: HostRuntime) -> Result<(), Fail> {
    cut_in_eighth(&rt, 3)
}

#[test]
fn a_large_payload_cut_in_its_fifth_eighth(rt: HostRuntime) -> Result<(), Fail> {
    cut_in_eighth(&rt, 4)
}

#[test]
fn a_large_payload_cut_in_its_sixth_eighth(rt: HostRuntime) -> Result<(), Fail> {
    cut_in_eighth(&rt, 5)
}

#[test]
fn a_large_payload_cut_in_its_seventh_eighth(rt: HostRuntime) -> Result<(), Fail> {
    cut_in_eighth(&rt, 6)
}

#[test]
fn a_large_payload_cut_in_its_last_eighth(rt: HostRuntime) -> Result<(), Fail> {
    cut_in_eighth(&rt, 7)
}

/// Appends a block with this number, without data.
fn put_block(bytes: &mut Vec<u8>, number: u8) -> Result<(), AllocError> {
    if number < 24 {
        bytes.extend_from_slice(&[0x85, 0x0a, number, 0x00, 0x00, 0x40])
    } else {
        bytes.extend_from_slice(&[0x85, 0x0a, 0x18, number, 0x00, 0x00, 0x40])
    }
}

/// The plain bundle with this many more blocks before its payload block, numbered from 2 on.
fn with_blocks(alloc: Global, blocks: u8) -> Result<Vec<u8>, AllocError> {
    let (front, back) = PLAIN.split_at(22);
    let mut bytes = front.to_vec(alloc)?;
    for number in 0..blocks {
        put_block(&mut bytes, number.saturating_add(2))?;
    }
    bytes.extend_from_slice(back)?;
    Ok(bytes)
}

#[test]
fn sixty_four_blocks(rt: HostRuntime) -> Result<(), Fail> {
    expect_fault(&rt, &with_blocks(rt.alloc(), 63)?, None);
    let fault = Some((BundleFault::TooManyBlocks, 448));
    expect_fault(&rt, &with_blocks(rt.alloc(), 64)?, fault);
    Ok(())
}
