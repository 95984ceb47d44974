//! Heads of RFC 8949 appendix A, byte by byte.

use link_cbor::{Head, HeadScan, HeadStep, Piecewise};
use std::process::Abort;

const MORE: HeadStep = HeadStep::More;

const BAD: HeadStep = HeadStep::Bad;

/// Compares the outcome of a scan with the expected one.
fn comes_to(rt: &impl Abort, scan: &HeadScan, bytes: &[u8], outcome: HeadStep) {
    assert_eq!(rt; scan.outcome(), outcome, "{bytes:?}");
}

/// Checks how many of the bytes a scan consumes, and its outcome.
fn feeds(rt: &impl Abort, scan: &mut HeadScan, bytes: &[u8], taken: usize, outcome: HeadStep) {
    assert!(rt; scan.count() < 10 && bytes.len() < 16);
    assert_eq!(rt; scan.feed(bytes), taken, "{bytes:?}");
    comes_to(rt, scan, bytes, outcome);
}

/// Feeds a new scan all bytes at once. If it needs no more, it consumes none when it is fed again.
fn compare_at_once(rt: &impl Abort, bytes: &[u8], taken: usize, outcome: HeadStep) {
    let mut scan = HeadScan::new();
    feeds(rt, &mut scan, bytes, taken, outcome);
    if outcome != MORE {
        feeds(rt, &mut scan, bytes, 0, outcome);
    }
}

/// Reads the head at the front of the bytes.
fn compare_front(rt: &impl Abort, bytes: &[u8], taken: usize, outcome: HeadStep) {
    let front = match outcome {
        HeadStep::Done(head) => Some((head, taken)),
        _ => None,
    };
    assert_eq!(rt; Head::front(bytes), front, "{bytes:?}");
}

/// Feeds a new scan the bytes one by one.
fn compare_by_bytes(rt: &impl Abort, bytes: &[u8], taken: usize, outcome: HeadStep) {
    let mut scan = HeadScan::new();
    for &byte in bytes {
        assert!(rt; scan.count() < 10);
        scan.feed(&[byte]);
    }
    assert_eq!(rt; scan.count(), taken as u64, "{bytes:?}");
    comes_to(rt, &scan, bytes, outcome);
}

/// Compares the outcome of the bytes with the expected one, and the number of bytes consumed.
fn compare(rt: &impl Abort, bytes: &[u8], taken: usize, outcome: HeadStep) {
    compare_at_once(rt, bytes, taken, outcome);
    compare_front(rt, bytes, taken, outcome);
    compare_by_bytes(rt, bytes, taken, outcome);
}

/// Bytes after the head, cut heads, arguments in more bytes than needed, two-byte simple values.
static SINGLE: [(&[u8], usize, HeadStep); 21] = [
    (b"", 0, MORE),
    (
        b"\x18\x05\x07",
        2,
        HeadStep::Done(Head {
            major: 0,
            value: Some(5),
        }),
    ),
    (
        b"\x9f\x00",
        1,
        HeadStep::Done(Head {
            major: 4,
            value: None,
        }),
    ),
    (
        b"\xff\xff",
        1,
        HeadStep::Done(Head {
            major: 7,
            value: None,
        }),
    ),
    (
        b"\x5f",
        1,
        HeadStep::Done(Head {
            major: 2,
            value: None,
        }),
    ),
    (
        b"\xc0",
        1,
        HeadStep::Done(Head {
            major: 6,
            value: Some(0),
        }),
    ),
    (b"\x1c", 1, BAD),
    (b"\x1e\x00", 1, BAD),
    (b"\x1f", 1, BAD),
    (b"\x3f", 1, BAD),
    (b"\xf8", 1, MORE),
    (b"\xf8\x00", 2, BAD),
    (b"\xf8\x1f\x20", 2, BAD),
    (
        b"\xf8\x20",
        2,
        HeadStep::Done(Head {
            major: 7,
            value: Some(32),
        }),
    ),
    (b"\x1b\x00\x00\x00\x00\x00\x00\x00", 8, MORE),
    (
        b"\x1b\x00\x00\x00\x00\x00\x00\x00\x07",
        9,
        HeadStep::Done(Head {
            major: 0,
            value: Some(7),
        }),
    ),
    (
        b"\x18\x00",
        2,
        HeadStep::Done(Head {
            major: 0,
            value: Some(0),
        }),
    ),
    (
        b"\x39\x00\x01",
        3,
        HeadStep::Done(Head {
            major: 1,
            value: Some(1),
        }),
    ),
    (
        b"\x5a\x00\x00\x00\x02",
        5,
        HeadStep::Done(Head {
            major: 2,
            value: Some(2),
        }),
    ),
    (
        b"\x79\x04\x01",
        3,
        HeadStep::Done(Head {
            major: 3,
            value: Some(1025),
        }),
    ),
    (
        b"\x98\x04",
        2,
        HeadStep::Done(Head {
            major: 4,
            value: Some(4),
        }),
    ),
];

#[test]
fn takes_one_head(rt: HostRuntime) {
    for &(bytes, taken, outcome) in &SINGLE {
        compare(&rt, bytes, taken, outcome);
    }
}

/// The heads of RFC 8949 appendix A, and arguments longer than needed.
///
/// Each row has the bytes, the major type and the value.
///
/// The number 2 is encoded in one, two, four and eight bytes for each major type.
static HEADS: [(&[u8], u8, Option<u64>); 86] = [
    (b"\x00", 0, Some(0)),
    (b"\x01", 0, Some(1)),
    (b"\x0a", 0, Some(10)),
    (b"\x17", 0, Some(23)),
    (b"\x18\x18", 0, Some(24)),
    (b"\x18\x19", 0, Some(25)),
    (b"\x18\x64", 0, Some(100)),
    (b"\x19\x03\xe8", 0, Some(1000)),
    (b"\x1a\x00\x0f\x42\x40", 0, Some(1000000)),
    (
        b"\x1b\x00\x00\x00\xe8\xd4\xa5\x10\x00",
        0,
        Some(0xe8_d4a5_1000),
    ),
    (
        b"\x1b\xff\xff\xff\xff\xff\xff\xff\xff",
        0,
        Some(0xffff_ffff_ffff_ffff),
    ),
    (
        b"\x3b\xff\xff\xff\xff\xff\xff\xff\xff",
        1,
        Some(0xffff_ffff_ffff_ffff),
    ),
    (b"\x20", 1, Some(0)),
    (b"\x29", 1, Some(9)),
    (b"\x38\x63", 1, Some(99)),
    (b"\x39\x03\xe7", 1, Some(999)),
    (b"\xf9\x00\x00", 7, Some(0)),
    (b"\xf9\x80\x00", 7, Some(32768)),
    (b"\xf9\x3c\x00", 7, Some(15360)),
    (
        b"\xfb\x3f\xf1\x99\x99\x99\x99\x99\x9a",
        7,
        Some(0x3ff1_9999_9999_999a),
    ),
    (b"\xf9\x7b\xff", 7, Some(31743)),
    (b"\xfa\x47\xc3\x50\x00", 7, Some(0x47c3_5000)),
    (b"\xfa\x7f\x7f\xff\xff", 7, Some(0x7f7f_ffff)),
    (
        b"\xfb\x7e\x37\xe4\x3c\x88\x00\x75\x9c",
        7,
        Some(0x7e37_e43c_8800_759c),
    ),
    (b"\xf9\x00\x01", 7, Some(1)),
    (
        b"\xfb\xc0\x10\x66\x66\x66\x66\x66\x66",
        7,
        Some(0xc010_6666_6666_6666),
    ),
    (b"\xf9\x7c\x00", 7, Some(31744)),
    (b"\xfa\x7f\xc0\x00\x00", 7, Some(0x7fc0_0000)),
    (
        b"\xfb\xff\xf0\x00\x00\x00\x00\x00\x00",
        7,
        Some(0xfff0_0000_0000_0000),
    ),
    (b"\xf4", 7, Some(20)),
    (b"\xf5", 7, Some(21)),
    (b"\xf6", 7, Some(22)),
    (b"\xf7", 7, Some(23)),
    (b"\xf0", 7, Some(16)),
    (b"\xf8\xff", 7, Some(255)),
    (b"\x40", 2, Some(0)),
    (b"\x44", 2, Some(4)),
    (b"\x60", 3, Some(0)),
    (b"\x61", 3, Some(1)),
    (b"\x64", 3, Some(4)),
    (b"\x80", 4, Some(0)),
    (b"\x83", 4, Some(3)),
    (b"\x98\x19", 4, Some(25)),
    (b"\xa0", 5, Some(0)),
    (b"\xa2", 5, Some(2)),
    (b"\xc0", 6, Some(0)),
    (b"\xc1", 6, Some(1)),
    (b"\xd7", 6, Some(23)),
    (b"\xd8\x18", 6, Some(24)),
    (b"\xd8\x20", 6, Some(32)),
    (b"\x5f", 2, None),
    (b"\x7f", 3, None),
    (b"\x9f", 4, None),
    (b"\xbf", 5, None),
    (b"\xff", 7, None),
    (b"\x18\x02", 0, Some(2)),
    (b"\x19\x00\x02", 0, Some(2)),
    (b"\x1a\x00\x00\x00\x02", 0, Some(2)),
    (b"\x1b\x00\x00\x00\x00\x00\x00\x00\x02", 0, Some(2)),
    (b"\x38\x02", 1, Some(2)),
    (b"\x39\x00\x02", 1, Some(2)),
    (b"\x3a\x00\x00\x00\x02", 1, Some(2)),
    (b"\x3b\x00\x00\x00\x00\x00\x00\x00\x02", 1, Some(2)),
    (b"\x58\x02", 2, Some(2)),
    (b"\x59\x00\x02", 2, Some(2)),
    (b"\x5a\x00\x00\x00\x02", 2, Some(2)),
    (b"\x5b\x00\x00\x00\x00\x00\x00\x00\x02", 2, Some(2)),
    (b"\x78\x02", 3, Some(2)),
    (b"\x79\x00\x02", 3, Some(2)),
    (b"\x7a\x00\x00\x00\x02", 3, Some(2)),
    (b"\x7b\x00\x00\x00\x00\x00\x00\x00\x02", 3, Some(2)),
    (b"\x98\x02", 4, Some(2)),
    (b"\x99\x00\x02", 4, Some(2)),
    (b"\x9a\x00\x00\x00\x02", 4, Some(2)),
    (b"\x9b\x00\x00\x00\x00\x00\x00\x00\x02", 4, Some(2)),
    (b"\xb8\x02", 5, Some(2)),
    (b"\xb9\x00\x02", 5, Some(2)),
    (b"\xba\x00\x00\x00\x02", 5, Some(2)),
    (b"\xbb\x00\x00\x00\x00\x00\x00\x00\x02", 5, Some(2)),
    (b"\xd8\x02", 6, Some(2)),
    (b"\xd9\x00\x02", 6, Some(2)),
    (b"\xda\x00\x00\x00\x02", 6, Some(2)),
    (b"\xdb\x00\x00\x00\x00\x00\x00\x00\x02", 6, Some(2)),
    (b"\xf9\x00\x02", 7, Some(2)),
    (b"\xfa\x00\x00\x00\x02", 7, Some(2)),
    (b"\xfb\x00\x00\x00\x00\x00\x00\x00\x02", 7, Some(2)),
];

/// Bytes whose additional information no head has.
static ILL_FORMED: [&[u8]; 27] = [
    b"\x1c", b"\x1d", b"\x1e", b"\x3c", b"\x3d", b"\x3e", b"\x5c", b"\x5d", b"\x5e", b"\x7c",
    b"\x7d", b"\x7e", b"\x9c", b"\x9d", b"\x9e", b"\xbc", b"\xbd", b"\xbe", b"\xdc", b"\xdd",
    b"\xde", b"\xfc", b"\xfd", b"\xfe", b"\x1f", b"\x3f", b"\xdf",
];

/// Checks whether a head is of indefinite length (RFC 8949 section 3.2). The break is not.
fn expect_length(rt: &impl Abort, bytes: &[u8], head: Head) {
    let is_indefinite = matches!(bytes, [0x5f | 0x7f | 0x9f | 0xbf]);
    assert_eq!(rt; head.is_indefinite(), is_indefinite, "{bytes:?}");
}

#[test]
fn reads_single_heads(rt: HostRuntime) {
    for &(bytes, major, value) in &HEADS {
        let head = Head { major, value };
        compare(&rt, bytes, bytes.len(), HeadStep::Done(head));
        expect_length(&rt, bytes, head);
    }
}

#[test]
fn reads_ill_formed_heads(rt: HostRuntime) {
    for &bytes in &ILL_FORMED {
        compare(&rt, bytes, bytes.len(), BAD);
    }
}
