//! Check values compared with another implementation, in slices and byte by byte.

use link_cbor::{Check, CheckKind};
use std::process::Abort;

/// Two blocks of sixteen bytes, and half a block.
const BYTES: &[u8; 40] = b"Sixteen bytes at a time, then one by one";

fn bytewise(kind: CheckKind, bytes: &[u8]) -> Check {
    let mut check = Check::new(kind);
    for &byte in bytes {
        check.push(byte);
    }
    check
}

fn in_slices(kind: CheckKind, front: &[u8], back: &[u8]) -> Check {
    let mut check = Check::new(kind);
    check.push_slice(front);
    check.push_slice(back);
    check
}

/// Checks the value of the bytes, pushed at once and one by one.
fn expect_value(rt: &impl Abort, kind: CheckKind, bytes: &[u8], value: u32) {
    assert_eq!(rt; in_slices(kind, bytes, b"").value(), value);
    assert_eq!(rt; bytewise(kind, bytes).value(), value);
}

/// Bytes, and their values under both kinds of check.
static VALUES: [(&[u8], u32, u32); 8] = [
    (b"", 0x0000, 0x0000_0000),
    (b"\x00", 0xf078, 0x527d_5351),
    (b"\xff", 0xff00, 0xff00_0000),
    (b"123456789", 0x906e, 0xe306_9283),
    (
        b"\x86\x01\x01\x00\x01\x45\x68\x65\x6c\x6c\x6f\x42\x00\x00",
        0x4bf3,
        0xb4ec_ae35,
    ),
    (&[0x00; 32], 0xcd70, 0x8a91_36aa),
    (&[0xff; 32], 0xe051, 0x62a8_ab43),
    (
        b"A block of sixteen bytes, and another of as many.",
        0xb3a6,
        0xe1a2_35a9,
    ),
];

/// The expected values are those of the Debian package python3-crcmod 1.7 (`x-25` and `crc-32c`).
#[test]
fn equals_outside_values(rt: HostRuntime) {
    for &(bytes, crc16, crc32) in &VALUES {
        expect_value(&rt, CheckKind::Crc16, bytes, crc16);
        expect_value(&rt, CheckKind::Crc32, bytes, crc32);
    }
}

/// Bytes, and the registers after them from a register of zero.
static REGISTERS: [(CheckKind, u8, u32); 4] = [
    (CheckKind::Crc16, 0x01, 0x1189),
    (CheckKind::Crc16, 0x80, 0x8408),
    (CheckKind::Crc32, 0x01, 0xf26b_8303),
    (CheckKind::Crc32, 0x80, 0x82f6_3b78),
];

/// Single bytes, by the registers after bytes from a register of zero.
///
/// After the byte 80, that register is the polynomial. A check begins with ones, so it has the same
/// register after the byte with other bits, but for ones that were not yet shifted out. The value
/// has all bits of the register turned.
#[test]
fn single_bytes(rt: HostRuntime) {
    for &(kind, byte, register) in &REGISTERS {
        let shifted = match kind {
            CheckKind::Crc16 => 0xff00,
            CheckKind::Crc32 => 0xff00_0000,
        };
        expect_value(&rt, kind, &[!byte], register ^ shifted);
    }
}

/// Compares the bytes pushed in two slices with the bytes one by one.
fn is_check(rt: &impl Abort, kind: CheckKind, front: &[u8], back: &[u8], expected: &Check) {
    assert!(rt;
        in_slices(kind, front, back) == *expected,
        "{front:?}, {back:?}"
    );
}

/// Compares the bytes cut in two at every position with the bytes one by one.
fn expect_slices(rt: &impl Abort, kind: CheckKind, bytes: &[u8]) {
    let expected = bytewise(kind, bytes);
    for cut in 0..=bytes.len() {
        let (front, back) = bytes.split_at(cut);
        is_check(rt, kind, front, back, &expected);
    }
}

#[test]
fn slices_of_every_length(rt: HostRuntime) {
    for length in 0..=40 {
        expect_slices(&rt, CheckKind::Crc16, &BYTES[..length]);
        expect_slices(&rt, CheckKind::Crc32, &BYTES[..length]);
    }
}
