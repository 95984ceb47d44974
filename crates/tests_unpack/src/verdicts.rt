//! Tests of the bundle with a change, in one segment: its verdict, and the payload that is written.

ghost use Rattle.std.specs.Prelude.{◌≤◌};

use crate::transfers::PAYLOAD;
use link_tools::Wanted;
use std::alloc::Global;
use std::test::Fail;
use tests_common::rows::ALL;
use tests_common::running::{Expected, Tool, gives_at_each_pace};
use tests_common::stream::{CHANGED_BACK, CHECKED_BACK, PLAIN, SESSION, joined, put_segment};

/// The range of the bundle's bytes that is replaced, the new bytes, the verdict, and the payload's
/// bytes.
type Changed = ([usize; 2], &'static [u8], &'static str, &'static [u8]);

const GOOD: &str = "good source=ipn:1.1 time=0 sequence=0 destination=ipn:2.1 payload=5";

static PRIMARY: [Changed; 17] = [
    // no array of indefinite length
    ([0, 1], b"\x85", "bad=B3 byte=0", b""),
    // seven elements
    ([1, 2], b"\x87", "bad=B6 byte=1", b""),
    // a block of 2^64 - 1 elements
    (
        [1, 34],
        b"\x9b\xff\xff\xff\xff\xff\xff\xff\xff",
        "bad=B6 byte=1",
        b"",
    ),
    // version 6
    ([2, 3], b"\x06", "bad=B7 byte=2", b""),
    // a long spelling of the version
    ([2, 3], b"\x1a\x00\x00\x00\x07", GOOD, b"hello"),
    // an ill-formed head
    ([3, 4], b"\x1c", "bad=B4 byte=3", b""),
    // a byte string in place of the flags
    ([3, 4], b"\x40", "bad=B5 byte=3", b""),
    // a simple value below 32 in two bytes
    ([3, 4], b"\xf8\x1f", "bad=B4 byte=3", b""),
    // a simple value
    ([3, 4], b"\xf8\x20", "bad=B5 byte=3", b""),
    // check type 3
    ([4, 5], b"\x03", "bad=B8 byte=4", b""),
    // a check type without its field
    ([4, 5], b"\x01", "bad=B6 byte=4", b""),
    // scheme 3
    ([6, 7], b"\x03", "bad=B9 byte=6", b""),
    // no array in scheme ipn
    ([7, 8], b"\x00", "bad=B10 byte=7", b""),
    // a name of 1,025 bytes
    ([5, 34], b"\x82\x01\x79\x04\x01", "bad=B11 byte=7", b""),
    // an ipn part of four numbers
    (
        [5, 10],
        b"\x82\x02\x84\x00\x02\x01\x01",
        "bad=B6 byte=7",
        b"",
    ),
    // an ipn part of one number
    ([5, 10], b"\x82\x02\x81\x02", "bad=B6 byte=7", b""),
    // a byte string in place of the service number
    ([5, 10], b"\x82\x02\x83\x00\x02\x40", "bad=B5 byte=10", b""),
];

static NAMES: [Changed; 4] = [
    // a fragment
    (
        [1, 22],
        b"\x8a\x07\x01\x00\x82\x02\x82\x02\x01\x82\x02\x82\x01\x01\x82\x01\x00\x82\x00\x00\x00\x05\x0a",
        "good source=ipn:1.1 time=0 sequence=0 destination=ipn:2.1 payload=5 fragment=5/10",
        b"hello",
    ),
    // a dtn name
    (
        [5, 10],
        b"\x82\x01\x68//node/a",
        "good source=ipn:1.1 time=0 sequence=0 destination=dtn://node/a payload=5",
        b"hello",
    ),
    // three ipn numbers, with allocator identifier 0
    (
        [5, 10],
        b"\x82\x02\x83\x00\x02\x01",
        "good source=ipn:1.1 time=0 sequence=0 destination=ipn:0.2.1 payload=5",
        b"hello",
    ),
    // three ipn numbers
    (
        [10, 15],
        b"\x82\x02\x83\x19\x03\xe8\x01\x01",
        "good source=ipn:1000.1.1 time=0 sequence=0 destination=ipn:2.1 payload=5",
        b"hello",
    ),
];

static BLOCKS: [Changed; 12] = [
    // the bundle as it is
    ([34, 34], b"", GOOD, b"hello"),
    // no bytes
    ([0, 34], b"", "bad=B1 byte=0", b""),
    // without its last byte
    ([33, 34], b"", "bad=B1 byte=33", b"hello"),
    // a byte after the break
    ([34, 34], b"\x00", "bad=B2 byte=34", b"hello"),
    // a payload block of number 2
    ([24, 25], b"\x02", "bad=B14 byte=24", b""),
    // a block number twice
    (
        [22, 22],
        b"\x85\x0a\x02\x00\x00\x40\x85\x0a\x02\x00\x00\x40",
        "bad=B15 byte=30",
        b"",
    ),
    // a block after the payload block
    (
        [33, 33],
        b"\x85\x0a\x02\x00\x00\x40",
        "bad=B17 byte=33",
        b"hello",
    ),
    // no payload block
    ([22, 34], b"\xff", "bad=B17 byte=22", b""),
    // a payload of 2^64 - 1 bytes
    (
        [27, 34],
        b"\x5b\xff\xff\xff\xff\xff\xff\xff\xff\x01\x02\x03",
        "bad=B1 byte=39",
        b"\x01\x02\x03",
    ),
    // a check
    ([17, 34], CHECKED_BACK, GOOD, b"hello"),
    // a check, and another byte under it
    ([17, 34], CHANGED_BACK, "bad=B13 byte=33", b"iello"),
    // a check of three bytes
    (
        [22, 34],
        b"\x86\x01\x01\x00\x01\x45hello\x43\x4b\xf3\x00\xff",
        "bad=B12 byte=33",
        b"hello",
    ),
];

/// Checks that unpacking one transfer gives this output and this verdict.
fn judged(
    alloc: Global,
    wanted: Wanted,
    bundle: &[u8],
    output: &[u8],
    verdict: &str,
) -> Result<(), Fail> {
    let mut stream = joined(alloc, SESSION)?;
    put_segment(&mut stream, 3, 0, &[bundle])?;
    let (written, length) = (output.len(), bundle.len());
    let report = format!(in alloc;
        "transfer 0 start=0 written={written} length={length} {verdict}\n"
    )?;
    let want = Expected {
        tool: Tool::Unpack(wanted),
        output,
        report: report.as_bytes(),
        status: if verdict.starts_with("good ") { 0 } else { 1 },
    };
    gives_at_each_pace(alloc, verdict, &stream, &want)
}

/// Checks the verdict, with all data of the bundle written and with only its payload written.
fn judged_both_ways(
    alloc: Global,
    bundle: &[u8],
    verdict: &str,
    payload: &[u8],
) -> Result<(), Fail> {
    judged(alloc, ALL, bundle, bundle, verdict)?;
    judged(alloc, PAYLOAD, bundle, payload, verdict)
}

/// The bundle with other bytes in place of this range of its bytes.
fn with_change(alloc: Global, range: [usize; 2], by: &[u8]) -> Result<Vec<u8>, Fail> {
    let plain = joined(alloc, PLAIN)?;
    let [from, to] = range;
    let front = plain.get(..from).ok_or("more than the bundle")?;
    let back = plain.get(to..).ok_or("more than the bundle")?;
    joined(alloc, &[front, by, back])
}

fn all_judged(alloc: Global, table: &[Changed]) -> Result<(), Fail> {
    for changed in table {
        let (range, by, verdict, payload) = *changed;
        judged_both_ways(alloc, &with_change(alloc, range, by)?, verdict, payload)?;
    }
    Ok(())
}

#[test]
fn primary_blocks(rt: HostRuntime) -> Result<(), Fail> {
    all_judged(rt.alloc(), &PRIMARY)
}

#[test]
fn names(rt: HostRuntime) -> Result<(), Fail> {
    all_judged(rt.alloc(), &NAMES)
}

#[test]
fn canonical_blocks(rt: HostRuntime) -> Result<(), Fail> {
    all_judged(rt.alloc(), &BLOCKS)
}

/// The bundle with this many blocks before its payload block, numbered from 2.
fn with_blocks(alloc: Global, blocks: u8) -> Result<Vec<u8>, Fail>
    requires { blocks ≤ 64 }
{
    let plain = joined(alloc, PLAIN)?;
    let mut bundle = joined(alloc, &[plain.get(..22).ok_or("a short bundle")?])?;
    for number in 2..blocks + 2 {
        put_block(&mut bundle, number)?;
    }
    bundle.extend_from_slice(plain.get(22..).ok_or("a short bundle")?)?;
    Ok(bundle)
}

/// Appends an extension block of this number, with empty data.
fn put_block(bundle: &mut Vec<u8>, number: u8) -> Result<(), Fail> {
    bundle.extend_from_slice(b"\x85\x0a")?;
    if number >= 24 {
        bundle.push(0x18)?;
    }
    bundle.extend_from_slice(&[number, 0x00, 0x00, 0x40])?;
    Ok(())
}

#[test]
fn most_blocks(rt: HostRuntime) -> Result<(), Fail> {
    judged_both_ways(rt.alloc(), &with_blocks(rt.alloc(), 63)?, GOOD, b"hello")
}

#[test]
fn too_many_blocks(rt: HostRuntime) -> Result<(), Fail> {
    judged_both_ways(
        rt.alloc(),
        &with_blocks(rt.alloc(), 64)?,
        "bad=B16 byte=448",
        b"",
    )
}

/// A payload of 9,000 bytes, which is longer than a window.
#[test]
fn long_payload(rt: HostRuntime) -> Result<(), Fail> {
    let mut payload = Vec::new(rt.alloc());
    for number in 0_u16..9000 {
        payload.push((number % 251) as u8)?;
    }
    let plain = joined(rt.alloc(), PLAIN)?;
    let front = plain.get(..27).ok_or("a short bundle")?;
    let bundle = joined(rt.alloc(), &[front, b"\x59\x23\x28", &payload, b"\xff"])?;
    let verdict = "good source=ipn:1.1 time=0 sequence=0 destination=ipn:2.1 payload=9000";
    judged_both_ways(rt.alloc(), &bundle, verdict, &payload)
}
