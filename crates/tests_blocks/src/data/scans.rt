//! The data of blocks, at once, byte by byte, and in two pieces cut at every position.
//!
//! The rows are encoded by hand from RFC 8949, RFC 9171 and RFC 9172.
ghost use Rattle.std.specs.Prelude.{◌+◌, ◌-◌, ◌^◌, ◌<◌, ◌≤◌, length};
ghost use Rattle.link_bundle_data.specs.Scan.{scan_size};

use super::rows::{GOOD, LONG, MALFORMED, NOT_READ, Row, TARGETS};
use link_bundle_data::{DataFault, DataKind, DataScan, DataView, Integer, SecurityBlock};
use link_bundle_types::EidView;
use std::process::Abort;
use std::test::Fail;

/// Restarts the scan and gives it the bytes in two pieces.
fn in_two(scan: &mut DataScan, kind: DataKind, bytes: &[u8], cut: usize)
    requires short { length bytes.now < 2 ^ 32 }
    requires within { cut ≤ length bytes.now }
{
    let (front, back) = bytes.split_at(cut);
    scan.restart(kind);
    scan.take(front);
    scan.take(back);
}

/// Restarts the scan and gives it the bytes one by one.
fn by_bytes(scan: &mut DataScan, kind: DataKind, bytes: &[u8])
    requires { length bytes.now < 2 ^ 32 }
{
    scan.restart(kind);
    for byte in bytes {
        scan.take(&[*byte]);
    }
}

/// Checks what the scanned data says.
fn says(
    rt: &impl Abort,
    scan: &DataScan,
    bytes: &[u8],
    expected: &Result<DataView<'_>, DataFault>,
) {
    assert_eq!(rt; scan.view(), *expected, "{bytes:?}");
}

/// Compares what the bytes are as data of this kind with what they have to be.
fn expect(
    rt: &impl Abort,
    scan: &mut DataScan,
    kind: DataKind,
    bytes: &[u8],
    expected: &Result<DataView<'_>, DataFault>,
) {
    assert!(rt; bytes.len() < 100_000);
    by_bytes(scan, kind, bytes);
    says(rt, scan, bytes, expected);
    for cut in 0..bytes.len() {
        in_two(scan, kind, bytes, cut);
        says(rt, scan, bytes, expected);
    }
}

/// The fault of data that is malformed at this offset.
fn malformed(offset: usize) -> DataFault {
    DataFault {
        offset: offset as u64,
        is_limit: false,
    }
}

/// The fault of data with an item at this offset that exceeds a limit of this toolkit.
fn not_read(offset: usize) -> DataFault {
    DataFault {
        offset: offset as u64,
        is_limit: true,
    }
}

/// The first bytes, up to an index, and then others.
fn replaced(rt: &(impl Abort + AllocGlobal), bytes: &[u8], at: usize, others: &[u8]) -> Vec<u8> {
    let front = bytes.get(..at).expect(rt, "an index within the bytes");
    let mut changed = front.to_vec(rt.alloc()).expect(rt, "memory");
    changed.extend_from_slice(others).expect(rt, "memory");
    changed
}

/// Data that ends inside its item is malformed where it ends.
fn expect_cut(rt: &impl Abort, scan: &mut DataScan, row: &Row) {
    for end in 0..row.end {
        let front = row.bytes.get(..end).expect(rt, "an item within its bytes");
        expect(rt, scan, row.kind, front, &Err(malformed(end)));
    }
}

/// Bytes after an item: a head, an ill-formed head, and two breaks.
static OTHERS: [&[u8]; 3] = [b"\x00", b"\x1c", b"\xff\xff"];

/// Checks data with other bytes after its item.
///
/// They are at fault after most items, and are not read after others.
fn expect_followed(rt: &(impl Abort + AllocGlobal), scan: &mut DataScan, row: &Row, others: &[u8]) {
    let longer = replaced(rt, row.bytes, row.end, others);
    if row.may_follow {
        expect(rt, scan, row.kind, &longer, &Ok(row.data));
    } else {
        expect(rt, scan, row.kind, &longer, &Err(malformed(row.end)));
    }
}

/// Checks data with each of `OTHERS` after its item.
fn expect_longer(rt: &(impl Abort + AllocGlobal), scan: &mut DataScan, row: &Row) {
    for &others in &OTHERS {
        expect_followed(rt, scan, row, others);
    }
}

/// Heads that are due nowhere: ill-formed heads, byte strings, a tag, a map, a break, and a simple
/// value that is no Boolean.
static DUE_NOWHERE: [&[u8]; 9] = [
    b"\x1c",
    b"\x3f",
    b"\xf8\x1f",
    b"\x40",
    b"\x5b\x00\x00\x00\x00\x00\x00\x00\x01",
    b"\xc1",
    b"\xa2",
    b"\xff",
    b"\xf8\xf5",
];

/// Heads of indefinite length, which RFC 9171 permits and this toolkit does not read.
static INDEFINITE: [&[u8]; 4] = [b"\x5f", b"\x7f", b"\x9f", b"\xbf"];

/// A head that is replaced by one that is due nowhere is at fault, whatever follows it.
fn expect_wrong_head(
    rt: &(impl Abort + AllocGlobal),
    scan: &mut DataScan,
    row: &Row,
    wrong: &[u8],
    fault: DataFault,
) {
    let changed = replaced(rt, row.bytes, fault.offset as usize, wrong);
    expect(rt, scan, row.kind, &changed, &Err(fault));
    let longer = replaced(rt, &changed, changed.len(), b"\x01\x82\x00");
    expect(rt, scan, row.kind, &longer, &Err(fault));
}

/// Heads whose last bytes are missing.
static CUT_HEADS: [&[u8]; 5] = [b"\x18", b"\x9b\x00\x00", b"\x59\x00", b"\xf8", b"\xf9\x00"];

/// A head that is replaced by one that the data cuts is at fault where the data ends.
fn expect_cut_head(
    rt: &(impl Abort + AllocGlobal),
    scan: &mut DataScan,
    row: &Row,
    at: usize,
    cut: &[u8],
) {
    let changed = replaced(rt, row.bytes, at, cut);
    let fault = malformed(changed.len());
    expect(rt, scan, row.kind, &changed, &Err(fault));
}

/// Replaces this head by each of `DUE_NOWHERE`, of `INDEFINITE` and of `CUT_HEADS`.
fn expect_changed(rt: &(impl Abort + AllocGlobal), scan: &mut DataScan, row: &Row, at: usize) {
    for &wrong in &DUE_NOWHERE {
        expect_wrong_head(rt, scan, row, wrong, malformed(at));
    }
    for &wrong in &INDEFINITE {
        expect_wrong_head(rt, scan, row, wrong, not_read(at));
    }
    for &cut in &CUT_HEADS {
        expect_cut_head(rt, scan, row, at, cut);
    }
}

/// Checks good data, and the data changed at its end and at each head.
fn expect_good(rt: &(impl Abort + AllocGlobal), scan: &mut DataScan, row: &Row) {
    expect(rt, scan, row.kind, row.bytes, &Ok(row.data));
    expect_cut(rt, scan, row);
    expect_longer(rt, scan, row);
    for &at in row.heads {
        expect_changed(rt, scan, row, at);
    }
}

// One test for all of them: the check of a function takes long if it names a large table.
#[test]
fn good_data_and_data_changed_at_each_head(rt: HostRuntime) {
    let mut scan = DataScan::new(DataKind::BundleAge);
    for row in &GOOD {
        expect_good(&rt, &mut scan, row);
    }
}

#[test]
fn malformed_data(rt: HostRuntime) {
    let mut scan = DataScan::new(DataKind::BundleAge);
    for &(kind, bytes, offset) in &MALFORMED {
        expect(&rt, &mut scan, kind, bytes, &Err(malformed(offset)));
    }
}

#[test]
fn data_that_is_not_read(rt: HostRuntime) {
    let mut scan = DataScan::new(DataKind::BundleAge);
    for &(kind, bytes, offset) in &NOT_READ {
        expect(&rt, &mut scan, kind, bytes, &Err(not_read(offset)));
    }
}

/// Checks the offset of the first long head of these bytes, in each of their cuttings.
fn expect_long(
    rt: &impl Abort,
    scan: &mut DataScan,
    kind: DataKind,
    bytes: &[u8],
    long: Option<u64>,
) {
    assert!(rt; bytes.len() < 100_000);
    by_bytes(scan, kind, bytes);
    assert_eq!(rt; scan.long_head(), long, "{bytes:?}");
    for cut in 0..bytes.len() {
        in_two(scan, kind, bytes, cut);
        assert_eq!(rt; scan.long_head(), long, "{bytes:?}");
    }
}

#[test]
fn long_heads(rt: HostRuntime) {
    let mut scan = DataScan::new(DataKind::BundleAge);
    for &(kind, bytes, long) in &LONG {
        expect_long(&rt, &mut scan, kind, bytes, long);
    }
}

/// A security block with this many targets, from 32 on.
fn with_targets(rt: &(impl Abort + AllocGlobal), count: u8) -> Vec<u8> {
    let mut bytes = [0x98, count].to_vec(rt.alloc()).expect(rt, "memory");
    for number in 0..count {
        let target = number.saturating_add(32);
        bytes
            .extend_from_slice(&[0x18, target])
            .expect(rt, "memory");
    }
    bytes
        .extend_from_slice(b"\x01\x00\x82\x02\x82\x01\x01")
        .expect(rt, "memory");
    bytes
}

/// Checks what a security block with this many targets says. The first of them are kept.
fn expect_targets(rt: &(impl Abort + AllocGlobal), count: u8, kept: &[u64]) {
    let bytes = with_targets(rt, count);
    let block = SecurityBlock {
        targets: count as u64,
        targets_primary: false,
        context: Integer {
            negative: false,
            argument: 1,
        },
        flags: 0,
        size: bytes.len() as u64,
    };
    let mut scan = DataScan::new(DataKind::Security);
    let view = DataView::Security(block, kept, EidView::Ipn(1, 1));
    expect(rt, &mut scan, DataKind::Security, &bytes, &Ok(view));
}

#[test]
fn the_first_64_targets_are_kept(rt: HostRuntime) {
    expect_targets(&rt, 63, &TARGETS[..63]);
    expect_targets(&rt, 64, &TARGETS);
    expect_targets(&rt, 65, &TARGETS);
    expect_targets(&rt, 200, &TARGETS);
}

/// The endpoint ID of a dtn name with this many bytes, which are `a`. Two bytes have its length.
fn with_name(rt: &(impl Abort + AllocGlobal), length: [u8; 2], size: usize) -> Vec<u8> {
    let [high, low] = length;
    let head = [0x82, 0x01, 0x79, high, low];
    let mut bytes = head.to_vec(rt.alloc()).expect(rt, "memory");
    bytes
        .resize(size.saturating_add(5), b'a')
        .expect(rt, "memory");
    bytes
}

/// Checks that a dtn name has this fault.
fn expect_bad_name(rt: &impl Abort, bytes: &[u8], fault: DataFault) {
    let mut scan = DataScan::new(DataKind::PreviousNode);
    expect(rt, &mut scan, DataKind::PreviousNode, bytes, &Err(fault));
}

/// Checks that bytes with a dtn name are good.
fn expect_name(rt: &impl Abort, bytes: &[u8]) {
    let name = bytes.get(5..).expect(rt, "a name after its heads");
    let node = DataView::PreviousNode(EidView::Dtn(name));
    let mut scan = DataScan::new(DataKind::PreviousNode);
    expect(rt, &mut scan, DataKind::PreviousNode, bytes, &Ok(node));
}

/// A name of 1,024 bytes is kept, and a longer one is not read.
#[test]
fn longest_names(rt: HostRuntime) {
    let longest = with_name(&rt, [4, 0], 1024);
    assert_eq!(rt; longest.len(), 1029);
    expect_name(&rt, &longest);
    expect_bad_name(&rt, &with_name(&rt, [4, 0], 1023), malformed(1028));
    expect_bad_name(&rt, &with_name(&rt, [4, 1], 1025), not_read(2));
}

#[test]
fn a_scan_shows_its_count(rt: HostRuntime) -> Result<(), Fail> {
    let mut scan = DataScan::new(DataKind::HopCount);
    scan.take(b"\x82\x18");
    let text = format!(in rt.alloc(); "{scan:?}")?;
    assert_eq!(rt; text.as_str(), "DataScan { count: 2, .. }");
    Ok(())
}
