//! Bundles that are written, compared with `examples/bundles/bundles.txt`.

use arrayvec::ArrayVec;
use link_bundle::BundleScan;
use link_bundle_types::{EidView, State};
use link_bundle_writer::{
    BlockHead, CHECK_MAX, Check, CheckKind, FIRST_BYTE, LAST_BYTE, NewPrimary, PRIMARY_MAX,
    WriteFault, write_age, write_block_head, write_check, write_eid, write_hop_count,
    write_primary,
};
use link_cbor::Piecewise;
use link_ffi_writer::KeptCheck;
use std::process::Abort;

/// A bundle that is written piece by piece.
type Bytes = ArrayVec<u8, 512>;

/// Appends bytes.
fn put(rt: &impl Abort, bundle: &mut Bytes, bytes: &[u8]) {
    let put = bundle.try_extend_from_slice(bytes);
    assert!(rt; put.is_ok());
}

/// Appends what a writer wrote.
fn put_written(
    rt: &impl Abort,
    bundle: &mut Bytes,
    bytes: &[u8],
    written: Result<usize, WriteFault>,
) {
    let size = written.unwrap_or(usize::MAX);
    match bytes.get(..size) {
        Some(bytes) => put(rt, bundle, bytes),
        None => assert!(rt; false, "{written:?}"),
    }
}

/// Appends a block: its head, its data, and its check field, which is summed in pieces.
fn put_block(rt: &impl Abort, bundle: &mut Bytes, head: &BlockHead, content: &[u8]) {
    let mut bytes = [0; 54];
    let written = write_block_head(head, &mut bytes);
    let size = written.unwrap_or(0);
    put_written(rt, bundle, &bytes, written);
    put(rt, bundle, content);
    if let Some(kind) = head.check {
        let mut check = Check::new(kind);
        check.push_slice(bytes.get(..size).unwrap_or(b""));
        check.push_slice(content);
        let mut field = [0; CHECK_MAX];
        let written = write_check(kind, &check, &mut field);
        put_written(rt, bundle, &field, written);
    }
}

/// A block of this type and number with a check of this kind.
fn block(block_type: u64, number: u64, check: Option<CheckKind>, content: &[u8]) -> BlockHead {
    BlockHead {
        block_type,
        number,
        flags: 0,
        check,
        data_length: content.len() as u64,
    }
}

/// Checks that a scan finds a good bundle.
fn is_good(rt: &impl Abort, bundle: &[u8]) {
    let mut scan = BundleScan::new();
    assert!(rt; bundle.len() < 4096);
    let taken = scan.feed(bundle);
    assert_eq!(rt; taken, bundle.len());
    assert_eq!(rt; scan.state(), State::Ended);
}

/// The fields of the bundles with two extension blocks.
fn primary(check: Option<CheckKind>) -> NewPrimary<'static> {
    NewPrimary {
        flags: 0,
        check,
        destination: EidView::Ipn(2, 1),
        source: EidView::Ipn(1, 1),
        report_to: EidView::DtnNone,
        time: 5,
        sequence: 6,
        lifetime: 7,
        fragment: None,
    }
}

/// Writes the beginning of a bundle.
fn begun(rt: &impl Abort, fields: &NewPrimary<'_>) -> Bytes {
    let mut bundle = Bytes::new();
    let mut bytes = [0; PRIMARY_MAX];
    put(rt, &mut bundle, &[FIRST_BYTE]);
    let written = write_primary(fields, &mut bytes);
    put_written(rt, &mut bundle, &bytes, written);
    bundle
}

/// `CRC-32C in every block`: a bundle age block, a hop count block and the payload.
#[test]
fn checked_bundle(rt: HostRuntime) {
    let check = Some(CheckKind::Crc32);
    let mut bundle = begun(&rt, &primary(check));
    let mut content = [0; 9];
    assert_eq!(rt; write_age(1000, &mut content), Ok(3));
    let age = content.get(..3).unwrap_or(b"");
    put_block(&rt, &mut bundle, &block(7, 2, check, age), age);
    let mut content = [0; 27];
    assert_eq!(rt; write_hop_count(24, 30, &mut content), Ok(5));
    let hops = content.get(..4).unwrap_or(b"");
    put_block(&rt, &mut bundle, &block(10, 3, check, hops), hops);
    put_block(
        &rt,
        &mut bundle,
        &block(1, 1, check, b"check me too"),
        b"check me too",
    );
    put(&rt, &mut bundle, &[LAST_BYTE]);
    is_good(&rt, bundle.as_slice());
}

/// `dtn endpoints, CRC-16 in the primary block`.
#[test]
fn dtn_bundle(rt: HostRuntime) {
    let fields = NewPrimary {
        flags: 4,
        check: Some(CheckKind::Crc16),
        destination: EidView::Dtn(b"//node/a"),
        source: EidView::Dtn(b"//node/b"),
        report_to: EidView::Dtn(b"//node/b"),
        time: 700_000_000_000,
        sequence: 7,
        lifetime: 3_600_000,
        fragment: None,
    };
    let content = b"a longer payload than hello";
    let mut bundle = begun(&rt, &fields);
    put_block(&rt, &mut bundle, &block(1, 1, None, content), content);
    put(&rt, &mut bundle, &[LAST_BYTE]);
    let want = b"\x9f\x89\x07\x04\x01\x82\x01\x68//node/a\x82\x01\x68//node/b\x82\x01\x68//node/b\
        \x82\x1b\x00\x00\x00\xa2\xfb\x40\x58\x00\x07\x1a\x00\x36\xee\x80\x42\xa0\xb0\
        \x85\x01\x01\x00\x00\x58\x1ba longer payload than hello\xff";
    assert_eq!(rt; bundle.as_slice(), want.as_slice());
    is_good(&rt, bundle.as_slice());
}

/// `a fragment`.
#[test]
fn fragment(rt: HostRuntime) {
    let fields = NewPrimary {
        flags: 1,
        time: 0,
        sequence: 9,
        lifetime: 0,
        fragment: Some((6, 18)),
        ..primary(None)
    };
    let mut bundle = begun(&rt, &fields);
    put_block(&rt, &mut bundle, &block(1, 1, None, b"middle"), b"middle");
    put(&rt, &mut bundle, &[LAST_BYTE]);
    let want = b"\x9f\x8a\x07\x01\x00\x82\x02\x82\x02\x01\x82\x02\x82\x01\x01\x82\x01\x00\
        \x82\x00\x09\x00\x06\x12\x85\x01\x01\x00\x00\x46middle\xff";
    assert_eq!(rt; bundle.as_slice(), want.as_slice());
    is_good(&rt, bundle.as_slice());
}

/// What a scan refuses is not written.
#[test]
fn out_of_range(rt: HostRuntime) {
    static NAME: [u8; 1025] = [b'n'; 1025];
    let mut slice = [0; PRIMARY_MAX];
    let refused = Err(WriteFault::OutOfRange);
    let flagged = NewPrimary {
        flags: 1,
        ..primary(None)
    };
    assert_eq!(rt; write_primary(&flagged, &mut slice), refused);
    let named = NewPrimary {
        source: EidView::Dtn(&NAME),
        ..primary(None)
    };
    assert_eq!(rt; write_primary(&named, &mut slice), refused);
    assert_eq!(rt; write_eid(&EidView::Dtn(&NAME), &mut slice), refused);
    assert_eq!(rt;
        write_block_head(&block(1, 2, None, b""), &mut slice),
        refused
    );
    assert_eq!(rt;
        write_block_head(&block(7, 1, None, b""), &mut slice),
        refused
    );
    assert_eq!(rt;
        write_block_head(&block(7, 0, None, b""), &mut slice),
        refused
    );
}

/// Each length of a head, from the least argument to the greatest.
#[test]
fn shortest_heads(rt: HostRuntime) {
    let rows: [(u64, usize); 9] = [
        (0, 1),
        (23, 1),
        (24, 2),
        (255, 2),
        (256, 3),
        (65_535, 3),
        (65_536, 5),
        (4_294_967_295, 5),
        (4_294_967_296, 9),
    ];
    for (age, size) in rows {
        let mut slice = [0; 9];
        assert_eq!(rt; write_age(age, &mut slice), Ok(size));
    }
}

/// A check in pieces, as numbers: the check value of `123456789` is that of the catalogues.
#[test]
fn checks(rt: HostRuntime) {
    for (kind, want) in [(1, 0x906e), (2, 0xe306_9283)] {
        match KeptCheck::new(kind) {
            None => assert!(rt; false),
            Some(mut check) => {
                assert!(rt; check.feed(b"1234"));
                assert!(rt; check.feed(b""));
                assert!(rt; check.feed(b"56789"));
                assert_eq!(rt; check.value(), Some(want));
            }
        }
    }
    assert_eq!(rt; KeptCheck::new(0), None);
    let mut damaged = KeptCheck {
        kind: 1,
        state: 0x10000,
    };
    assert!(rt; !damaged.feed(b"1"));
    assert_eq!(rt; damaged.value(), None);
}
