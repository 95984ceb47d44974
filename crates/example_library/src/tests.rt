//! Tests of the examples on worked bytes: those of examples/README.md, and rows of docs/FORMATS.md.

use crate::counting::Counting;
use crate::cutting::put_transfer;
use crate::reading::copy_data;
use crate::scanning::{Found, scan_piece};
use link_bundle::{BundleFault, BundleScan};
use link_run::{Run, Status};
use link_run_over_transfers::walk_run;
use link_transfer::Cutter;
use link_wire::{IoFault, Reader, Stop, WireFault, Writer};
use std::io::{Read, Write};
use std::process::Abort;
use std::test::Fail;

/// A bundle of 34 bytes.
const BUNDLE: &[u8] =
    b"\x9f\x88\x07\x00\x00\x82\x02\x82\x02\x01\x82\x02\x82\x01\x01\x82\x01\x00\x82\x00\x00\x00\x85\x01\x01\x00\x00\x45hello\xff";

/// The same bundle with a check, which has 37 bytes.
const CHECKED: &[u8] =
    b"\x9f\x88\x07\x00\x00\x82\x02\x82\x02\x01\x82\x02\x82\x01\x01\x82\x01\x00\x82\x00\x00\x00\x86\x01\x01\x00\x01\x45hello\x42\x4b\xf3\xff";

/// The pieces that one scan is fed, one after another, and the result of each.
static PIECES: [(&[u8], Found); 8] = [
    // A primary block, with the sequence number 7.
    (
        b"\x9f\x88\x07\x00\x00\x82\x02\x82\x02\x01\x82\x02\x82\x01\x01\x82\x01\x00\x82\x00\x07\x00",
        Found::Part(None),
    ),
    // A payload block, and the first 2 of the 5 bytes of its payload.
    (b"\x85\x01\x01\x00\x00\x45he", Found::Part(Some((28, 2)))),
    // The rest of the payload, the break, and the first byte of another bundle.
    (
        b"llo\xff\x9f",
        Found::Bundle {
            sequence: 7,
            payload: 5,
            taken: 4,
        },
    ),
    (b"\x9f\x88", Found::Part(None)),
    // Version 6.
    (b"\x06", Found::Fault(BundleFault::BadVersion, 2)),
    (
        CHECKED,
        Found::Bundle {
            sequence: 0,
            payload: 5,
            taken: 37,
        },
    ),
    // A bundle with the check of `hello`, and another payload.
    (
        b"\x9f\x88\x07\x00\x00\x82\x02\x82\x02\x01\x82\x02\x82\x01\x01\x82\x01\x00\x82\x00\x00\x00\x86\x01\x01\x00\x01\x45iello\x42\x4b\xf3\xff",
        Found::Fault(BundleFault::CheckDiffers, 33),
    ),
    (b"\x9f\x88", Found::Part(None)),
];

#[test]
fn bundles_in_pieces(rt: HostRuntime) {
    let mut scan = BundleScan::new();
    for (piece, found) in &PIECES {
        assert_eq!(rt; scan_piece(&mut scan, piece), *found);
    }
    // The input ends here, two bytes after the beginning of a bundle.
    assert_eq!(rt; scan.finish(), Err((BundleFault::Cut, 2)));
}

/// A stream, what `copy_data` returns for it, and the number of bytes of the bundle that it writes.
type Recorded = (&'static [u8], Result<u64, Stop>, usize);

static RECORDED: [Recorded; 5] = [
    // A contact header, a SESS_INIT, and the bundle in one segment.
    (
        b"dtn!\x04\x00\x07\x00\x3c\x00\x00\x00\x00\x00\x01\x00\x00\x00\x00\x00\x00\x00\x10\x00\x00\x00\x07ipn:1.0\x00\x00\x00\x00\x01\x03\x00\x00\x00\x00\x00\x00\x00\x00\x00\x00\x00\x00\x00\x00\x00\x00\x00\x00\x00\x22\x9f\x88\x07\x00\x00\x82\x02\x82\x02\x01\x82\x02\x82\x01\x01\x82\x01\x00\x82\x00\x00\x00\x85\x01\x01\x00\x00\x45hello\xff",
        Ok(1),
        34,
    ),
    // The same, cut after 70 bytes: the segment at 38 has 10 bytes of its data.
    (
        b"dtn!\x04\x00\x07\x00\x3c\x00\x00\x00\x00\x00\x01\x00\x00\x00\x00\x00\x00\x00\x10\x00\x00\x00\x07ipn:1.0\x00\x00\x00\x00\x01\x03\x00\x00\x00\x00\x00\x00\x00\x00\x00\x00\x00\x00\x00\x00\x00\x00\x00\x00\x00\x22\x9f\x88\x07\x00\x00\x82\x02\x82\x02\x01",
        Err(Stop::Wire(38, WireFault::Truncated)),
        10,
    ),
    // Two segments of 17 bytes, a KEEPALIVE between them, and a SESS_TERM.
    (
        b"dtn!\x04\x00\x01\x02\x00\x00\x00\x00\x00\x00\x00\x00\x00\x00\x00\x00\x00\x00\x00\x00\x00\x00\x00\x11\x9f\x88\x07\x00\x00\x82\x02\x82\x02\x01\x82\x02\x82\x01\x01\x82\x01\x04\x01\x01\x00\x00\x00\x00\x00\x00\x00\x00\x00\x00\x00\x00\x00\x00\x00\x11\x00\x82\x00\x00\x00\x85\x01\x01\x00\x00\x45hello\xff\x05\x00\x00",
        Ok(2),
        34,
    ),
    (b"dtn!\x04\x00", Ok(0), 0),
    (b"dtn?\x04\x00", Err(Stop::Wire(0, WireFault::BadMagic)), 0),
];

/// Reads a stream in two pieces, cut at every offset.
fn expect_copied(rt: &(impl Abort + AllocGlobal), recorded: &Recorded) {
    let (stream, copied, size) = *recorded;
    for cut in 0..=stream.len() {
        let (front, back) = stream.split_at(cut);
        let mut output = Vec::new(rt.alloc());
        assert_eq!(rt;
            copy_data(front.chain(back), &mut output),
            copied,
            "cut at {cut}"
        );
        assert_eq!(rt; Some(output.as_slice()), BUNDLE.get(..size), "cut at {cut}");
    }
}

#[test]
fn sessions_in_two_pieces(rt: HostRuntime) {
    for recorded in &RECORDED {
        expect_copied(&rt, recorded);
    }
}

/// A bundle, and its segments of at most 20 bytes.
///
/// The length of a bundle of at most 34 bytes is announced, if it has more than one segment.
static CUT: [(&[u8], &[u8]); 4] = [
    // 34 bytes: two segments, and the first announces 34.
    (
        BUNDLE,
        b"\x01\x02\x00\x00\x00\x00\x00\x00\x00\x00\x00\x00\x00\x0d\x00\x00\x01\x00\x08\x00\x00\x00\x00\x00\x00\x00\x22\x00\x00\x00\x00\x00\x00\x00\x14\x9f\x88\x07\x00\x00\x82\x02\x82\x02\x01\x82\x02\x82\x01\x01\x82\x01\x00\x82\x00\x01\x01\x00\x00\x00\x00\x00\x00\x00\x00\x00\x00\x00\x00\x00\x00\x00\x0e\x00\x00\x85\x01\x01\x00\x00\x45hello\xff",
    ),
    // 37 bytes: two segments, and no announcement.
    (
        CHECKED,
        b"\x01\x02\x00\x00\x00\x00\x00\x00\x00\x01\x00\x00\x00\x00\x00\x00\x00\x00\x00\x00\x00\x14\x9f\x88\x07\x00\x00\x82\x02\x82\x02\x01\x82\x02\x82\x01\x01\x82\x01\x00\x82\x00\x01\x01\x00\x00\x00\x00\x00\x00\x00\x01\x00\x00\x00\x00\x00\x00\x00\x11\x00\x00\x86\x01\x01\x00\x01\x45hello\x42\x4b\xf3\xff",
    ),
    // 5 bytes: one segment, and no announcement.
    (
        b"hello",
        b"\x01\x03\x00\x00\x00\x00\x00\x00\x00\x02\x00\x00\x00\x00\x00\x00\x00\x00\x00\x00\x00\x05hello",
    ),
    // No bytes: no segment.
    (b"", b""),
];

/// One cutter cuts all of the bundles. They are the transfers 0 to 3.
#[test]
fn bundles_as_segments(rt: HostRuntime) -> Result<(), Fail> {
    let mut cutter = Cutter::new(rt.alloc(), 20, 34)?;
    for (id, (bundle, segments)) in CUT.iter().enumerate() {
        let mut stream = Vec::new(rt.alloc());
        put_transfer(&mut stream, &mut cutter, id as u64, bundle)?;
        assert_eq!(rt; stream.as_slice(), *segments);
    }
    Ok(())
}

/// A stream, what `Counting` writes to the output and to the report, and the exit status.
type Counted = (&'static [u8], &'static str, &'static str, Status);

static COUNTED: [Counted; 4] = [
    // Four transfers. The first has two segments, of 5 and 2 bytes. The second has 3 bytes, and the
    // START of the third abandons it. The third has no data. The last is still open after 1 byte.
    (
        b"dtn!\x04\x00\x07\x00\x3c\x00\x00\x00\x00\x00\x01\x00\x00\x00\x00\x00\x00\x00\x10\x00\x00\x00\x07ipn:1.0\x00\x00\x00\x00\x01\x02\x00\x00\x00\x00\x00\x00\x00\x00\x00\x00\x00\x00\x00\x00\x00\x00\x00\x00\x00\x05hello\x04\x01\x01\x00\x00\x00\x00\x00\x00\x00\x00\x00\x00\x00\x00\x00\x00\x00\x02yo\x01\x02\x00\x00\x00\x00\x00\x00\x00\x01\x00\x00\x00\x00\x00\x00\x00\x00\x00\x00\x00\x03abc\x01\x03\x00\x00\x00\x00\x00\x00\x00\x02\x00\x00\x00\x00\x00\x00\x00\x00\x00\x00\x00\x00\x01\x02\x00\x00\x00\x00\x00\x00\x00\x03\x00\x00\x00\x00\x00\x00\x00\x00\x00\x00\x00\x01z",
        "7\n0\n",
        "",
        Status::CLEAN,
    ),
    // A stray segment, whose byte is of no transfer, and a transfer of one byte.
    (
        b"dtn!\x04\x00\x01\x00\x00\x00\x00\x00\x00\x00\x00\x09\x00\x00\x00\x00\x00\x00\x00\x01x\x01\x03\x00\x00\x00\x00\x00\x00\x00\x01\x00\x00\x00\x00\x00\x00\x00\x00\x00\x00\x00\x01z",
        "1\n",
        "",
        Status::CLEAN,
    ),
    // The stream ends inside the data of a segment.
    (
        b"dtn!\x04\x00\x01\x03\x00\x00\x00\x00\x00\x00\x00\x01\x00\x00\x00\x00\x00\x00\x00\x00\x00\x00\x00\x02z",
        "",
        "tcpclkit: byte 6: truncated\n",
        Status::FAULT,
    ),
    (b"dtn!\x04\x00", "", "", Status::CLEAN),
];

/// Counts the transfers of an input. Returns the output, the report and the answer.
fn counts<R: Read + Drop, W: Write + Drop>(
    input: R,
    output: W,
    report: W,
) -> (W, W, Result<Status, IoFault>) {
    let end = walk_run(
        (),
        Counting { size: 0 },
        Reader::new(input),
        Writer::new(output),
        Writer::new(report),
    )
    .run();
    (end.output.into_inner(), end.report.into_inner(), end.answer)
}

/// Reads a stream in two pieces, cut at every offset.
fn expect_counted(rt: &(impl Abort + AllocGlobal), counted: &Counted) {
    let (stream, sizes, faults, status) = *counted;
    for cut in 0..=stream.len() {
        let (front, back) = stream.split_at(cut);
        let (output, report, answer) = counts(
            front.chain(back),
            Vec::new(rt.alloc()),
            Vec::new(rt.alloc()),
        );
        assert_eq!(rt; output.as_slice(), sizes.as_bytes(), "cut at {cut}");
        assert_eq!(rt; report.as_slice(), faults.as_bytes(), "cut at {cut}");
        assert_eq!(rt; answer, Ok(status), "cut at {cut}");
    }
}

#[test]
fn transfers_in_two_pieces(rt: HostRuntime) {
    for counted in &COUNTED {
        expect_counted(&rt, counted);
    }
}
