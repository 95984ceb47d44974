//! Bundles that are packed into a session that is open.

ghost use Rattle.std.specs.Prelude.{◌<◌};

use link_tool_pack::{MoreOptions, cutter_for, pack_more};
use std::alloc::Global;
use std::test::Fail;
use tests_common::checks::{exits, reported, wrote};
use tests_common::packing::{DEFAULTS, Packing};
use tests_common::stream::{BACK, FRONT, Part, built, joined};
use tests_common::{Failing, TestReader, TestWriter};

/// Two bundles.
const INPUT: &[&[u8]] = &[FRONT, BACK, FRONT, BACK];

/// Segments of 17 bytes: half the bundle.
const HALVES: Packing = Packing {
    peer_segment: 17,
    ..DEFAULTS
};

/// The segments of two bundles, whose transfers are 7 and 8.
const FROM_SEVEN: &[Part] = &[
    Part::Segment(2, 7, &[FRONT]),
    Part::Segment(1, 7, &[BACK]),
    Part::Segment(2, 8, &[FRONT]),
    Part::Segment(1, 8, &[BACK]),
];

/// The same, whose transfers are the last two that there are.
const LAST_TWO: &[Part] = &[
    Part::Segment(2, 0xffff_ffff_ffff_fffe, &[FRONT]),
    Part::Segment(1, 0xffff_ffff_ffff_fffe, &[BACK]),
    Part::Segment(2, 0xffff_ffff_ffff_ffff, &[FRONT]),
    Part::Segment(1, 0xffff_ffff_ffff_ffff, &[BACK]),
];

const LINES_FROM_SEVEN: &[u8] =
    b"bundle 7 segments=2 length=34 source=ipn:1.1 time=0 sequence=0 destination=ipn:2.1 payload=5\n\
    bundle 8 segments=2 length=34 source=ipn:1.1 time=0 sequence=0 destination=ipn:2.1 payload=5\n";

const LAST_LINES: &[u8] =
    b"bundle 18446744073709551614 segments=2 length=34 source=ipn:1.1 time=0 sequence=0 \
    destination=ipn:2.1 payload=5\n\
    bundle 18446744073709551615 segments=2 length=34 source=ipn:1.1 time=0 sequence=0 \
    destination=ipn:2.1 payload=5\n";

/// Checks what is written of two bundles.
fn packs(
    alloc: Global,
    first: u64,
    per_call: usize,
    parts: &[Part],
    report: &[u8],
) -> Result<(), Fail>
    requires { 0 < per_call }
{
    let input = joined(alloc, INPUT)?;
    let want = built(alloc, parts)?;
    let options = MoreOptions {
        first,
        pack: HALVES.options(),
    };
    let end = pack_more(
        cutter_for(alloc, &options.pack),
        options,
        TestReader::new(&input, per_call, Failing::Never),
        TestWriter::new(alloc, per_call, Failing::Never),
        TestWriter::new(alloc, per_call, Failing::Never),
    );
    wrote("more", end.output.written(), &want)?;
    reported("more", end.report.written(), report)?;
    exits("more", &end.answer, (0, ""))
}

#[test]
fn from_seven(rt: HostRuntime) -> Result<(), Fail> {
    packs(rt.alloc(), 7, 1, FROM_SEVEN, LINES_FROM_SEVEN)?;
    packs(rt.alloc(), 7, 100, FROM_SEVEN, LINES_FROM_SEVEN)
}

#[test]
fn last_ids(rt: HostRuntime) -> Result<(), Fail> {
    packs(rt.alloc(), 0xffff_ffff_ffff_fffe, 9, LAST_TWO, LAST_LINES)
}
