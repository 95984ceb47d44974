//! The lines of primary blocks, of canonical blocks without words, and of ends.
ghost use Rattle.std.specs.Prelude.{◌≡◌, ◌≤◌, ◌+◌, true, length};
ghost use Rattle.link_bundle_types.specs.EidView.{viewed_eid};
ghost use Rattle.link_bundle_types.specs.ShortNames.{HasNoLongName};
ghost use Rattle.link_bundle_blocks.specs.Blocks.{viewed_primary, HasShortEids};

use link_bundle_blocks::{CanonicalBlock, PrimaryBlock};
use link_bundle_data::DataKind;
use link_bundle_types::{BundleFault, BundleView, EID_LIMIT, EidView};
use link_cbor::CheckKind;
use link_report::JudgementView;
use link_report_blocks::{BlockText, EndText, PrimaryRestText, PrimaryStartText, data_kind};
use link_wire::{TEXT_MAX, Text};
use std::process::Abort;
use std::test::Fail;

const MAX: u64 = u64::MAX;

/// Checks a line that is one text.
pub(crate) fn expect<T: Text>(rt: &impl Abort, text: &T, want: &str) {
    let mut page = [0; TEXT_MAX];
    let end = text.put(&mut page, 0);
    assert_eq!(rt; &page[..end], want.as_bytes(), "{want}");
}

/// Whether an endpoint ID has no name longer than 1,024 bytes.
fn is_short(eid: &EidView<'_>) -> bool
    ensures { result ≡ true → HasNoLongName (viewed_eid eid.now) }
{
    match eid {
        EidView::Dtn(name) => name.len() <= EID_LIMIT,
        EidView::DtnNone | EidView::Ipn(..) | EidView::Ipn3(..) => true,
    }
}

/// Writes the line of a primary block into a page, and returns its length.
fn put_primary(page: &mut [u8], id: u64, block: &PrimaryBlock<'_>) -> usize
    requires short { HasShortEids (viewed_primary block.now) }
    requires room { TEXT_MAX + TEXT_MAX ≤ length page.old }
    ensures { result ≤ length page.new }
{
    let start = PrimaryStartText { id, block }.put(page, 0);
    PrimaryRestText { block }.put(page, start)
}

/// Checks the line of a primary block.
fn expect_primary(rt: &impl Abort, id: u64, block: &PrimaryBlock<'_>, want: &str) {
    assert!(rt; is_short(&block.destination));
    assert!(rt; is_short(&block.source));
    assert!(rt; is_short(&block.report_to));
    let mut page = [0; 2 * TEXT_MAX];
    let end = put_primary(&mut page, id, block);
    assert_eq!(rt; &page[..end], want.as_bytes(), "{want}");
}

/// A primary block of 21 bytes.
const PRIMARY: PrimaryBlock<'static> = PrimaryBlock {
    flags: 0,
    check: None,
    destination: EidView::Ipn(2, 1),
    source: EidView::Ipn(1, 1),
    report_to: EidView::DtnNone,
    time: 0,
    sequence: 0,
    lifetime: 0,
    fragment: None,
    end: 22,
};

/// A block of 7 bytes after it.
const PAYLOAD: CanonicalBlock = CanonicalBlock {
    start: 22,
    block_type: 1,
    number: 1,
    flags: 0,
    check: None,
    data_start: 28,
    data_length: 1,
    end: Some(29),
};

/// Primary blocks without a check. The transfer has the ID 0.
static PRIMARIES: [(PrimaryBlock<'static>, &str); 4] = [
    (
        PRIMARY,
        "0 primary at=1 length=21 flags=00 check=none destination=ipn:2.1 source=ipn:1.1 \
        report-to=dtn:none time=0 sequence=0 lifetime=0\n",
    ),
    (
        PrimaryBlock {
            flags: 0x01,
            fragment: Some((6, 18)),
            end: 24,
            ..PRIMARY
        },
        "0 primary at=1 length=23 flags=01 check=none destination=ipn:2.1 source=ipn:1.1 \
        report-to=dtn:none time=0 sequence=0 lifetime=0 fragment=6/18\n",
    ),
    (
        PrimaryBlock {
            destination: EidView::Dtn(b"a b"),
            source: EidView::Ipn3(1, 2, 3),
            report_to: EidView::Dtn(b""),
            end: 24,
            ..PRIMARY
        },
        "0 primary at=1 length=23 flags=00 check=none destination=dtn:a\\x20b source=ipn:1.2.3 \
        report-to=dtn: time=0 sequence=0 lifetime=0\n",
    ),
    (
        PrimaryBlock {
            flags: MAX,
            destination: EidView::Ipn(MAX, 0),
            source: EidView::DtnNone,
            time: MAX,
            sequence: MAX,
            lifetime: MAX,
            fragment: Some((MAX, MAX)),
            end: 78,
            ..PRIMARY
        },
        "0 primary at=1 length=77 flags=ffffffffffffffff check=none \
        destination=ipn:18446744073709551615.0 source=dtn:none report-to=dtn:none \
        time=18446744073709551615 sequence=18446744073709551615 lifetime=18446744073709551615 \
        fragment=18446744073709551615/18446744073709551615\n",
    ),
];

#[test]
fn lines_of_primary_blocks(rt: HostRuntime) {
    for (block, want) in &PRIMARIES {
        expect_primary(&rt, 0, block, want);
    }
}

/// The numbers of a primary block are in the order of its fields, after those of its endpoint IDs.
#[test]
fn lines_of_checked_primary_blocks(rt: HostRuntime) {
    let block = PrimaryBlock {
        flags: 0x04,
        check: Some(CheckKind::Crc16),
        destination: EidView::Dtn(b"//node/a"),
        source: EidView::Dtn(b"//node/b"),
        report_to: EidView::Dtn(b"//node/c"),
        time: 700_000_000_000,
        sequence: 7,
        lifetime: 3_600_000,
        fragment: None,
        end: 57,
    };
    let want = "7 primary at=1 length=56 flags=04 check=crc16 destination=dtn://node/a \
        source=dtn://node/b report-to=dtn://node/c time=700000000000 sequence=7 \
        lifetime=3600000\n";
    expect_primary(&rt, 7, &block, want);
    let block = PrimaryBlock {
        flags: 0x020004,
        check: Some(CheckKind::Crc32),
        ..block
    };
    let want = "18446744073709551615 primary at=1 length=56 flags=020004 check=crc32c \
        destination=dtn://node/a source=dtn://node/b report-to=dtn://node/c time=700000000000 \
        sequence=7 lifetime=3600000\n";
    expect_primary(&rt, MAX, &block, want);
}

/// Checks the line of a canonical block whose data is not read.
fn expect_block(rt: &impl Abort, id: u64, block: &CanonicalBlock, want: &str) {
    let text = BlockText {
        id,
        block,
        found: None,
    };
    expect(rt, &text, want);
}

/// Canonical blocks, whose data is not read.
static BLOCKS: [(CanonicalBlock, &str); 4] = [
    (
        PAYLOAD,
        "0 block 1 at=22 length=7 type=1/payload flags=00 check=none data-at=28 data-length=1\n",
    ),
    (
        CanonicalBlock {
            start: 26,
            block_type: 192,
            number: 2,
            flags: 0x0110,
            check: Some(CheckKind::Crc16),
            data_start: 35,
            data_length: 0,
            end: Some(38),
        },
        "0 block 2 at=26 length=12 type=192/? flags=0110 check=crc16 data-at=35 data-length=0\n",
    ),
    (
        CanonicalBlock {
            flags: 0x0f,
            check: Some(CheckKind::Crc32),
            end: Some(34),
            ..PAYLOAD
        },
        "0 block 1 at=22 length=12 type=1/payload flags=0f check=crc32c data-at=28 \
        data-length=1\n",
    ),
    (
        CanonicalBlock {
            start: 78,
            block_type: MAX,
            number: MAX,
            flags: MAX,
            check: None,
            data_start: 108,
            data_length: 0,
            end: Some(108),
        },
        "0 block 18446744073709551615 at=78 length=30 type=18446744073709551615/? \
        flags=ffffffffffffffff check=none data-at=108 data-length=0\n",
    ),
];

#[test]
fn lines_of_canonical_blocks(rt: HostRuntime) {
    for (block, want) in &BLOCKS {
        expect_block(&rt, 0, block, want);
    }
}

/// Block types and their names.
static TYPES: [(u64, &str); 12] = [
    (0, "0/?"),
    (1, "1/payload"),
    (2, "2/?"),
    (5, "5/?"),
    (6, "6/previous-node"),
    (7, "7/bundle-age"),
    (8, "8/?"),
    (10, "10/hop-count"),
    (11, "11/block-integrity"),
    (12, "12/block-confidentiality"),
    (13, "13/?"),
    (256, "256/?"),
];

#[test]
fn names_of_types(rt: HostRuntime) -> Result<(), Fail> {
    for (block_type, name) in &TYPES {
        let block = CanonicalBlock {
            block_type: *block_type,
            ..PAYLOAD
        };
        let want = format!(in rt.alloc();
            "0 block 1 at=22 length=7 type={name} flags=00 check=none data-at=28 data-length=1\n"
        )?;
        expect_block(&rt, 0, &block, &want);
    }
    Ok(())
}

/// Flags of one byte to eight, and zeros inside them.
static FLAGS: [(u64, &str); 13] = [
    (0, "00"),
    (0x09, "09"),
    (0xff, "ff"),
    (0x0100, "0100"),
    (0xfedc, "fedc"),
    (0x04_4000, "044000"),
    (0x0100_0000, "01000000"),
    (0x10_0000_0001, "1000000001"),
    (0x0100_0000_0000, "010000000000"),
    (0x00ab_0000_0000_0000, "ab000000000000"),
    (0x0100_0000_0000_0000, "0100000000000000"),
    (0x0123_4567_89ab_cdef, "0123456789abcdef"),
    (MAX, "ffffffffffffffff"),
];

#[test]
fn flags_in_pairs_of_digits(rt: HostRuntime) -> Result<(), Fail> {
    for (flags, digits) in &FLAGS {
        let block = CanonicalBlock {
            flags: *flags,
            ..PAYLOAD
        };
        let want = format!(in rt.alloc();
            "7 block 1 at=22 length=7 type=1/payload flags={digits} check=none data-at=28 \
            data-length=1\n"
        )?;
        expect_block(&rt, 7, &block, &want);
    }
    Ok(())
}

/// A good bundle of 30 bytes, whose identity is not in the line of its end.
const GOOD: BundleView<'static> = BundleView {
    flags: 0,
    destination: EidView::Ipn(2, 1),
    source: EidView::Ipn(1, 1),
    report_to: EidView::DtnNone,
    time: 0,
    sequence: 0,
    lifetime: 0,
    fragment: None,
    blocks: 1,
    payload: 1,
};

/// Each judgement on the data of a transfer.
static ENDS: [(u64, u64, JudgementView<'static>, &str); 7] = [
    (0, 30, JudgementView::Good(GOOD), "0 end length=30 good\n"),
    (
        7,
        29,
        JudgementView::Abandoned,
        "7 end length=29 abandoned\n",
    ),
    (
        0,
        30,
        JudgementView::BadLengthItem,
        "0 end length=30 bad-length-item\n",
    ),
    (
        0,
        30,
        JudgementView::LengthDiffers(31),
        "0 end length=30 length-differs announced=31\n",
    ),
    (
        0,
        0,
        JudgementView::Bad(BundleFault::Cut, 0),
        "0 end length=0 bad=B1 byte=0\n",
    ),
    (
        0,
        37,
        JudgementView::Bad(BundleFault::NoPayloadLast, 29),
        "0 end length=37 bad=B17 byte=29\n",
    ),
    (
        MAX,
        MAX,
        JudgementView::LengthDiffers(MAX),
        "18446744073709551615 end length=18446744073709551615 length-differs \
        announced=18446744073709551615\n",
    ),
];

#[test]
fn lines_of_ends(rt: HostRuntime) {
    for (id, length, judgement, want) in &ENDS {
        let text = EndText {
            id: *id,
            length: *length,
            judgement,
        };
        expect(&rt, &text, want);
    }
}

/// The line with the greatest numbers and three names of 1,024 bytes that are all escaped.
#[test]
fn longest_line_of_a_primary_block(rt: HostRuntime) {
    let name = [0xff; EID_LIMIT];
    let block = PrimaryBlock {
        flags: MAX,
        check: Some(CheckKind::Crc32),
        destination: EidView::Dtn(&name),
        source: EidView::Dtn(&name),
        report_to: EidView::Dtn(&name),
        time: MAX,
        sequence: MAX,
        lifetime: MAX,
        fragment: Some((MAX, MAX)),
        end: 3257,
    };
    let mut page = [0; 2 * TEXT_MAX];
    let end = put_primary(&mut page, MAX, &block);
    assert_eq!(rt; end, 12_551);
}

/// Kinds of data, by the flags of the bundle and the type of the block.
static KINDS: [(u64, u64, Option<DataKind>); 18] = [
    (0x00, 0, None),
    (0x00, 1, None),
    (0x01, 1, None),
    (0x02, 1, Some(DataKind::Record)),
    (0x03, 1, None),
    (0x04_4006, 1, Some(DataKind::Record)),
    (0x04_4004, 1, None),
    (MAX, 1, None),
    (0x02, 0, None),
    (0x02, 2, None),
    (0x00, 6, Some(DataKind::PreviousNode)),
    (0x01, 7, Some(DataKind::BundleAge)),
    (0x02, 7, Some(DataKind::BundleAge)),
    (0x00, 10, Some(DataKind::HopCount)),
    (0x00, 11, Some(DataKind::Security)),
    (0x03, 12, Some(DataKind::Security)),
    (0x00, 13, None),
    (0x02, MAX, None),
];

#[test]
fn kinds_of_data(rt: HostRuntime) {
    for (flags, block_type, want) in &KINDS {
        assert_eq!(rt;
            data_kind(*flags, *block_type),
            *want,
            "{flags} {block_type}"
        );
    }
}
