//! The lines of transfers, of packed bundles and of the faults of bundles.

use crate::lines::is_text;
use arrayvec::ArrayVec;
use link_bundle_types::{BundleFault, BundleInfo, BundleView, Eid, EidView};
use link_report::{
    Fault, Judgement, JudgementView, Line, PackedEntry, PackedView, TransferEntry, TransferView,
    fault_line, judge, judge_view, packed_line, packed_view_line, transfer_line,
    transfer_view_line,
};
use link_transfer::Announced;
use std::process::Abort;

/// A bundle with a payload of five bytes.
fn bundle(source: Eid, destination: Eid, fragment: Option<(u64, u64)>) -> BundleInfo {
    BundleInfo {
        flags: 0,
        destination,
        source,
        report_to: Eid::Ipn(3, 1),
        time: 0,
        sequence: 0,
        lifetime: 0,
        fragment,
        blocks: 1,
        payload: 5,
    }
}

fn whole() -> BundleInfo {
    bundle(Eid::Ipn(1, 1), Eid::Ipn(2, 1), None)
}

/// An endpoint ID with this name, which has at most 1,024 bytes.
fn name(bytes: &[u8]) -> Eid {
    Eid::Dtn(ArrayVec::try_from(bytes).unwrap_or_default())
}

fn transfer(id: u64, start: u64, written: u64, length: u64, judgement: Judgement) -> TransferEntry {
    TransferEntry {
        id,
        start,
        written,
        length,
        judgement,
    }
}

/// Checks the line of a transfer.
fn reports(rt: &impl Abort, entry: &TransferEntry, want: &str) {
    let mut line = Line::new();
    transfer_line(&mut line, entry);
    is_text(rt, line.as_slice(), want);
}

/// A good bundle, which `whole` makes.
const WHOLE: BundleView<'static> = BundleView {
    flags: 0,
    destination: EidView::Ipn(2, 1),
    source: EidView::Ipn(1, 1),
    report_to: EidView::Ipn(3, 1),
    time: 0,
    sequence: 0,
    lifetime: 0,
    fragment: None,
    blocks: 1,
    payload: 5,
};

/// The judgement that is viewed. A bundle in it is the one that `whole` makes.
fn judgement_of(view: &JudgementView<'_>) -> Judgement {
    match view {
        JudgementView::Abandoned => Judgement::Abandoned,
        JudgementView::BadLengthItem => Judgement::BadLengthItem,
        JudgementView::LengthDiffers(announced) => Judgement::LengthDiffers(*announced),
        JudgementView::Good(_) => Judgement::Good(whole()),
        JudgementView::Bad(fault, offset) => Judgement::Bad(*fault, *offset),
    }
}

/// A transfer, and its line: its ID, start, bytes written and length, and the judgement.
type Transfer = ([u64; 4], JudgementView<'static>, &'static str);

/// Checks the line of a transfer.
fn reports_row(rt: &impl Abort, row: &Transfer) {
    let (numbers, view, want) = row;
    let [id, start, written, length] = *numbers;
    reports(
        rt,
        &transfer(id, start, written, length, judgement_of(view)),
        want,
    );
}

static TRANSFERS: [Transfer; 5] = [
    (
        [0, 0, 10, 10],
        JudgementView::Abandoned,
        "transfer 0 start=0 written=10 length=10 abandoned\n",
    ),
    (
        [1, 10, 34, 34],
        JudgementView::Good(WHOLE),
        "transfer 1 start=10 written=34 length=34 good \
        source=ipn:1.1 time=0 sequence=0 destination=ipn:2.1 payload=5\n",
    ),
    (
        [0, 0, 0, 10],
        JudgementView::Abandoned,
        "transfer 0 start=0 written=0 length=10 abandoned\n",
    ),
    (
        [0, 0, 34, 34],
        JudgementView::LengthDiffers(35),
        "transfer 0 start=0 written=34 length=34 length-differs announced=35\n",
    ),
    (
        [0, 0, 34, 34],
        JudgementView::BadLengthItem,
        "transfer 0 start=0 written=34 length=34 bad-length-item\n",
    ),
];

#[test]
fn lines_of_transfers(rt: HostRuntime) {
    for row in &TRANSFERS {
        reports_row(&rt, row);
    }
}

static BAD_BUNDLES: [Transfer; 4] = [
    (
        [0, 0, 5, 37],
        JudgementView::Bad(BundleFault::CheckDiffers, 33),
        "transfer 0 start=0 written=5 length=37 bad=B13 byte=33\n",
    ),
    (
        [0, 0, 38, 38],
        JudgementView::Bad(BundleFault::BadCheckLength, 33),
        "transfer 0 start=0 written=38 length=38 bad=B12 byte=33\n",
    ),
    (
        [0, 0, 35, 35],
        JudgementView::Bad(BundleFault::Trailing, 34),
        "transfer 0 start=0 written=35 length=35 bad=B2 byte=34\n",
    ),
    (
        [0, 0, 0, 0],
        JudgementView::Bad(BundleFault::Cut, 0),
        "transfer 0 start=0 written=0 length=0 bad=B1 byte=0\n",
    ),
];

#[test]
fn lines_of_bad_bundles(rt: HostRuntime) {
    for row in &BAD_BUNDLES {
        reports_row(&rt, row);
    }
}

/// The endpoint ID that is viewed.
fn eid_of(view: EidView<'_>) -> Eid {
    match view {
        EidView::DtnNone => Eid::DtnNone,
        EidView::Dtn(bytes) => name(bytes),
        EidView::Ipn(node, service) => Eid::Ipn(node, service),
        EidView::Ipn3(allocator, node, service) => Eid::Ipn3(allocator, node, service),
    }
}

/// The source, the destination and the fragment of a bundle, and the line of the packed bundle.
type Packed = (
    EidView<'static>,
    EidView<'static>,
    Option<(u64, u64)>,
    &'static str,
);

/// Checks the line of a bundle, packed as the second one into two segments.
fn reports_packed(rt: &impl Abort, info: BundleInfo, want: &str) {
    let entry = PackedEntry {
        number: 1,
        segments: 2,
        length: 34,
        info,
    };
    let mut line = Line::new();
    packed_line(&mut line, &entry);
    is_text(rt, line.as_slice(), want);
}

/// Checks the line of the bundle of a row.
fn reports_packed_row(rt: &impl Abort, row: &Packed) {
    let (source, destination, fragment, want) = *row;
    let info = bundle(eid_of(source), eid_of(destination), fragment);
    reports_packed(rt, info, want);
}

static PACKED: [Packed; 2] = [
    (
        EidView::Ipn(1, 1),
        EidView::Ipn(2, 1),
        None,
        "bundle 1 segments=2 length=34 \
        source=ipn:1.1 time=0 sequence=0 destination=ipn:2.1 payload=5\n",
    ),
    (
        EidView::Ipn(1, 1),
        EidView::Ipn(2, 1),
        Some((5, 10)),
        "bundle 1 segments=2 length=34 \
        source=ipn:1.1 time=0 sequence=0 destination=ipn:2.1 payload=5 fragment=5/10\n",
    ),
];

#[test]
fn lines_of_packed_bundles(rt: HostRuntime) {
    for row in &PACKED {
        reports_packed_row(&rt, row);
    }
}

/// Each form of an endpoint ID, as a source and as a destination.
static ENDPOINTS: [Packed; 5] = [
    (
        EidView::Ipn(1, 1),
        EidView::Dtn(b"//node/a"),
        None,
        "bundle 1 segments=2 length=34 \
        source=ipn:1.1 time=0 sequence=0 destination=dtn://node/a payload=5\n",
    ),
    (
        EidView::Ipn(1, 1),
        EidView::Ipn3(0, 2, 1),
        None,
        "bundle 1 segments=2 length=34 \
        source=ipn:1.1 time=0 sequence=0 destination=ipn:0.2.1 payload=5\n",
    ),
    (
        EidView::Ipn3(1000, 1, 1),
        EidView::Ipn(2, 1),
        None,
        "bundle 1 segments=2 length=34 \
        source=ipn:1000.1.1 time=0 sequence=0 destination=ipn:2.1 payload=5\n",
    ),
    (
        EidView::DtnNone,
        EidView::Dtn(b""),
        None,
        "bundle 1 segments=2 length=34 \
        source=dtn:none time=0 sequence=0 destination=dtn: payload=5\n",
    ),
    (
        EidView::Dtn(b"a \\~\xff"),
        EidView::DtnNone,
        None,
        "bundle 1 segments=2 length=34 \
        source=dtn:a\\x20\\x5c~\\xff time=0 sequence=0 destination=dtn:none payload=5\n",
    ),
];

#[test]
fn endpoints_of_packed_bundles(rt: HostRuntime) {
    for row in &ENDPOINTS {
        reports_packed_row(&rt, row);
    }
}

/// Each fault of a bundle, its code and its text.
static CODES: [(BundleFault, &str, &str); 19] = [
    (BundleFault::Cut, "B1", "input ends inside a bundle"),
    (BundleFault::Trailing, "B2", "bytes after the bundle"),
    (BundleFault::NotABundle, "B3", "not a bundle"),
    (BundleFault::BadHead, "B4", "ill-formed head"),
    (BundleFault::WrongKind, "B5", "wrong kind of item"),
    (BundleFault::WrongDataKind, "B5", "wrong kind of item"),
    (BundleFault::WrongCheckKind, "B5", "wrong kind of item"),
    (BundleFault::BadCount, "B6", "wrong number of elements"),
    (BundleFault::BadVersion, "B7", "unsupported bundle version"),
    (BundleFault::BadCheckType, "B8", "unknown check type"),
    (BundleFault::BadScheme, "B9", "unknown endpoint scheme"),
    (
        BundleFault::BadSpecificPart,
        "B10",
        "wrong scheme-specific part",
    ),
    (BundleFault::EidTooLong, "B11", "endpoint id too long"),
    (BundleFault::BadCheckLength, "B12", "wrong check length"),
    (BundleFault::CheckDiffers, "B13", "check differs"),
    (BundleFault::BadBlockNumber, "B14", "wrong block number"),
    (
        BundleFault::RepeatedBlockNumber,
        "B15",
        "repeated block number",
    ),
    (BundleFault::TooManyBlocks, "B16", "too many blocks"),
    (
        BundleFault::NoPayloadLast,
        "B17",
        "no payload block at the end",
    ),
];

/// Checks the line of a fault.
fn has_line(rt: &impl Abort, fault: &Fault, want: &str) {
    let mut line = Line::new();
    fault_line(&mut line, fault);
    is_text(rt, line.as_slice(), want);
}

/// Checks the code and the text of a fault in the line of the fault.
fn has_code_and_words(
    rt: &(impl Abort + AllocGlobal),
    fault: BundleFault,
    code: &str,
    words: &str,
) {
    let want = format!(in rt.alloc(); "tcpclkit: bundle 1 byte 3: {code} {words}\n");
    has_line(
        rt,
        &Fault::Bundle(1, 3, fault),
        want.expect(rt, "memory").as_str(),
    );
}

/// Checks the code of a fault in the line of a transfer.
fn has_code(rt: &(impl Abort + AllocGlobal), fault: BundleFault, code: &str) {
    let want = format!(in rt.alloc();
        "transfer 0 start=0 written=34 length=34 bad={code} byte=3\n"
    );
    let entry = transfer(0, 0, 34, 34, Judgement::Bad(fault, 3));
    reports(rt, &entry, want.expect(rt, "memory").as_str());
}

/// Checks the text of the error type of a fault.
fn has_words(rt: &(impl Abort + AllocGlobal), fault: BundleFault, words: &str) {
    let shown = format!(in rt.alloc(); "{fault}").expect(rt, "memory");
    is_text(rt, shown.as_bytes(), words);
}

/// The code and the text of each fault are in lines. The text is also that of its error type.
#[test]
fn codes_of_faults(rt: HostRuntime) {
    for (fault, code, words) in &CODES {
        has_code_and_words(&rt, *fault, code, words);
        has_code(&rt, *fault, code);
        has_words(&rt, *fault, words);
    }
}

#[test]
fn bundle_longer_than_the_limit(rt: HostRuntime) {
    has_line(
        &rt,
        &Fault::TooLong(0, 33),
        "tcpclkit: bundle 0 byte 33: P1 longer than the peer's transfer limit\n",
    );
}

/// A bundle whose numbers differ.
const BUNDLE: BundleView<'static> = BundleView {
    flags: 0,
    destination: EidView::Dtn(b"//node/a"),
    source: EidView::Ipn3(0, 2, 1),
    report_to: EidView::DtnNone,
    time: 1,
    sequence: 2,
    lifetime: 3,
    fragment: None,
    blocks: 1,
    payload: 5,
};

#[test]
fn line_of_a_transfer_by_reference(rt: HostRuntime) {
    let transfer = TransferView {
        id: 1,
        start: 34,
        written: 5,
        length: 40,
        judgement: JudgementView::Good(BUNDLE),
    };
    let mut line = Line::new();
    transfer_view_line(&mut line, &transfer);
    let want = "transfer 1 start=34 written=5 length=40 good \
        source=ipn:0.2.1 time=1 sequence=2 destination=dtn://node/a payload=5\n";
    is_text(&rt, line.as_slice(), want);
}

#[test]
fn line_of_a_packed_bundle_by_reference(rt: HostRuntime) {
    let packed = PackedView {
        number: 7,
        segments: 3,
        length: 40,
        info: BUNDLE,
    };
    let mut line = Line::new();
    packed_view_line(&mut line, &packed);
    let want = "bundle 7 segments=3 length=40 \
        source=ipn:0.2.1 time=1 sequence=2 destination=dtn://node/a payload=5\n";
    is_text(&rt, line.as_slice(), want);
}

/// Whether another transfer begins, what is announced, and the judgement.
type Judged = (bool, Announced, JudgementView<'static>);

/// Checks the judgement of a transfer whose data is no bundle.
fn judges_bad(rt: &impl Abort, row: &Judged) {
    let (abandoned, announced, want) = *row;
    let bad = (BundleFault::Cut, 10);
    assert!(rt; judge_view(abandoned, announced, 10, Err(bad)) == want);
    assert!(rt; judge(abandoned, announced, 10, Err(bad)).view() == want);
}

/// The beginning of another transfer comes first, then the items, the length and the fault.
static OF_A_BAD_BUNDLE: [Judged; 5] = [
    (true, Announced::Malformed, JudgementView::Abandoned),
    (false, Announced::Malformed, JudgementView::BadLengthItem),
    (
        false,
        Announced::Total(35),
        JudgementView::LengthDiffers(35),
    ),
    (
        false,
        Announced::Total(10),
        JudgementView::Bad(BundleFault::Cut, 10),
    ),
    (
        false,
        Announced::Absent,
        JudgementView::Bad(BundleFault::Cut, 10),
    ),
];

/// The first judgement that holds is reported, for data that is no bundle.
#[test]
fn first_judgement_of_a_bad_bundle(rt: HostRuntime) {
    for row in &OF_A_BAD_BUNDLE {
        judges_bad(&rt, row);
    }
}

/// Checks the judgement of a transfer whose data is a bundle of this length.
fn judges_good(rt: &impl Abort, length: u64, row: &Judged) {
    let (abandoned, announced, want) = *row;
    assert!(rt; judge_view(abandoned, announced, length, Ok(whole().view())) == want);
    assert!(rt; judge(abandoned, announced, length, Ok(whole())).view() == want);
}

/// The length of a bundle, and the judgement of the transfer whose data it is.
static OF_A_GOOD_BUNDLE: [(u64, Judged); 3] = [
    (34, (true, Announced::Absent, JudgementView::Abandoned)),
    (
        10,
        (false, Announced::Total(9), JudgementView::LengthDiffers(9)),
    ),
    (
        34,
        (false, Announced::Total(34), JudgementView::Good(WHOLE)),
    ),
];

/// The first judgement that holds is reported, for data that is a bundle.
#[test]
fn first_judgement_of_a_good_bundle(rt: HostRuntime) {
    for (length, row) in &OF_A_GOOD_BUNDLE {
        judges_good(&rt, *length, row);
    }
}

/// A bundle with 20 digits in each number, and with names of 1,024 bytes that are all escaped.
fn longest_bundle() -> BundleInfo {
    BundleInfo {
        flags: u64::MAX,
        destination: name(&[0xff; 1024]),
        source: name(&[0x20; 1024]),
        report_to: name(&[0xff; 1024]),
        time: u64::MAX,
        sequence: u64::MAX,
        lifetime: u64::MAX,
        fragment: Some((u64::MAX, u64::MAX)),
        blocks: u64::MAX,
        payload: u64::MAX,
    }
}

#[test]
fn longest_line_of_a_transfer(rt: HostRuntime) {
    let good = Judgement::Good(longest_bundle());
    let entry = transfer(u64::MAX, u64::MAX, u64::MAX, u64::MAX, good);
    let mut line = Line::new();
    transfer_line(&mut line, &entry);
    assert_eq!(rt; line.len(), 8476);
    assert!(rt; line.ends_with(b" fragment=18446744073709551615/18446744073709551615\n"));
}

#[test]
fn longest_line_of_a_packed_bundle(rt: HostRuntime) {
    let entry = PackedEntry {
        number: u64::MAX,
        segments: u64::MAX,
        length: u64::MAX,
        info: longest_bundle(),
    };
    let mut line = Line::new();
    packed_line(&mut line, &entry);
    assert_eq!(rt; line.len(), 8443);
}
