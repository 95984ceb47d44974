//! The rules that bundles break, by the blocks that a scan finds in them.
ghost use Rattle.std.specs.Prelude.{◌+◌, ◌-◌, ◌^◌, ◌<◌, ◌≤◌, length};

use super::rows::blocks::{BLOCKS, CONFIDENTIAL, EXTENSIONS, HOP_COUNTS};
use super::rows::data::{DATA, HIDDEN_DATA, RECORDS, UNREAD, UNREAD_IN_ORDER};
use super::rows::doubt::{SURE, UNSURE};
use super::rows::nodes::{ADDERS, MIXED, SOURCES_AND_ADDERS};
use super::rows::primary::{FRAGMENTS, NAMES, PRIMARY, PRIMARY_CHECKS, SOURCES, WHOLE_FRAGMENTS};
use super::rows::together::TOGETHER;
use super::rows::{LevelRow, NodeRow, Row};
use link_bundle::{BlockView, BundleScan, CanonicalBlock, State};
use link_bundle_data::{DataFault, DataKind, DataScan, DataView};
use link_bundle_rules::{BundleHistory, KnownSource, ReadBlockView};
use link_cbor::Piecewise;
use link_report_blocks::data_kind;
use link_rules_shared::HeadWalk;
use std::process::Abort;

/// The node ID of the entity that sends the bundles, which is that of most of their sources.
const SENDER: &[u8] = b"ipn:1.0";

/// The parts of a bundle, joined.
fn joined(rt: &(impl Abort + AllocGlobal), parts: &[&[u8]]) -> Vec<u8> {
    let mut bytes = Vec::new(rt.alloc());
    for part in parts {
        bytes.extend_from_slice(part).expect(rt, "memory");
    }
    bytes
}

/// The bytes of a block's data.
fn data_of<'a>(rt: &impl Abort, bytes: &'a [u8], block: &CanonicalBlock) -> &'a [u8]
    ensures { length result.now ≤ length bytes.now }
{
    assert!(rt; bytes.len() < 100_000);
    let size = bytes.len() as u64;
    assert!(rt; block.data_start <= size && block.data_length <= size - block.data_start);
    let start = block.data_start as usize;
    &bytes[start..start + block.data_length as usize]
}

/// What the scanned data says, if data of this kind is read.
fn found(kind: Option<DataKind>, scan: &DataScan) -> Option<Result<DataView<'_>, DataFault>> {
    match kind {
        Some(_) => Some(scan.view()),
        None => None,
    }
}

/// The offset in the data of the first head that is longer than its number needs, if data of this
/// kind is read.
fn long_head(kind: Option<DataKind>, scan: &DataScan) -> Option<u64> {
    match kind {
        Some(_) => scan.long_head(),
        None => None,
    }
}

/// Takes a canonical block whose data was scanned, if it is read. `own` is as for
/// [`BundleHistory::take`].
fn take_scanned(
    own: &[u8],
    block: &CanonicalBlock,
    kind: Option<DataKind>,
    scan: &DataScan,
    history: &mut BundleHistory,
) {
    history.take(
        own,
        &ReadBlockView {
            block,
            found: found(kind, scan),
            long_head: long_head(kind, scan),
        },
    );
}

/// Takes a canonical block of a bundle with these flags.
fn take_block(
    rt: &impl Abort,
    own: &[u8],
    bytes: &[u8],
    flags: u64,
    block: &CanonicalBlock,
    history: &mut BundleHistory,
) {
    let kind = data_kind(flags, block.block_type);
    let mut scan = DataScan::new(kind.unwrap_or(DataKind::Record));
    scan.take(data_of(rt, bytes, block));
    take_scanned(own, block, kind, &scan, history);
}

/// Takes the block that ends with the bytes scanned, if one does. Returns the flags of the bundle.
fn take_ended(
    rt: &impl Abort,
    own: &[u8],
    bytes: &[u8],
    flags: u64,
    scan: &BundleScan,
    history: &mut BundleHistory,
) -> u64 {
    match scan.ended_block() {
        Some(BlockView::Primary(block)) => {
            history.begin(&block);
            block.flags
        }
        Some(BlockView::Canonical(block)) => {
            take_block(rt, own, bytes, flags, &block, history);
            flags
        }
        None => flags,
    }
}

/// Takes the blocks of a bundle, and returns the length of its payload and what is known of its
/// source.
fn take_bundle(
    rt: &impl Abort,
    own: &[u8],
    bytes: &[u8],
    scan: &mut BundleScan,
    history: &mut BundleHistory,
) -> (u64, KnownSource) {
    scan.restart();
    let mut flags = 0;
    for byte in bytes {
        assert!(rt; scan.going() && scan.count() < 100_000);
        scan.step(*byte);
        flags = take_ended(rt, own, bytes, flags, scan, history);
    }
    match scan.view() {
        Ok(bundle) => (bundle.payload, KnownSource::of(own, SENDER, &bundle.source)),
        Err(fault) => panic!(rt; "{fault:?} in {bytes:?}"),
    }
}

/// The offset of the first head of a bundle that is longer than its number needs.
fn first_long_head(bytes: &[u8]) -> Option<u64> {
    let mut walk = HeadWalk::new();
    walk.take(bytes);
    walk.first_long()
}

/// Compares the rules that a bundle breaks with those that it has to break.
///
/// `own` is the node ID of the node whose bundles and security blocks are judged, or empty.
fn expect(
    rt: &(impl Abort + AllocGlobal),
    own: &[u8],
    scan: &mut BundleScan,
    history: &mut BundleHistory,
    row: &Row,
) {
    let (parts, wanted) = *row;
    let bytes = joined(rt, parts);
    let (payload_length, source) = take_bundle(rt, own, &bytes, scan, history);
    let broken = history.rules(first_long_head(&bytes), payload_length, source);
    assert_eq!(rt; broken.as_slice(), wanted, "{:?}", bytes.as_slice());
}

/// Compares the rules of each bundle. One history takes all bundles, one after another.
fn expect_all(rt: &(impl Abort + AllocGlobal), rows: &[Row]) {
    let mut scan = BundleScan::new();
    let mut history = BundleHistory::new();
    for row in rows {
        expect(rt, b"", &mut scan, &mut history, row);
    }
}

/// Compares the rules of each bundle that are judged for a node. One history takes all bundles.
fn expect_for_nodes(rt: &(impl Abort + AllocGlobal), rows: &[NodeRow]) {
    let mut scan = BundleScan::new();
    let mut history = BundleHistory::new();
    for &(own, parts, wanted) in rows {
        expect(rt, own, &mut scan, &mut history, &(parts, wanted));
    }
}

/// Compares the rules of each bundle, and their level. One history takes all bundles.
fn expect_levels(rt: &(impl Abort + AllocGlobal), rows: &[LevelRow]) {
    let mut scan = BundleScan::new();
    let mut history = BundleHistory::new();
    for &(parts, wanted, level) in rows {
        expect(rt, b"", &mut scan, &mut history, &(parts, wanted));
        let doubt = history.doubt();
        assert!(rt;
            wanted.iter().all(|rule| rule.level(doubt) == level),
            "{wanted:?} {doubt:?}"
        );
    }
}

#[test]
fn judges_primary_blocks(rt: HostRuntime) {
    expect_all(&rt, &PRIMARY);
}

#[test]
fn judges_primary_checks(rt: HostRuntime) {
    expect_all(&rt, &PRIMARY_CHECKS);
}

#[test]
fn judges_sources_and_records(rt: HostRuntime) {
    expect_all(&rt, &SOURCES);
}

#[test]
fn judges_dtn_names(rt: HostRuntime) {
    expect_all(&rt, &NAMES);
}

#[test]
fn judges_fragments(rt: HostRuntime) {
    expect_all(&rt, &FRAGMENTS);
}

#[test]
fn judges_whole_fragments(rt: HostRuntime) {
    expect_all(&rt, &WHOLE_FRAGMENTS);
}

#[test]
fn judges_blocks(rt: HostRuntime) {
    expect_all(&rt, &BLOCKS);
}

#[test]
fn judges_extension_blocks(rt: HostRuntime) {
    expect_all(&rt, &EXTENSIONS);
}

#[test]
fn judges_hop_counts(rt: HostRuntime) {
    expect_all(&rt, &HOP_COUNTS);
}

#[test]
fn judges_confidential_blocks_and_hops(rt: HostRuntime) {
    expect_all(&rt, &CONFIDENTIAL);
}

#[test]
fn judges_data_of_blocks(rt: HostRuntime) {
    expect_all(&rt, &DATA);
}

#[test]
fn judges_hidden_data(rt: HostRuntime) {
    expect_all(&rt, &HIDDEN_DATA);
}

#[test]
fn judges_data_that_is_not_read(rt: HostRuntime) {
    expect_all(&rt, &UNREAD);
}

#[test]
fn judges_the_first_data_that_is_not_read(rt: HostRuntime) {
    expect_all(&rt, &UNREAD_IN_ORDER);
}

#[test]
fn judges_records(rt: HostRuntime) {
    expect_all(&rt, &RECORDS);
}

#[test]
fn judges_rules_together(rt: HostRuntime) {
    expect_all(&rt, &TOGETHER);
}

#[test]
fn judges_rules_that_bind_one_or_another(rt: HostRuntime) {
    expect_for_nodes(&rt, &MIXED);
}

#[test]
fn judges_for_sources_and_adders(rt: HostRuntime) {
    expect_for_nodes(&rt, &SOURCES_AND_ADDERS);
}

#[test]
fn judges_for_adders(rt: HostRuntime) {
    expect_for_nodes(&rt, &ADDERS);
}

#[test]
fn doubts_data_beside_unknown_blocks(rt: HostRuntime) {
    expect_levels(&rt, &UNSURE);
}

#[test]
fn doubts_nothing_else(rt: HostRuntime) {
    expect_levels(&rt, &SURE);
}
