//! Exports about a bundle that comes in pieces: a scan in memory that the caller lends.

ghost use Rattle.std.specs.Prelude.{◌≡◌, ℕ, ◌+◌, ◌-◌, ◌^◌, ◌<◌, ◌≤◌, true, false, if◌then◌else◌, List, [], ◌++◌, length};
ghost use Rattle.std.specs.Bool.{OnTrue};
ghost use Rattle.std.specs.Borrow.{sem};
ghost use prog.Memory.{size, align};
ghost use denote.Memory.{lone};
ghost use denote.RawPtr.{room_at};
ghost use Rattle.link_bundle_blocks.specs.Bundle.{verdict, payload_seen, state_of, bundle_goes};
ghost use Rattle.link_bundle.specs.Scan.{HasScanned, scan_size};
ghost use Rattle.link_bundle_blocks.specs.PrimaryFields.{primary_fields};
ghost use Rattle.link_ffi_numbers.specs.Bundle.{verdict_shown, state_status, ReturnsVerdict};
ghost use Rattle.link_ffi_numbers.specs.Status.{status_ok};
ghost use Rattle.tcpclkit_c.specs.Bundle.{three_names, ReturnsBundleOrFault};
ghost use Rattle.tcpclkit_c.specs.Scan.{IsMarkedScanAt, ScanLoan, ReadsScan, HoldsScan, mark, has_room, is_late, fed, fed_status, may_end, EndsScan, ReturnsCutBlock, FeedsScanIfAny, JudgesIfAnyScan, EndsScanIfAny, ReturnsCutBlockIfAnyScan, DescribesIfAnyScan};
ghost use Rattle.tcpclkit_c.specs.NextBlock.{TakesToBlockEnd, fed_block, fed_block_status, added_block, FeedsToBlockEndIfAnyScan};
ghost use Rattle.tcpclkit_c.specs.contracts.scan.MarkedScan.{the_row};

use crate::bundle::{give_info, give_verdict};
use link_bundle::{BundleFault, BundleScan};
use link_cbor::Piecewise;
use link_ffi_numbers::block::{BlockNumbers, block_numbers, cut_numbers};
use link_ffi_numbers::bundle::{Bundle, Verdict, state_status, with_span};
use link_ffi_numbers::fault::Fault;
use link_ffi_numbers::status::{END, FAULT, OK, RANGE, SCAN_ENDED};
use link_wire::INPUT_LIMIT;

/// The first word of each scan. It was drawn at random, so other memory hardly begins with it.
const MARK: u64 = 0xa205_da27_81c3_6747;

/// A scan after its mark. Memory without the mark has no scan, and nothing else of it is read.
#[derive(Drop)]
pub struct MarkedScan {
    mark: u64,
    scan: BundleScan,
}

/// The size of a scan in bytes.
#[unsafe(no_mangle)]
pub extern "C" fn tcpclkit_raw_scan_size() -> usize
    ensures within { result ≤ 8192 }
    ensures used { size (lone the_row.mir) ≤ result }
{
    size_of::<MarkedScan>()
}

/// The alignment of a scan in bytes.
#[unsafe(no_mangle)]
pub extern "C" fn tcpclkit_raw_scan_alignment() -> usize
    ensures within { result ≤ 8 }
    ensures used { align (lone the_row.mir) ≤ result }
{
    align_of::<MarkedScan>()
}

/// A scan that has seen no byte.
fn new_scan() -> MarkedScan
    ensures { IsMarkedScanAt result [] }
{
    MarkedScan {
        mark: MARK,
        scan: BundleScan::new(),
    }
}

/// Makes a new scan in the memory, and returns `OK`. The scan has seen no byte.
#[unsafe(no_mangle)]
pub unsafe extern "C" fn tcpclkit_raw_start_scan(memory: *mut u64) -> u32
    requires* { sem 𝓛 (room_at the_row memory) }
    ensures* scan { sem 𝓛 (HoldsScan memory []) }
    ensures status { result ≡ status_ok }
{
    std::ptr::write(memory as *mut MarkedScan, new_scan());
    OK
}

/// Whether the memory has a scan, and the bytes seen and the piece together do not exceed
/// `INPUT_LIMIT`.
fn may_feed(scan: &MarkedScan, piece: &[u8]) -> bool
    ensures scan { (seen : List ℕ) → IsMarkedScanAt scan.now seen
        → result ≡ has_room seen piece.now }
    ensures other { (scan.now.mark ≡ mark → ⊥) → result ≡ false }
    ensures room { OnTrue result (scan_size scan.now.scan + length piece.now ≤ 2 ^ 63 - 1) }
{
    scan.mark == MARK && scan.scan.count().saturating_add(piece.len() as u64) <= INPUT_LIMIT
}

/// Whether the piece has bytes, and the scan needs none.
#[inline(always)]
fn is_late(scan: &BundleScan, piece: &[u8]) -> bool
    ensures { (seen : List ℕ) → HasScanned scan.now seen → result ≡ is_late seen piece.now }
{
    !scan.going() && piece.len() > 0
}

/// The status after a piece. It is `SCAN_ENDED` if [`is_late`] was true of the piece (`late`), and
/// else the status of the bytes seen.
#[inline(always)]
fn piece_status(scan: &BundleScan, late: bool) -> u32
    ensures { (seen : List ℕ) → HasScanned scan.now seen
        → result ≡ (if late then 9 else state_status (state_of (verdict seen))) }
{
    if late {
        SCAN_ENDED
    } else {
        state_status(scan.state())
    }
}

/// Takes the bytes of the piece that the scan needs, and writes their number to `taken`. Returns
/// the status after them.
///
/// If [`may_feed`] is false, takes no byte and returns `RANGE`.
fn feed(scan: &mut MarkedScan, piece: &[u8], taken: &mut u64) -> u32
    ensures { FeedsScanIfAny scan.old piece.now scan.new taken.new result }
{
    *taken = 0;
    if !may_feed(scan, piece) {
        return RANGE;
    }
    let late = is_late(&scan.scan, piece);
    let count = scan.scan.feed(piece);
    *taken = count as u64;
    piece_status(&scan.scan, late)
}

/// Takes the bytes of the piece that belong to the bundle, and writes their number to `taken`.
///
/// Returns `OK`, `TRUNCATED` or `FAULT` for all bytes that the scan has seen after the call. Takes
/// no byte and returns `SCAN_ENDED` if the piece has bytes and the scan needed none, or `RANGE` if
/// [`may_feed`] is false.
#[unsafe(no_mangle)]
pub unsafe extern "C" fn tcpclkit_raw_feed_scan(
    memory: *mut u64,
    piece: &[u8],
    taken: &mut u64,
) -> u32
    ghost seen: { List ℕ }
    requires* { sem 𝓛 (HoldsScan memory seen) }
    ensures* scan { sem 𝓛 (HoldsScan memory (seen ++ fed seen piece.now)) }
    ensures taken { taken.new ≡ length (fed seen piece.now) }
    ensures status { result ≡ fed_status seen piece.now }
{
    feed(&mut *(memory as *mut MarkedScan), piece, taken)
}

/// Takes bytes of the piece while more are needed, up to the end of a block. Returns how many.
fn take_block(scan: &mut BundleScan, piece: &[u8]) -> usize
    requires { scan_size scan.old + length piece.now ≤ 2 ^ 63 - 1 }
    ensures { TakesToBlockEnd scan.old scan.new piece.now result }
{
    if piece.is_empty() || !scan.going() {
        return 0;
    }
    scan.feed_block(piece)
}

/// Takes the bytes of the piece up to the end of the next block, or all that the scan needs if no
/// block ends in them. Writes their number to `taken`, and returns the status after them.
///
/// Writes the block that ends with these bytes, or no block if none does. If [`may_feed`] is false,
/// takes no byte, writes no block and returns `RANGE`.
fn next_block(scan: &mut MarkedScan, piece: &[u8], taken: &mut u64, block: &mut BlockNumbers) -> u32
    ensures { FeedsToBlockEndIfAnyScan scan.old piece.now scan.new taken.new block.new result }
{
    *taken = 0;
    if !may_feed(scan, piece) {
        *block = block_numbers(None);
        return RANGE;
    }
    let late = is_late(&scan.scan, piece);
    let count = take_block(&mut scan.scan, piece);
    *taken = count as u64;
    // A block that ended before this call is not written again.
    let ended = if count > 0 {
        scan.scan.ended_block()
    } else {
        None
    };
    *block = block_numbers(ended);
    piece_status(&scan.scan, late)
}

/// Takes the bytes of the piece up to the end of the next block, or all that the scan needs if no
/// block ends in them. Writes their number to `taken`.
///
/// Writes the block that ends with these bytes, or no block if none does. Returns a status as
/// [`tcpclkit_raw_feed_scan`] does. If it is `RANGE`, no byte was taken, and no block is written.
#[unsafe(no_mangle)]
pub unsafe extern "C" fn tcpclkit_raw_next_block(
    memory: *mut u64,
    piece: &[u8],
    taken: &mut u64,
    block: &mut BlockNumbers,
) -> u32
    ghost seen: { List ℕ }
    requires* { sem 𝓛 (HoldsScan memory seen) }
    ensures* scan { sem 𝓛 (HoldsScan memory (seen ++ fed_block seen piece.now)) }
    ensures taken { taken.new ≡ length (fed_block seen piece.now) }
    ensures block { block.new ≡ added_block seen piece.now }
    ensures status { result ≡ fed_block_status seen piece.now }
{
    next_block(&mut *(memory as *mut MarkedScan), piece, taken, block)
}

/// Writes the verdict on the bytes that the scan has seen, and returns its status.
///
/// If the memory does not begin with [`MARK`], writes nothing and returns `RANGE`.
#[tactic(auto, using(link_bundle::proofs::Pieces::all_judged))]
fn judge(scan: &MarkedScan, answer: &mut Verdict) -> u32
    ensures { JudgesIfAnyScan scan.now answer.old answer.new result }
{
    if scan.mark != MARK {
        return RANGE;
    }
    give_verdict(&scan.scan, answer)
}

/// Writes the verdict on the bytes seen. Returns `OK`, `TRUNCATED` or `FAULT`, or `RANGE` if the
/// memory has no scan.
#[unsafe(no_mangle)]
pub unsafe extern "C" fn tcpclkit_raw_judge_scan(memory: *const u64, answer: &mut Verdict) -> u32
    ghost lent: { ScanLoan }
    requires* { sem 𝓛 (ReadsScan lent.share memory lent.seen) }
    ensures* scan { sem 𝓛 (ReadsScan lent.share memory lent.seen) }
    ensures status { result ≡ state_status (state_of (verdict lent.seen)) }
    ensures answer { answer.new ≡ verdict_shown (verdict lent.seen) (payload_seen lent.seen) }
{
    judge(&*(memory as *const MarkedScan), answer)
}

/// Whether the scan knows the verdict on `count` bytes that begin with the bytes seen: it has seen
/// all of them, or it needs no more.
fn may_end(scan: &BundleScan, count: u64) -> bool
    ensures { (seen : List ℕ) → HasScanned scan.now seen → result ≡ may_end seen count }
{
    count == scan.count() || (count > scan.count() && !scan.going())
}

/// Writes the verdict on the bytes that the scan has seen and more bytes after them (`rest`), which
/// the scan did not need. Returns `FAULT`.
///
/// After a good bundle, the fault is `Trailing`. Otherwise, it is the fault that the scan found.
fn give_late(scan: &BundleScan, answer: &mut Verdict) -> u32
    ensures { (seen rest : List ℕ) → HasScanned scan.now seen → bundle_goes seen ≡ false
        → 0 < length rest → ReturnsVerdict (seen ++ rest) answer.new result }
{
    match scan.view() {
        Ok(_) => {
            let fault = Fault::of_bundle(BundleFault::Trailing, scan.count());
            *answer = with_span(fault, scan.payload_seen());
            FAULT
        }
        Err(_) => give_verdict(scan, answer),
    }
}

/// Writes the verdict on a transfer of `count` bytes, and returns its status. The scan may have
/// seen fewer of them, if it needed no more.
fn give_end(scan: &BundleScan, count: u64, answer: &mut Verdict) -> u32
    ensures { (seen rest : List ℕ) → HasScanned scan.now seen → may_end seen count ≡ true
        → length (seen ++ rest) ≡ count → ReturnsVerdict (seen ++ rest) answer.new result }
{
    if count > scan.count() {
        return give_late(scan, answer);
    }
    give_verdict(scan, answer)
}

/// Writes the verdict on a transfer of `count` bytes, of which the scan has seen a prefix. Returns
/// the status of the verdict.
///
/// If the memory does not begin with [`MARK`], or if [`may_end`] is false, writes nothing and
/// returns `RANGE`.
fn end(scan: &MarkedScan, count: u64, answer: &mut Verdict) -> u32
    ensures { EndsScanIfAny scan.now count answer.old answer.new result }
{
    if scan.mark != MARK {
        return RANGE;
    }
    if !may_end(&scan.scan, count) {
        return RANGE;
    }
    give_end(&scan.scan, count, answer)
}

/// Writes the verdict on `count` bytes as one bundle. They are the bytes that the scan has seen,
/// and bytes after them that it did not need.
///
/// Returns `OK`, `TRUNCATED` or `FAULT`. If the memory has no scan, or if [`may_end`] is false,
/// writes nothing and returns `RANGE`.
#[unsafe(no_mangle)]
pub unsafe extern "C" fn tcpclkit_raw_end_scan(
    memory: *const u64,
    count: u64,
    answer: &mut Verdict,
) -> u32
    ghost lent: { ScanLoan }
    requires* { sem 𝓛 (ReadsScan lent.share memory lent.seen) }
    ensures* scan { sem 𝓛 (ReadsScan lent.share memory lent.seen) }
    ensures verdict { EndsScan lent.seen count answer.old answer.new result }
{
    end(&*(memory as *const MarkedScan), count, answer)
}

/// Writes the block in whose data or check field the seen bytes end, and returns `OK`.
///
/// Writes no block and returns `END` if they end elsewhere, or `RANGE` if the memory does not begin
/// with [`MARK`].
fn judge_block(scan: &MarkedScan, block: &mut BlockNumbers) -> u32
    ensures { ReturnsCutBlockIfAnyScan scan.now block.new result }
{
    if scan.mark != MARK {
        *block = block_numbers(None);
        return RANGE;
    }
    let cut = scan.scan.cut_block();
    *block = cut_numbers(scan.scan.count(), cut);
    if cut.is_some() { OK } else { END }
}

/// Writes the block in whose data or check field the seen bytes end, and returns `OK`. Writes no
/// block and returns `END` if they end elsewhere, or `RANGE` if the memory has no scan.
#[unsafe(no_mangle)]
pub unsafe extern "C" fn tcpclkit_raw_judge_block(
    memory: *const u64,
    block: &mut BlockNumbers,
) -> u32
    ghost lent: { ScanLoan }
    requires* { sem 𝓛 (ReadsScan lent.share memory lent.seen) }
    ensures* scan { sem 𝓛 (ReadsScan lent.share memory lent.seen) }
    ensures block { ReturnsCutBlock lent.seen block.new result }
{
    judge_block(&*(memory as *const MarkedScan), block)
}

/// Writes the verdict on the bytes seen, and the fields and names that were accepted. Returns the
/// status.
///
/// If the memory does not begin with [`MARK`], writes nothing and returns `RANGE`.
fn describe(
    scan: &MarkedScan,
    destination_name: &mut [u8],
    source_name: &mut [u8],
    report_to_name: &mut [u8],
    answer: &mut Bundle,
) -> u32
    ensures { DescribesIfAnyScan scan.now
        (three_names destination_name.old source_name.old report_to_name.old)
        (three_names destination_name.new source_name.new report_to_name.new)
        answer.old answer.new result }
{
    if scan.mark != MARK {
        return RANGE;
    }
    give_info(
        &scan.scan,
        &scan.scan.primary(),
        destination_name,
        source_name,
        report_to_name,
        answer,
    )
}

/// Writes the verdict on the bytes seen, and the fields and names that were accepted.
///
/// For a good bundle, returns `OK`, or `TOO_SMALL` if a name does not fit in its slice. For other
/// bytes, returns `TRUNCATED` or `FAULT`, whether the names fit or not. Returns `RANGE` if the
/// memory has no scan.
#[unsafe(no_mangle)]
pub unsafe extern "C" fn tcpclkit_raw_describe_scan(
    memory: *const u64,
    destination_name: &mut [u8],
    source_name: &mut [u8],
    report_to_name: &mut [u8],
    answer: &mut Bundle,
) -> u32
    ghost lent: { ScanLoan }
    requires* { sem 𝓛 (ReadsScan lent.share memory lent.seen) }
    ensures* scan { sem 𝓛 (ReadsScan lent.share memory lent.seen) }
    ensures answer { ReturnsBundleOrFault (verdict lent.seen) (payload_seen lent.seen)
        (primary_fields lent.seen)
        (three_names destination_name.old source_name.old report_to_name.old)
        (three_names destination_name.new source_name.new report_to_name.new)
        answer.new result }
{
    describe(
        &*(memory as *const MarkedScan),
        destination_name,
        source_name,
        report_to_name,
        answer,
    )
}
