//! The part of a bundle that a scan holds, and the number of its bytes that show a fault.
//!
//! A part is read from all bytes that are held. If that is a fault, fewer of them may show it. The
//! scan takes only as many as do, so that a caller has the rest.
ghost use Rattle.std.specs.Prelude.{◌≡◌, ℕ, ◌+◌, ◌<◌, ◌≤◌, ◌^◌, IsTrue, List, length, Ok, Err, false, MatchResult};
ghost use Rattle.link_bundle.specs.Stages.{is_part, is_cut, any_reading, part_end, part_reading, IfAtCheckFieldCovered, IsLeastNotCutShort};
ghost use Rattle.link_bundle_types.specs.Faults.{lasts};
ghost use Rattle.link_bundle_blocks.specs.Reading.{stopped};
ghost use Rattle.link_bundle.specs.Scan.{PartLeadsTo};

use crate::cursor::Cursor;
use crate::draft::Draft;
use crate::stage::ScanStage;
use link_bundle_blocks::{PartFault, break_at, check_field_at, next_block_at, primary_at};
use link_bundle_types::{BlockNumbers, BundleFault};
use link_cbor::Check;

/// Reads the part of this stage from the held bytes, and keeps its fields in the draft. A check
/// field and the break have no fields.
///
/// Returns the size of the part, and the stage after it. The error is the fault of the part, which
/// is `Cut` if the held bytes end inside it.
#[inline(always)]
#[tactic(auto, using(crate::proofs::StageParts::heads_within))]
pub(crate) fn read_part(
    stage: ScanStage,
    draft: &mut Draft,
    cursor: &mut Cursor,
) -> Result<(usize, ScanStage), PartFault>
    requires part { IsTrue (is_part stage) }
    requires held { length cursor.old.hold ≤ cursor.old.count }
    requires small { cursor.old.count < 2 ^ 63 }
    ensures count { cursor.new.count ≡ cursor.old.count }
    ensures hold { cursor.new.hold ≡ cursor.old.hold }
    ensures ends { (covered : List ℕ) → IfAtCheckFieldCovered stage cursor.old.check covered
        → part_reading stage draft.old.numbers covered cursor.old.hold ≡ part_end result }
    // `any_reading` has the same size, or the same fault if that does not last.
    ensures any { MatchResult result
        (λ read. any_reading stage draft.old.numbers cursor.old.hold ≡ Ok read.0)
        (λ stop. lasts stop.fault ≡ false
        → any_reading stage draft.old.numbers cursor.old.hold
        ≡ Err (stopped stop.fault stop.offset)) }
    ensures kept { MatchResult result
        (λ read. PartLeadsTo stage draft.old cursor.old read.0 read.1 draft.new cursor.new.check)
        (λ _. (draft.new ≡ draft.old) × (cursor.new ≡ cursor.old)) }
{
    match stage {
        ScanStage::PrimaryBlock => match primary_at(cursor.hold.as_slice()) {
            Ok(block) => {
                let size = block.end as usize;
                draft.keep_primary(block);
                Ok((size, ScanStage::BlockHeads))
            }
            Err((_, stop)) => Err(stop),
        },
        ScanStage::BlockHeads => {
            let (block, size) = next_block_at(&draft.numbers, cursor.hold.as_slice())?;
            draft.keep_block(block.moved(cursor.start()));
            cursor.begin_check(block.check, size);
            Ok((size, draft.in_data(block.data_length)))
        }
        ScanStage::CheckField(kind) => {
            let size = check_field_at(kind, cursor.check, cursor.hold.as_slice())?;
            Ok((size, draft.after_block()))
        }
        ScanStage::Break => Ok((break_at(cursor.hold.as_slice())?, ScanStage::Ended)),
        _ => unreachable!(),
    }
}

/// Whether the bytes end inside the part of this stage.
fn is_cut(stage: ScanStage, numbers: &BlockNumbers, check: Check, bytes: &[u8]) -> bool
    requires { IsTrue (is_part stage) }
    ensures { (covered : List ℕ) → IfAtCheckFieldCovered stage check covered
        → result ≡ is_cut (part_reading stage numbers.now covered bytes.now) }
{
    let stop = match stage {
        ScanStage::PrimaryBlock => primary_at(bytes).err().map(|(_, stop)| stop),
        ScanStage::BlockHeads => next_block_at(numbers, bytes).err(),
        ScanStage::CheckField(kind) => check_field_at(kind, check, bytes).err(),
        ScanStage::Break => break_at(bytes).err(),
        _ => unreachable!(),
    };
    matches!(
        stop,
        Some(PartFault {
            fault: BundleFault::Cut,
            ..
        })
    )
}

/// The least number of bytes, from the start, that show the fault of the part.
///
/// All bytes together show the fault. The first `held` bytes end inside the part, so the result is
/// greater than `held`.
#[cold]
#[inline(never)]
pub(crate) fn shown(
    stage: ScanStage,
    numbers: &BlockNumbers,
    check: Check,
    bytes: &[u8],
    held: usize,
) -> usize
    requires part { IsTrue (is_part stage) }
    requires some { held < length bytes.now }
    ensures more { held < result }
    ensures within { result ≤ length bytes.now }
    ensures shown { (covered : List ℕ) → IfAtCheckFieldCovered stage check covered
        → IsLeastNotCutShort (part_reading stage numbers.now covered) held result bytes.now }
{
    let mut cut = held;
    let mut shown = bytes.len();
    while shown - cut > 1 {
        let middle = cut + (shown - cut) / 2;
        if is_cut(stage, numbers, check, &bytes[..middle]) {
            cut = middle;
        } else {
            shown = middle;
        }
    }
    shown
}
