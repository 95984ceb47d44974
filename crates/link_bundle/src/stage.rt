//! The stages of a scan.
ghost use Rattle.std.specs.Prelude.{◌≡◌, ◌≤◌};

use link_bundle_blocks::PRIMARY_LIMIT;
use link_bundle_types::{BundleFault, State};
use link_cbor::CheckKind;

/// The greatest length of a canonical block's heads: six heads of at most 9 bytes.
const HEADS_LIMIT: usize = 54;

/// The greatest length of a check field: a head of at most 9 bytes, and a value of at most 4.
const CHECK_FIELD_LIMIT: usize = 13;

/// The greatest length of a head (RFC 8949 section 3).
const HEAD_LIMIT: usize = 9;

/// The part of a bundle that a scan is in.
///
/// The scan holds the bytes seen of a primary block, of a block's heads, of a check field, and of
/// the break, and reads them as a whole.
#[derive(Clone, Copy)]
pub(crate) enum ScanStage {
    /// The first byte of a bundle and its primary block (RFC 9171 section 4.3.1).
    PrimaryBlock,
    /// The heads of a canonical block up to its data (RFC 9171 section 4.3.2).
    BlockHeads,
    /// The data of a canonical block, which has this many bytes left.
    BlockData(u64),
    /// The check field of a canonical block whose check is of this kind.
    CheckField(CheckKind),
    /// The break after the payload block.
    Break,
    /// The bundle is whole.
    Ended,
    /// The bundle has this fault at this offset.
    Failed(BundleFault, u64),
}

impl ScanStage {
    ghost use Rattle.link_bundle.specs.Stages.{stage_state, follows_block, limit};

    /// The state that a caller sees at this stage.
    #[inline(always)]
    pub fn state(self) -> State
        ensures { result ≡ stage_state self }
    {
        match self {
            ScanStage::Ended => State::Ended,
            ScanStage::Failed(fault, offset) => State::Failed(fault, offset),
            _ => State::Going,
        }
    }

    /// Whether this stage begins where a block ends.
    #[inline(always)]
    pub fn follows_block(self) -> bool
        ensures { result ≡ follows_block self }
    {
        matches!(self, ScanStage::BlockHeads | ScanStage::Break)
    }

    /// The greatest number of bytes that are held to read the part of this stage.
    ///
    /// Between two calls, a scan without a fault holds fewer. So at a stage without a part, where
    /// the number is 1, it holds none.
    #[inline(always)]
    pub fn limit(self) -> usize
        ensures limit { result ≡ limit self }
        ensures most { result ≤ 3257 }
    {
        match self {
            ScanStage::PrimaryBlock => PRIMARY_LIMIT,
            ScanStage::BlockHeads => HEADS_LIMIT,
            ScanStage::CheckField(_) => CHECK_FIELD_LIMIT,
            ScanStage::Break => HEAD_LIMIT,
            _ => 1,
        }
    }
}
