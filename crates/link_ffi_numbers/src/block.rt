//! A block of a bundle as numbers.

ghost use Rattle.std.specs.Prelude.{◌≡◌};
ghost use Rattle.link_bundle_blocks.specs.Blocks.{viewed_primary, viewed_blocks, PrimaryOf};
ghost use Rattle.link_ffi_numbers.specs.Block.{check_type, no_block, canonical_shown, block_shown, first_shown, cut_shown};

use link_bundle_blocks::{BlockView, CanonicalBlock, PrimaryBlock};
use link_cbor::CheckKind;

/// `struct tcpclkit_block`: a block of a bundle.
#[repr(C)]
#[derive(Clone, Copy, Debug, PartialEq, Eq)]
pub struct BlockNumbers {
    /// 0 for no block, 1 for the primary block, and 2 for a canonical block.
    pub kind: u64,
    /// The offset of the block's first byte in the bundle.
    pub offset: u64,
    /// The number of the block's bytes, or 0 if the block is not whole.
    pub length: u64,
    /// The block type code of a canonical block.
    pub block_type: u64,
    /// The block number of a canonical block.
    pub number: u64,
    /// The flags of the block, or of the bundle if the block is the primary block.
    pub flags: u64,
    /// The check type code of the block.
    pub check: u64,
    /// The offset of the first byte of a canonical block's data.
    pub data_offset: u64,
    /// The number of bytes of a canonical block's data, by its head.
    pub data_length: u64,
    /// The number of these bytes that are there: all of them if the block is whole.
    pub data_seen: u64,
}

/// The code of a block's check type (RFC 9171 section 4.2.1), which is 0 for no check.
fn check_type(check: Option<CheckKind>) -> u64
    ensures { result ≡ check_type check }
{
    match check {
        None => 0,
        Some(CheckKind::Crc16) => 1,
        Some(CheckKind::Crc32) => 2,
    }
}

/// The numbers in place of a block, if there is none.
fn no_block() -> BlockNumbers
    ensures { result ≡ no_block }
{
    BlockNumbers {
        kind: 0,
        offset: 0,
        length: 0,
        block_type: 0,
        number: 0,
        flags: 0,
        check: 0,
        data_offset: 0,
        data_length: 0,
        data_seen: 0,
    }
}

/// The numbers of a primary block, which begins after the byte that opens the bundle.
fn primary_shown(block: &PrimaryBlock<'_>) -> BlockNumbers
    ensures { result ≡ block_shown
        (PrimaryOf (viewed_primary block.now) block.now.check block.now.end) }
{
    BlockNumbers {
        kind: 1,
        offset: 1,
        length: block.end.saturating_sub(1),
        flags: block.flags,
        check: check_type(block.check),
        ..no_block()
    }
}

/// The numbers of a canonical block. `data_seen` is how many bytes of the block's data have come.
/// The `length` of a block that is not whole is 0.
fn canonical_shown(block: &CanonicalBlock, data_seen: u64) -> BlockNumbers
    ensures { result ≡ canonical_shown block.now data_seen }
{
    BlockNumbers {
        kind: 2,
        offset: block.start,
        length: block.end.unwrap_or(block.start).saturating_sub(block.start),
        block_type: block.block_type,
        number: block.number,
        flags: block.flags,
        check: check_type(block.check),
        data_offset: block.data_start,
        data_length: block.data_length,
        data_seen,
    }
}

/// The numbers of a block, or of no block.
pub fn block_numbers(block: Option<BlockView<'_>>) -> BlockNumbers
    ensures { result ≡ first_shown (viewed_blocks block.entry) }
{
    match block {
        None => no_block(),
        Some(BlockView::Primary(block)) => primary_shown(&block),
        Some(BlockView::Canonical(block)) => canonical_shown(&block, block.data_length),
    }
}

/// The numbers of the block in whose data or check field the first `count` bytes of a bundle end,
/// or of no block. `data_seen` is how many of these bytes are data of the block.
pub fn cut_numbers(count: u64, block: Option<CanonicalBlock>) -> BlockNumbers
    ensures { result ≡ cut_shown count block }
{
    match block {
        None => no_block(),
        Some(block) => {
            let there = count.saturating_sub(block.data_start);
            canonical_shown(&block, block.data_length.min(there))
        }
    }
}
