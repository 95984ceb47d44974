//! Laws over the definitions alone.
//!
//! The functions do nothing when they run. Their contracts are the laws.
ghost use Rattle.std.specs.Prelude.{◌≡◌, ℕ, List, take};
ghost use Rattle.link_bundle_blocks.specs.PrimaryFields.{primary_fields};
ghost use Rattle.link_bundle_blocks.specs.Laws.{FaultLasts, ByteAfterBundleIsTrailing, PayloadLasts, SpanDeterminesPayload, PayloadStaysAfterBundleEnd, BlocksGrow, NoBlocksAfterBundleEnd, BlocksWithin, NextBlockIsCutOrLater, GoodBlocksTile};

/// How the verdict on some bytes lasts when more bytes follow.
///
/// - A fault stays the same, at the same offset. The exception is `Cut`, which says that the bytes
///   end inside the bundle.
/// - If a byte follows a whole bundle, the verdict is the fault of trailing bytes, at the bundle's
///   length, whatever comes after that byte.
/// - Once the offset of the payload and its length by its head are known, they stay the same.
/// - The offset and the length determine which bytes of the payload are there. This is also true of
///   any first bytes of the same bundle, even if they are too few to show the two.
/// - After the bundle's end, or after a fault that stays, the payload gets no more bytes.
pub fn verdict_lasts()
    ensures fault { FaultLasts }
    ensures trailing { ByteAfterBundleIsTrailing }
    ensures payload { PayloadLasts }
    ensures placed { SpanDeterminesPayload }
    ensures ends { PayloadStaysAfterBundleEnd }
{}

/// How the blocks among some bytes last when more bytes follow.
///
/// - More bytes leave the whole blocks as they are, and may add some.
/// - After the bundle's end, or after a fault that stays, no more blocks are added.
/// - The whole blocks lie within the bytes.
/// - Take the next block that more bytes make whole, or else the one in whose data or check field
///   they end. If it is canonical, the bytes before end in its data or check field, or its data
///   begins after them.
pub fn blocks_last()
    ensures grow { BlocksGrow }
    ensures end { NoBlocksAfterBundleEnd }
    ensures within { BlocksWithin }
    ensures placed { NextBlockIsCutOrLater }
{}

/// How the blocks divide a good bundle.
///
/// - The bundle is its primary block, and then canonical blocks. The last of these is the payload
///   block, and no other has type 1.
/// - The verdict has the fields of the primary block, the number of canonical blocks, and the
///   length of the payload block's data.
/// - The first block begins at offset 1, and each other where the one before it ends. The last ends
///   one byte before the end of the bundle.
/// - The data of each block lies in it.
pub fn good_blocks_tile()
    ensures { GoodBlocksTile }
{}

/// The fields of a primary block depend on the first 3,257 bytes of the bundle alone. This is
/// [`PRIMARY_LIMIT`](crate::PRIMARY_LIMIT).
pub fn primary_is_short()
    ensures { (bytes : List ℕ) → primary_fields (take 3257 bytes) ≡ primary_fields bytes }
{}
