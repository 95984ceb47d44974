//! The blocks of a bundle so far, as far as the rules for it need them.

ghost use Rattle.std.specs.Prelude.{◌≤◌};
ghost use Rattle.arrayvec.specs.ArrayVec.{array_vec_len};

use crate::block::{BlockFacts, ReadBlockView, is_security};
use crate::primary::{NO_PRIMARY, PrimaryFacts};
use crate::security::{SecurityFacts, is_judged_security};
use arrayvec::ArrayVec;
use link_bundle_blocks::PrimaryBlock;
use link_bundle_types::BLOCK_LIMIT;

/// The blocks of a bundle so far, as far as the rules for it need them.
///
/// In a contract about every `long_head` and `payload_length`, the rule looks neither at the first
/// long head outside the data of blocks nor at the length of the payload (`bundle_of`).
#[derive(Drop)]
pub struct BundleHistory {
    pub(crate) primary: PrimaryFacts,
    pub(crate) blocks: ArrayVec<BlockFacts, BLOCK_LIMIT>,
    pub(crate) security: ArrayVec<SecurityFacts, BLOCK_LIMIT>,
    ghost few: { array_vec_len security ≤ array_vec_len blocks },
}

impl BundleHistory {
    ghost use Rattle.std.specs.Prelude.{◌≡◌, ◌^◌, ◌<◌, true, IfSome, None, option_map};
    ghost use Rattle.arrayvec.specs.ArrayVec.{array_vec_len};
    ghost use Rattle.link_bundle_data.specs.DataView.{viewed_result};
    ghost use Rattle.link_bundle_blocks.specs.Blocks.{viewed_primary};
    ghost use Rattle.link_bundle_rules.specs.History.{bundle_of};
    ghost use Rattle.link_bundle_rules.specs.BundleFacts.{begun, is_security, with_block, malformed_at, long_head_at};

    /// A history for one bundle after another. [`BundleHistory::begin`] begins each.
    pub fn new() -> BundleHistory {
        BundleHistory {
            primary: NO_PRIMARY,
            blocks: ArrayVec::new(),
            security: ArrayVec::new(),
        }
    }

    /// Begins the history of a bundle whose primary block is whole.
    #[inline(always)]
    pub fn begin(&mut self, primary: &PrimaryBlock<'_>)
        ensures { bundle_of self.new None 0
            ≡ begun (viewed_primary primary.now) primary.now.check }
    {
        self.security.clear();
        self.blocks.clear();
        self.primary = PrimaryFacts::of(primary);
    }

    /// Takes the next canonical block. A block after 64 of them changes nothing.
    ///
    /// If `own` is not empty, it is the node ID of the node whose security blocks are judged.
    ///
    /// The premises of the contract are that fewer than 64 canonical blocks came before, and that
    /// offsets are below 2^64. Each good bundle meets them, since it has at most 64 such blocks.
    #[inline(always)]
    pub fn take(&mut self, own: &[u8], read: &ReadBlockView<'_>)
        ensures { array_vec_len self.old.blocks < 64
            → IfSome (malformed_at read.now.block.now (option_map viewed_result read.now.found))
            (λ byte. byte < 2 ^ 64)
            → IfSome (long_head_at read.now.block.now read.now.long_head) (λ byte. byte < 2 ^ 64)
            → bundle_of self.new None 0 ≡ with_block own.now (bundle_of self.old None 0)
            read.now.block.now (option_map viewed_result read.now.found) read.now.long_head }
    {
        if self.blocks.is_full() {
            return;
        }
        if is_security(read.block.block_type) {
            // The call gets copies. Otherwise every block would be put into memory for it.
            let block = *read.block;
            self.take_security(
                own,
                &ReadBlockView {
                    block: &block,
                    ..*read
                },
            );
        } else {
            self.blocks.push(BlockFacts::of(read));
        }
    }

    /// Takes the next security block. The premises of the contract are as for
    /// [`BundleHistory::take`].
    #[cold]
    #[inline(never)]
    fn take_security(&mut self, own: &[u8], read: &ReadBlockView<'_>)
        requires room { array_vec_len self.old.blocks < 64 }
        requires security { is_security read.now.block.now.block_type ≡ true }
        ensures { IfSome (malformed_at read.now.block.now (option_map viewed_result read.now.found))
            (λ byte. byte < 2 ^ 64)
            → IfSome (long_head_at read.now.block.now read.now.long_head) (λ byte. byte < 2 ^ 64)
            → bundle_of self.new None 0 ≡ with_block own.now (bundle_of self.old None 0)
            read.now.block.now (option_map viewed_result read.now.found) read.now.long_head }
    {
        let judged = is_judged_security(own, read);
        let facts = if judged {
            BlockFacts::of(read)
        } else {
            BlockFacts::unjudged(read.block)
        };
        self.blocks.push(facts);
        self.security.push(SecurityFacts::of(judged, read));
    }
}
