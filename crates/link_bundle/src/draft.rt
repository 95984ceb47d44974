//! What a scan keeps of a bundle.
ghost use Rattle.std.specs.Prelude.{◌≡◌, ◌<◌, [], IsTrue, None, length};
ghost use Rattle.link_bundle.specs.Fits.{stage_fits};

use crate::stage::ScanStage;
use link_bundle_blocks::{CanonicalBlock, PrimaryBlock};
use link_bundle_heads::row;
use link_bundle_types::{BlockNumbers, BundleView, KeptEid};
use link_cbor::CheckKind;

/// The fields of the parts that were read.
#[derive(Drop)]
pub(crate) struct Draft {
    /// Whether the primary block is whole. Otherwise its fields have no meaning.
    pub whole: bool,
    pub flags: u64,
    pub destination: KeptEid,
    pub source: KeptEid,
    pub report_to: KeptEid,
    pub time: u64,
    pub sequence: u64,
    pub lifetime: u64,
    /// The fragment offset and the total length, if the bundle is a fragment.
    pub fragment: Option<(u64, u64)>,
    /// The kind of the primary block's check, if it has one.
    pub check: Option<CheckKind>,
    /// The latest canonical block whose heads were read.
    pub block: CanonicalBlock,
    /// The numbers of the canonical blocks whose heads were read.
    pub numbers: BlockNumbers,
    /// The offset of the payload's first byte, and the payload's length by its head.
    pub payload_span: Option<(u64, u64)>,
}

impl Draft {
    ghost use Rattle.link_bundle_blocks.specs.Bundle.{info_of};
    ghost use Rattle.link_bundle_types.specs.BundleView.{viewed_info};
    ghost use Rattle.link_bundle_types.specs.ShortNames.{HasShortNames};
    ghost use Rattle.link_bundle_blocks.specs.Blocks.{ended, viewed_primary, HasShortEids};
    ghost use Rattle.link_bundle.specs.Left.{primary_of, span_of, stage_block, with_primary};

    /// The draft of a bundle before its first byte.
    pub fn new() -> Draft
        ensures { IsTrue (stage_fits ScanStage.PrimaryBlock result) }
    {
        Draft {
            whole: false,
            flags: 0,
            destination: KeptEid::new(),
            source: KeptEid::new(),
            report_to: KeptEid::new(),
            time: 0,
            sequence: 0,
            lifetime: 0,
            fragment: None,
            check: None,
            block: CanonicalBlock {
                start: 0,
                block_type: 0,
                number: 0,
                flags: 0,
                check: None,
                data_start: 0,
                data_length: 0,
                end: None,
            },
            numbers: BlockNumbers::new(),
            payload_span: None,
        }
    }

    /// Prepares the draft for the first byte of a bundle.
    ///
    /// Some fields keep their old values. The next bundle sets them before they are read.
    pub fn restart(&mut self)
        ensures { IsTrue (stage_fits ScanStage.PrimaryBlock self.new) }
    {
        self.whole = false;
        self.numbers.clear();
        self.payload_span = None;
    }

    /// The fields of a complete bundle.
    #[inline(always)]
    pub fn view(&self) -> BundleView<'_>
        ensures view { viewed_info result
            ≡ info_of (primary_of self.now) (length self.now.numbers)
            (span_of self.now.payload_span).1 }
        ensures short { HasShortNames (viewed_info result) }
    {
        let (_, payload) = self.payload_span.unwrap_or((0, 0));
        BundleView {
            flags: self.flags,
            destination: self.destination.view(),
            source: self.source.view(),
            report_to: self.report_to.view(),
            time: self.time,
            sequence: self.sequence,
            lifetime: self.lifetime,
            fragment: self.fragment,
            blocks: self.numbers.as_slice().len() as u64,
            payload,
        }
    }

    /// The primary block, which ends before the offset `end`.
    #[inline(always)]
    pub fn primary_block(&self, end: u64) -> PrimaryBlock<'_>
        ensures fields { viewed_primary result ≡ primary_of self.now }
        ensures check { result.check ≡ self.now.check }
        ensures end { result.end ≡ end }
        ensures short { HasShortEids (viewed_primary result) }
    {
        PrimaryBlock {
            flags: self.flags,
            check: self.check,
            destination: self.destination.view(),
            source: self.source.view(),
            report_to: self.report_to.view(),
            time: self.time,
            sequence: self.sequence,
            lifetime: self.lifetime,
            fragment: self.fragment,
            end,
        }
    }

    /// The latest canonical block, which ends before the offset `end`.
    #[inline(always)]
    pub fn canonical_block(&self, end: u64) -> CanonicalBlock
        ensures { result ≡ ended self.now.block end }
    {
        let mut block = self.block;
        block.end = Some(end);
        block
    }

    /// The canonical block that a scan is in, if the stage is in the block's data or check field.
    ///
    /// The end of the block is not known yet.
    #[inline(always)]
    pub fn block_at(&self, stage: ScanStage) -> Option<CanonicalBlock>
        ensures { result ≡ stage_block stage self.now }
    {
        match stage {
            ScanStage::BlockData(_) | ScanStage::CheckField(_) => {
                let mut block = self.block;
                block.end = None;
                Some(block)
            }
            _ => None,
        }
    }

    /// Keeps the fields of the primary block, which is now whole.
    pub fn keep_primary(&mut self, block: PrimaryBlock<'_>)
        requires { HasShortEids (viewed_primary block) }
        ensures { self.new ≡ with_primary self.old block.entry }
    {
        self.flags = block.flags;
        self.destination.keep(block.destination);
        self.source.keep(block.source);
        self.report_to.keep(block.report_to);
        self.time = block.time;
        self.sequence = block.sequence;
        self.lifetime = block.lifetime;
        self.fragment = block.fragment;
        self.check = block.check;
        self.whole = true;
    }
}

/// The stages of a canonical block.
impl Draft {
    ghost use Rattle.link_bundle.specs.Left.{with_block};
    ghost use Rattle.link_bundle.specs.Stages.{stage_after, stage_in_data};

    /// Keeps a canonical block whose heads were read.
    ///
    /// If it is the payload block, the place of the payload is now known.
    #[inline(always)]
    pub fn keep_block(&mut self, block: CanonicalBlock)
        requires room { length self.old.numbers < 64 }
        ensures { self.new ≡ with_block self.old block }
    {
        self.block = block;
        self.numbers.push(block.number);
        self.payload_span = (block.block_type == row::PAYLOAD_TYPE).then_some((
            block.data_start,
            block.data_length,
        ));
    }

    /// The stage after a block: the heads of the next block, or the break after the payload block.
    #[inline(always)]
    pub fn after_block(&self) -> ScanStage
        ensures { result ≡ stage_after self.now.payload_span }
    {
        if self.payload_span.is_some() {
            ScanStage::Break
        } else {
            ScanStage::BlockHeads
        }
    }

    /// The stage in the current block's data, of which `left` bytes are left.
    ///
    /// If none are left, it is the stage after the data.
    #[inline(always)]
    pub fn in_data(&self, left: u64) -> ScanStage
        ensures { result ≡ stage_in_data left self.now.block.check self.now.payload_span }
    {
        if left > 0 {
            return ScanStage::BlockData(left);
        }
        match self.block.check {
            Some(kind) => ScanStage::CheckField(kind),
            None => self.after_block(),
        }
    }
}
