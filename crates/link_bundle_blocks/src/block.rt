//! The blocks of a bundle (RFC 9171 section 4.1).
ghost use Rattle.std.specs.Prelude.{◌≡◌, ◌+◌, ◌^◌, ◌<◌};

use link_bundle_types::EidView;
use link_cbor::CheckKind;

/// A canonical block (RFC 9171 section 4.3.2) whose data has begun.
///
/// All offsets are counted from the first byte of the bundle.
#[derive(Clone, Copy, Debug, PartialEq, Eq)]
pub struct CanonicalBlock {
    /// The offset of the block's first byte.
    pub start: u64,
    /// The block type code (RFC 9171 section 4.3.2).
    pub block_type: u64,
    /// The block number (RFC 9171 section 4.1).
    pub number: u64,
    /// The block processing control flags (RFC 9171 section 4.2.4).
    pub flags: u64,
    /// The kind of the block's check, if it has one (RFC 9171 section 4.2.1).
    pub check: Option<CheckKind>,
    /// The offset of the first byte of the block-type-specific data.
    pub data_start: u64,
    /// The length of the block-type-specific data, by its head.
    pub data_length: u64,
    /// The offset after the block, if the block is whole.
    pub end: Option<u64>,
}

impl CanonicalBlock {
    ghost use Rattle.link_bundle_blocks.specs.Whole.{moved};

    /// Returns the block with `start` and `data_start` counted from `count` bytes earlier. `end` is
    /// not moved.
    #[inline(always)]
    pub fn moved(self, count: u64) -> CanonicalBlock
        requires start { count + self.start < 2 ^ 64 }
        requires data { count + self.data_start < 2 ^ 64 }
        ensures { result ≡ moved count self }
    {
        CanonicalBlock {
            start: count + self.start,
            data_start: count + self.data_start,
            ..self
        }
    }
}

/// A whole primary block (RFC 9171 section 4.3.1), which begins at offset 1 of its bundle.
///
/// It borrows the bytes of dtn endpoint IDs.
#[derive(Clone, Copy, Debug, PartialEq, Eq)]
pub struct PrimaryBlock<'a> {
    /// The bundle processing control flags (RFC 9171 section 4.2.3).
    pub flags: u64,
    /// The kind of the block's check, if it has one (RFC 9171 section 4.2.1).
    pub check: Option<CheckKind>,
    /// The endpoint ID of the destination (RFC 9171 section 4.2.5.1).
    pub destination: EidView<'a>,
    /// The endpoint ID of the source node.
    pub source: EidView<'a>,
    /// The endpoint ID to which reports on the bundle go.
    pub report_to: EidView<'a>,
    /// The creation time, in milliseconds since 2000-01-01 UTC (RFC 9171 section 4.2.6).
    pub time: u64,
    /// The sequence number of the creation timestamp (RFC 9171 section 4.2.7).
    pub sequence: u64,
    /// The lifetime, in milliseconds after the creation time.
    pub lifetime: u64,
    /// The offset and the total length of a fragment, both in bytes.
    pub fragment: Option<(u64, u64)>,
    /// The offset after the block.
    pub end: u64,
}

impl PrimaryBlock<'_> {
    ghost use Rattle.link_bundle_blocks.specs.Primary.{element_count};

    /// The number of elements of the block's array, without its check value.
    #[inline(always)]
    pub(crate) fn elements(&self) -> u64
        ensures { result ≡ element_count self.now.fragment }
    {
        if self.fragment.is_some() { 10 } else { 8 }
    }
}

/// A block of a bundle.
#[derive(Clone, Copy, Debug, PartialEq, Eq)]
pub enum BlockView<'a> {
    /// The primary block.
    Primary(PrimaryBlock<'a>),
    /// A canonical block.
    Canonical(CanonicalBlock),
}
