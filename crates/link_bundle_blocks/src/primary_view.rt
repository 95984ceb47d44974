//! What is known of a primary block.
ghost use Rattle.std.specs.Prelude.{◌≡◌};
ghost use Rattle.link_bundle_blocks.specs.Blocks.{viewed_primary};
ghost use Rattle.link_bundle_blocks.specs.Primary.{all_fields, first_elements};
ghost use Rattle.link_bundle_blocks.specs.PrimaryView.{viewed_fields};

use crate::block::PrimaryBlock;
use link_bundle_types::EidView;

/// The greatest length of a primary block and the byte before it.
///
/// An endpoint ID has at most 1,051 bytes: a name of 1,024 bytes, and three heads of at most 9.
pub const PRIMARY_LIMIT: usize = 3257;

/// The fields of a primary block (RFC 9171 section 4.3.1) that come before its first fault.
///
/// The other fields are 0 or `None`. It borrows the bytes of dtn endpoint IDs.
#[derive(Clone, Copy, Debug, PartialEq, Eq)]
pub struct PrimaryView<'a> {
    /// The number of elements of the block's array that were accepted, in their order.
    pub accepted: u64,
    /// Whether the whole block was accepted, its check value too.
    pub whole: bool,
    /// The bundle processing control flags, element 2.
    pub flags: u64,
    /// The endpoint ID of the destination, element 4.
    pub destination: Option<EidView<'a>>,
    /// The endpoint ID of the source node, element 5.
    pub source: Option<EidView<'a>>,
    /// The endpoint ID to which status reports go, element 6.
    pub report_to: Option<EidView<'a>>,
    /// The creation time, in milliseconds since 2000-01-01 UTC; the first part of element 7.
    pub time: u64,
    /// The sequence number, the second part of element 7.
    pub sequence: u64,
    /// The lifetime, in milliseconds after the creation time; element 8.
    pub lifetime: u64,
    /// The offset of a fragment in bytes, element 9 of a fragment.
    pub fragment_offset: u64,
    /// The total length of a fragment's bundle in bytes, element 10 of a fragment.
    pub fragment_total: u64,
}

impl<'a> PrimaryView<'a> {
    /// The fields of a whole block.
    #[inline(always)]
    pub fn of(block: PrimaryBlock<'a>) -> PrimaryView<'a>
        ensures { viewed_fields result ≡ all_fields (viewed_primary block.entry) }
    {
        let (fragment_offset, fragment_total) = block.fragment.unwrap_or((0, 0));
        PrimaryView {
            accepted: block.elements(),
            whole: true,
            flags: block.flags,
            destination: Some(block.destination),
            source: Some(block.source),
            report_to: Some(block.report_to),
            time: block.time,
            sequence: block.sequence,
            lifetime: block.lifetime,
            fragment_offset,
            fragment_total,
        }
    }

    /// The fields of a block whose first elements were accepted, `count` of them.
    ///
    /// The endpoint IDs of later elements are left out. The other fields of later elements have to
    /// be 0 or `None` in `block`.
    // Inlined, since a caller knows most fields of the block: they are not read yet.
    #[inline(always)]
    pub(crate) fn first(count: u64, block: PrimaryBlock<'a>) -> PrimaryView<'a>
        ensures { viewed_fields result ≡ first_elements count (viewed_primary block.entry) }
    {
        PrimaryView {
            accepted: count,
            whole: false,
            destination: (count > 3).then_some(block.destination),
            source: (count > 4).then_some(block.source),
            report_to: (count > 5).then_some(block.report_to),
            ..PrimaryView::of(block)
        }
    }
}
