//! The fields of a whole bundle, by value and by reference.
ghost use Rattle.std.specs.Prelude.{◌≡◌};
ghost use Rattle.link_bundle_types.specs.BundleView.{viewed_info};
ghost use Rattle.link_bundle_types.specs.ShortNames.{HasShortNames};

use crate::eid::{Eid, EidView};

/// The greatest number of canonical blocks in one bundle.
pub const BLOCK_LIMIT: usize = 64;

/// The fields of a whole bundle (RFC 9171 sections 4.3.1 and 4.3.2).
#[derive(Debug, Drop, PartialEq, Eq)]
pub struct BundleInfo {
    /// The bundle processing control flags (RFC 9171 section 4.2.3).
    pub flags: u64,
    /// The endpoint ID of the destination (RFC 9171 section 4.2.5.1).
    pub destination: Eid,
    /// The endpoint ID of the source node.
    pub source: Eid,
    /// The endpoint ID to which status reports go (RFC 9171 section 4.3.1).
    pub report_to: Eid,
    /// The creation time, in milliseconds since 2000-01-01 UTC (RFC 9171 section 4.2.6).
    pub time: u64,
    /// The sequence number of the creation timestamp (RFC 9171 section 4.2.7).
    pub sequence: u64,
    /// The lifetime, in milliseconds after the creation time (RFC 9171 section 4.3.1).
    pub lifetime: u64,
    /// The offset and the total length of a fragment, both in bytes (RFC 9171 section 4.3.1).
    pub fragment: Option<(u64, u64)>,
    /// The number of canonical blocks.
    pub blocks: u64,
    /// The payload's length in bytes.
    pub payload: u64,
}

impl BundleInfo {
    /// The bundle that a view shows. Each dtn name in the view must have at most 1,024 bytes.
    pub fn of(view: BundleView<'_>) -> BundleInfo
        requires { HasShortNames (viewed_info view) }
        ensures { result ≡ viewed_info view.entry }
    {
        BundleInfo {
            flags: view.flags,
            destination: Eid::of(view.destination),
            source: Eid::of(view.source),
            report_to: Eid::of(view.report_to),
            time: view.time,
            sequence: view.sequence,
            lifetime: view.lifetime,
            fragment: view.fragment,
            blocks: view.blocks,
            payload: view.payload,
        }
    }

    /// The same bundle by reference.
    pub fn view(&self) -> BundleView<'_>
        ensures view { viewed_info result ≡ self.now }
        // This holds for every value: an endpoint ID has no room for longer names.
        ensures short { HasShortNames self.now }
    {
        // Each field is named, so that no new one is forgotten.
        let BundleInfo {
            flags,
            destination,
            source,
            report_to,
            time,
            sequence,
            lifetime,
            fragment,
            blocks,
            payload,
        } = self;
        BundleView {
            flags: *flags,
            destination: destination.view(),
            source: source.view(),
            report_to: report_to.view(),
            time: *time,
            sequence: *sequence,
            lifetime: *lifetime,
            fragment: *fragment,
            blocks: *blocks,
            payload: *payload,
        }
    }
}

/// A [`BundleInfo`] by reference, with the same fields.
///
/// It borrows the bytes of dtn endpoint IDs.
#[derive(Clone, Copy, Debug, PartialEq, Eq)]
pub struct BundleView<'a> {
    /// The bundle processing control flags (RFC 9171 section 4.2.3).
    pub flags: u64,
    /// The endpoint ID of the destination (RFC 9171 section 4.2.5.1).
    pub destination: EidView<'a>,
    /// The endpoint ID of the source node.
    pub source: EidView<'a>,
    /// The endpoint ID to which status reports go (RFC 9171 section 4.3.1).
    pub report_to: EidView<'a>,
    /// The creation time, in milliseconds since 2000-01-01 UTC (RFC 9171 section 4.2.6).
    pub time: u64,
    /// The sequence number of the creation timestamp (RFC 9171 section 4.2.7).
    pub sequence: u64,
    /// The lifetime, in milliseconds after the creation time (RFC 9171 section 4.3.1).
    pub lifetime: u64,
    /// The offset and the total length of a fragment, both in bytes (RFC 9171 section 4.3.1).
    pub fragment: Option<(u64, u64)>,
    /// The number of canonical blocks.
    pub blocks: u64,
    /// The payload's length in bytes.
    pub payload: u64,
}
