//! Names of endpoints and of nodes (RFC 9171 sections 4.2.5.1.1, 4.2.5.1.2 and 4.2.5.2).

ghost use Rattle.std.specs.Prelude.{◌≡◌};
ghost use Rattle.link_bundle_blocks.specs.Blocks.{viewed_primary};
ghost use Rattle.link_bundle_types.specs.EidView.{viewed_eid};
ghost use Rattle.link_bundle_rules.specs.Names.{has_bad_name, bad_name, dtn_level, is_group, service_level, node_level};

use crate::rule::Endpoint;
use link_bundle_blocks::PrimaryBlock;
use link_bundle_types::EidView;
use link_rules_shared::{Level, demux_level, demux_of, is_dtn_name};

/// Whether an endpoint ID is a text of scheme dtn, and no dtn name.
pub(crate) fn has_bad_name(eid: &EidView<'_>) -> bool
    ensures { result ≡ has_bad_name (viewed_eid eid.now) }
{
    match eid {
        EidView::Dtn(text) => !is_dtn_name(text),
        _ => false,
    }
}

/// The first bad name of a primary block: an endpoint ID that is a text and no dtn name.
pub(crate) fn bad_name(primary: &PrimaryBlock<'_>) -> Option<Endpoint>
    ensures { result ≡ bad_name (viewed_primary primary.now) }
{
    if has_bad_name(&primary.destination) {
        return Some(Endpoint::Destination);
    }
    if has_bad_name(&primary.source) {
        return Some(Endpoint::Source);
    }
    if has_bad_name(&primary.report_to) {
        return Some(Endpoint::ReportTo);
    }
    None
}

/// Whether an endpoint ID is a dtn name whose demux begins with `~`. Such an endpoint is no
/// singleton.
pub(crate) fn is_group(eid: &EidView<'_>) -> bool
    ensures { result ≡ is_group (viewed_eid eid.now) }
{
    match eid {
        EidView::Dtn(text) => demux_of(text).starts_with(b"~") && is_dtn_name(text),
        _ => false,
    }
}

/// How strictly the demux of a dtn name is forbidden in a node ID. Other texts are not judged.
fn dtn_level(text: &[u8]) -> Option<Level>
    ensures { result ≡ dtn_level text.now }
{
    if is_dtn_name(text) {
        demux_level(demux_of(text))
    } else {
        None
    }
}

/// How strictly the service number of an ipn name is forbidden in a node ID.
fn service_level(service: u64) -> Option<Level>
    ensures { result ≡ service_level service }
{
    if service == 0 {
        None
    } else {
        Some(Level::Should)
    }
}

/// How strictly an endpoint ID is forbidden as a node ID, or `None` if it may be one.
pub(crate) fn node_level(eid: &EidView<'_>) -> Option<Level>
    ensures { result ≡ node_level (viewed_eid eid.now) }
{
    match *eid {
        EidView::DtnNone => Some(Level::Must),
        EidView::Dtn(text) => dtn_level(text),
        EidView::Ipn(_, service) | EidView::Ipn3(_, _, service) => service_level(service),
    }
}
