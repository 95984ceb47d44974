//! The verdict on a bundle, its endpoint IDs and its fields as numbers.

ghost use Rattle.std.specs.Prelude.{◌≡◌, min, option_map, IfSome};
ghost use Rattle.link_bundle_types.specs.BundleView.{viewed_info, viewed_verdict};
ghost use Rattle.link_bundle_types.specs.EidView.{viewed_eid};
ghost use Rattle.link_bundle_types.specs.ShortNames.{HasNoLongName};
ghost use Rattle.link_bundle_blocks.specs.PrimaryView.{viewed_fields};
ghost use Rattle.link_ffi_numbers.specs.Bundle.{state_status, fault_of, with_span, no_eid, eid_shown, eid_or_none, name_of, name_or_none, eid_by, viewed_option, primary_shown, bundle_shown};

use crate::fault::Fault;
use crate::status::{FAULT, OK, TRUNCATED};
use link_bundle_blocks::PrimaryView;
use link_bundle_heads::row;
use link_bundle_types::{BundleFault, BundleView, EID_LIMIT, EidView, State};

/// `struct tcpclkit_verdict`: the verdict on bytes as one bundle, and where its payload is.
#[repr(C)]
#[derive(Clone, Copy, Debug, PartialEq, Eq)]
pub struct Verdict {
    /// The first fault, if there is one.
    pub fault: Fault,
    /// 1 if the head of the payload was accepted, and else 0.
    pub has_payload: u64,
    /// The offset of the payload's first byte.
    pub payload_offset: u64,
    /// The number of the payload's bytes that are there.
    pub payload_seen: u64,
}

/// `struct tcpclkit_eid`: an endpoint ID without the bytes of its name.
#[repr(C)]
#[derive(Clone, Copy, Debug, PartialEq, Eq)]
pub struct EidNumbers {
    /// 1 for `dtn:none`, 2 for a name of dtn, 3 and 4 for ipn with two and three numbers, and 0 for
    /// no endpoint ID.
    pub kind: u64,
    /// The allocator identifier of an ipn endpoint ID of three numbers.
    pub allocator: u64,
    /// The node number of an ipn endpoint ID.
    pub node: u64,
    /// The service number of an ipn endpoint ID.
    pub service: u64,
    /// The length of the name of a dtn endpoint ID.
    pub name_length: u64,
}

/// `struct tcpclkit_bundle`: the verdict, and the fields of a bundle as far as they were accepted.
#[repr(C)]
#[derive(Clone, Copy, Debug, PartialEq, Eq)]
pub struct Bundle {
    /// The verdict on the bytes.
    pub verdict: Verdict,
    /// The number of elements of the primary block that were accepted.
    pub primary_fields: u64,
    /// 1 if the whole primary block was accepted, and else 0.
    pub primary_whole: u64,
    /// The bundle processing control flags.
    pub flags: u64,
    /// The endpoint ID of the destination.
    pub destination: EidNumbers,
    /// The endpoint ID of the source node.
    pub source: EidNumbers,
    /// The endpoint ID to which status reports go.
    pub report_to: EidNumbers,
    /// The creation time.
    pub time: u64,
    /// The sequence number of the creation timestamp.
    pub sequence: u64,
    /// The lifetime.
    pub lifetime: u64,
    /// 1 if the bundle is a fragment, and else 0.
    pub is_fragment: u64,
    /// The offset of a fragment.
    pub fragment_offset: u64,
    /// The total length of a fragment's bundle.
    pub fragment_total: u64,
    /// The number of canonical blocks.
    pub blocks: u64,
    /// The payload's length.
    pub payload_length: u64,
}

/// The status that a call returns for a scan in this state.
pub fn state_status(state: State) -> u32
    ensures { result ≡ state_status state }
{
    match state {
        State::Going => TRUNCATED,
        State::Ended => OK,
        State::Failed(..) => FAULT,
    }
}

/// The fault of a verdict, or no fault for a good bundle.
pub fn fault_of(view: Result<BundleView<'_>, (BundleFault, u64)>) -> Fault
    ensures { result ≡ fault_of (viewed_verdict view.entry) }
{
    match view {
        Ok(_) => Fault::none(),
        Err((fault, offset)) => Fault::of_bundle(fault, offset),
    }
}

/// The verdict with this fault, as numbers. `span` is the offset of the payload and the number of
/// its bytes that have come, or `None` if the offset is not known.
pub fn with_span(fault: Fault, span: Option<(u64, u64)>) -> Verdict
    ensures { result ≡ with_span fault span }
{
    match span {
        None => Verdict {
            fault,
            has_payload: 0,
            payload_offset: 0,
            payload_seen: 0,
        },
        Some((payload_offset, payload_seen)) => Verdict {
            fault,
            has_payload: 1,
            payload_offset,
            payload_seen,
        },
    }
}

/// The numbers in place of an endpoint ID, if there is none.
fn no_eid() -> EidNumbers
    ensures { result ≡ no_eid }
{
    EidNumbers {
        kind: 0,
        allocator: 0,
        node: 0,
        service: 0,
        name_length: 0,
    }
}

/// The kind and the numbers of an endpoint ID.
fn eid_shown(eid: &EidView<'_>) -> EidNumbers
    ensures { result ≡ eid_shown (viewed_eid eid.now) }
{
    let none = no_eid();
    match *eid {
        EidView::DtnNone => EidNumbers { kind: 1, ..none },
        EidView::Dtn(name) => EidNumbers {
            kind: 2,
            name_length: name.len() as u64,
            ..none
        },
        EidView::Ipn(node, service) => EidNumbers {
            kind: 3,
            node,
            service,
            ..none
        },
        EidView::Ipn3(allocator, node, service) => EidNumbers {
            kind: 4,
            allocator,
            node,
            service,
            ..none
        },
    }
}

/// The kind and the numbers of an endpoint ID, or of no endpoint ID.
fn eid_or_none(eid: &Option<EidView<'_>>) -> EidNumbers
    ensures { result ≡ eid_or_none (option_map viewed_eid eid.now) }
{
    match eid {
        None => no_eid(),
        Some(eid) => eid_shown(eid),
    }
}

impl EidNumbers {
    /// The same endpoint ID, with the length of a name that is cut to `room` bytes.
    pub fn cut_to(self, room: usize) -> EidNumbers
        ensures { result ≡ record self { name_length = min self.name_length room } }
    {
        EidNumbers {
            name_length: self.name_length.min(room as u64),
            ..self
        }
    }
}

/// The endpoint ID with these numbers, or `None` if no kind of endpoint ID has them.
///
/// `name` is read only for kind 2, a name of dtn. Its length must be `name_length`, and at most
/// 1,024.
pub fn eid_by<'a>(eid: &EidNumbers, name: &'a [u8]) -> Option<EidView<'a>>
    ensures view { viewed_option result ≡ eid_by eid.now name.now }
    ensures short { IfSome result (λ view. HasNoLongName (viewed_eid view)) }
{
    match eid.kind {
        1 => Some(EidView::DtnNone),
        2 if name.len() <= EID_LIMIT && name.len() as u64 == eid.name_length => {
            Some(EidView::Dtn(name))
        }
        3 => Some(EidView::Ipn(eid.node, eid.service)),
        4 => Some(EidView::Ipn3(eid.allocator, eid.node, eid.service)),
        _ => None,
    }
}

/// The name of an endpoint ID; it is empty if the endpoint ID has none.
pub fn name_of<'a>(eid: &EidView<'a>) -> &'a [u8]
    ensures { result.now ≡ name_of (viewed_eid eid.now) }
{
    match *eid {
        EidView::Dtn(name) => name,
        _ => &[],
    }
}

/// The name of an endpoint ID. It is empty if the endpoint ID has no name, or if there is no
/// endpoint ID.
pub fn name_or_none<'a>(eid: &Option<EidView<'a>>) -> &'a [u8]
    ensures { result.now ≡ name_or_none (option_map viewed_eid eid.now) }
{
    match eid {
        None => &[],
        Some(eid) => name_of(eid),
    }
}

/// The fields of a primary block up to its first fault, as numbers.
pub fn primary_shown(verdict: Verdict, primary: &PrimaryView<'_>) -> Bundle
    ensures { result ≡ primary_shown verdict (viewed_fields primary.now) }
{
    Bundle {
        verdict,
        primary_fields: primary.accepted,
        primary_whole: u64::from(primary.whole),
        flags: primary.flags,
        destination: eid_or_none(&primary.destination),
        source: eid_or_none(&primary.source),
        report_to: eid_or_none(&primary.report_to),
        time: primary.time,
        sequence: primary.sequence,
        lifetime: primary.lifetime,
        is_fragment: u64::from(row::is_fragment(primary.flags)),
        fragment_offset: primary.fragment_offset,
        fragment_total: primary.fragment_total,
        blocks: 0,
        payload_length: 0,
    }
}

/// The fields of a good bundle, as numbers.
pub fn bundle_shown(verdict: Verdict, primary: &PrimaryView<'_>, info: &BundleView<'_>) -> Bundle
    ensures { result ≡ bundle_shown verdict (viewed_fields primary.now) (viewed_info info.now) }
{
    let (is_fragment, (fragment_offset, fragment_total)) = match info.fragment {
        None => (0, (0, 0)),
        Some(fragment) => (1, fragment),
    };
    Bundle {
        verdict,
        primary_fields: primary.accepted,
        primary_whole: u64::from(primary.whole),
        flags: info.flags,
        destination: eid_shown(&info.destination),
        source: eid_shown(&info.source),
        report_to: eid_shown(&info.report_to),
        time: info.time,
        sequence: info.sequence,
        lifetime: info.lifetime,
        is_fragment,
        fragment_offset,
        fragment_total,
        blocks: info.blocks,
        payload_length: info.payload,
    }
}
