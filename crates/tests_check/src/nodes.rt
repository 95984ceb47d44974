//! Which texts name a node, and which endpoint IDs are of this node.
//!
//! The rows are worked out by hand from RFC 9174 section 4.6 and RFC 9171 section 4.2.5.

use link_bundle_types::EidView;
use link_rules_shared::{is_node_of, names_node};
use std::process::Abort;

/// The node number 2^64 - 1.
const GREATEST: EidView<'static> = EidView::Ipn(u64::MAX, 0);

/// A text, an endpoint ID, and whether the endpoint ID is one of the node that the text names.
static ROWS: [(&[u8], EidView<'static>, bool); 27] = [
    (b"dtn://n/", EidView::Dtn(b"//n/"), true),
    (b"DTN://Node/x", EidView::Dtn(b"//nODE/y/z"), true),
    (b"dtn:///", EidView::Dtn(b"///mail"), true),
    (b"dtn://n/", EidView::Dtn(b"//m/"), false),
    (b"dtn://n/", EidView::Dtn(b"//nn/"), false),
    (b"dtn://a/", EidView::Dtn(b"//%61/"), false),
    (b"dtn://n/", EidView::Dtn(b"//n"), false),
    (b"dtn://1/", EidView::Ipn(1, 0), false),
    (b"dtn://n/", EidView::DtnNone, false),
    (b"dtn:none", EidView::DtnNone, false),
    (b"dtn:none", EidView::Dtn(b"none"), false),
    (b"ipn:1.0", EidView::Ipn(1, 7), true),
    (b"IPN:001.7", EidView::Ipn(1, 0), true),
    (b"ipn:1.0", EidView::Ipn3(0, 1, 7), true),
    (b"ipn:00.1.0", EidView::Ipn(1, 7), true),
    (b"ipn:2.01.0", EidView::Ipn3(2, 1, 7), true),
    (b"ipn:0.0", EidView::Ipn(0, 1), true),
    (b"ipn:1.0", EidView::Ipn(2, 0), false),
    (b"ipn:2.1.0", EidView::Ipn(1, 0), false),
    (b"ipn:1.0", EidView::Ipn3(2, 1, 0), false),
    (b"ipn:2.1.0", EidView::Ipn3(1, 1, 0), false),
    (b"ipn:4294967297.0", EidView::Ipn3(1, 1, 0), false),
    (b"ipn:18446744073709551615.0", GREATEST, true),
    (b"ipn:18446744073709551616.0", GREATEST, false),
    (b"ipn:18446744073709551616.0", EidView::Ipn(0, 0), false),
    (b"ipn:1.0", EidView::Dtn(b"//1/"), false),
    (b"ipn:!1.0", EidView::Ipn(1, 0), false),
];

#[test]
fn each_endpoint_is_of_the_node_or_not(rt: HostRuntime) {
    for (text, eid, wanted) in &ROWS {
        assert_eq!(rt; is_node_of(text, eid), *wanted, "{text:?} {eid:?}");
    }
}

#[test]
fn each_text_names_a_node_or_not(rt: HostRuntime) {
    let named: [&[u8]; 4] = [b"dtn:///", b"dtn://n/x", b"ipn:00.0", b"ipn:3.2.1"];
    let unnamed: [&[u8]; 6] = [b"", b"n", b"dtn:None", b"ipn:!", b"ipn:1", b"http://n/"];
    assert!(rt; named.iter().all(|text| names_node(text)));
    assert!(rt; !unnamed.iter().any(|text| names_node(text)));
}
