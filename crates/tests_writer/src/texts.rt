//! The texts of endpoint IDs, and the names of reasons and of block types.

use link_bundle_types::{EidForm, EidView};
use link_report::{Line, ReasonOf, put_eid, reason_name};
use link_report_blocks::{block_type_name, report_reason_name};
use link_report_eid_parser::{TextFault, read_eid_text};
use std::process::Abort;

/// The endpoint ID of a form and a name.
fn view_of(form: EidForm, name: &[u8]) -> EidView<'_> {
    match form {
        EidForm::DtnNone => EidView::DtnNone,
        EidForm::Dtn => EidView::Dtn(name),
        EidForm::Ipn(node, service) => EidView::Ipn(node, service),
        EidForm::Ipn3(allocator, node, service) => EidView::Ipn3(allocator, node, service),
    }
}

/// Checks that the text is read as this endpoint ID.
fn is_read(rt: &impl Abort, text: &[u8], want: EidView<'_>) {
    let mut name = [0; 64];
    match read_eid_text(text, &mut name) {
        Ok((form, size)) => match name.get(..size) {
            Some(name) => assert_eq!(rt; view_of(form, name), want),
            None => assert!(rt; false),
        },
        Err(fault) => assert!(rt; false, "{fault:?}"),
    }
}

#[test]
fn endpoint_ids(rt: HostRuntime) {
    is_read(&rt, b"dtn:none", EidView::DtnNone);
    is_read(&rt, b"dtn:", EidView::Dtn(b""));
    is_read(&rt, b"dtn://node/a", EidView::Dtn(b"//node/a"));
    is_read(
        &rt,
        b"dtn://gr\\xc3\\xb6\\x5c",
        EidView::Dtn(b"//gr\xc3\xb6\\"),
    );
    is_read(&rt, b"ipn:2.1", EidView::Ipn(2, 1));
    is_read(
        &rt,
        b"ipn:0.18446744073709551615",
        EidView::Ipn(0, u64::MAX),
    );
    is_read(&rt, b"ipn:977000.10.0", EidView::Ipn3(977_000, 10, 0));
}

/// Texts that are not written.
#[test]
fn other_texts(rt: HostRuntime) {
    let rows: [&[u8]; 15] = [
        b"",
        b"dtn",
        b"ipn:",
        b"ipn:1",
        b"ipn:1.",
        b"ipn:01.1",
        b"ipn:1.2.3.4",
        b"ipn:1.18446744073709551616",
        b"ipn:+1.1",
        b"ipn: 1.1",
        b"dtn:a b",
        b"dtn:\\x41",
        b"dtn:\\xC3",
        b"dtn:\\x0",
        b"http:x",
    ];
    let mut name = [0; 64];
    for text in rows {
        match read_eid_text(text, &mut name) {
            Ok(_) => assert!(rt; false, "{text:?}"),
            Err(fault) => assert_eq!(rt; fault, TextFault::NoText),
        }
    }
    match read_eid_text(b"dtn:0123456789", &mut name[..9]) {
        Ok(_) => assert!(rt; false),
        Err(fault) => assert_eq!(rt; fault, TextFault::NameTooLong(10)),
    }
    assert_eq!(rt; name, [0; 64]);
}

/// What is written is read back.
#[test]
fn round_trip(rt: HostRuntime) {
    let eids = [
        EidView::DtnNone,
        EidView::Dtn(b"\x00\xff \\~"),
        EidView::Ipn(u64::MAX, 10),
        EidView::Ipn3(0, 0, 0),
    ];
    for eid in &eids {
        let mut line = Line::new();
        put_eid(&mut line, eid);
        is_read(&rt, line.as_slice(), *eid);
    }
}

#[test]
fn names(rt: HostRuntime) {
    assert_eq!(rt; reason_name(ReasonOf::Refuse, 2), "no-resources");
    assert_eq!(rt; reason_name(ReasonOf::SessTerm, 3), "busy");
    assert_eq!(rt; reason_name(ReasonOf::MsgReject, 1), "message-type-unknown");
    assert_eq!(rt; reason_name(ReasonOf::MsgReject, 0), "?");
    assert_eq!(rt; report_reason_name(1), "lifetime-expired");
    assert_eq!(rt; block_type_name(7), "bundle-age");
    assert_eq!(rt; block_type_name(192), "?");
}
