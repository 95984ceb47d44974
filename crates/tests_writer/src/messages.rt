//! Messages that are written, compared with `examples/every-message.tcpcl`.

use link_wire::{END, START, message_in};
use link_wire_writer::{
    ACK_LENGTH, CONTACT_LENGTH, Fields, WriteFault, write_contact, write_item, write_message,
};
use std::process::Abort;

/// A message with its node ID and its items, and its bytes.
struct Row {
    fields: Fields,
    node: &'static [u8],
    items: &'static [u8],
    bytes: &'static [u8],
}

/// Two items of a session, the first of them critical, with a value of one byte.
const SESSION_ITEMS: &[u8] = b"\x01\x12\x34\x00\x01\xaa\x00\xab\xcd\x00\x00";

/// A Transfer Length item.
const TOTAL: &[u8] = b"\x00\x00\x01\x00\x08\x00\x00\x00\x00\x00\x00\x00\x22";

/// The messages of the recording.
static ROWS: [Row; 9] = [
    Row {
        fields: Fields::SessInit {
            keepalive: 60,
            segment_mru: 65_536,
            transfer_mru: 1_048_576,
        },
        node: b"ipn:1.0",
        items: SESSION_ITEMS,
        bytes: b"\x07\x00\x3c\x00\x00\x00\x00\x00\x01\x00\x00\x00\x00\x00\x00\x00\x10\x00\x00\
            \x00\x07ipn:1.0\x00\x00\x00\x0b\x01\x12\x34\x00\x01\xaa\x00\xab\xcd\x00\x00",
    },
    Row {
        fields: Fields::Segment {
            flags: START,
            id: 0,
            length: 17,
        },
        node: b"",
        items: TOTAL,
        bytes: b"\x01\x02\x00\x00\x00\x00\x00\x00\x00\x00\x00\x00\x00\x0d\
            \x00\x00\x01\x00\x08\x00\x00\x00\x00\x00\x00\x00\x22\x00\x00\x00\x00\x00\x00\x00\x11",
    },
    Row {
        fields: Fields::Segment {
            flags: END,
            id: 0,
            length: 17,
        },
        node: b"",
        items: b"",
        bytes: b"\x01\x01\x00\x00\x00\x00\x00\x00\x00\x00\x00\x00\x00\x00\x00\x00\x00\x11",
    },
    Row {
        fields: Fields::Ack {
            flags: END,
            id: 0,
            length: 34,
        },
        node: b"",
        items: b"",
        bytes: b"\x02\x01\x00\x00\x00\x00\x00\x00\x00\x00\x00\x00\x00\x00\x00\x00\x00\x22",
    },
    Row {
        fields: Fields::Refuse { reason: 2, id: 0 },
        node: b"",
        items: b"",
        bytes: b"\x03\x02\x00\x00\x00\x00\x00\x00\x00\x00",
    },
    Row {
        fields: Fields::Keepalive,
        node: b"",
        items: b"",
        bytes: b"\x04",
    },
    Row {
        fields: Fields::SessTerm {
            flags: 1,
            reason: 3,
        },
        node: b"",
        items: b"",
        bytes: b"\x05\x01\x03",
    },
    Row {
        fields: Fields::MsgReject {
            reason: 1,
            header: 0x16,
        },
        node: b"",
        items: b"",
        bytes: b"\x06\x01\x16",
    },
    Row {
        fields: Fields::SessTerm {
            flags: 0,
            reason: 0x7f,
        },
        node: b"",
        items: b"",
        bytes: b"\x05\x00\x7f",
    },
];

/// Checks what is written of a row, and that it is read as it was written.
fn is_written(rt: &impl Abort, row: &Row) {
    let mut slice = [0xee; 64];
    let size = row.bytes.len();
    let written = write_message(row.fields, row.node, row.items, &mut slice);
    assert_eq!(rt; written, Ok(size));
    assert!(rt; slice.starts_with(row.bytes));
    assert_eq!(rt; slice.get(size).copied(), Some(0xee));
    match message_in(row.bytes, 0) {
        Ok(found) => assert_eq!(rt; found.fields, row.fields),
        Err(fault) => assert!(rt; false, "{fault:?}"),
    }
}

/// Checks that a slice that is one byte too short stays as it is.
fn is_too_small(rt: &impl Abort, row: &Row) {
    let mut slice = [0xee; 64];
    let size = row.bytes.len();
    assert!(rt; size <= 64);
    let written = write_message(
        row.fields,
        row.node,
        row.items,
        &mut slice[..size.saturating_sub(1)],
    );
    assert_eq!(rt; written, Err(WriteFault::TooSmall(size)));
    assert_eq!(rt; slice, [0xee; 64]);
}

#[test]
fn every_message(rt: HostRuntime) {
    for row in &ROWS {
        is_written(&rt, row);
        is_too_small(&rt, row);
    }
}

#[test]
fn contact_header(rt: HostRuntime) {
    let mut header = [0; CONTACT_LENGTH];
    assert_eq!(rt; write_contact(0, &mut header), Ok(CONTACT_LENGTH));
    assert_eq!(rt; header, *b"dtn!\x04\x00");
    let mut short = [0; 5];
    assert_eq!(rt;
        write_contact(0, &mut short),
        Err(WriteFault::TooSmall(CONTACT_LENGTH))
    );
}

#[test]
fn items(rt: HostRuntime) {
    let mut slice = [0; 13];
    let written = write_item(0, 1, &34u64.to_be_bytes(), &mut slice);
    assert_eq!(rt; written, Ok(13));
    assert_eq!(rt; slice.as_slice(), TOTAL);
    static LONG: [u8; 65_532] = [0; 65_532];
    assert_eq!(rt;
        write_item(0, 1, &LONG, &mut slice),
        Err(WriteFault::OutOfRange)
    );
}

/// What a reader refuses is not written.
#[test]
fn out_of_range(rt: HostRuntime) {
    static NODE: [u8; 1025] = [b'n'; 1025];
    let session = Fields::SessInit {
        keepalive: 0,
        segment_mru: 1,
        transfer_mru: 1,
    };
    let ack = Fields::Ack {
        flags: 0,
        id: 0,
        length: 0,
    };
    let inner = Fields::Segment {
        flags: 0,
        id: 0,
        length: 1,
    };
    let mut slice = [0; 2048];
    let refused = Err(WriteFault::OutOfRange);
    assert_eq!(rt; write_message(session, &NODE, b"", &mut slice), refused);
    assert_eq!(rt;
        write_message(session, b"", b"\x00\x00\x01\x00", &mut slice),
        refused
    );
    assert_eq!(rt;
        write_message(session, b"", b"\x00\x00\x01\x00\x01", &mut slice),
        refused
    );
    assert_eq!(rt; write_message(ack, b"n", b"", &mut slice), refused);
    assert_eq!(rt; write_message(ack, b"", TOTAL, &mut slice), refused);
    assert_eq!(rt; write_message(inner, b"", TOTAL, &mut slice), refused);
    assert_eq!(rt; write_message(ack, b"", b"", &mut slice), Ok(ACK_LENGTH));
}

/// 64 items are the most.
#[test]
fn many_items(rt: HostRuntime) {
    static ITEMS: [u8; 325] = [0; 325];
    let start = Fields::Segment {
        flags: START,
        id: 9,
        length: 0,
    };
    let mut slice = [0; 400];
    assert_eq!(rt;
        write_message(start, b"", &ITEMS[..320], &mut slice),
        Ok(342)
    );
    let refused = Err(WriteFault::OutOfRange);
    assert_eq!(rt; write_message(start, b"", &ITEMS, &mut slice), refused);
}
