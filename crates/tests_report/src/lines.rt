//! The lines of messages and faults, and the pieces of text that they are made of.

use link_report::{
    Fault, KeptDigits, Line, MessageText, contact_line, fault_line, message_line, put_decimal,
    put_escaped, put_hex2, put_hex4, put_text,
};
use link_transfer::OrderFault;
use link_wire::{
    Contact, Fields, Item, Items, Message, MessageBuffer, NodeId, SegmentHead, TEXT_MAX, Text,
    WireFault,
};
use std::process::Abort;

const WITH_TOTAL: Item = Item {
    flags: 0x00,
    kind: 0x0001,
    length: 8,
    total: Some(35),
};

/// Checks that bytes are this text.
pub fn is_text(rt: &impl Abort, shown: &[u8], want: &str) {
    assert_eq!(rt; shown, want.as_bytes(), "{want}");
}

fn item(flags: u8, kind: u16, length: u16) -> Item {
    Item {
        flags,
        kind,
        length,
        total: None,
    }
}

/// A segment of transfer 0 with these items, at most 64.
fn segment(flags: u8, list: &[Item], length: u64) -> Message {
    Message::Segment(SegmentHead {
        flags,
        id: 0,
        items: Items::try_from(list).unwrap_or_default(),
        length,
    })
}

/// A SESS_INIT with a node ID of at most 1,024 bytes, and with at most 64 items.
fn session(node: &[u8], list: &[Item]) -> Message {
    Message::SessInit {
        keepalive: 60,
        segment_mru: 65536,
        transfer_mru: 1048576,
        node: NodeId::try_from(node).unwrap_or_default(),
        items: Items::try_from(list).unwrap_or_default(),
    }
}

/// The least and the greatest number of each length, and numbers with zeros in their middle.
static NUMBERS: [(u64, &str); 40] = [
    (9, "9"),
    (10, "10"),
    (99, "99"),
    (100, "100"),
    (999, "999"),
    (1000, "1000"),
    (9999, "9999"),
    (10_000, "10000"),
    (99_999, "99999"),
    (100_000, "100000"),
    (100_009, "100009"),
    (999_999, "999999"),
    (1_000_000, "1000000"),
    (9_999_999, "9999999"),
    (10_000_000, "10000000"),
    (99_999_999, "99999999"),
    (100_000_000, "100000000"),
    (999_999_999, "999999999"),
    (1_000_000_000, "1000000000"),
    (9_999_999_999, "9999999999"),
    (10_000_000_000, "10000000000"),
    (99_999_999_999, "99999999999"),
    (100_000_000_000, "100000000000"),
    (999_999_999_999, "999999999999"),
    (1_000_000_000_000, "1000000000000"),
    (1_000_000_000_001, "1000000000001"),
    (9_999_999_999_999, "9999999999999"),
    (10_000_000_000_000, "10000000000000"),
    (99_999_999_999_999, "99999999999999"),
    (100_000_000_000_000, "100000000000000"),
    (999_999_999_999_999, "999999999999999"),
    (1_000_000_000_000_000, "1000000000000000"),
    (9_999_999_999_999_999, "9999999999999999"),
    (10_000_000_000_000_000, "10000000000000000"),
    (99_999_999_999_999_999, "99999999999999999"),
    (100_000_000_000_000_000, "100000000000000000"),
    (999_999_999_999_999_999, "999999999999999999"),
    (1_000_000_000_000_000_000, "1000000000000000000"),
    (9_999_999_999_999_999_999, "9999999999999999999"),
    (10_000_000_000_000_000_000, "10000000000000000000"),
];

/// Checks the digits of a number in a line.
fn shows(rt: &impl Abort, number: u64, want: &str) {
    let mut line = Line::new();
    let ack = Message::Ack {
        flags: 0,
        id: 0,
        length: number,
    };
    message_line(&mut line, 0, &ack);
    let rest = line.strip_prefix(b"0 xfer-ack flags=00 id=0 length=");
    let digits = rest.and_then(|rest| rest.strip_suffix(b"\n"));
    is_text(rt, digits.unwrap_or(b""), want);
}

#[test]
fn numbers_of_each_length(rt: HostRuntime) {
    for (number, want) in &NUMBERS {
        shows(&rt, *number, want);
    }
}

/// Numbers whose digits are kept, numbers that are written after that, and their digits.
///
/// They differ in the last four digits, or the other digits are not the kept ones.
static AFTER_KEPT: [(u64, u64, &str); 15] = [
    (12_345_678, 12_340_000, "12340000"),
    (12_345_678, 12_340_007, "12340007"),
    (12_345_678, 12_340_040, "12340040"),
    (12_345_678, 12_340_500, "12340500"),
    (12_345_678, 12_349_999, "12349999"),
    (12_345_678, 12_339_999, "12339999"),
    (12_345_678, 12_350_000, "12350000"),
    (12_345_678, 1_234, "1234"),
    (9_999, 9_999, "9999"),
    (9_999, 0, "0"),
    (9_999, 10_001, "10001"),
    (10_000, 19_999, "19999"),
    (10_000, 20_000, "20000"),
    (u64::MAX, 18_446_744_073_709_550_001, "18446744073709550001"),
    (u64::MAX, u64::MAX, "18446744073709551615"),
];

/// Checks the digits of a number after those of another one were kept.
fn shows_after(rt: &impl Abort, kept: u64, number: u64, want: &str) {
    let mut digits = KeptDigits::new();
    digits.keep(kept);
    let mut message = MessageBuffer::new();
    message.fields = Fields::Keepalive;
    let text = MessageText {
        offset: number,
        message: &message,
        kept: &digits,
    };
    let mut page = [0; TEXT_MAX];
    let end = text.put(&mut page, 0);
    let digits = page[..end].strip_suffix(b" keepalive\n");
    is_text(rt, digits.unwrap_or(b""), want);
}

#[test]
fn numbers_after_kept_digits(rt: HostRuntime) {
    for (kept, number, want) in &AFTER_KEPT {
        shows_after(&rt, *kept, *number, want);
    }
}

/// Checks the line of a message at this offset.
fn lists(rt: &impl Abort, offset: u64, message: &Message, want: &str) {
    let mut line = Line::new();
    message_line(&mut line, offset, message);
    is_text(rt, line.as_slice(), want);
}

/// The line of a SESS_INIT at offset 6, up to its node ID.
const SESSION: &str = "6 sess-init keepalive=60 segment-mru=65536 transfer-mru=1048576 node=";

/// Checks the line of a SESS_INIT after `SESSION`.
fn lists_session(rt: &impl Abort, node: &[u8], list: &[Item], want: &str) {
    let mut line = Line::new();
    message_line(&mut line, 6, &session(node, list));
    let shown = line.strip_prefix(SESSION.as_bytes());
    is_text(rt, shown.unwrap_or(b""), want);
}

#[test]
fn lines_of_sessions(rt: HostRuntime) {
    let two = [item(0x01, 0x1234, 1), item(0x00, 0xabcd, 0)];
    lists_session(&rt, b"ipn:1.0", &[], "ipn:1.0 items=0\n");
    lists_session(
        &rt,
        b"ipn:1.0",
        &two,
        "ipn:1.0 items=2 item=01:1234:1 item=00:abcd:0\n",
    );
    lists_session(&rt, b"\x20\x5c\xff", &[], "\\x20\\x5c\\xff items=0\n");
    lists_session(&rt, b"", &[], " items=0\n");
}

/// Bytes that are escaped and bytes that are not, hexadecimal digits, and the greatest number.
#[test]
fn pieces_of_text(rt: HostRuntime) {
    let list = [item(0x0a, 0x0fe9, 0)];
    lists(
        &rt,
        u64::MAX,
        &session(b"!~ \\\x7f\x00a", &list),
        "18446744073709551615 sess-init keepalive=60 segment-mru=65536 transfer-mru=1048576 \
        node=!~\\x20\\x5c\\x7f\\x00a items=1 item=0a:0fe9:0\n",
    );
}

/// A call that appends a piece to a line, and its argument.
enum Piece {
    Decimal(u64),
    Hex2(u8),
    Hex4(u16),
    /// At most 8 bytes.
    Escaped(&'static [u8]),
}

/// Pieces, and the line of each after `a `.
static PIECES: [(Piece, &str); 14] = [
    (Piece::Decimal(0), "a 0"),
    (Piece::Decimal(9), "a 9"),
    (Piece::Decimal(10), "a 10"),
    (Piece::Decimal(u64::MAX), "a 18446744073709551615"),
    (Piece::Hex2(0x00), "a 00"),
    (Piece::Hex2(0x1f), "a 1f"),
    (Piece::Hex2(0xff), "a ff"),
    (Piece::Hex4(0x0000), "a 0000"),
    (Piece::Hex4(0x012e), "a 012e"),
    (Piece::Hex4(0xffff), "a ffff"),
    (Piece::Escaped(b""), "a "),
    (Piece::Escaped(b"!az~"), "a !az~"),
    (Piece::Escaped(b"\\"), "a \\x5c"),
    (Piece::Escaped(b"\x20[\x7f"), "a \\x20[\\x7f"),
];

/// Checks the line of a piece that is appended to `a `.
fn appends(rt: &impl Abort, piece: &Piece, want: &str) {
    let mut line = Line::new();
    put_text(&mut line, "a ");
    match *piece {
        Piece::Decimal(number) => put_decimal(&mut line, number),
        Piece::Hex2(byte) => put_hex2(&mut line, byte),
        Piece::Hex4(number) => put_hex4(&mut line, number),
        Piece::Escaped(bytes) => put_escaped(&mut line, &bytes[..bytes.len().min(8)]),
    }
    is_text(rt, line.as_slice(), want);
}

#[test]
fn appended_pieces(rt: HostRuntime) {
    for (piece, want) in &PIECES {
        appends(&rt, piece, want);
    }
}

#[test]
fn lines_of_segments(rt: HostRuntime) {
    lists(
        &rt,
        38,
        &segment(0x03, &[], 34),
        "38 xfer-segment flags=03 id=0 items=0 length=34\n",
    );
    lists(
        &rt,
        38,
        &segment(0x02, &[WITH_TOTAL], 17),
        "38 xfer-segment flags=02 id=0 items=1 item=00:0001:8 length=17\n",
    );
    lists(
        &rt,
        90,
        &segment(0x01, &[], 17),
        "90 xfer-segment flags=01 id=0 length=17\n",
    );
}

#[test]
fn lines_of_numbers(rt: HostRuntime) {
    let ack = Message::Ack {
        flags: 0x01,
        id: 0,
        length: 34,
    };
    lists(&rt, 38, &ack, "38 xfer-ack flags=01 id=0 length=34\n");
    lists(&rt, 66, &Message::Keepalive, "66 keepalive\n");
    let mut line = Line::new();
    contact_line(&mut line, &Contact { flags: 0x00 });
    assert_eq!(rt;
        line.as_slice(),
        b"0 contact version=4 flags=00\n".as_slice()
    );
}

/// A message in a buffer in which the node ID and the items of a SESS_INIT stay.
fn in_place(fields: Fields) -> MessageBuffer {
    let mut message = MessageBuffer::new();
    message.node = NodeId::try_from(b"ipn:1.0".as_slice()).unwrap_or_default();
    message.items = Items::try_from([WITH_TOTAL].as_slice()).unwrap_or_default();
    message.fields = fields;
    message
}

/// Checks the line of this message in place, after two other bytes of a page.
fn lists_in_place(rt: &impl Abort, fields: Fields, want: &str) {
    let text = MessageText {
        offset: 6,
        message: &in_place(fields),
        kept: &KeptDigits::new(),
    };
    let mut page = [b'-'; TEXT_MAX + 2];
    let end = text.put(&mut page, 2);
    let shown = page[..end].strip_prefix(b"--");
    is_text(rt, shown.unwrap_or(b""), want);
}

#[test]
fn session_in_place(rt: HostRuntime) {
    let fields = Fields::SessInit {
        keepalive: 60,
        segment_mru: 65536,
        transfer_mru: 1048576,
    };
    let want = "6 sess-init keepalive=60 segment-mru=65536 transfer-mru=1048576 \
        node=ipn:1.0 items=1 item=00:0001:8\n";
    lists_in_place(&rt, fields, want);
}

/// Checks the line of a segment in place with these flags.
fn lists_segment_in_place(rt: &impl Abort, flags: u8, want: &str) {
    let fields = Fields::Segment {
        flags,
        id: 0,
        length: 17,
    };
    lists_in_place(rt, fields, want);
}

/// Only a segment with START shows the items. No segment shows the node ID.
#[test]
fn segments_in_place(rt: HostRuntime) {
    lists_segment_in_place(
        &rt,
        0x02,
        "6 xfer-segment flags=02 id=0 items=1 item=00:0001:8 length=17\n",
    );
    lists_segment_in_place(&rt, 0x01, "6 xfer-segment flags=01 id=0 length=17\n");
}

/// Messages that show neither the node ID nor the items, and their lines.
static OTHERS: [(Fields, &str); 5] = [
    (
        Fields::Ack {
            flags: 0x01,
            id: 0,
            length: 34,
        },
        "6 xfer-ack flags=01 id=0 length=34\n",
    ),
    (
        Fields::Refuse {
            reason: 0x01,
            id: 0,
        },
        "6 xfer-refuse reason=01/completed id=0\n",
    ),
    (Fields::Keepalive, "6 keepalive\n"),
    (
        Fields::SessTerm {
            flags: 0x01,
            reason: 0x03,
        },
        "6 sess-term flags=01 reason=03/busy\n",
    ),
    (
        Fields::MsgReject {
            reason: 0x01,
            header: 0x16,
        },
        "6 msg-reject reason=01/message-type-unknown header=16\n",
    ),
];

#[test]
fn other_messages_in_place(rt: HostRuntime) {
    for (fields, want) in &OTHERS {
        lists_in_place(&rt, *fields, want);
    }
}

#[test]
fn longest_node(rt: HostRuntime) {
    let mut line = Line::new();
    message_line(&mut line, 6, &session(&[0xff; 1024], &[]));
    assert_eq!(rt; line.len(), 4174);
    assert!(rt; line.ends_with(b"\\xff\\xff items=0\n"));
}

/// The codes of RFC 9174, table 6, and the first code past them.
static REFUSALS: [(u8, &str); 8] = [
    (0x00, "56 xfer-refuse reason=00/unknown id=0\n"),
    (0x01, "56 xfer-refuse reason=01/completed id=0\n"),
    (0x02, "56 xfer-refuse reason=02/no-resources id=0\n"),
    (0x03, "56 xfer-refuse reason=03/retransmit id=0\n"),
    (0x04, "56 xfer-refuse reason=04/not-acceptable id=0\n"),
    (0x05, "56 xfer-refuse reason=05/extension-failure id=0\n"),
    (0x06, "56 xfer-refuse reason=06/session-terminating id=0\n"),
    (0x07, "56 xfer-refuse reason=07/? id=0\n"),
];

fn lists_refusal(rt: &impl Abort, reason: u8, want: &str) {
    lists(rt, 56, &Message::Refuse { reason, id: 0 }, want);
}

#[test]
fn reasons_of_xfer_refuse(rt: HostRuntime) {
    for (reason, want) in &REFUSALS {
        lists_refusal(&rt, *reason, want);
    }
}

/// The codes of RFC 9174, table 10, the first code past them, and a later one.
static TERMINATIONS: [(u8, &str); 8] = [
    (0x00, "56 sess-term flags=01 reason=00/unknown\n"),
    (0x01, "56 sess-term flags=01 reason=01/idle-timeout\n"),
    (0x02, "56 sess-term flags=01 reason=02/version-mismatch\n"),
    (0x03, "56 sess-term flags=01 reason=03/busy\n"),
    (0x04, "56 sess-term flags=01 reason=04/contact-failure\n"),
    (
        0x05,
        "56 sess-term flags=01 reason=05/resource-exhaustion\n",
    ),
    (0x06, "56 sess-term flags=01 reason=06/?\n"),
    (0x7f, "56 sess-term flags=01 reason=7f/?\n"),
];

fn lists_termination(rt: &impl Abort, reason: u8, want: &str) {
    let message = Message::SessTerm {
        flags: 0x01,
        reason,
    };
    lists(rt, 56, &message, want);
}

#[test]
fn reasons_of_sess_term(rt: HostRuntime) {
    for (reason, want) in &TERMINATIONS {
        lists_termination(&rt, *reason, want);
    }
}

/// The codes of RFC 9174, table 4, and the codes before and after them.
static REJECTIONS: [(u8, &str); 5] = [
    (0x00, "56 msg-reject reason=00/? header=16\n"),
    (
        0x01,
        "56 msg-reject reason=01/message-type-unknown header=16\n",
    ),
    (
        0x02,
        "56 msg-reject reason=02/message-unsupported header=16\n",
    ),
    (
        0x03,
        "56 msg-reject reason=03/message-unexpected header=16\n",
    ),
    (0x04, "56 msg-reject reason=04/? header=16\n"),
];

fn lists_rejection(rt: &impl Abort, reason: u8, want: &str) {
    let message = Message::MsgReject {
        reason,
        header: 0x16,
    };
    lists(rt, 56, &message, want);
}

#[test]
fn reasons_of_msg_reject(rt: HostRuntime) {
    for (reason, want) in &REJECTIONS {
        lists_rejection(&rt, *reason, want);
    }
}

/// Each fault of the wire and of the order, and its line.
static FAULT_LINES: [(Fault, &str); 13] = [
    (
        Fault::Wire(0, WireFault::Truncated),
        "tcpclkit: byte 0: truncated\n",
    ),
    (
        Fault::Wire(0, WireFault::BadMagic),
        "tcpclkit: byte 0: not a contact header\n",
    ),
    (
        Fault::Wire(0, WireFault::BadVersion(3)),
        "tcpclkit: byte 0: unsupported version 3\n",
    ),
    (
        Fault::Wire(38, WireFault::UnknownType(0x16)),
        "tcpclkit: byte 38: unknown message type 16\n",
    ),
    (
        Fault::Wire(6, WireFault::NodeIdTooLong(1025)),
        "tcpclkit: byte 6: node id too long: 1025\n",
    ),
    (
        Fault::Wire(6, WireFault::ListTooLong(4097)),
        "tcpclkit: byte 6: extension list too long: 4097\n",
    ),
    (
        Fault::Wire(6, WireFault::TooManyItems),
        "tcpclkit: byte 6: too many extension items\n",
    ),
    (
        Fault::Wire(6, WireFault::ItemsOverrun),
        "tcpclkit: byte 6: extension items overrun their list\n",
    ),
    (
        Fault::Order(38, OrderFault::SecondSessInit),
        "tcpclkit: byte 38: second session initiation\n",
    ),
    (
        Fault::Order(6, OrderFault::SegmentBeforeSessInit),
        "tcpclkit: byte 6: segment before session initiation\n",
    ),
    (
        Fault::Order(38, OrderFault::NoSuchOpenTransfer),
        "tcpclkit: byte 38: no such open transfer\n",
    ),
    (
        Fault::Order(70, OrderFault::StartRepeatsOpenId),
        "tcpclkit: byte 70: start repeats the open transfer\n",
    ),
    (
        Fault::Order(115, OrderFault::StartAfterSessTerm),
        "tcpclkit: byte 115: start after session termination\n",
    ),
];

/// Checks the line of a fault.
fn has_line(rt: &impl Abort, fault: &Fault, want: &str) {
    let mut line = Line::new();
    fault_line(&mut line, fault);
    is_text(rt, line.as_slice(), want);
}

/// The offset and the text of a fault of the wire or of the order. Other faults have none.
fn text_of(rt: &(impl Abort + AllocGlobal), fault: &Fault) -> String {
    let text = match fault {
        Fault::Wire(offset, fault) => format!(in rt.alloc(); "{offset}: {fault}\n"),
        Fault::Order(offset, fault) => format!(in rt.alloc(); "{offset}: {fault}\n"),
        _ => Ok(String::new(rt.alloc())),
    };
    text.expect(rt, "memory")
}

/// Checks that the error type of a fault has the text of its line.
fn has_its_text(rt: &(impl Abort + AllocGlobal), fault: &Fault, line: &str) {
    let shown = text_of(rt, fault);
    let rest = line.strip_prefix("tcpclkit: byte ");
    is_text(rt, shown.as_bytes(), rest.unwrap_or("no such prefix"));
}

/// The error types of faults have the same texts as the lines.
#[test]
fn lines_of_faults(rt: HostRuntime) {
    for (fault, want) in &FAULT_LINES {
        has_line(&rt, fault, want);
        has_its_text(&rt, fault, want);
    }
}
