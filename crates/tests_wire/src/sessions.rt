//! Tests of the bytes that the `put_` calls append, and of what a session reads and waits for.

ghost use Rattle.std.specs.Prelude.{◌≡◌, IsTrue};
ghost use Rattle.arrayvec.specs.ArrayVec.{array_vec_len};
ghost use Rattle.link_wire.specs.Session.{may_read};

use link_wire::{
    BufferedReader, Contact, END, HeadBuf, InDevice, Item, Items, Message, MessageBuffer, NodeId,
    Reader, START, SegmentHead, Session, Source, put_contact, put_segment_head, put_sess_init,
    put_sess_term,
};
use std::io::BufReader;
use std::process::Abort;
use std::test::Fail;

/// A session over these bytes whose contact header was read.
fn opened<'a>(rt: &impl Abort, bytes: &'a [u8]) -> Session<Reader<&'a [u8]>>
    ensures { IsTrue (may_read result) }
{
    let mut session = Session::new(Source::new(Reader::new(bytes)));
    assert!(rt; session.open().is_ok());
    session
}

/// Checks that this is the first message of a session that consists of these bytes.
fn is_read(rt: &impl Abort, bytes: &[u8], message: Message) {
    let mut read = MessageBuffer::new();
    assert_eq!(rt; opened(rt, bytes).next(&mut read), Ok(Some(6)));
    assert_eq!(rt; read.into_message(), message);
}

/// A contact header without flags.
fn with_contact() -> HeadBuf
    ensures { array_vec_len result ≡ 6 }
{
    let mut buffer = HeadBuf::new();
    put_contact(&mut buffer, 0);
    buffer
}

/// No items, or one that announces a total length.
fn items_of(announced: Option<u64>) -> Items {
    let mut items = Items::new();
    if announced.is_some() {
        items.push(Item {
            flags: 0,
            kind: 1,
            length: 8,
            total: announced,
        });
    }
    items
}

/// Checks that the head of a segment without items is read as it was put.
fn put_and_read(rt: &impl Abort, flags: u8, id: u64, length: u64) {
    let mut buffer = with_contact();
    put_segment_head(&mut buffer, flags, id, length, None);
    let head = SegmentHead {
        flags,
        id,
        items: Items::new(),
        length,
    };
    is_read(rt, buffer.as_slice(), Message::Segment(head));
}

/// Checks that the head of a segment that announces a total is read as it was put.
fn put_and_read_announced(rt: &impl Abort, announced: u64) {
    let mut buffer = with_contact();
    put_segment_head(&mut buffer, START, 1, 2, Some(announced));
    let head = SegmentHead {
        flags: START,
        id: 1,
        items: items_of(Some(announced)),
        length: 2,
    };
    is_read(rt, buffer.as_slice(), Message::Segment(head));
}

/// Checks that a contact header is read as it was put.
fn put_and_open(rt: &impl Abort, flags: u8) {
    let mut buffer = HeadBuf::new();
    put_contact(&mut buffer, flags);
    let mut session = Session::new(Source::new(Reader::new(buffer.as_slice())));
    assert_eq!(rt; session.open(), Ok(Contact { flags }));
}

/// Checks the bytes that were put.
fn is_put(rt: &impl Abort, buffer: &HeadBuf, want: &[u8]) {
    assert_eq!(rt; buffer.as_slice(), want);
}

#[test]
fn contact_headers(rt: HostRuntime) {
    put_and_open(&rt, 0);
    put_and_open(&rt, 1);
    put_and_open(&rt, 255);
    is_put(&rt, &with_contact(), b"dtn!\x04\x00");
}

/// A node ID of this many bytes, or of 1,024 if there are more.
fn node_of(size: usize) -> NodeId {
    let mut node = NodeId::new();
    for _ in 0..size {
        if !node.is_full() {
            node.push(0x64);
        }
    }
    node
}

#[test]
fn example_of_a_session(rt: HostRuntime) {
    let node = NodeId::try_from(b"ipn:1.0".as_slice()).unwrap_or_default();
    let mut example = HeadBuf::new();
    put_sess_init(&mut example, 60, 65_536, 1_048_576, &node);
    is_put(
        &rt,
        &example,
        b"\x07\x00\x3c\x00\x00\x00\x00\x00\x01\x00\x00\x00\x00\x00\x00\x00\x10\x00\x00\x00\x07ipn:1.0\x00\x00\x00\x00",
    );
}

/// Checks that a SESS_INIT whose node ID has this size is read as it was put.
fn put_and_read_session(
    rt: &impl Abort,
    keepalive: u16,
    segment_mru: u64,
    transfer_mru: u64,
    size: usize,
) {
    let node = node_of(size);
    let mut buffer = with_contact();
    put_sess_init(&mut buffer, keepalive, segment_mru, transfer_mru, &node);
    let message = Message::SessInit {
        keepalive,
        segment_mru,
        transfer_mru,
        node,
        items: Items::new(),
    };
    is_read(rt, buffer.as_slice(), message);
}

#[test]
fn sessions(rt: HostRuntime) {
    put_and_read_session(&rt, 0, 0, 1, 0);
    put_and_read_session(&rt, 1, 1, u64::MAX, 1);
    put_and_read_session(&rt, u16::MAX, u64::MAX, 0, 1024);
}

/// Checks segments with this number as their ID, their length or their announced total.
fn segments_of(rt: &impl Abort, number: u64) {
    put_and_read(rt, 0, number, 1);
    put_and_read(rt, END, 0, number);
    put_and_read(rt, START, number, 0);
    put_and_read(rt, 255, 1, number);
    put_and_read_announced(rt, number);
}

#[test]
fn segments(rt: HostRuntime) {
    let mut example = HeadBuf::new();
    put_segment_head(&mut example, START | END, 0, 34, None);
    is_put(
        &rt,
        &example,
        b"\x01\x03\x00\x00\x00\x00\x00\x00\x00\x00\x00\x00\x00\x00\x00\x00\x00\x00\x00\x00\x00\x22",
    );
    segments_of(&rt, 0);
    segments_of(&rt, 1);
    segments_of(&rt, u64::MAX);
}

#[test]
fn announced_total(rt: HostRuntime) {
    let mut buffer = HeadBuf::new();
    put_segment_head(&mut buffer, START, 0, 17, Some(34));
    is_put(
        &rt,
        &buffer,
        b"\x01\x02\x00\x00\x00\x00\x00\x00\x00\x00\x00\x00\x00\x0d\x00\x00\x01\x00\x08\x00\x00\x00\x00\x00\x00\x00\x22\x00\x00\x00\x00\x00\x00\x00\x11",
    );
}

/// Checks that a SESS_TERM is read as it was put.
fn put_and_read_termination(rt: &impl Abort, flags: u8, reason: u8) {
    let mut buffer = with_contact();
    put_sess_term(&mut buffer, flags, reason);
    is_read(rt, buffer.as_slice(), Message::SessTerm { flags, reason });
}

/// The flags and the reasons of messages.
static TERMINATIONS: [(u8, u8); 6] = [(0, 3), (1, 3), (255, 3), (1, 0), (1, 1), (1, 255)];

#[test]
fn terminations(rt: HostRuntime) {
    for &(flags, reason) in &TERMINATIONS {
        put_and_read_termination(&rt, flags, reason);
    }
}

/// Recordings, and whether the call after the contact header may have to wait.
///
/// It may have to wait for a head until no field of the head is missing (RFC 9174 sections 4.6 and
/// 5.1 to 6.1). After the contact header comes nothing, a KEEPALIVE, a SESS_TERM, an XFER_ACK, a
/// segment with an item, or a type that no message has.
static HEADS: [(&[u8], bool); 9] = [
    (b"dtn!\x04\x00", true),
    (b"dtn!\x04\x00\x04", false),
    (b"dtn!\x04\x00\x05\x00", true),
    (b"dtn!\x04\x00\x05\x00\x00", false),
    (
        b"dtn!\x04\x00\x02\x00\x00\x00\x00\x00\x00\x00\x00\x07\x00\x00\x00\x00\x00\x00\x00",
        true,
    ),
    (
        b"dtn!\x04\x00\x02\x00\x00\x00\x00\x00\x00\x00\x00\x07\x00\x00\x00\x00\x00\x00\x00\x22",
        false,
    ),
    (
        b"dtn!\x04\x00\x01\x02\x00\x00\x00\x00\x00\x00\x00\x00\x00\x00\x00\x05\x00\x00\x02\x00\x00\x00\x00\x00\x00\x00\x00\x00",
        true,
    ),
    (
        b"dtn!\x04\x00\x01\x02\x00\x00\x00\x00\x00\x00\x00\x00\x00\x00\x00\x05\x00\x00\x02\x00\x00\x00\x00\x00\x00\x00\x00\x00\x02",
        false,
    ),
    (b"dtn!\x04\x00\x2a", false),
];

/// Checks whether the call after the contact header may have to wait.
fn head_is_waited_for(rt: &impl Abort, stream: &[u8], waits: bool) {
    assert!(rt; Session::new(Source::new(Reader::new(stream))).may_wait());
    assert_eq!(rt; opened(rt, stream).may_wait(), waits);
}

#[test]
fn heads_that_are_waited_for(rt: HostRuntime) {
    for (stream, waits) in &HEADS {
        head_is_waited_for(&rt, stream, *waits);
    }
}

/// Recordings, and whether the call for data may have to wait.
///
/// One ends after the head of a segment with two bytes of data, the other after the first of these.
static DATA: [(&[u8], bool); 2] = [
    (
        b"dtn!\x04\x00\x01\x01\x00\x00\x00\x00\x00\x00\x00\x00\x00\x00\x00\x00\x00\x00\x00\x02",
        true,
    ),
    (
        b"dtn!\x04\x00\x01\x01\x00\x00\x00\x00\x00\x00\x00\x00\x00\x00\x00\x00\x00\x00\x00\x02\x9f",
        false,
    ),
];

/// Checks whether the call for data may have to wait.
fn data_is_waited_for(rt: &impl Abort, stream: &[u8], waits: bool) {
    let mut session = opened(rt, stream);
    assert!(rt; session.next(&mut MessageBuffer::new()).is_ok());
    assert_eq!(rt; (session.left(), session.may_wait()), (2, waits));
}

#[test]
fn data_that_is_waited_for(rt: HostRuntime) {
    for (stream, waits) in &DATA {
        data_is_waited_for(&rt, stream, *waits);
    }
}

/// Recordings, and how many bytes after the contact header are passed over as quiet messages.
///
/// XFER_ACK, XFER_REFUSE, KEEPALIVE and MSG_REJECT are quiet (RFC 9174 sections 5.1 and 5.2). The
/// last byte of one is missing, or a segment, a SESS_TERM or an unknown type comes next.
static QUIET: [(&[u8], usize); 11] = [
    (b"dtn!\x04\x00", 0),
    (b"dtn!\x04\x00\x04", 1),
    (b"dtn!\x04\x00\x06\x03\x01", 3),
    (b"dtn!\x04\x00\x06\x03", 0),
    (b"dtn!\x04\x00\x03\x01\x00\x00\x00\x00\x00\x00\x00\x07", 10),
    (b"dtn!\x04\x00\x03\x01\x00\x00\x00\x00\x00\x00\x00", 0),
    (
        b"dtn!\x04\x00\x02\x00\x00\x00\x00\x00\x00\x00\x00\x07\x00\x00\x00\x00\x00\x00\x00\x22",
        18,
    ),
    (
        b"dtn!\x04\x00\x02\x00\x00\x00\x00\x00\x00\x00\x00\x07\x00\x00\x00\x00\x00\x00\x00",
        0,
    ),
    (b"dtn!\x04\x00\x04\x06\x03\x01\x04\x05\x00\x03\x04", 5),
    (b"dtn!\x04\x00\x04\x04\x2a", 2),
    (
        b"dtn!\x04\x00\x04\x01\x01\x00\x00\x00\x00\x00\x00\x00\x00\x00\x00\x00\x00\x00\x00\x00\x00",
        1,
    ),
];

/// The number of bytes after the contact header that a session has given.
fn given_after_contact<R: InDevice + Drop>(session: Session<R>) -> Option<u64> {
    session.into_source().given().checked_sub(6)
}

/// Checks how many bytes after the contact header are passed over as quiet messages.
fn quiet_are_passed(rt: &impl Abort, stream: &[u8], count: usize) {
    let mut session = opened(rt, stream);
    assert_eq!(rt; session.pass_quiet(), count);
    assert_eq!(rt; session.pass_quiet(), 0);
    assert_eq!(rt; given_after_contact(session), Some(count as u64));
}

#[test]
fn quiet_messages(rt: HostRuntime) {
    for (stream, count) in &QUIET {
        quiet_are_passed(&rt, stream, *count);
    }
}

/// Recordings, and what is given of the message after the contact header.
///
/// For `next_here`, three numbers say how many bytes are given then, how many bytes of data are to
/// come, and how many of these are at hand. For `next_whole`, one number says how many bytes are
/// given then. It is 6 if nothing of the message is given.
///
/// The message is a KEEPALIVE, or a segment with two bytes of data. A byte of the head, or data, is
/// missing, or an item is in the head. After one of the segments comes a KEEPALIVE.
static GIVEN: [(&[u8], (u64, u64, usize), u64); 8] = [
    (b"dtn!\x04\x00", (6, 0, 0), 6),
    (b"dtn!\x04\x00\x04", (7, 0, 0), 7),
    (
        b"dtn!\x04\x00\x01\x01\x00\x00\x00\x00\x00\x00\x00\x00\x00\x00\x00\x00\x00\x00\x00\x02\x9f\xff",
        (24, 2, 2),
        26,
    ),
    (
        b"dtn!\x04\x00\x01\x01\x00\x00\x00\x00\x00\x00\x00\x00\x00\x00\x00\x00\x00\x00\x00\x02\x9f\xff\x04",
        (24, 2, 2),
        26,
    ),
    (
        b"dtn!\x04\x00\x01\x01\x00\x00\x00\x00\x00\x00\x00\x00\x00\x00\x00\x00\x00\x00\x00\x02\x9f",
        (24, 2, 1),
        6,
    ),
    (
        b"dtn!\x04\x00\x01\x01\x00\x00\x00\x00\x00\x00\x00\x00\x00\x00\x00\x00\x00\x00\x00\x02",
        (24, 2, 0),
        6,
    ),
    (
        b"dtn!\x04\x00\x01\x01\x00\x00\x00\x00\x00\x00\x00\x00\x00\x00\x00\x00\x00\x00\x00",
        (6, 0, 0),
        6,
    ),
    (
        b"dtn!\x04\x00\x01\x02\x00\x00\x00\x00\x00\x00\x00\x00\x00\x00\x00\x05\x00\x00\x02\x00\x00\x00\x00\x00\x00\x00\x00\x00\x00",
        (6, 0, 0),
        6,
    ),
];

/// Checks how far the message after the contact header is given where it lies.
fn is_given_here(rt: &impl Abort, stream: &[u8], given: u64, left: u64, ready: usize) {
    let mut session = opened(rt, stream);
    let offset = session.next_here(&mut MessageBuffer::new());
    assert_eq!(rt; offset, (given > 6).then_some(6));
    assert_eq!(rt; (session.given(), session.left()), (given, left));
    assert_eq!(rt; session.loaded().len(), ready);
}

#[test]
fn messages_where_they_lie(rt: HostRuntime) {
    for (stream, (given, left, ready), _) in &GIVEN {
        is_given_here(&rt, stream, *given, *left, *ready);
    }
}

/// Checks whether the message after the contact header is given with all of its data.
fn is_given_whole(rt: &impl Abort, stream: &[u8], given: u64) {
    let mut session = opened(rt, stream);
    let offset = session.next_whole(&mut MessageBuffer::new());
    assert_eq!(rt; offset, (given > 6).then_some(6));
    assert_eq!(rt; session.given(), given);
}

#[test]
fn whole_messages(rt: HostRuntime) {
    for (stream, _, given) in &GIVEN {
        is_given_whole(&rt, stream, *given);
    }
}

/// Checks the head of a segment that begins after a window, where it lies in the reader's buffer.
///
/// KEEPALIVEs fill the window after the contact header. The data is longer than a window.
#[test]
fn head_in_the_buffer(rt: HostRuntime) -> Result<(), Fail> {
    let mut stream = [4; 8210];
    stream[..6].copy_from_slice(b"dtn!\x04\x00");
    stream[8192..].copy_from_slice(
        b"\x01\x01\x00\x00\x00\x00\x00\x00\x00\x07\x00\x00\x00\x00\x00\x00\x20\x01",
    );
    let reader = BufReader::with_capacity(rt.alloc(), stream.len(), &stream[..])?;
    let mut session = Session::new(Source::new(BufferedReader::new(reader)));
    assert!(rt; session.open().is_ok());
    assert_eq!(rt; session.pass_quiet(), 8186);
    assert_eq!(rt; session.next_ahead(&mut MessageBuffer::new()), Some(8192));
    assert_eq!(rt; (session.given(), session.left()), (8210, 8193));
    Ok(())
}
