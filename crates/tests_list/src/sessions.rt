//! Tests of a session that is read message by message.

ghost use Rattle.std.specs.Prelude.{◌<◌, IsTrue};
ghost use Rattle.link_wire.specs.Session.{may_read, is_opened};

use link_wire::{
    Contact, InDevice, Items, Message, MessageBuffer, NodeId, SegmentHead, Session, Source, Stop,
    WireFault,
};
use std::process::Abort;
use std::test::Fail;
use tests_common::rows::TRANSFER;
use tests_common::stream::{BACK, FRONT, joined};
use tests_common::{Failing, TestReader};

/// The SESS_INIT of `TRANSFER`.
fn sess_init() -> Result<Message, Fail> {
    Ok(Message::SessInit {
        keepalive: 60,
        segment_mru: 65_536,
        transfer_mru: 1_048_576,
        node: NodeId::try_from(b"ipn:1.0".as_slice())?,
        items: Items::new(),
    })
}

/// The head of the segment of `TRANSFER`.
fn segment() -> Message {
    Message::Segment(SegmentHead {
        flags: 3,
        id: 0,
        items: Items::new(),
        length: 34,
    })
}

/// Checks what a session gives as its next message, with its offset.
fn is_message<R: InDevice>(
    rt: &impl Abort,
    session: &mut Session<R>,
    want: Option<(u64, Message)>,
) -> Result<(), Fail>
    requires { IsTrue (may_read session.old) }
    ensures { IsTrue (is_opened session.new) }
{
    let mut message = MessageBuffer::new();
    let offset = session.next(&mut message)?;
    let given = match offset {
        Some(offset) => Some((offset, message.into_message())),
        None => None,
    };
    assert_eq!(rt; given, want);
    Ok(())
}

/// Checks that the data of `TRANSFER` was given.
fn is_data(rt: &impl Abort, given: Result<usize, Stop>, data: &[u8; 34]) {
    assert_eq!(rt; given, Ok(34));
    assert_eq!(rt; data.split_at(17), (FRONT, BACK));
}

#[test]
fn message_by_message(rt: HostRuntime) -> Result<(), Fail> {
    let stream = joined(rt.alloc(), TRANSFER)?;
    let reader = TestReader::new(&stream, usize::MAX, Failing::Never);
    let mut session = Session::new(Source::new(reader));
    assert_eq!(rt; session.open(), Ok(Contact { flags: 0 }));
    is_message(&rt, &mut session, Some((6, sess_init()?)))?;
    assert_eq!(rt; session.left(), 0);
    is_message(&rt, &mut session, Some((38, segment())))?;
    assert_eq!(rt; session.left(), 34);
    let mut data = [0; 34];
    let given = session.data(&mut data);
    is_data(&rt, given, &data);
    assert_eq!(rt; session.left(), 0);
    is_message(&rt, &mut session, None)?;
    let source = session.into_source();
    assert_eq!(rt; (source.given(), source.taken()), (94, 94));
    Ok(())
}

/// The numbers of bytes given and taken after the contact header was read.
///
/// The reader moves at most `per_call` bytes a call.
fn opened(stream: &[u8], per_call: usize) -> (u64, u64)
    requires { 0 < per_call }
{
    let reader = TestReader::new(stream, per_call, Failing::Never);
    let mut session = Session::new(Source::new(reader));
    let _ = session.open();
    let source = session.into_source();
    (source.given(), source.taken())
}

/// Bytes that were read ahead are taken, and not given.
#[test]
fn reads_ahead(rt: HostRuntime) -> Result<(), Fail> {
    let stream = joined(rt.alloc(), TRANSFER)?;
    assert_eq!(rt; opened(&stream, 7), (6, 7));
    assert_eq!(rt; opened(&stream, usize::MAX), (6, 94));
    Ok(())
}

/// Checks that a session gives three bytes of data, and then the fault of the cut at each call.
fn gives_three_bytes<R: InDevice>(rt: &impl Abort, session: &mut Session<R>) {
    let mut data = [0; 34];
    assert_eq!(rt; session.data(&mut data), Ok(3));
    assert_eq!(rt; &data[..3], &FRONT[..3]);
    assert_eq!(rt; session.left(), 31);
    for _ in 0..2 {
        let cut = Err(Stop::Wire(38, WireFault::Truncated));
        assert_eq!(rt; session.data(&mut data), cut);
    }
}

/// The data of a cut segment is given as far as it is there, and then the fault is returned.
///
/// The fault has the offset of the segment. A second call returns it again.
#[test]
fn cut_data(rt: HostRuntime) -> Result<(), Fail> {
    let stream = joined(rt.alloc(), TRANSFER)?;
    let prefix = stream.get(..63).ok_or("more than the stream")?;
    let reader = TestReader::new(prefix, usize::MAX, Failing::Never);
    let mut session = Session::new(Source::new(reader));
    assert_eq!(rt; session.open(), Ok(Contact { flags: 0 }));
    let mut message = MessageBuffer::new();
    assert!(rt; session.next(&mut message).is_ok());
    assert_eq!(rt; session.left(), 0);
    assert!(rt; session.next(&mut message).is_ok());
    gives_three_bytes(&rt, &mut session);
    Ok(())
}
