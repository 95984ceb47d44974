//! What a run reads: a session, or a source of bytes.
//!
//! A stage of a tool reads only through the calls of an [`Input`]. Before a read that may have to
//! wait, these calls hand on what was written. So a reader of the output and the report sees the
//! texts that the bytes so far determine. After the read, they note the wait. Without a wait that
//! is noted, they read nothing.

ghost use Rattle.std.specs.Prelude.{◌≡◌, ◌<◌, ℕ, List, [], length, IfSome, IsTrue};
ghost use Rattle.link_wire.specs.MessageBuffer.{message_of, IfSegmentItemsHaveTotals};
ghost use Rattle.link_wire.specs.Session.{source_of, may_read, is_opened, data_in, left_of, IsSessionAt, HasStopped};
ghost use Rattle.link_wire.specs.Source.{given_by, window_of, front_of, IsLive};
ghost use Rattle.link_run.specs.Run.{looks};
ghost use Rattle.link_run.specs.Reading.{feed_of, waits_of, FetchesBytes, FetchesContact, FetchesData, FetchesMessage, ReadsNothing};

use crate::log::Log;
use crate::writers::Writers;
use link_wire::{Contact, InDevice, IoFault, MessageBuffer, OutDevice, Session, Source, Stop};

/// What a tool reads: a [`Session`], or a [`Source`] of bytes.
pub trait Feed: Sized {
    ghost use Rattle.link_wire.specs.declared.Source.{Source};

    /// The device from which the bytes come.
    type Reader: InDevice;

    /// The source that gives the bytes.
    ghost source: { Self → Source Self.Reader };

    /// Returns the source.
    fn into_source(self) -> Source<Self::Reader>
        ensures { result ≡ source self };
}

impl<R: InDevice> Feed for Session<R> {
    type Reader = R;

    ghost source = { source_of };

    fn into_source(self) -> Source<R> {
        self.into_source()
    }
}

impl<R: InDevice> Feed for Source<R> {
    type Reader = R;

    ghost source = { λ source. source };

    fn into_source(self) -> Source<R> {
        self
    }
}

/// How far a source was read.
#[derive(Clone, Copy, Debug, PartialEq, Eq)]
pub struct Position {
    /// The number of bytes given.
    pub given: u64,
    /// The number of bytes that were taken from the reader and not given.
    pub ahead: usize,
}

/// The input of a tool's stages.
///
/// The fields are private, so a stage can read only by the calls below, and these note each wait.
#[derive(Drop)]
pub struct Input<S, W, E> {
    feed: S,
    log: Log<S, W, E>,
}

impl<S, W, E> Input<S, W, E> {
    /// Makes the input of a feed, with the log of its run.
    pub(crate) fn new(feed: S, log: Log<S, W, E>) -> Input<S, W, E>
        ensures feed { feed_of result ≡ feed }
        ensures waits { waits_of result ≡ log.waits }
    {
        Input { feed, log }
    }

    /// Returns the session or the source, and the log.
    pub(crate) fn into_parts(self) -> (S, Log<S, W, E>)
        ensures feed { result.0 ≡ feed_of self }
        ensures waits { result.1.waits ≡ waits_of self }
    {
        let Input { feed, log } = self;
        (feed, log)
    }
}

/// The calls that read a recorded session.
impl<R: InDevice, W: OutDevice, E: OutDevice> Input<Session<R>, W, E> {
    ghost use Rattle.std.specs.Prelude.{◌≤◌, None, take};
    ghost use Rattle.link_wire.specs.Session.{may_open, PassedBytes};
    ghost use Rattle.link_wire.specs.Whole.{GivenWholeMessage, PassedQuietMessages};

    /// Reads the contact header, as [`Session::open`] does.
    ///
    /// If the read may have to wait, the call first hands on what was written. If that fails, it
    /// reads nothing and returns the failure as a stop, although the session has not stopped.
    #[cold]
    #[inline(never)]
    pub fn open(&mut self, writers: &mut Writers<W, E>) -> Result<Contact, Stop>
        requires { IsTrue (may_open (feed_of self.old)) }
        ensures { FetchesContact (looks R.state W.state E.state)
            self.old self.new writers.old writers.new result }
    {
        if !self.feed.may_wait() {
            return self.feed.open();
        }
        match writers.settle() {
            Ok(()) => {
                let position = position_of(&self.feed);
                let result = self.feed.open();
                self.log = self.log.and(&position, writers, &self.feed);
                result
            }
            Err(fault) => Err(Stop::Io(fault)),
        }
    }

    /// Reads the head of the next message, as [`Session::next`] does.
    ///
    /// If the window does not have the whole head and the read may have to wait, the call first
    /// hands on what was written. If that fails, it reads nothing and returns the failure as a
    /// stop, although the session has not stopped. A session that has stopped returns its stop
    /// again.
    #[inline(always)]
    pub fn next_message(
        &mut self,
        writers: &mut Writers<W, E>,
        message: &mut MessageBuffer,
    ) -> Result<Option<u64>, Stop>
        requires { IsTrue (may_read (feed_of self.old)) }
        ensures { FetchesMessage (looks R.state W.state E.state)
            self.old self.new writers.old writers.new message.new result }
    {
        match self.feed.next_here(message) {
            Some(offset) => Ok(Some(offset)),
            None => read_message(self, writers, message),
        }
    }

    /// Gives the next message with its data if it lies whole in the window, as
    /// [`Session::next_whole`] does.
    ///
    /// It reads nothing, so it hands nothing on.
    #[inline(always)]
    pub fn next_whole(&mut self, message: &mut MessageBuffer) -> Option<u64>
        requires { IsTrue (may_read (feed_of self.old)) }
        ensures none { result ≡ None → (self.new ≡ self.old) × (message.new ≡ message.old) }
        ensures may_read { IsTrue (may_read (feed_of self.new)) }
        ensures gives { (history : List ℕ) → IsSessionAt R.state (feed_of self.old) history
            → IfSome result
            (λ offset. GivenWholeMessage R.state (feed_of self.old) (feed_of self.new)
            history offset (message_of message.new)) }
        ensures totals { IfSome result (λ offset. IfSegmentItemsHaveTotals message.new) }
        ensures opened { IsTrue (is_opened (feed_of self.new)) }
        ensures stopped { (stop : _) → HasStopped (feed_of self.old) stop → result ≡ None }
        ensures shrinks { IfSome result (λ offset.
            length (window_of (source_of (feed_of self.new)))
            < length (window_of (source_of (feed_of self.old)))) }
        ensures unread { ReadsNothing R.state source_of self.old self.new }
    {
        self.feed.next_whole(message)
    }

    /// Passes over the quiet messages that lie whole in the window, as [`Session::pass_quiet`]
    /// does, and returns how many bytes they have.
    ///
    /// It reads nothing, so it hands nothing on.
    #[inline(always)]
    pub fn pass_quiet(&mut self) -> usize
        requires { IsTrue (may_read (feed_of self.old)) }
        ensures none { result ≡ 0 → self.new ≡ self.old }
        ensures may_read { IsTrue (may_read (feed_of self.new)) }
        ensures gives { (history : List ℕ) → IsSessionAt R.state (feed_of self.old) history
            → PassedQuietMessages R.state (feed_of self.old) (feed_of self.new) history result }
        ensures opened { IsTrue (is_opened (feed_of self.new)) }
        ensures stopped { (stop : _) → HasStopped (feed_of self.old) stop → result ≡ 0 }
        ensures unread { ReadsNothing R.state source_of self.old self.new }
    {
        self.feed.pass_quiet()
    }

    /// Makes data of the segment ready, as [`Session::load`] does, and returns how many bytes of it
    /// are at hand.
    ///
    /// If no data is at hand yet and the read may have to wait, the call first hands on what was
    /// written. If that fails, it reads nothing and returns the failure as a stop, although the
    /// session has not stopped. A session that has stopped returns its stop again.
    #[inline(always)]
    pub fn load_data(&mut self, writers: &mut Writers<W, E>) -> Result<usize, Stop>
        ensures { FetchesData (looks R.state W.state E.state)
            self.old self.new writers.old writers.new result }
    {
        if self.feed.loaded().is_empty() {
            return load_on(self, writers);
        }
        self.feed.load()
    }

    /// The segment's data that is at hand.
    #[inline(always)]
    pub fn loaded(&self) -> &[u8]
        ensures { result.now ≡ data_in R.state (feed_of self.now) }
    {
        self.feed.loaded()
    }

    /// Gives the first `count` bytes of [`Input::loaded`].
    #[inline(always)]
    pub fn pass(&mut self, count: usize)
        requires { count ≤ length (data_in R.state (feed_of self.old)) }
        ensures opened { is_opened (feed_of self.new) ≡ is_opened (feed_of self.old) }
        ensures gives { (history : List ℕ) → IsSessionAt R.state (feed_of self.old) history
            → PassedBytes R.state (feed_of self.old) (feed_of self.new) history
            (take count (data_in R.state (feed_of self.old))) }
        ensures none { count ≡ 0 → self.new ≡ self.old }
        ensures stopped { (stop : _) → HasStopped (feed_of self.old) stop
            → HasStopped (feed_of self.new) stop }
        ensures unread { ReadsNothing R.state source_of self.old self.new }
    {
        self.feed.pass(count);
    }

    /// The number of bytes of the segment's data that are not given yet.
    #[inline(always)]
    pub fn left(&self) -> u64
        ensures left { result ≡ left_of (feed_of self.now) }
        ensures may_read { IsTrue (is_opened (feed_of self.now)) → result ≡ 0
            → IsTrue (may_read (feed_of self.now)) }
    {
        self.feed.left()
    }
}

/// The calls that read a source of bytes.
impl<R: InDevice, W: OutDevice, E: OutDevice> Input<Source<R>, W, E> {
    ghost use Rattle.std.specs.Prelude.{◌≤◌, Ok, take};
    ghost use Rattle.link_wire.specs.Bytes.{AreBytes};
    ghost use Rattle.link_wire.specs.Source.{Takes};

    /// Makes bytes ready, as [`Source::ready_front`] does, and returns how many are at hand: 0 at
    /// the end of the input.
    ///
    /// If none is at hand and the read may have to wait, the call first hands on what was written.
    /// If that fails, it reads nothing and returns [`IoFault::Write`]. Otherwise, after the end or
    /// a fault of the source, it reads nothing and returns the same result again.
    #[inline(always)]
    pub fn ready_bytes(&mut self, writers: &mut Writers<W, E>) -> Result<usize, IoFault>
        ensures { FetchesBytes (looks R.state W.state E.state)
            self.old self.new writers.old writers.new result }
    {
        if self.feed.front().is_empty() {
            return read_bytes(self, writers);
        }
        self.feed.ready_front()
    }

    /// The bytes at hand, as [`Source::front`] shows them.
    #[inline(always)]
    pub fn front(&self) -> &[u8]
        ensures front { result.now ≡ front_of R.state (feed_of self.now) }
        ensures bytes { AreBytes result.now }
    {
        self.feed.front()
    }

    /// Gives the first `count` bytes at hand.
    #[inline(always)]
    pub fn give(&mut self, count: usize)
        requires { count ≤ length (front_of R.state (feed_of self.old)) }
        ensures takes { Takes R.state (feed_of self.old) (feed_of self.new)
            (take count (front_of R.state (feed_of self.old))) }
        ensures live { IsLive R.state (feed_of self.old) → IsLive R.state (feed_of self.new) }
        ensures none { count ≡ 0 → self.new ≡ self.old }
        ensures unread { ReadsNothing R.state (λ source. source) self.old self.new }
    {
        self.feed.give_front(count);
    }
}

/// Does [`Input::next_message`] for a head that is not frequent, or is not whole in the window.
#[cold]
#[inline(never)]
fn read_message<R: InDevice, W: OutDevice, E: OutDevice>(
    input: &mut Input<Session<R>, W, E>,
    writers: &mut Writers<W, E>,
    message: &mut MessageBuffer,
) -> Result<Option<u64>, Stop>
    requires { IsTrue (may_read (feed_of input.old)) }
    ensures { FetchesMessage (looks R.state W.state E.state)
        input.old input.new writers.old writers.new message.new result }
{
    if let Some(offset) = input.feed.next_ahead(message) {
        return Ok(Some(offset));
    }
    if !input.feed.may_wait() {
        return input.feed.next_fields(message);
    }
    match writers.settle() {
        Ok(()) => {
            let position = position_of(&input.feed);
            let result = input.feed.next_fields(message);
            input.log = input.log.and(&position, writers, &input.feed);
            result
        }
        Err(fault) => Err(Stop::Io(fault)),
    }
}

/// Does [`Input::load_data`] when no data of the segment is at hand.
#[cold]
#[inline(never)]
fn load_on<R: InDevice, W: OutDevice, E: OutDevice>(
    input: &mut Input<Session<R>, W, E>,
    writers: &mut Writers<W, E>,
) -> Result<usize, Stop>
    requires { data_in R.state (feed_of input.old) ≡ [] }
    ensures { FetchesData (looks R.state W.state E.state)
        input.old input.new writers.old writers.new result }
{
    if !input.feed.may_wait() {
        return input.feed.load();
    }
    match writers.settle() {
        Ok(()) => {
            let position = position_of(&input.feed);
            let result = input.feed.load();
            input.log = input.log.and(&position, writers, &input.feed);
            result
        }
        Err(fault) => Err(Stop::Io(fault)),
    }
}

/// Does [`Input::ready_bytes`] when no byte is at hand. The read may have to wait, so the call
/// first hands on what was written.
#[cold]
#[inline(never)]
fn read_bytes<R: InDevice, W: OutDevice, E: OutDevice>(
    input: &mut Input<Source<R>, W, E>,
    writers: &mut Writers<W, E>,
) -> Result<usize, IoFault>
    requires { front_of R.state (feed_of input.old) ≡ [] }
    ensures { FetchesBytes (looks R.state W.state E.state)
        input.old input.new writers.old writers.new result }
{
    match writers.settle() {
        Ok(()) => {
            let position = Position {
                given: input.feed.given(),
                ahead: input.feed.window().len(),
            };
            let result = input.feed.ready_front();
            input.log = input.log.and(&position, writers, &input.feed);
            result
        }
        Err(fault) => Err(fault),
    }
}

/// How many bytes the source of a session has given, and how many more it has taken.
#[inline(always)]
fn position_of<R: InDevice>(session: &Session<R>) -> Position
    ensures given { result.given ≡ given_by (source_of session.now) }
    ensures ahead { result.ahead ≡ length (window_of (source_of session.now)) }
{
    Position {
        given: session.given(),
        ahead: session.ahead(),
    }
}

mod inner;
