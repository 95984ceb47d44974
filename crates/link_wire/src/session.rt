//! Reading a recorded session: the contact header, then messages, and the data of segments.

use crate::fault::{Stop, WireFault};
use crate::halt::Halt;
use crate::head::{contact, fields, kind};
use crate::here::{FRONT, has_contact, has_head};
use crate::message::{Contact, Fields, MessageBuffer};
use crate::plain::plain;
use crate::quiet::quiet;
use link_io::{InDevice, Source, WINDOW};

/// What may be read next.
#[derive(Clone, Copy, Debug, PartialEq, Eq)]
enum Phase {
    /// The contact header.
    Unopened,
    /// Messages and data.
    Reading,
    /// Nothing more: the session has stopped.
    Stopped(Stop),
}

/// A recorded session that is read message by message (RFC 9174).
#[derive(Drop)]
pub struct Session<R> {
    source: Source<R>,
    /// The offset of the segment whose data is read.
    offset: u64,
    /// The number of bytes of that data that were not given yet.
    left: u64,
    phase: Phase,
}

impl<R: InDevice> Session<R> {
    ghost use Rattle.std.specs.Prelude.{◌≡◌, ◌<◌, false, [], ℕ, List, length, IfErr, IfSome, None, IsTrue};
    ghost use Rattle.link_wire.specs.Halt.{stop_at};
    ghost use Rattle.link_io.specs.Limits.{window_size};
    ghost use Rattle.link_io.specs.Source.{is_fresh, reader_of, given_by, window_of, front_of, reach};
    ghost use Rattle.link_wire.specs.Plain.{HasPlainHead};
    ghost use Rattle.link_wire.specs.MessageBuffer.{message_of, IfSegmentItemsHaveTotals};
    ghost use Rattle.link_wire.specs.Session.{source_of, may_open, may_read, is_opened, IsSessionAt, HasEnoughForContact, HasEndedBetween, HasEnoughForNext, HasStopped, left_of, data_in, AfterOpen, GivenHead, ReadsNext};
    ghost use Rattle.link_wire.specs.declared.session.Phase.TheVariants as phase;

    /// Makes a session over a source that has taken nothing.
    pub fn new(source: Source<R>) -> Session<R>
        requires { IsTrue (is_fresh source) }
        ensures fresh { IsTrue (may_open result) }
        ensures source { source_of result ≡ source }
    {
        Session {
            source,
            offset: 0,
            left: 0,
            phase: Phase::Unopened,
        }
    }

    /// Returns the source.
    pub fn into_source(self) -> Source<R>
        ensures { result ≡ source_of self }
    {
        let Session {
            source,
            offset: _,
            left: _,
            phase: _,
        } = self;
        source
    }

    /// The number of bytes of the segment's data that were not given yet.
    ///
    /// A stop does not change it.
    #[inline(always)]
    pub fn left(&self) -> u64
        ensures left { result ≡ left_of self.now }
        // Once it is 0, the next message may be read.
        ensures may_read { IsTrue (is_opened self.now) → result ≡ 0 → IsTrue (may_read self.now) }
    {
        self.left
    }

    /// The number of bytes given, which is the offset of the next byte.
    #[inline(always)]
    pub fn given(&self) -> u64
        ensures { result ≡ given_by (source_of self.now) }
    {
        self.source.given()
    }

    /// The number of bytes that were taken from the reader and not given.
    #[inline(always)]
    pub fn ahead(&self) -> usize
        ensures { result ≡ length (window_of (source_of self.now)) }
    {
        self.source.window().len()
    }

    /// Whether the next call may have to wait for the reader.
    ///
    /// It returns `false` only if the available bytes are enough for that call, or after a stop.
    /// After a stop nothing is read.
    pub fn may_wait(&self) -> bool
        ensures few { IsTrue result → length (window_of (source_of self.now)) < window_size }
        ensures data { IsTrue result → 0 < left_of self.now → data_in R.state self.now ≡ [] }
        ensures stopped { (stop : _) → HasStopped self.now stop → result ≡ false }
        // If it need not wait, the bytes at hand are enough for what comes next.
        ensures contact { IsTrue (may_open self.now) → result ≡ false
            → HasEnoughForContact R.state self.now }
        ensures here { (history : List ℕ) → IsSessionAt R.state self.now history → result ≡ false
            → HasEnoughForNext R.state self.now }
    {
        if let Phase::Stopped(_) = self.phase {
            return false;
        }
        if self.left > 0 {
            return self.source.front().is_empty();
        }
        let mut front = [0; FRONT];
        let count = self.source.peek(&mut front);
        // The window is never full here. Before `open` it is empty (`may_open`), and later
        // `IsSessionAt` says so. The clause `few` assumes neither, so the window is tested.
        if let Phase::Unopened = self.phase {
            return !has_contact(&front[..count]) && self.source.window().len() < WINDOW;
        }
        !has_head(&front[..count]) && self.source.window().len() < WINDOW
    }

    /// Reads the contact header (RFC 9174 section 4.2).
    ///
    /// It is called once, before all else. A fault of the contact header has the offset 0.
    #[tactic(auto, using(crate::proofs::Sessions::contact_came, crate::proofs::Sessions::contact_refused, crate::proofs::Sessions::opens_live))]
    pub fn open(&mut self) -> Result<Contact, Stop>
        requires { IsTrue (may_open self.old) }
        ensures stops_with { IfErr result (HasStopped self.new) }
        ensures left { IfErr result (λ _. left_of self.new ≡ left_of self.old) }
        ensures gives { AfterOpen R.state self.old self.new result }
        ensures opened { IsTrue (is_opened self.new) }
        ensures may_read { IsTrue (may_read self.new) }
        // If enough bytes are at hand, nothing is read.
        ensures unread { HasEnoughForContact R.state self.old
            → reach R.state (source_of self.new) ≡ reach R.state (source_of self.old) }
    {
        match contact(&mut self.source) {
            Ok(contact) => {
                self.phase = Phase::Reading;
                Ok(contact)
            }
            Err(halt) => Err(self.stop_at(0, halt)),
        }
    }

    /// Reads the next message into `message`, and returns the offset of its type byte.
    ///
    /// Only the head of a segment is read. If the stream ends between two messages, it returns
    /// `None` at the end, and again on each later call. If it returns no offset, `message` may hold
    /// anything.
    ///
    /// It may be called when the contact header and all data of the message before have been given.
    /// It may also be called after a stop: then it returns that stop again, and reads nothing.
    #[inline(always)]
    pub fn next(&mut self, message: &mut MessageBuffer) -> Result<Option<u64>, Stop>
        requires { IsTrue (may_read self.old) }
        ensures { ReadsNext R.state self.old self.new message.new result }
    {
        if let Some(offset) = self.next_here(message) {
            return Ok(Some(offset));
        }
        match self.next_ahead(message) {
            Some(offset) => Ok(Some(offset)),
            None => self.next_fields(message),
        }
    }

    /// The numbers of the frequent head (see [`plain`]) that begins the window, and its length.
    ///
    /// It is `None` if the window begins with no such head, and after a stop.
    #[inline(always)]
    fn head_here(&self) -> Option<(Fields, usize)>
        ensures head { IfSome result (λ head. HasPlainHead (window_of self.now.source) head.0 head.1) }
        // If the input has ended between two messages, the window is empty.
        ensures again { HasEndedBetween self.now → result ≡ None }
        ensures stopped { (stop : _) → HasStopped self.now stop → result ≡ None }
    {
        match self.phase {
            Phase::Stopped(_) => None,
            _ => plain(self.source.window()),
        }
    }

    /// Gives the next message if its head is frequent and lies whole in the window. Returns the
    /// offset of its type byte.
    ///
    /// A head is frequent if it has no node ID and no item, and shows no fault. The call does what
    /// [`Session::next`] does for such a head, and does not read from the reader. Without such a
    /// head, and after a stop, it returns `None` and gives nothing.
    #[inline(always)]
    pub fn next_here(&mut self, message: &mut MessageBuffer) -> Option<u64>
        requires { IsTrue (may_read self.old) }
        ensures none { result ≡ None → (self.new ≡ self.old) × (message.new ≡ message.old) }
        ensures reader { reader_of (source_of self.new) ≡ reader_of (source_of self.old) }
        ensures gives { (history : List ℕ) → IsSessionAt R.state self.old history
            → IfSome result (λ offset.
            GivenHead R.state self.old self.new history offset (message_of message.new)) }
        ensures totals { IfSome result (λ offset. IfSegmentItemsHaveTotals message.new) }
        ensures opened { IsTrue (is_opened self.new) }
        ensures again { HasEndedBetween self.old → result ≡ None }
        ensures stopped { (stop : _) → HasStopped self.old stop → result ≡ None }
        ensures unread { reach R.state (source_of self.new) ≡ reach R.state (source_of self.old) }
    {
        let Some((fields, size)) = self.head_here() else {
            return None;
        };
        let offset = self.source.given();
        self.source.give(size);
        message.set(fields);
        self.offset = offset;
        self.left = message.data_length();
        Some(offset)
    }

    /// Gives the next message if the window is empty, the message's data is longer than a window,
    /// and its frequent head (see [`Session::next_here`]) lies whole in the reader's own buffer.
    ///
    /// The call does what [`Session::next`] does for such a message, and does not read from the
    /// reader. In any other case, and after a stop, it returns `None` and gives nothing.
    /// [`Session::next_fields`] would first fill the window, and so copy data that the caller can
    /// take in place.
    #[tactic(auto, using(link_io::proofs::Sources::front_ended))]
    #[cold]
    #[inline(never)]
    pub fn next_ahead(&mut self, message: &mut MessageBuffer) -> Option<u64>
        requires { IsTrue (may_read self.old) }
        ensures none { result ≡ None → (self.new ≡ self.old) × (message.new ≡ message.old) }
        ensures gives { (history : List ℕ) → IsSessionAt R.state self.old history
            → IfSome result (λ offset.
            GivenHead R.state self.old self.new history offset (message_of message.new)) }
        ensures totals { IfSome result (λ offset. IfSegmentItemsHaveTotals message.new) }
        ensures opened { IsTrue (is_opened self.new) }
        ensures again { HasEndedBetween self.old → result ≡ None }
        ensures stopped { (stop : _) → HasStopped self.old stop → result ≡ None }
        ensures unread { reach R.state (source_of self.new) ≡ reach R.state (source_of self.old) }
    {
        match self.phase {
            Phase::Reading if self.source.window().is_empty() => (),
            _ => return None,
        }
        let Some((fields, size)) = plain(self.source.front()) else {
            return None;
        };
        if fields.data_length() <= WINDOW as u64 {
            return None;
        }
        let offset = self.source.given();
        self.source.give_front(size);
        message.set(fields);
        self.offset = offset;
        self.left = message.data_length();
        Some(offset)
    }

    /// [`Session::next`] for any head, read field by field. Where the window ends, it reads from
    /// the reader.
    #[cold]
    #[inline(never)]
    pub fn next_fields(&mut self, message: &mut MessageBuffer) -> Result<Option<u64>, Stop>
        requires { IsTrue (may_read self.old) }
        ensures reads { ReadsNext R.state self.old self.new message.new result }
        // If enough bytes are at hand, nothing is read.
        ensures unread { (history : List ℕ) → IsSessionAt R.state self.old history
            → HasEnoughForNext R.state self.old
            → reach R.state (source_of self.new) ≡ reach R.state (source_of self.old) }
    {
        if let Phase::Stopped(stop) = self.phase {
            return Err(stop);
        }
        let offset = self.source.given();
        let kind = match kind(&mut self.source) {
            Ok(Some(kind)) => kind,
            Ok(None) => return Ok(None),
            Err(fault) => return Err(self.stop_at(offset, Halt::Io(fault))),
        };
        match fields(&mut self.source, kind, message) {
            Ok(()) => {
                self.offset = offset;
                self.left = message.data_length();
                Ok(Some(offset))
            }
            Err(halt) => Err(self.stop_at(offset, halt)),
        }
    }

    /// Stops the session in the message that begins at `offset`, and returns the stop.
    #[cold]
    #[inline(never)]
    fn stop_at(&mut self, offset: u64, halt: Halt) -> Stop
        ensures stop { result ≡ stop_at offset halt }
        ensures state { self.new ≡ record self.old { phase = phase.Stopped result } }
    {
        let stop = halt.at(offset);
        self.phase = Phase::Stopped(stop);
        stop
    }
}

/// The calls for messages that lie whole in the window.
impl<R: InDevice> Session<R> {
    ghost use Rattle.std.specs.Prelude.{◌≡◌, ◌+◌, ◌<◌, ◌≤◌, ℕ, List, length, IfSome, None, IsTrue};
    ghost use Rattle.link_io.specs.Source.{reader_of, window_of, reach};
    ghost use Rattle.link_wire.specs.Message.{data_length};
    ghost use Rattle.link_wire.specs.MessageBuffer.{message_of, message_with, IfSegmentItemsHaveTotals};
    ghost use Rattle.link_wire.specs.Plain.{HasPlainHead};
    ghost use Rattle.link_wire.specs.Session.{source_of, may_read, is_opened, HasEndedBetween, HasStopped, IsSessionAt};
    ghost use Rattle.link_wire.specs.Whole.{GivenWholeMessage, PassedQuietMessages};

    /// Gives the next message with its data, if its head is frequent (see [`Session::next_here`])
    /// and head and data lie whole in the window. Returns the offset of its type byte.
    ///
    /// Without such a message, and after a stop, it returns `None` and gives nothing. It does not
    /// read from the reader.
    #[inline(always)]
    pub fn next_whole(&mut self, message: &mut MessageBuffer) -> Option<u64>
        requires { IsTrue (may_read self.old) }
        ensures none { result ≡ None → (self.new ≡ self.old) × (message.new ≡ message.old) }
        ensures reader { reader_of (source_of self.new) ≡ reader_of (source_of self.old) }
        ensures may_read { IsTrue (may_read self.new) }
        ensures gives { (history : List ℕ) → IsSessionAt R.state self.old history
            → IfSome result (λ offset.
            GivenWholeMessage R.state self.old self.new history offset (message_of message.new)) }
        ensures totals { IfSome result (λ offset. IfSegmentItemsHaveTotals message.new) }
        ensures opened { IsTrue (is_opened self.new) }
        ensures again { HasEndedBetween self.old → result ≡ None }
        ensures stopped { (stop : _) → HasStopped self.old stop → result ≡ None }
        ensures shrinks { IfSome result (λ offset.
            length (window_of (source_of self.new)) < length (window_of (source_of self.old))) }
        ensures unread { reach R.state (source_of self.new) ≡ reach R.state (source_of self.old) }
    {
        let window = self.source.window();
        let Some((fields, size)) = self.head_here() else {
            return None;
        };
        let content = fields.data_length();
        if content > (window.len() - size) as u64 {
            return None;
        }
        let offset = self.source.given();
        // The data is given too. So `self.left` stays 0, and `self.offset` is not needed.
        self.source.give(size + content as usize);
        message.set(fields);
        Some(offset)
    }

    /// Passes over the quiet messages that lie whole at the start of the window, and returns how
    /// many bytes it has passed. It returns 0 if the window begins with another message or with a
    /// part of a message, and after a stop.
    ///
    /// A quiet message has no data, and it changes neither the order nor the transfers of its
    /// sender. The call does not read from the reader.
    #[tactic(auto, using(link_io::proofs::Sources::ended_window))]
    #[inline(always)]
    pub fn pass_quiet(&mut self) -> usize
        requires { IsTrue (may_read self.old) }
        ensures none { result ≡ 0 → self.new ≡ self.old }
        ensures reader { reader_of (source_of self.new) ≡ reader_of (source_of self.old) }
        ensures may_read { IsTrue (may_read self.new) }
        ensures gives { (history : List ℕ) → IsSessionAt R.state self.old history
            → PassedQuietMessages R.state self.old self.new history result }
        ensures opened { IsTrue (is_opened self.new) }
        ensures again { HasEndedBetween self.old → result ≡ 0 }
        ensures stopped { (stop : _) → HasStopped self.old stop → result ≡ 0 }
        ensures unread { reach R.state (source_of self.new) ≡ reach R.state (source_of self.old) }
    {
        if let Phase::Stopped(_) = self.phase {
            return 0;
        }
        let count = quiet(self.source.window());
        self.source.give(count);
        count
    }
}

/// The calls for the data of segments.
impl<R: InDevice> Session<R> {
    ghost use Rattle.std.specs.Prelude.{◌≡◌, ◌<◌, ◌≤◌, ℕ, List, length, take, drop, IfOk, IfErr, Ok, Err, IsTrue};
    ghost use Rattle.link_io.specs.Source.{reach};
    ghost use Rattle.link_wire.specs.Session.{source_of, is_opened, IsSessionAt, HasEnoughForNext, HasStopped, left_of, data_in, PassedBytes, AfterData, LoadsData};
    ghost use Rattle.link_wire.specs.declared.session.Phase.TheVariants as phase;

    /// Copies the next bytes of the segment's data, after at most one read, and returns how many.
    ///
    /// It returns 0 only if no data is left, or for an empty slice. After a stop it returns that
    /// stop again, and reads nothing. If the input ends inside the data, the fault is
    /// [`WireFault::Truncated`], at the offset of the segment.
    pub fn data(&mut self, buffer: &mut [u8]) -> Result<usize, Stop>
        ensures bound { IfOk result (λ n. n ≤ length buffer.new) }
        // An error is the stop with which the session has stopped.
        ensures stops_with { IfErr result (HasStopped self.new) }
        ensures left { IfErr result (λ _. left_of self.new ≡ left_of self.old) }
        ensures gives { (history : List ℕ) → IsSessionAt R.state self.old history
            → AfterData R.state self.old self.new history buffer.new result }
        ensures opened { IsTrue (is_opened self.old) → IsTrue (is_opened self.new) }
        // If no data is left and the session has not stopped, it returns 0 and changes nothing.
        ensures none_left { left_of self.old ≡ 0 → ((stop : _) → HasStopped self.old stop → ⊥)
            → (self.new ≡ self.old) × (result ≡ Ok 0) }
        ensures stopped { (stop : _) → HasStopped self.old stop
            → (self.new ≡ self.old) × (result ≡ Err stop) }
        // With an empty slice, it changes nothing.
        ensures no_room { length buffer.old ≡ 0 → self.new ≡ self.old }
        ensures rest { IfOk result (λ n. drop n buffer.new ≡ drop n buffer.old) }
    {
        if buffer.is_empty() {
            return self.no_data();
        }
        let ready = self.load()?;
        if ready == 0 {
            return Ok(0);
        }
        let count = ready.min(buffer.len());
        self.copy(&mut buffer[..count]);
        Ok(count)
    }

    /// Returns what [`Session::data`] returns for an empty slice: 0, or the stop of a session that
    /// has stopped.
    fn no_data(&self) -> Result<usize, Stop>
        ensures size { IfOk result (λ n. n ≡ 0) }
        ensures stops_with { IfErr result (HasStopped self.now) }
        ensures stopped { (stop : _) → HasStopped self.now stop → result ≡ Err stop }
        ensures going { ((stop : _) → HasStopped self.now stop → ⊥) → result ≡ Ok 0 }
    {
        match self.phase {
            Phase::Stopped(stop) => Err(stop),
            _ => Ok(0),
        }
    }

    /// Fills the slice with the next data at hand, and gives that data.
    ///
    /// The slice is not longer than the data at hand.
    fn copy(&mut self, part: &mut [u8])
        requires { length part.old ≤ length (data_in R.state self.old) }
        ensures opened { is_opened self.new ≡ is_opened self.old }
        ensures gives { (history : List ℕ) → IsSessionAt R.state self.old history
            → PassedBytes R.state self.old self.new history part.new }
    {
        let count = part.len();
        part.copy_from_slice(&self.loaded()[..count]);
        self.pass(count);
    }

    /// Makes data of the segment ready, and returns how many bytes of it are at hand.
    ///
    /// It reads once if data is left and none is at hand. It returns 0 only if no data is left.
    /// After a stop it returns that stop again, and reads nothing. If the input ends inside the
    /// data, the fault is [`WireFault::Truncated`], at the offset of the segment.
    #[inline(always)]
    pub fn load(&mut self) -> Result<usize, Stop>
        ensures loads { LoadsData R.state self.old self.new result }
        // If data is at hand, nothing is read.
        ensures unread { HasEnoughForNext R.state self.old
            → reach R.state (source_of self.new) ≡ reach R.state (source_of self.old) }
    {
        let loaded = self.loaded().len();
        match self.phase {
            Phase::Reading if loaded > 0 => Ok(loaded),
            _ => self.load_on(),
        }
    }

    /// The rest of [`Session::load`], which calls it if no data is at hand, or after a stop.
    ///
    /// After a stop, it returns that stop again. If no data is left, it returns 0. Otherwise it
    /// reads once, and returns how many bytes of the segment's data are then at hand.
    #[cold]
    #[inline(never)]
    fn load_on(&mut self) -> Result<usize, Stop>
        ensures loads { LoadsData R.state self.old self.new result }
        // If enough bytes are at hand for what comes next, nothing is read.
        ensures unread { HasEnoughForNext R.state self.old
            → reach R.state (source_of self.new) ≡ reach R.state (source_of self.old) }
    {
        if let Phase::Stopped(stop) = self.phase {
            return Err(stop);
        }
        if self.left == 0 {
            return Ok(0);
        }
        match self.source.ready_front() {
            Ok(0) => Err(self.stop_at(self.offset, Halt::Wire(WireFault::Truncated))),
            Ok(ready) => Ok(self.left.min(ready as u64) as usize),
            Err(fault) => Err(self.stop_at(self.offset, Halt::Io(fault))),
        }
    }

    /// The segment's data that is at hand.
    #[inline(always)]
    pub fn loaded(&self) -> &[u8]
        ensures data { result.now ≡ data_in R.state self.now }
    {
        let front = self.source.front();
        &front[..self.left.min(front.len() as u64) as usize]
    }

    /// Gives the next `count` bytes of the segment's data, which the caller has looked at in place.
    ///
    /// [`Session::loaded`] shows them.
    #[inline(always)]
    pub fn pass(&mut self, count: usize)
        requires { count ≤ length (data_in R.state self.old) }
        ensures opened { is_opened self.new ≡ is_opened self.old }
        ensures gives { (history : List ℕ) → IsSessionAt R.state self.old history
            → PassedBytes R.state self.old self.new history (take count (data_in R.state self.old)) }
        ensures none { count ≡ 0 → self.new ≡ self.old }
        ensures stopped { (stop : _) → HasStopped self.old stop → HasStopped self.new stop }
        ensures unread { reach R.state (source_of self.new) ≡ reach R.state (source_of self.old) }
    {
        self.source.give_front(count);
        self.left -= count as u64;
    }
}

mod inner;
