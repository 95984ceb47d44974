//! The input of a session: the bytes of a reader in order, up to the end or the first fault.
//!
//! A source *gives* each byte of its reader once. It *takes* bytes into its window, at most
//! [`WINDOW`] of them with each read. [`Source::some`] and [`Source::fill`] copy the bytes that
//! they give. [`Source::window`] shows the bytes of the window in place, and [`Source::give`] gives
//! them. [`Source::front`] also shows bytes that the reader holds, and [`Source::give_front`] gives
//! those without taking them into the window.

ghost use Rattle.std.specs.Prelude.{◌≡◌, ◌+◌, ◌-◌, ◌^◌, ◌<◌, ◌≤◌, true, length, min, take, slice_range, IfOk, MatchResult};
ghost use Rattle.link_io.specs.Bytes.{AreBytes};
ghost use Rattle.link_io.specs.Device.{BeginsWith};
ghost use Rattle.std.specs.Io.KnownBytes.{ReadConsumes};

use crate::device::{DeviceFault, InDevice};
use crate::fault::IoFault;
use crate::text::copy_into;

/// The most bytes that a source takes from its reader: offsets are counted in 63 bits.
pub const INPUT_LIMIT: u64 = (1 << 63) - 1;

/// The size of the window, and the most bytes that one read brings.
pub const WINDOW: usize = 8192;

/// How much of its buffer a [`Source::fill`] has filled.
#[derive(Clone, Copy, Debug, PartialEq, Eq)]
pub enum Filled {
    /// The whole buffer, with the next bytes.
    Whole,
    /// The input ended after this many bytes, fewer than the buffer has room for.
    ///
    /// They are at the start of the buffer.
    Ended(usize),
}

/// Whether the reader may have more bytes.
#[derive(Clone, Copy, Debug, PartialEq, Eq)]
enum Flow {
    Open,
    Ended,
    Failed(IoFault),
}

/// A reader that is read ahead; each of its bytes is given once and in order.
#[derive(Drop)]
pub struct Source<R> {
    reader: R,
    /// The bytes from `start` to `end` were taken and not given.
    window: [u8; WINDOW],
    start: usize,
    end: usize,
    /// The number of bytes given.
    given: u64,
    flow: Flow,
    ghost ordered: { start ≤ end },
    ghost room: { end ≤ 8192 },
    ghost within: { given + (end - start) < 2 ^ 63 },
}

impl<R: InDevice> Source<R> {
    ghost use Rattle.std.specs.Prelude.{◌≡◌, ◌+◌, ◌-◌, ◌<◌, ◌≤◌, ◌==◌, true, false, [], length, take, drop, IfOk, IfErr, OnOk, MatchResult, IsTrue};
    ghost use Rattle.link_io.specs.Limits.{longest_input, window_size};
    ghost use Rattle.link_io.specs.Source.{IsSourceAt, is_fresh, reader_of, given_by, taken_by, window_of, held_from, at_hand, front_of, ahead, reach, GivesAtHand, IsLive, IsOver, HasEnded, HasFailed, Takes, TakesThenStops, ReadiedWindow, AfterReady, AfterReadyFront};

    /// Makes a source that has taken nothing.
    pub fn new(reader: R) -> Source<R>
        requires { (R.state reader).failed ≡ false }
        ensures reader { reader_of result ≡ reader }
        ensures start { IsSourceAt result [] }
        ensures fresh { IsTrue (is_fresh result) }
    {
        Source {
            reader,
            window: [0; WINDOW],
            start: 0,
            end: 0,
            given: 0,
            flow: Flow::Open,
        }
    }

    /// Returns the reader.
    ///
    /// Bytes that were taken and not given are lost.
    pub fn into_reader(self) -> R
        ensures { result ≡ reader_of self }
    {
        let Source {
            reader,
            window: _,
            start: _,
            end: _,
            given: _,
            flow: _,
        } = self;
        reader
    }

    /// The number of bytes given, which is the offset of the next byte.
    #[inline(always)]
    pub fn given(&self) -> u64
        ensures { result ≡ given_by self.now }
    {
        self.given
    }

    /// The number of bytes taken from the reader, at most [`WINDOW`] more than were given.
    pub fn taken(&self) -> u64
        ensures taken { result ≡ taken_by self.now }
        ensures lag { result ≤ given_by self.now + WINDOW }
    {
        self.given + (self.end - self.start) as u64
    }

    /// Copies the next available bytes without giving them, and returns how many it copied.
    ///
    /// These are the bytes of the window, and then those that the reader holds, up to the limit of
    /// an input. It copies as many as there is room for. The contract does not promise how many.
    pub fn peek(&self, bytes: &mut [u8]) -> usize
        ensures fits { result ≤ length bytes.old }
        ensures size { length bytes.new ≡ length bytes.old }
        ensures here { BeginsWith (Some (at_hand R.state self.now)) (take result bytes.new) }
        ensures next { BeginsWith (ahead R.state self.now) (take result bytes.new) }
        ensures rest { drop result bytes.new ≡ drop result bytes.old }
    {
        let window = self.window();
        if window.len() >= bytes.len() {
            return copy_into(bytes, 0, &window[..bytes.len()]);
        }
        let at = copy_into(bytes, 0, window);
        let held = self.held_ahead();
        let count = held.len().min(bytes.len() - at);
        copy_into(bytes, at, &held[..count])
    }

    /// The bytes at hand after the window: what the reader holds, up to the limit of an input.
    /// There are none after the end or a fault.
    fn held_ahead(&self) -> &[u8]
        ensures held { result.now ≡ held_from self.now.flow (longest_input - taken_by self.now)
            (R.state (reader_of self.now)).held }
        ensures next { BeginsWith (R.state (reader_of self.now)).left result.now }
    {
        match self.flow {
            Flow::Open => up_to(self.reader.held(), INPUT_LIMIT - self.taken()),
            _ => &[],
        }
    }

    /// The window: the bytes that were taken and not given.
    #[inline(always)]
    pub fn window(&self) -> &[u8]
        ensures window { result.now ≡ window_of self.now }
        ensures bytes { AreBytes result.now }
    {
        subslice(&self.window, self.start, self.end)
    }

    /// The bytes of the window, or, if the window is empty, the bytes that the reader holds.
    ///
    /// These bytes come next, and lie in one piece. What the reader holds is not taken yet.
    #[inline(always)]
    pub fn front(&self) -> &[u8]
        ensures front { result.now ≡ front_of R.state self.now }
        ensures bytes { AreBytes result.now }
        ensures next { BeginsWith (ahead R.state self.now) result.now }
    {
        if self.start < self.end {
            return self.window();
        }
        self.held_front()
    }

    /// Returns what [`Source::front`] returns for an empty window: the bytes that the reader holds,
    /// up to the limit of an input. There are none after the end or a fault.
    #[inline(always)]
    fn held_front(&self) -> &[u8]
        requires { self.now.start ≡ self.now.end }
        ensures front { result.now ≡ front_of R.state self.now }
        ensures bytes { AreBytes result.now }
        ensures next { BeginsWith (ahead R.state self.now) result.now }
    {
        match self.flow {
            Flow::Open => up_to(self.reader.held(), INPUT_LIMIT - self.given),
            _ => &[],
        }
    }

    /// Gives the first `count` bytes of [`Source::front`].
    #[inline(always)]
    pub fn give_front(&mut self, count: usize)
        requires { count ≤ length (front_of R.state self.old) }
        ensures takes { Takes R.state self.old self.new (take count (front_of R.state self.old)) }
        ensures live { IsLive R.state self.old → IsLive R.state self.new }
        ensures none { count ≡ 0 → self.new ≡ self.old }
        ensures unread { reach R.state self.new ≡ reach R.state self.old }
    {
        if self.start < self.end {
            return self.give(count);
        }
        if count > 0 {
            self.give_held(count);
        }
    }

    /// Gives the first `size` bytes that the reader holds. The window is empty.
    #[inline(always)]
    fn give_held(&mut self, size: usize)
        requires empty { self.old.start ≡ self.old.end }
        requires some { 0 < size }
        requires held { size ≤ length (front_of R.state self.old) }
        ensures takes { Takes R.state self.old self.new (take size (front_of R.state self.old)) }
        ensures live { IsLive R.state self.old → IsLive R.state self.new }
        ensures unread { reach R.state self.new ≡ reach R.state self.old }
    {
        // Only the proof needs this call. Its contract says that each number of the front is a
        // byte, which `takes` needs.
        let _front = self.front();
        self.reader.pass_held(size);
        self.given += size as u64;
    }

    /// Gives the first `count` bytes of the window, which the caller has looked at in place.
    #[inline(always)]
    pub fn give(&mut self, count: usize)
        requires { count ≤ length (window_of self.old) }
        ensures takes { Takes R.state self.old self.new (take count (window_of self.old)) }
        ensures live { IsLive R.state self.old → IsLive R.state self.new }
        ensures rest { window_of self.new ≡ drop count (window_of self.old) }
        ensures reader { reader_of self.new ≡ reader_of self.old }
        ensures none { count ≡ 0 → self.new ≡ self.old }
        ensures unread { reach R.state self.new ≡ reach R.state self.old }
        ensures here { GivesAtHand R.state self.old self.new
            (take count (window_of self.old)) }
    {
        // Only the proof needs this call. Its contract says that each number of the window is a
        // byte, which `takes` needs.
        let _window = self.window();
        self.start += count;
        self.given += count as u64;
    }

    /// Reads once if the window is empty, and returns how many bytes the window then has.
    ///
    /// It returns 0 only at the end of the input. After the end it returns 0 again, and after a
    /// fault it returns that fault again. In both cases it does not read.
    #[inline(always)]
    pub fn ready(&mut self) -> Result<usize, IoFault>
        ensures size { IfOk result (λ n. n ≡ length (window_of self.new)) }
        ensures gives { IsLive R.state self.old → AfterReady R.state self.old self.new result }
        ensures kept { 0 < length (window_of self.old)
            → (self.new ≡ self.old) × (result ≡ Ok (length (window_of self.old))) }
        ensures ended { HasEnded self.old → (self.new ≡ self.old) × (result ≡ Ok 0) }
        ensures failed { (fault : _) → HasFailed self.old fault
            → (self.new ≡ self.old) × (result ≡ Err fault) }
        ensures here { 0 < length (at_hand R.state self.old)
            → GivesAtHand R.state self.old self.new [] }
    {
        if self.start < self.end {
            return Ok(self.end - self.start);
        }
        self.read_on(false)
    }

    /// Reads once if nothing is at hand, and returns how many bytes [`Source::front`] then shows.
    ///
    /// As for [`Source::ready`], 0 means the end of the input. If the reader has a buffer, the read
    /// may take only the first byte into the window ([`InDevice::read_first`]). The front then
    /// shows this byte. After it was given, the front shows the bytes that the reader holds.
    #[inline(always)]
    pub fn ready_front(&mut self) -> Result<usize, IoFault>
        ensures size { IfOk result (λ n. n ≡ length (front_of R.state self.new)) }
        ensures gives { IsLive R.state self.old → AfterReadyFront R.state self.old self.new result }
        ensures kept { 0 < length (front_of R.state self.old)
            → (self.new ≡ self.old) × (result ≡ Ok (length (front_of R.state self.old))) }
        ensures ended { HasEnded self.old → (self.new ≡ self.old) × (result ≡ Ok 0) }
        ensures failed { (fault : _) → HasFailed self.old fault
            → (self.new ≡ self.old) × (result ≡ Err fault) }
        ensures here { 0 < length (at_hand R.state self.old)
            → GivesAtHand R.state self.old self.new [] }
    {
        let ready = self.front().len();
        if ready > 0 {
            return Ok(ready);
        }
        self.read_on(true)
    }

    /// Takes bytes at hand into the empty window, as many as fit. If there are none, reads once.
    ///
    /// Returns how many bytes the window then has. After the end or a fault, it does not read.
    /// [`Source::ready`] passes false as `first`. [`Source::ready_front`] passes true, so the read
    /// may take only the first byte of what the reader has read ([`InDevice::read_first`]).
    #[cold]
    #[inline(never)]
    fn read_on(&mut self, first: bool) -> Result<usize, IoFault>
        requires { self.old.start ≡ self.old.end }
        ensures size { IfOk result (λ n. n ≡ length (window_of self.new)) }
        ensures gives { IsLive R.state self.old → AfterReady R.state self.old self.new result }
        ensures ended { HasEnded self.old → (self.new ≡ self.old) × (result ≡ Ok 0) }
        ensures failed { (fault : _) → HasFailed self.old fault
            → (self.new ≡ self.old) × (result ≡ Err fault) }
        ensures over { IfOk result (λ n. n ≡ 0 → HasEnded self.new) }
        ensures here { 0 < length (at_hand R.state self.old)
            → GivesAtHand R.state self.old self.new [] }
    {
        let held = self.held_front().len();
        if held > 0 {
            return Ok(self.take_held());
        }
        match self.flow {
            Flow::Open => self.read(first),
            Flow::Ended => Ok(0),
            Flow::Failed(fault) => Err(fault),
        }
    }

    /// Takes what the reader holds into an empty window, and returns how many bytes. This is not a
    /// read, so it does not have to wait.
    fn take_held(&mut self) -> usize
        requires empty { self.old.start ≡ self.old.end }
        requires some { 0 < length (front_of R.state self.old) }
        ensures ready { ReadiedWindow R.state self.old self.new result }
        ensures some { 0 < result }
        ensures here { GivesAtHand R.state self.old self.new [] }
    {
        let held = up_to(self.reader.held(), INPUT_LIMIT - self.given);
        let count = copy_front(&mut self.window, held);
        self.reader.pass_held(count);
        self.start = 0;
        self.end = count;
        count
    }

    /// Reads once, into an empty window, and returns how many bytes. It fails if the reader fails,
    /// or if a byte that was read is past the limit of an input.
    ///
    /// If `first` is true, a reader with a buffer may return only the first byte, and hold the
    /// others.
    fn read(&mut self, first: bool) -> Result<usize, IoFault>
        requires open { self.old.flow ≡ Flow.Open }
        requires empty { self.old.start ≡ self.old.end }
        ensures gives { AfterReady R.state self.old self.new result }
        ensures size { IfOk result (λ n. n ≡ length (window_of self.new)) }
    {
        self.start = 0;
        self.end = 0;
        match read_ahead(&mut self.reader, &mut self.window, first) {
            Ok(0) => {
                self.flow = Flow::Ended;
                Ok(0)
            }
            Ok(n) if n as u64 > INPUT_LIMIT - self.given => {
                self.flow = Flow::Failed(IoFault::InputTooLong);
                Err(IoFault::InputTooLong)
            }
            Ok(n) => {
                self.end = n;
                Ok(n)
            }
            Err(_) => {
                self.flow = Flow::Failed(IoFault::Read);
                Err(IoFault::Read)
            }
        }
    }
}

/// The calls that copy bytes.
impl<R: InDevice> Source<R> {
    ghost use Rattle.std.specs.Prelude.{◌≡◌, ◌+◌, ◌-◌, ◌<◌, ◌≤◌, Ok, [], length, take, drop, IfOk};
    ghost use Rattle.link_io.specs.Source.{reader_of, window_of, at_hand, reach, GivesAtHand, IsLive, HasEnded, HasFailed, Takes, AfterGivingSome, FillsSlice};

    /// Gives the next bytes, after at most one read, and returns how many.
    ///
    /// It returns 0 only at the end of the input, or for an empty buffer. After the end it returns
    /// 0 again, and after a fault it returns that fault again. In both cases it does not read.
    #[inline]
    pub fn some(&mut self, buffer: &mut [u8]) -> Result<usize, IoFault>
        ensures bound { IfOk result (λ n. n ≤ length buffer.new) }
        ensures gives { IsLive R.state self.old
            → AfterGivingSome R.state self.old self.new buffer.new result }
        ensures ended { HasEnded self.old → (self.new ≡ self.old) × (result ≡ Ok 0) }
        ensures failed { (fault : _) → HasFailed self.old fault
            → (self.new ≡ self.old) × (result ≡ Err fault) }
        ensures nothing { length buffer.old ≡ 0 → self.new ≡ self.old }
        ensures rest { IfOk result (λ n. drop n buffer.new ≡ drop n buffer.old) }
        ensures untouched { (fault : _) → HasFailed self.old fault → buffer.new ≡ buffer.old }
        ensures unread { 0 < length (at_hand R.state self.old)
            → reach R.state self.new ≡ reach R.state self.old }
        ensures here { 0 < length (at_hand R.state self.old)
            → IfOk result (λ n. GivesAtHand R.state self.old self.new (take n buffer.new)) }
    {
        if let Flow::Failed(fault) = self.flow {
            return Err(fault);
        }
        if buffer.is_empty() {
            return Ok(0);
        }
        let ready = self.ready()?;
        if ready == 0 {
            return Ok(0);
        }
        let count = ready.min(buffer.len());
        self.copy(&mut buffer[..count]);
        Ok(count)
    }

    /// Fills the slice with the first bytes of the window, and gives them.
    #[inline(always)]
    fn copy(&mut self, part: &mut [u8])
        requires { length part.old ≤ length (window_of self.old) }
        ensures part { part.new ≡ take (length part.new) (window_of self.old) }
        ensures takes { Takes R.state self.old self.new part.new }
        ensures live { IsLive R.state self.old → IsLive R.state self.new }
        ensures here { GivesAtHand R.state self.old self.new part.new }
    {
        let count = part.len();
        part.copy_from_slice(&self.window()[..count]);
        self.give(count);
    }

    /// Fills the buffer with the next bytes. If fewer are left, they fill only the start of it.
    ///
    /// It may read several times. After the end it gives nothing, and after a fault it returns that
    /// fault again. In both cases it does not read.
    #[inline(always)]
    pub fn fill(&mut self, buffer: &mut [u8]) -> Result<Filled, IoFault>
        ensures fills { FillsSlice R.state self.old self.new buffer.old buffer.new result }
        // If enough bytes are at hand, nothing is read.
        ensures unread { length buffer.old ≤ length (at_hand R.state self.old)
            → reach R.state self.new ≡ reach R.state self.old }
        ensures here { length buffer.old ≤ length (at_hand R.state self.old)
            → result ≡ Ok Filled.Whole → GivesAtHand R.state self.old self.new buffer.new }
    {
        if buffer.len() <= self.end - self.start && !buffer.is_empty() {
            self.copy(buffer);
            return Ok(Filled::Whole);
        }
        self.fill_on(buffer)
    }

    /// Does [`Source::fill`] for an empty buffer, or if the window has fewer bytes than the buffer.
    #[inline(never)]
    fn fill_on(&mut self, buffer: &mut [u8]) -> Result<Filled, IoFault>
        ensures fills { FillsSlice R.state self.old self.new buffer.old buffer.new result }
        // If enough bytes are at hand, nothing is read.
        ensures unread { length buffer.old ≤ length (at_hand R.state self.old)
            → reach R.state self.new ≡ reach R.state self.old }
        ensures here { length buffer.old ≤ length (at_hand R.state self.old)
            → result ≡ Ok Filled.Whole → GivesAtHand R.state self.old self.new buffer.new }
    {
        if let Flow::Failed(fault) = self.flow {
            return Err(fault);
        }
        let mut at = 0;
        while at < buffer.len() {
            let n = self.some_from(buffer, at)?;
            if n == 0 {
                return Ok(Filled::Ended(at));
            }
            at += n;
        }
        Ok(Filled::Whole)
    }

    /// Does [`Source::some`] for the buffer from index `at` on. The result counts only the bytes
    /// from there on.
    #[inline]
    fn some_from(&mut self, buffer: &mut [u8], at: usize) -> Result<usize, IoFault>
        requires { at < length buffer.old }
        ensures before { take at buffer.new ≡ take at buffer.old }
        ensures bound { IfOk result (λ n. at + n ≤ length buffer.new) }
        ensures gives { IsLive R.state self.old
            → AfterGivingSome R.state self.old self.new (drop at buffer.new) result }
        ensures ended { HasEnded self.old → (self.new ≡ self.old) × (result ≡ Ok 0) }
        ensures failed { (fault : _) → HasFailed self.old fault
            → (self.new ≡ self.old) × (result ≡ Err fault) }
        ensures unread { 0 < length (at_hand R.state self.old)
            → reach R.state self.new ≡ reach R.state self.old }
        ensures here { 0 < length (at_hand R.state self.old)
            → IfOk result (λ n. GivesAtHand R.state self.old self.new
            (take n (drop at buffer.new))) }
    {
        self.some(&mut buffer[at..])
    }
}

/// Returns `window[start..end]`. The clause `bytes` adds that each number in it is a byte.
#[inline(always)]
fn subslice(window: &[u8], start: usize, end: usize) -> &[u8]
    requires ordered { start ≤ end }
    requires within { end ≤ length window.now }
    ensures slice { result.now ≡ slice_range window.now start end }
    ensures bytes { AreBytes result.now }
{
    &window[start..end]
}

/// The first bytes of a slice, at most `most` of them.
#[inline(always)]
fn up_to(bytes: &[u8], most: u64) -> &[u8]
    ensures first { result.now ≡ take most bytes.now }
    ensures bytes { AreBytes result.now }
{
    subslice(bytes, 0, most.min(bytes.len() as u64) as usize)
}

/// Copies `bytes` to the start of the window, as many as fit, and returns how many. `window` is the
/// whole window of a source.
fn copy_front(window: &mut [u8], bytes: &[u8]) -> usize
    requires { length window.old ≡ 8192 }
    ensures size { result ≡ min (length bytes.now) 8192 }
    ensures bytes { take result window.new ≡ take result bytes.now }
{
    let size = bytes.len().min(window.len());
    copy_into(window, 0, &bytes[..size])
}

/// Reads once, and returns how many bytes. `window` is the whole window of a source.
///
/// If `first` is false, this is [`InDevice::read`]. If `first` is true, it is
/// [`InDevice::read_first`].
fn read_ahead<R: InDevice>(
    reader: &mut R,
    window: &mut [u8],
    first: bool,
) -> Result<usize, DeviceFault>
    requires { length window.old ≡ 8192 }
    ensures bound { IfOk result (λ n. n ≤ length window.new) }
    ensures bytes { ReadConsumes (R.state reader.old).left
        (R.state reader.new).left result window.new }
    ensures failed { MatchResult result
        (λ _. (R.state reader.new).failed ≡ (R.state reader.old).failed)
        (λ _. (R.state reader.new).failed ≡ true) }
{
    if first {
        reader.read_first(window)
    } else {
        reader.read(window)
    }
}
