//! A reader in memory that holds bytes, which a run sees in place.

ghost use Rattle.std.specs.Prelude.{◌≡◌, ◌<◌, ◌≤◌, [], ◌++◌, length, take, Some, false};
ghost use Rattle.std.specs.Io.KnownBytes.{Consumes};

use link_wire::{DeviceFault, InDevice};

/// A reader of bytes in memory with a buffer over them, such as std's `BufReader` is.
///
/// The reader holds the bytes in its buffer. A read fills the buffer if it is empty.
#[derive(Drop)]
pub struct HoldingReader<'a> {
    held: &'a [u8],
    /// The bytes that are not in the buffer yet.
    below: &'a [u8],
    /// The most bytes that the buffer has.
    room: usize,
    per_call: usize,
    given: usize,
    passed: usize,
    ghost holds: { 0 < room },
    ghost moves: { 0 < per_call },
}

impl<'a> HoldingReader<'a> {
    /// A reader with an empty buffer for `room` bytes. A read gives at most `per_call` bytes.
    pub fn new(bytes: &'a [u8], room: usize, per_call: usize) -> HoldingReader<'a>
        requires room { 0 < room }
        requires moves { 0 < per_call }
        ensures state { ⟦<HoldingReader<'a> as InDevice>⟧.state result
            ≡ record { left = Some bytes.now; failed = false; held = [] } }
        ensures counted { (result.given ≡ 0) × (result.passed ≡ 0) }
    {
        HoldingReader {
            held: &[],
            below: bytes,
            room,
            per_call,
            given: 0,
            passed: 0,
        }
    }

    /// The number of bytes that reads gave.
    pub fn given(&self) -> usize
        ensures { result ≡ self.now.given }
    {
        self.given
    }

    /// The number of bytes that were passed over in the buffer.
    pub fn passed(&self) -> usize
        ensures { result ≡ self.now.passed }
    {
        self.passed
    }

    /// Fills the buffer if it is empty.
    fn refill(&mut self)
        ensures bytes { self.new.held.now ++ self.new.below.now
            ≡ self.old.held.now ++ self.old.below.now }
        ensures some { length self.new.held.now ≡ 0 → length self.new.below.now ≡ 0 }
        ensures pace { self.new.per_call ≡ self.old.per_call }
    {
        if self.held.is_empty() {
            let (held, below) = self.below.split_at(self.room.min(self.below.len()));
            self.held = held;
            self.below = below;
        }
    }

    /// Gives the first bytes of the buffer, at most `most` of them, and returns how many.
    fn give_held(&mut self, buffer: &mut [u8], most: usize) -> usize
        ensures bound { result ≤ length buffer.new }
        ensures bytes { self.old.held.now ≡ take result buffer.new ++ self.new.held.now }
        ensures below { self.new.below.now ≡ self.old.below.now }
        ensures some { 0 < most → 0 < length buffer.new → 0 < length self.old.held.now
            → 0 < result }
    {
        let count = most.min(buffer.len()).min(self.held.len());
        let (given, held) = self.held.split_at(count);
        buffer[..count].copy_from_slice(given);
        self.held = held;
        self.given = self.given.saturating_add(count);
        count
    }

    /// Gives the next bytes, at most `most` of them, and returns how many.
    fn give(&mut self, buffer: &mut [u8], most: usize) -> usize
        requires { 0 < most }
        ensures bound { result ≤ length buffer.new }
        ensures bytes { Consumes (Some (self.old.held.now ++ self.old.below.now))
            (Some (self.new.held.now ++ self.new.below.now)) (take result buffer.new) }
        ensures end { result ≡ 0 → 0 < length buffer.new
            → self.new.held.now ++ self.new.below.now ≡ [] }
    {
        self.refill();
        self.give_held(buffer, most)
    }
}

impl InDevice for HoldingReader<'_> {
    ghost state = { λ r. record {
      left = Some (r.held.now ++ r.below.now);
      failed = false;
      held = r.held.now;
    } };

    fn read(&mut self, buffer: &mut [u8]) -> Result<usize, DeviceFault> {
        Ok(self.give(buffer, self.per_call))
    }

    /// It gives one byte, and holds the others.
    fn read_first(&mut self, buffer: &mut [u8]) -> Result<usize, DeviceFault> {
        Ok(self.give(buffer, 1))
    }

    fn failed(&self) -> bool {
        false
    }

    fn held(&self) -> &[u8] {
        self.held
    }

    fn pass_held(&mut self, count: usize) {
        self.passed = self.passed.saturating_add(count);
        self.held = &self.held[count..];
    }
}
