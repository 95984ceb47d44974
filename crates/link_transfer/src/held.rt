//! The bytes that a cutter holds.

ghost use Rattle.std.specs.Prelude.{◌≡◌, ℕ, ◌+◌, ◌-◌, ◌<◌, ◌≤◌, List, [], ◌∷◌, ◌++◌, length, take, drop, vec_capacity};

use std::marker::Model;

/// Bytes in the order in which they came, in memory that is taken once.
///
/// The bytes that were given last stay readable before those held. Memory is written only when a
/// byte comes, so nothing is cleared beforehand.
///
/// ```text
///               given        start           end of `buffer`       room
/// +---------------+------------+---------------+---------------------+
/// | free          | given last | held          | never written, or   |
/// |               |            |               | written and dropped |
/// +---------------+------------+---------------+---------------------+
/// ```
#[derive(Drop)]
pub(crate) struct Held {
    buffer: Vec<u8>,
    /// The number of bytes for which the buffer has memory.
    room: usize,
    /// Where the bytes that were given last begin.
    given: usize,
    /// Where the held bytes begin.
    start: usize,
}

impl Model for Held {
    ghost use Rattle.std.specs.Prelude.{◌≤◌, length, drop, slice_range, vec_capacity};
    ghost use Rattle.link_transfer.specs.Held.{HeldBytes};

    ghost Value = { HeldBytes };

    ghost view = { λ held. record {
      room = held.room;
      given = slice_range held.buffer.items held.given held.start;
      bytes = drop held.start held.buffer.items;
    } };

    ghost invariant = { λ held.
        (held.given ≤ held.start) × (held.start ≤ length held.buffer.items)
        × (held.room ≤ vec_capacity held.buffer) };
}

/// Makes room for `count` bytes after the held ones, and returns where the held bytes begin.
///
/// The held bytes are those from `start` on. With the new ones, there are at most `room`. If none
/// are held, or there is too little room after them, they are moved to the beginning of the buffer.
/// So short bundles use the same few bytes of the buffer, one after another.
#[inline]
fn with_room(buffer: &mut Vec<u8>, start: usize, count: usize, room: usize) -> usize
    requires order { start ≤ length buffer.old.items }
    requires room { (length buffer.old.items - start) + count ≤ room }
    requires within { room ≤ vec_capacity buffer.old }
    ensures bytes { drop result buffer.new.items ≡ drop start buffer.old.items }
    ensures order { result ≤ length buffer.new.items }
    ensures room { length buffer.new.items + count ≤ vec_capacity buffer.new }
    ensures capacity { vec_capacity buffer.new ≡ vec_capacity buffer.old }
{
    let end = buffer.len();
    if start < end && count <= buffer.capacity() - end {
        return start;
    }
    buffer.copy_within(start..end, 0);
    buffer.truncate(end - start);
    0
}

impl Held {
    /// A buffer that holds no bytes, in this memory, which has room for exactly `room` bytes.
    pub fn new(buffer: Vec<u8>, room: usize) -> Held
        requires empty { buffer.items ≡ [] }
        requires room { vec_capacity buffer ≡ room }
        ensures { result ≡ record { room = room; given = []; bytes = [] } }
    {
        Held {
            buffer,
            room,
            given: 0,
            start: 0,
        }
    }

    /// The number of bytes held.
    #[inline]
    pub fn len(&self) -> usize
        ensures { result ≡ length self.now.bytes }
    {
        self.buffer.len() - self.start
    }

    /// The bytes held.
    pub fn bytes(&self) -> &[u8]
        ensures { result.now ≡ self.now.bytes }
    {
        &self.buffer[self.start..]
    }

    /// The bytes given last.
    pub fn given(&self) -> &[u8]
        ensures { result.now ≡ self.now.given }
    {
        &self.buffer[self.given..self.start]
    }

    /// Appends a byte to those held, and forgets the bytes given last.
    #[inline]
    pub fn push(&mut self, byte: u8)
        requires { length self.old.bytes < self.old.room }
        ensures { self.new ≡ record self.old { given = []; bytes = self.old.bytes ++ byte ∷ [] } }
    {
        self.append(&[byte]);
    }

    /// Appends bytes to those held, and forgets the bytes given last.
    #[inline]
    pub fn append(&mut self, bytes: &[u8])
        requires { length self.old.bytes + length bytes.now ≤ self.old.room }
        ensures { self.new ≡ record self.old { given = []; bytes = self.old.bytes ++ bytes.now } }
    {
        let start = with_room(&mut self.buffer, self.start, bytes.len(), self.room);
        put_after(&mut self.buffer, bytes);
        self.given = start;
        self.start = start;
    }

    /// Gives the first `count` bytes held: they are held no longer, and `given` returns them.
    #[inline]
    pub fn give(&mut self, count: usize)
        requires { count ≤ length self.old.bytes }
        ensures { self.new ≡ record self.old {
          given = take count self.old.bytes;
          bytes = drop count self.old.bytes;
        } }
    {
        self.given = self.start;
        self.start += count;
    }

    /// Forgets the bytes given last.
    #[inline]
    pub fn forget(&mut self)
        ensures { self.new ≡ record self.old { given = [] } }
    {
        self.given = self.start;
    }
}

/// Appends bytes to the buffer, which has room for them.
#[inline]
fn put_after(buffer: &mut Vec<u8>, bytes: &[u8])
    requires { length buffer.old.items + length bytes.now ≤ vec_capacity buffer.old }
    ensures items { buffer.new.items ≡ buffer.old.items ++ bytes.now }
    ensures capacity { vec_capacity buffer.old ≤ vec_capacity buffer.new }
{
    // By the contract of this call, it succeeds and takes no memory where there is room.
    let _ = buffer.extend_from_slice(bytes);
}
