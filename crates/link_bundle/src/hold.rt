//! The bytes of the part that a scan is in.
ghost use Rattle.std.specs.Prelude.{◌≡◌, ◌+◌, ◌≤◌, [], ◌++◌, length, take};

use link_bundle_blocks::PRIMARY_LIMIT;
use std::marker::Model;

/// The bytes seen of a part, at most as many as a primary block can have.
#[derive(Drop)]
pub(crate) struct Hold {
    /// The bytes that are held, and then bytes that are not read.
    bytes: [u8; PRIMARY_LIMIT],
    length: usize,
}

impl Model for Hold {
    ghost use Rattle.std.specs.Prelude.{ℕ, ◌≤◌, List, take};

    ghost Value = { List ℕ };

    ghost view = { λ hold. take hold.length hold.bytes };

    ghost invariant = { λ hold. hold.length ≤ 3257 };
}

/// Writes the bytes into a buffer, from the index `at` on.
fn write_at(buffer: &mut [u8], at: usize, bytes: &[u8])
    requires { at + length bytes.now ≤ length buffer.old }
    ensures { take (at + length bytes.now) buffer.new ≡ take at buffer.old ++ bytes.now }
{
    buffer[at..at + bytes.len()].copy_from_slice(bytes);
}

impl Hold {
    /// Makes a hold that holds no bytes.
    pub fn new() -> Hold
        ensures { result ≡ [] }
    {
        Hold {
            bytes: [0; PRIMARY_LIMIT],
            length: 0,
        }
    }

    /// The bytes that are held.
    #[inline(always)]
    pub fn as_slice(&self) -> &[u8]
        ensures { result.now ≡ self.now }
    {
        &self.bytes[..self.length]
    }

    /// The number of bytes that are held.
    #[inline(always)]
    pub fn len(&self) -> usize
        ensures size { result ≡ length self.now }
        ensures most { result ≤ 3257 }
    {
        self.length
    }

    /// Holds these bytes too.
    #[inline(always)]
    pub fn extend(&mut self, bytes: &[u8])
        requires { length self.old + length bytes.now ≤ 3257 }
        ensures { self.new ≡ self.old ++ bytes.now }
    {
        write_at(&mut self.bytes, self.length, bytes);
        self.length += bytes.len();
    }

    /// Holds the first `size` bytes alone.
    #[inline(always)]
    pub fn truncate(&mut self, size: usize)
        requires { size ≤ length self.old }
        ensures { self.new ≡ take size self.old }
    {
        self.length = size;
    }

    /// Holds no bytes.
    #[inline(always)]
    pub fn clear(&mut self)
        ensures { self.new ≡ [] }
    {
        self.length = 0;
    }
}
