//! The numbers of the canonical blocks so far.
ghost use Rattle.std.specs.Prelude.{◌≡◌, ◌<◌, ◌≤◌, ◌==◌, [], ◌∷◌, ◌++◌, length};

use crate::info::BLOCK_LIMIT;
use std::marker::Model;

/// The numbers of at most 64 blocks in the order of the blocks, kept in place.
///
/// They are emptied without being overwritten.
#[derive(Drop)]
pub struct BlockNumbers {
    cells: [u64; BLOCK_LIMIT],
    length: usize,
}

impl Model for BlockNumbers {
    ghost use Rattle.std.specs.Prelude.{ℕ, ◌≤◌, List, take};

    ghost Value = { List ℕ };

    ghost view = { λ n. take n.length n.cells };

    ghost invariant = { λ n. n.length ≤ 64 };
}

impl BlockNumbers {
    /// An empty list.
    pub fn new() -> BlockNumbers
        ensures { result ≡ [] }
    {
        BlockNumbers {
            cells: [0; BLOCK_LIMIT],
            length: 0,
        }
    }

    /// Removes all numbers.
    pub fn clear(&mut self)
        ensures { self.new ≡ [] }
    {
        self.length = 0;
    }

    /// The numbers in order.
    pub fn as_slice(&self) -> &[u64]
        ensures value { result.now ≡ self.now }
        ensures fits { length self.now ≤ 64 }
    {
        &self.cells[..self.length]
    }

    /// Whether there are 64 numbers and no room for another.
    pub fn is_full(&self) -> bool
        ensures value { result ≡ (length self.now == 64) }
        ensures fits { length self.now ≤ 64 }
    {
        self.length == BLOCK_LIMIT
    }

    /// Appends a number to a list that is not full.
    pub fn push(&mut self, number: u64)
        requires { length self.old < 64 }
        ensures { self.new ≡ self.old ++ number ∷ [] }
    {
        self.cells[self.length] = number;
        self.length += 1;
    }
}
