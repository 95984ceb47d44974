//! Laws over the definitions alone.
//!
//! The functions do nothing when they run. Their contracts are the laws.

ghost use Rattle.std.specs.Prelude.{◌≡◌, ◌↔◌, ◌<◌, ℕ, List};
ghost use Rattle.link_transfer.specs.Chunks.{chunks, AreChunks};

/// A bundle has exactly one list of chunks.
///
/// Joined, the chunks are the bundle. Each has the size of a segment, except the last, which has at
/// least one byte and at most that many.
pub fn one_cutting()
    ensures { (segment : ℕ) (bundle : List ℕ) (list : List (List ℕ)) → 0 < segment
        → AreChunks segment bundle list ↔ (list ≡ chunks segment bundle) }
{}
