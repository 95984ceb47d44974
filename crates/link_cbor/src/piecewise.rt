//! The trait of scans that consume bytes one at a time or in slices of any size.
ghost use Rattle.std.specs.Prelude.{◌≡◌, ℕ, ◌+◌, ◌-◌, ◌^◌, ◌<◌, ◌≤◌, Bool, List, ◌∷◌, [], ◌++◌, length, IsTrue};
ghost use Rattle.std.specs.Bool.{OnTrue};
ghost use Rattle.link_cbor.specs.Pieces.{taken, PiecesAreTakenAsOne, TakenIsShortestPrefix};
ghost use Rattle.link_cbor.specs.PieceLaws.{joins_pieces, takes_shortest};

/// Consumes bytes one at a time or in slices of any size, until it needs no more.
///
/// The bytes consumed so far are the history of the value. The value does not store it. A clause
/// speaks of every history that `has_seen` relates to the value.
pub trait Piecewise {
    // whether the value has consumed exactly these bytes
    ghost has_seen: { Self → List ℕ → Type 0 };

    // the number of bytes that it has consumed
    ghost size: { Self → ℕ };

    // whether more bytes are needed after these
    ghost goes: { List ℕ → Bool };

    // Whether `step` may be called. It is true while more bytes are needed, and may be true
    // afterwards.
    ghost may_step: { Self → Bool };

    /// Whether more bytes are needed.
    fn going(&self) -> bool
        ensures seen { (seen : List ℕ) → has_seen self.now seen → result ≡ goes seen }
        ensures may_step { OnTrue result (IsTrue (may_step self.now)) };

    /// The number of bytes consumed so far.
    fn count(&self) -> u64
        ensures size { result ≡ size self.now }
        ensures seen { (seen : List ℕ) → has_seen self.now seen → result ≡ length seen };

    /// Consumes one byte.
    ///
    /// It may be called as long as `going` returns true. Whether it may be called later depends on
    /// the type.
    fn step(&mut self, byte: u8)
        requires may_step { IsTrue (may_step self.old) }
        requires room { size self.old < 2 ^ 63 - 1 }
        ensures size { size self.new ≡ size self.old + 1 }
        ensures seen { (seen : List ℕ) → has_seen self.old seen
            → has_seen self.new (seen ++ byte ∷ []) };

    /// Consumes bytes of the slice, in order, while more are needed. Returns how many it consumed.
    fn feed(&mut self, bytes: &[u8]) -> usize
        requires room { size self.old + length bytes.now ≤ 2 ^ 63 - 1 }
        ensures within { result ≤ length bytes.now }
        ensures size { size self.new ≡ size self.old + result }
        ensures seen { (seen : List ℕ) → has_seen self.old seen
            → has_seen self.new (seen ++ taken goes seen bytes.now) }
        ensures count { (seen : List ℕ) → has_seen self.old seen
            → result ≡ length (taken goes seen bytes.now) }
    {
        for (taken, &byte) in bytes.iter().enumerate() {
            if !self.going() {
                return taken;
            }
            self.step(byte);
        }
        bytes.len()
    }

    // cutting a slice in two does not change the bytes that are consumed
    ghost pieces: { PiecesAreTakenAsOne goes } = { joins_pieces goes };

    // the bytes consumed are the shortest prefix after which no more are needed, or the whole slice
    ghost shortest: { TakenIsShortestPrefix goes } = { takes_shortest goes };
}
