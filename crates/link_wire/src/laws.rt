//! Laws of the wire format (RFC 9174), over the definitions alone.
//!
//! The functions do nothing when they run. Their contracts are the laws.

ghost use Rattle.std.specs.Prelude.{◌≡◌, ℕ, List, [], ◌++◌};
ghost use Rattle.link_io.specs.Bytes.{AreBytes};
ghost use Rattle.link_wire.specs.Spelled.{Spelled};
ghost use Rattle.link_wire.specs.SpelledStream.{IsReadingOf};
ghost use Rattle.link_wire.specs.Stream.{Reading, reading_of};

use crate::message::Message;

/// No bytes spell two messages, and no spelling of a message begins another.
///
/// Let `a` spell the message `m` with the data `d`, and let `a` followed by `x` spell `n` with `e`.
/// Then `x` is empty, `m` equals `n`, and `d` equals `e`.
pub fn one_reading(a: &[u8], x: &[u8], m: &Message, d: &[u8], n: &Message, e: &[u8])
    ensures { Spelled m.now d.now a.now → Spelled n.now e.now (a.now ++ x.now)
        → (x.now ≡ []) × (m.now ≡ n.now) × (d.now ≡ e.now) }
{}

/// Every list of bytes has exactly one reading.
#[tactic(auto, using(crate::proofs::OneReading::a_reading, crate::proofs::OneReading::only_reading))]
pub fn exactly_one_reading()
    ensures some { (bytes : List ℕ) → AreBytes bytes → IsReadingOf bytes (reading_of bytes) }
    ensures only { (bytes : List ℕ) (reading : Reading) → IsReadingOf bytes reading
        → reading ≡ reading_of bytes }
{}
