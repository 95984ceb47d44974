//! What a check keeps, for a caller that keeps it in another form.

ghost use Rattle.std.specs.Prelude.{◌≡◌, ℕ, List};
ghost use Rattle.link_cbor.specs.Crc.{all_ones, register_after};

use super::{Check, CheckKind};

impl Check {
    ghost use Rattle.link_cbor.specs.Head.{AreBytes};
    ghost use Rattle.link_cbor.specs.Pushed.{IsCheckAt};
    ghost use Rattle.link_cbor.specs.declared.check.CheckKind.{CheckKind};

    /// The check that has these parts: its kind, and the register after the bytes that were pushed.
    pub fn from_parts(kind: CheckKind, register: u32) -> Check
        ensures { (bytes : List ℕ) → AreBytes bytes
            → register ≡ register_after kind (all_ones kind) bytes
            → IsCheckAt kind result bytes }
    {
        Check { kind, register }
    }

    /// The register after the bytes pushed so far.
    ///
    /// For CRC-16/X-25 it has 16 bits.
    pub fn register(&self) -> u32
        ensures { (kind : CheckKind) (bytes : List ℕ) → IsCheckAt kind self.now bytes
            → result ≡ register_after kind (all_ones kind) bytes }
    {
        self.register
    }
}
