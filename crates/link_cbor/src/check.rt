//! The check values of bundles (RFC 9171 section 4.2.1).
ghost use Rattle.std.specs.Prelude.{◌≡◌, ℕ, ◌∷◌, [], ◌++◌, List};
ghost use Rattle.link_cbor.specs.Crc.{all_ones, crc};
ghost use Rattle.link_cbor.specs.CrcTables.{AreCrcTables};

mod crc16;
mod crc32;
mod parts;
mod register;

use self::register::{Tables, register_after, register_after_blocks};

/// The kind of a block's check (RFC 9171 section 4.2.1).
#[derive(Clone, Copy, PartialEq, Eq, Debug)]
pub enum CheckKind {
    /// CRC-16/X-25, two bytes.
    Crc16,
    /// CRC-32C (Castagnoli), four bytes.
    Crc32,
}

impl CheckKind {
    /// The initial register, which is also exclusive-ored into the final one.
    fn all_ones(self) -> u32
        ensures { result ≡ all_ones self }
    {
        match self {
            CheckKind::Crc16 => 0xffff,
            CheckKind::Crc32 => 0xffff_ffff,
        }
    }

    /// The look-up tables for a register of this kind.
    #[inline(always)]
    fn tables(self) -> &'static Tables
        ensures { AreCrcTables self result.now }
    {
        match self {
            CheckKind::Crc16 => &crc16::TABLES,
            CheckKind::Crc32 => &crc32::TABLES,
        }
    }
}

/// The check value of the bytes pushed so far.
///
/// For a block, push its whole encoding with zeros as the content of its check field.
#[derive(Clone, Copy, PartialEq, Eq, Debug)]
pub struct Check {
    kind: CheckKind,
    register: u32,
}

impl Check {
    ghost use Rattle.link_cbor.specs.Pushed.{IsCheckAt};
    ghost use Rattle.link_cbor.specs.declared.check.CheckKind.{CheckKind};

    /// A check to which no byte was pushed.
    #[tactic(auto, unfolding(crate::specs::Crc::register_after, crate::specs::Crc::all_bits))]
    pub fn new(kind: CheckKind) -> Check
        ensures { IsCheckAt kind result [] }
    {
        Check {
            kind,
            register: kind.all_ones(),
        }
    }

    /// Pushes one byte.
    pub fn push(&mut self, byte: u8)
        ensures { (kind : CheckKind) (before : List ℕ)
            → IsCheckAt kind self.old before → IsCheckAt kind self.new (before ++ byte ∷ []) }
    {
        self.register = register_after(self.kind.tables(), self.register, byte);
    }

    /// Pushes the bytes of the slice, in order.
    pub fn push_slice(&mut self, bytes: &[u8])
        ensures { (kind : CheckKind) (before : List ℕ)
            → IsCheckAt kind self.old before → IsCheckAt kind self.new (before ++ bytes.now) }
    {
        let (blocks, rest) = bytes.as_chunks();
        self.register = register_after_blocks(self.kind.tables(), self.register, blocks);
        for &byte in rest {
            self.push(byte);
        }
    }

    /// The check value of the bytes pushed so far.
    ///
    /// For CRC-16/X-25 it is in the low 16 bits.
    #[tactic(auto, unfolding(crate::specs::Crc::crc))]
    pub fn value(&self) -> u32
        ensures { (kind : CheckKind) (bytes : List ℕ) → IsCheckAt kind self.now bytes
            → result ≡ crc kind bytes }
    {
        self.register ^ self.kind.all_ones()
    }
}
