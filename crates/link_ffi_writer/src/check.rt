//! A check value that is computed in pieces, as numbers that a caller in C keeps.

ghost use Rattle.std.specs.Prelude.{◌≡◌, ℕ, ◌^◌, ◌<◌, true, List, [], ◌++◌, Some, None, IfSome, IsSomeAnd, is_some, option_map};
ghost use Rattle.link_cbor.specs.Pushed.{IsCheckAt};
ghost use Rattle.link_cbor.specs.declared.check.CheckKind.{CheckKind};
ghost use Rattle.link_ffi_writer.specs.Checks.{kind_by, kind_of, IsKeptCheckAt};

use link_bundle_writer::{Check, CheckKind, write_check};
use link_writing::WriteFault;

/// `struct tcpclkit_crc`: the type of a check, and its register.
#[repr(C)]
#[derive(Clone, Copy, Debug, PartialEq, Eq)]
pub struct KeptCheck {
    /// 1 for CRC-16/X-25, and 2 for CRC-32C (RFC 9171 section 4.2.1).
    pub kind: u64,
    /// The register, of 16 or of 32 bits. In C, `register` is no name of a field.
    pub state: u64,
}

/// The numbers of a check of this kind.
fn check_shown(kind: CheckKind, check: &Check) -> KeptCheck
    ensures { (bytes : List ℕ) → IsCheckAt kind check.now bytes → IsKeptCheckAt kind result bytes }
{
    let number = match kind {
        CheckKind::Crc16 => 1,
        CheckKind::Crc32 => 2,
    };
    KeptCheck {
        kind: number,
        state: u64::from(check.register()),
    }
}

impl KeptCheck {
    ghost use Rattle.link_bundle_writer.specs.NewBlocks.{check_field};
    ghost use Rattle.link_cbor.specs.Crc.{crc};
    ghost use Rattle.link_writing.specs.Writes.{WritesIntoSlice};

    /// A check to which no byte was fed, by its check type: 1 is CRC-16, and 2 is CRC-32. It is
    /// `None` for any other type.
    pub fn new(kind: u64) -> Option<KeptCheck>
        ensures none { kind_by kind ≡ None → result ≡ None }
        ensures some { (known : CheckKind) → kind_by kind ≡ Some known
            → IsSomeAnd result (λ check. IsKeptCheckAt known check []) }
    {
        let known = match kind {
            1 => CheckKind::Crc16,
            2 => CheckKind::Crc32,
            _ => return None,
        };
        Some(check_shown(known, &Check::new(known)))
    }

    /// The kind of the check, or `None` if `kind` or `state` is out of its range.
    fn kind(&self) -> Option<CheckKind>
        ensures kind { result ≡ kind_of self.now }
        ensures fits { IfSome result (λ kind. self.now.state < 2 ^ 32) }
    {
        match self.kind {
            1 if self.state < 1 << 16 => Some(CheckKind::Crc16),
            2 if self.state < 1 << 32 => Some(CheckKind::Crc32),
            _ => None,
        }
    }

    /// The kind of the check, and the check. The result is `None` if `kind` or `state` is out of
    /// its range.
    fn check(&self) -> Option<(CheckKind, Check)>
        ensures kind { option_map (λ found. found.0) result ≡ kind_of self.now }
        ensures check { (kind : CheckKind) (bytes : List ℕ) → IsKeptCheckAt kind self.now bytes
            → IfSome result (λ found. IsCheckAt kind found.1 bytes) }
    {
        let kind = self.kind()?;
        Some((kind, Check::from_parts(kind, self.state as u32)))
    }

    /// Feeds the bytes of a piece to the check. Returns false, and changes nothing, if `kind` or
    /// `state` is out of its range.
    pub fn feed(&mut self, piece: &[u8]) -> bool
        ensures fed { (kind : CheckKind) (before : List ℕ) → IsKeptCheckAt kind self.old before
            → IsKeptCheckAt kind self.new (before ++ piece.now) }
        ensures check { (kind : CheckKind) (before : List ℕ) → IsKeptCheckAt kind self.old before
            → result ≡ true }
        ensures known { result ≡ is_some (kind_of self.old) }
        ensures unknown { kind_of self.old ≡ None → self.new ≡ self.old }
    {
        let Some((kind, mut check)) = self.check() else {
            return false;
        };
        check.push_slice(piece);
        *self = check_shown(kind, &check);
        true
    }

    /// The check value of the bytes that were fed, or `None` if the caller's struct is no check.
    pub fn value(&self) -> Option<u32>
        ensures value { (kind : CheckKind) (bytes : List ℕ) → IsKeptCheckAt kind self.now bytes
            → result ≡ Some (crc kind bytes) }
        ensures known { is_some result ≡ is_some (kind_of self.now) }
    {
        let (_, check) = self.check()?;
        Some(check.value())
    }

    /// Writes the check field of a block. All bytes of the block before this field were fed.
    ///
    /// # Errors
    ///
    /// `kind` or `state` is out of its range, or the slice is too small.
    pub fn write_field(&self, slice: &mut [u8]) -> Result<usize, WriteFault>
        ensures field { (kind : CheckKind) (block : List ℕ) → IsKeptCheckAt kind self.now block
            → WritesIntoSlice (Some (check_field kind block)) slice.old slice.new result }
        ensures unknown { kind_of self.now ≡ None
            → WritesIntoSlice None slice.old slice.new result }
    {
        let Some((kind, check)) = self.check() else {
            return Err(WriteFault::OutOfRange);
        };
        write_check(kind, &check, slice)
    }
}
