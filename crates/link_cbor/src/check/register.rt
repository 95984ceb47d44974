//! A register that consumes bytes by look-ups in tables, sixteen bytes at a time.
//!
//! The register is linear: it commutes with exclusive or. So each byte of a block may go into a
//! register of zero of its own, followed by one zero byte for each later byte of the block. The
//! exclusive or of these registers is the register after the block. The tables contain them. The
//! register before the block is exclusive-ored into the first bytes of the block.
ghost use Rattle.std.specs.Prelude.{◌≡◌, ◌*◌, ◌/◌, ◌%◌, ◌^◌, ◌∷◌, []};
ghost use Rattle.std.specs.List.{concat};
ghost use Rattle.link_cbor.specs.Crc.{register_after};
ghost use Rattle.link_cbor.specs.CrcTables.{AreCrcTables};
ghost use Rattle.link_cbor.specs.declared.check.CheckKind.{CheckKind};

/// The tables of one kind of check.
///
/// Table `k` has, for each byte, the register after that byte and `k` zero bytes, from a register
/// of zero.
pub(super) type Tables = [[u32; 256]; 16];

/// The number of bytes in a register.
const REGISTER_BYTES: usize = 4;

/// The register after one more byte.
#[inline(always)]
pub(super) fn register_after(tables: &Tables, register: u32, byte: u8) -> u32
    ensures { (kind : CheckKind) → AreCrcTables kind tables.now
        → result ≡ register_after kind register (byte ∷ []) }
{
    tables[0][usize::from(byte_of(register, 0) ^ byte)] ^ register >> 8
}

/// The register after more blocks of sixteen bytes.
// Not inlined: an inlined body would keep the addresses of sixteen tables in place of one.
#[inline(never)]
pub(super) fn register_after_blocks(tables: &Tables, mut register: u32, blocks: &[[u8; 16]]) -> u32
    ensures { (kind : CheckKind) → AreCrcTables kind tables.now
        → result ≡ register_after kind register (concat blocks.now) }
{
    for block in blocks {
        register = register_after_block(tables, register, block);
    }
    register
}

/// The register after sixteen more bytes.
///
/// Table number `zeros` is for the byte after which `zeros` more of the sixteen follow. The last
/// byte is looked up first. Only the first four bytes depend on the register, so the other look-ups
/// need not wait for it.
#[inline(always)]
fn register_after_block(tables: &Tables, register: u32, block: &[u8; 16]) -> u32
    ensures { (kind : CheckKind) → AreCrcTables kind tables.now
        → result ≡ register_after kind register block.now }
{
    let mut sum = 0;
    for (zeros, table) in tables.iter().enumerate() {
        let position = 15 - zeros;
        sum ^= table[usize::from(byte_of(register, position) ^ block[position])];
    }
    sum
}

/// The byte of the register at this position, counted from the lowest, or 0 past the highest.
#[inline(always)]
fn byte_of(register: u32, position: usize) -> u8
    ensures { result ≡ register / 2 ^ (8 * position) % 256 }
{
    if position < REGISTER_BYTES {
        (register >> (8 * position) & 0xff) as u8
    } else {
        0
    }
}
