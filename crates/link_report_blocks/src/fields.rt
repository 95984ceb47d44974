//! Fields that the lines of blocks have, each written into a page from an index on.
//!
//! Each call returns the index after its text.

ghost use Rattle.std.specs.Prelude.{◌≡◌, ◌+◌, ◌<◌, ◌≤◌, ◌++◌, length, take, codes};
ghost use Rattle.link_report.specs.Written.{PutsText};
ghost use Rattle.link_report_blocks.specs.Fields.{significant, flags_text, check_text, control_text, type_name, type_text, length_to};

use link_cbor::CheckKind;
use link_report::{write_bytes, write_hex2, write_number};

/// The greatest length in bytes of the text of flags and a check.
pub(crate) const CONTROL_MAX: usize = 36;

/// The greatest length in bytes of the text of a block type.
pub(crate) const TYPE_MAX: usize = 30;

/// The bytes without their leading zeros, or the last byte if all are zero.
fn significant(bytes: &[u8]) -> &[u8]
    requires { 0 < length bytes.now }
    ensures bytes { result.now ≡ significant bytes.now }
    ensures fits { length result.now ≤ length bytes.now }
{
    let mut first = 0;
    while first + 1 < bytes.len() && bytes[first] == 0 {
        first += 1;
    }
    &bytes[first..]
}

/// Writes flags in pairs of hexadecimal digits, without leading pairs of zeros.
///
/// [`write_flags`] calls it for flags of more than one byte.
#[inline(never)]
#[tactic(auto, unfolding(crate::specs::Fields::flags_text))]
fn write_long_flags(page: &mut [u8], at: usize, flags: u64) -> usize
    requires { at + 16 ≤ length page.old }
    ensures { PutsText page.old page.new at result 16 (flags_text flags) }
{
    let bytes = flags.to_be_bytes();
    let kept = significant(&bytes);
    let mut end = at;
    for byte in kept {
        end = write_hex2(page, end, *byte);
    }
    end
}

/// Writes flags in pairs of hexadecimal digits, without a label, and returns the index after them.
///
/// Leading pairs of zeros are left out, but there is at least one pair.
#[inline(always)]
pub fn write_flags(page: &mut [u8], at: usize, flags: u64) -> usize
    requires { at + 16 ≤ length page.old }
    ensures text { take result page.new ≡ take at page.old ++ flags_text flags }
    ensures fits { result ≤ at + 16 }
    ensures size { length page.new ≡ length page.old }
{
    if flags < 0x100 {
        return write_hex2(page, at, flags as u8);
    }
    write_long_flags(page, at, flags)
}

/// Writes ` check=` and the kind of a check.
#[tactic(auto, unfolding(crate::specs::Fields::check_text))]
#[inline(always)]
fn write_check(page: &mut [u8], at: usize, check: Option<CheckKind>) -> usize
    requires { at + 13 ≤ length page.old }
    ensures { PutsText page.old page.new at result 13 (codes " check=" ++ check_text check) }
{
    match check {
        None => write_bytes(page, at, *b" check=none"),
        Some(CheckKind::Crc16) => write_bytes(page, at, *b" check=crc16"),
        Some(CheckKind::Crc32) => write_bytes(page, at, *b" check=crc32c"),
    }
}

/// Writes processing control flags and the kind of a check.
#[tactic(auto, unfolding(crate::specs::Fields::control_text))]
#[inline(always)]
pub(crate) fn write_control(
    page: &mut [u8],
    at: usize,
    flags: u64,
    check: Option<CheckKind>,
) -> usize
    requires { at + CONTROL_MAX ≤ length page.old }
    ensures { PutsText page.old page.new at result CONTROL_MAX (control_text flags check) }
{
    let at = write_bytes(page, at, *b" flags=");
    let at = write_flags(page, at, flags);
    write_check(page, at, check)
}

/// The name of a block type (RFC 9171 section 4.4, RFC 9172 section 3), or `?` for other codes.
#[tactic(auto, unfolding(crate::specs::Fields::type_name))]
pub fn block_type_name(block_type: u64) -> &'static str
    ensures name { result.now ≡ type_name block_type }
    ensures short { length result.now ≤ 21 }
{
    match block_type {
        1 => "payload",
        6 => "previous-node",
        7 => "bundle-age",
        10 => "hop-count",
        11 => "block-integrity",
        12 => "block-confidentiality",
        _ => "?",
    }
}

/// Writes a block type: its code and its name.
#[tactic(auto, unfolding(crate::specs::Fields::type_text, crate::specs::Fields::type_name, link_report::specs::Text::number_text))]
#[inline(always)]
pub(crate) fn write_type(page: &mut [u8], at: usize, block_type: u64) -> usize
    requires { at + TYPE_MAX ≤ length page.old }
    ensures text { take result page.new ≡ take at page.old ++ type_text block_type }
    ensures fits { result ≤ at + TYPE_MAX }
    ensures size { length page.new ≡ length page.old }
{
    match block_type {
        1 => write_bytes(page, at, *b" type=1/payload"),
        6 => write_bytes(page, at, *b" type=6/previous-node"),
        7 => write_bytes(page, at, *b" type=7/bundle-age"),
        10 => write_bytes(page, at, *b" type=10/hop-count"),
        11 => write_bytes(page, at, *b" type=11/block-integrity"),
        12 => write_bytes(page, at, *b" type=12/block-confidentiality"),
        _ => {
            let at = write_number(page, at, *b" type=", block_type);
            write_bytes(page, at, *b"/?")
        }
    }
}

/// The length in bytes of a block that begins at `start` and ends before `end`, or 0 if the block
/// is not whole.
#[inline(always)]
pub(crate) fn length_to(end: Option<u64>, start: u64) -> u64
    ensures { result ≡ length_to end start }
{
    match end {
        Some(end) => end.saturating_sub(start),
        None => 0,
    }
}
