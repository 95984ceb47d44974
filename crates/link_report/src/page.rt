//! Pieces of text, each written into a page from an index on.
//!
//! Each call returns the index after its text.

ghost use Rattle.std.specs.Prelude.{◌≡◌, ◌+◌, ◌*◌, ◌<◌, ◌≤◌, [], ◌∷◌, ◌++◌, length, take, decimal};
ghost use Rattle.link_report.specs.Text.{hex2, hex4, escaped, escaped_byte, is_plain, number_text};
ghost use Rattle.link_report.specs.Written.{PutsText};

use link_wire::copy_into;

/// Writes `text` unchanged from `at` on, and returns the index after it.
#[inline(always)]
pub fn write_text(page: &mut [u8], at: usize, text: &str) -> usize
    requires { at + length text.now ≤ length page.old }
    ensures text { take result page.new ≡ take at page.old ++ text.now }
    ensures end { result ≡ at + length text.now }
    ensures size { length page.new ≡ length page.old }
{
    copy_into(page, at, text.as_bytes())
}

/// Writes a text of a constant length, which compiles only to stores.
#[inline(always)]
pub fn write_bytes<const N: usize>(page: &mut [u8], at: usize, text: [u8; N]) -> usize
    requires { at + N ≤ length page.old }
    ensures text { take result page.new ≡ take at page.old ++ text.entry }
    ensures end { result ≡ at + N }
    ensures size { length page.new ≡ length page.old }
{
    copy_into(page, at, &text)
}

/// Writes one byte, and returns the index after it.
#[tactic(auto, using(std::proofs::lemmas::List::take_more_set))]
#[inline(always)]
fn write_byte(page: &mut [u8], at: usize, byte: u8) -> usize
    requires { at < length page.old }
    ensures text { take result page.new ≡ take at page.old ++ byte ∷ [] }
    ensures end { result ≡ at + 1 }
    ensures size { length page.new ≡ length page.old }
{
    page[at] = byte;
    at + 1
}

/// Writes `number` in decimal. `count` is the number of its digits.
#[tactic(auto, using(crate::proofs::Pages::text_from))]
#[inline(always)]
fn write_counted(page: &mut [u8], at: usize, number: u64, count: usize) -> usize
    requires count { count ≡ length (decimal number) }
    requires room { at + count ≤ length page.old }
    ensures text { take result page.new ≡ take at page.old ++ decimal number }
    ensures end { result ≡ at + count }
    ensures size { length page.new ≡ length page.old }
{
    let end = at + count;
    itoa::write_digits(number, page, end);
    end
}

/// Writes a number of 4 to 20 digits.
#[tactic(auto, using(crate::proofs::Digits::length_of_decimal, crate::proofs::Digits::length_from_power))]
#[inline(never)]
fn write_long(page: &mut [u8], at: usize, number: u64) -> usize
    requires many { 1000 ≤ number }
    requires room { at + 20 ≤ length page.old }
    ensures { PutsText page.old page.new at result 20 (decimal number) }
{
    let count = number.ilog10() as usize + 1;
    write_counted(page, at, number, count)
}

/// Writes `number` in decimal, without leading zeros, and returns the index after it.
///
/// There has to be room for 20 digits. Most numbers in a line are below 1,000. In the arms for
/// these, the number of digits is a constant. So the compiler unrolls the loop of `write_counted`
/// into plain stores.
#[tactic(auto, using(crate::proofs::Digits::few_digits))]
#[inline(always)]
pub fn write_decimal(page: &mut [u8], at: usize, number: u64) -> usize
    requires { at + 20 ≤ length page.old }
    ensures { PutsText page.old page.new at result 20 (decimal number) }
{
    match number {
        0..10 => write_counted(page, at, number, 1),
        10..100 => write_counted(page, at, number, 2),
        100..1000 => write_counted(page, at, number, 3),
        _ => write_long(page, at, number),
    }
}

/// The two lower-case hexadecimal digits of a byte.
#[tactic(auto, unfolding(crate::specs::Text::hex2, hex::specs::Hex::encode_with))]
#[inline(always)]
pub(crate) fn hex_digits(byte: u8) -> [u8; 2]
    ensures { result ≡ hex2 byte }
{
    let mut digits = [0; 2];
    hex::encode_to_slice([byte], &mut digits).unwrap();
    digits
}

/// Writes `byte` as two lower-case hexadecimal digits, and returns the index after it.
#[inline(always)]
pub fn write_hex2(page: &mut [u8], at: usize, byte: u8) -> usize
    requires { at + 2 ≤ length page.old }
    ensures text { take result page.new ≡ take at page.old ++ hex2 byte }
    ensures end { result ≡ at + 2 }
    ensures size { length page.new ≡ length page.old }
{
    let [high, low] = hex_digits(byte);
    let at = write_byte(page, at, high);
    write_byte(page, at, low)
}

/// Writes `number` as four lower-case hexadecimal digits.
#[tactic(auto, unfolding(crate::specs::Text::hex4))]
#[inline(always)]
pub(crate) fn write_hex4(page: &mut [u8], at: usize, number: u16) -> usize
    requires { at + 4 ≤ length page.old }
    ensures text { take result page.new ≡ take at page.old ++ hex4 number }
    ensures end { result ≡ at + 4 }
    ensures size { length page.new ≡ length page.old }
{
    let [high, low] = number.to_be_bytes();
    let at = write_hex2(page, at, high);
    write_hex2(page, at, low)
}

/// Whether a byte stays as it is in an escaped text: 21 to 7e, except the backslash.
#[tactic(auto, unfolding(crate::specs::Text::is_plain))]
#[inline(always)]
fn is_plain(byte: u8) -> bool
    ensures { result ≡ is_plain byte }
{
    byte.is_ascii_graphic() && byte != b'\\'
}

/// Writes a byte as it is if it is plain, or else as `\x` and its two hexadecimal digits.
#[tactic(auto, unfolding(crate::specs::Text::escaped_byte))]
#[inline(always)]
fn write_escaped_byte(page: &mut [u8], at: usize, byte: u8) -> usize
    requires { at + 4 ≤ length page.old }
    ensures { PutsText page.old page.new at result 4 (escaped_byte byte) }
{
    if is_plain(byte) {
        return write_byte(page, at, byte);
    }
    let at = write_bytes(page, at, *b"\\x");
    write_hex2(page, at, byte)
}

/// Writes `bytes`, with an escape of 4 bytes in place of each byte that is not plain. Returns the
/// index after them.
#[cold]
#[inline(never)]
#[tactic(auto, unfolding(crate::specs::Text::escaped))]
pub(crate) fn write_escaped(page: &mut [u8], at: usize, bytes: &[u8]) -> usize
    requires { at + 4 * length bytes.now ≤ length page.old }
    ensures { PutsText page.old page.new at result (4 * length bytes.now) (escaped bytes.now) }
{
    let mut end = at;
    for byte in bytes {
        end = write_escaped_byte(page, end, *byte);
    }
    end
}

/// Writes `label` and `number` in decimal, and returns the index after them.
#[tactic(auto, unfolding(crate::specs::Text::number_text))]
#[inline(always)]
pub fn write_number<const N: usize>(
    page: &mut [u8],
    at: usize,
    label: [u8; N],
    number: u64,
) -> usize
    requires { at + N + 20 ≤ length page.old }
    ensures { PutsText page.old page.new at result (N + 20) (number_text label.entry number) }
{
    let at = write_bytes(page, at, label);
    write_decimal(page, at, number)
}
