//! Pieces of text, each appended to a line.

ghost use Rattle.std.specs.Prelude.{◌≡◌, ◌+◌, ◌*◌, ◌≤◌, [], ◌++◌, length, decimal};
ghost use Rattle.arrayvec.specs.ArrayVec.{array_vec_len};
ghost use Rattle.link_report.specs.Text.{hex2, hex4, escaped, number_text};

use crate::page::{hex_digits, write_escaped, write_hex4};
use arrayvec::ArrayVec;
use itoa::Buffer;
use link_wire::{TEXT_MAX, Text};

/// The greatest length of a line in bytes, with its newline.
///
/// Every line fits in it.
pub const LINE_MAX: usize = TEXT_MAX;

/// A report line as it is written, in bytes.
pub type Line = ArrayVec<u8, LINE_MAX>;

/// Appends `bytes` unchanged.
#[inline(always)]
pub(crate) fn put_bytes(line: &mut Line, bytes: &[u8])
    requires { array_vec_len line.old + length bytes.now ≤ LINE_MAX }
    ensures items { line.new.items ≡ line.old.items ++ bytes.now }
    ensures len { array_vec_len line.new ≡ array_vec_len line.old + length bytes.now }
{
    line.try_extend_from_slice(bytes).unwrap();
}

/// Appends `text`.
#[inline(always)]
pub fn put_text(line: &mut Line, text: &str)
    requires { array_vec_len line.old + length text.now ≤ LINE_MAX }
    ensures items { line.new.items ≡ line.old.items ++ text.now }
    ensures len { array_vec_len line.new ≡ array_vec_len line.old + length text.now }
{
    put_bytes(line, text.as_bytes());
}

/// Appends `number` in decimal, without leading zeros. It takes at most 20 bytes.
#[tactic(auto, using(crate::proofs::Digits::length_of_decimal))]
pub fn put_decimal(line: &mut Line, number: u64)
    requires { array_vec_len line.old + 20 ≤ LINE_MAX }
    ensures items { line.new.items ≡ line.old.items ++ decimal number }
    ensures len { array_vec_len line.new ≤ array_vec_len line.old + 20 }
{
    put_text(line, Buffer::new().format(number));
}

/// Appends `byte` as two lower-case hexadecimal digits.
#[inline(always)]
pub fn put_hex2(line: &mut Line, byte: u8)
    requires { array_vec_len line.old + 2 ≤ LINE_MAX }
    ensures items { line.new.items ≡ line.old.items ++ hex2 byte }
    ensures len { array_vec_len line.new ≡ array_vec_len line.old + 2 }
{
    put_bytes(line, &hex_digits(byte));
}

/// Appends `number` as four lower-case hexadecimal digits.
pub fn put_hex4(line: &mut Line, number: u16)
    requires { array_vec_len line.old + 4 ≤ LINE_MAX }
    ensures items { line.new.items ≡ line.old.items ++ hex4 number }
    ensures len { array_vec_len line.new ≡ array_vec_len line.old + 4 }
{
    let mut page = [0; 4];
    let end = write_hex4(&mut page, 0, number);
    put_bytes(line, &page[..end]);
}

/// Appends `bytes`: 21 to 7e except the backslash unchanged, and each other byte as `\x` and its
/// two hexadecimal digits.
pub fn put_escaped(line: &mut Line, bytes: &[u8])
    requires { array_vec_len line.old + 4 * length bytes.now ≤ LINE_MAX }
    ensures items { line.new.items ≡ line.old.items ++ escaped bytes.now }
    ensures len { array_vec_len line.new ≤ array_vec_len line.old + 4 * length bytes.now }
{
    let mut page = [0; TEXT_MAX];
    let end = write_escaped(&mut page, 0, bytes);
    put_bytes(line, &page[..end]);
}

/// Appends `label` and `number` in decimal.
#[tactic(auto, unfolding(crate::specs::Text::number_text))]
pub(crate) fn put_number(line: &mut Line, label: &str, number: u64)
    requires { array_vec_len line.old + length label.now + 20 ≤ LINE_MAX }
    ensures items { line.new.items ≡ line.old.items ++ number_text label.now number }
    ensures len { array_vec_len line.new ≤ array_vec_len line.old + length label.now + 20 }
{
    put_text(line, label);
    put_decimal(line, number);
}

/// Writes the text of `text` into an empty line, by way of a page.
pub(crate) fn put_whole<T: Text>(line: &mut Line, text: &T)
    requires { line.old.items ≡ [] }
    ensures { line.new.items ≡ T.text text.now }
{
    let mut page = [0; TEXT_MAX];
    let end = text.put(&mut page, 0);
    put_bytes(line, &page[..end]);
}
