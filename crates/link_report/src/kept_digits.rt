//! Digits that are kept from one number to the next.

ghost use Rattle.std.specs.Prelude.{◌≡◌, ◌+◌, ◌%◌, ◌<◌, ◌≤◌, ◌++◌, length, take, decimal};

use crate::page::write_decimal;
use link_wire::copy_into;

/// The digits of a multiple of 10,000, kept for the next number.
///
/// Numbers that grow slowly, such as offsets, mostly have the same digits except the last four.
#[derive(Drop)]
pub struct KeptDigits {
    /// The multiple of 10,000.
    round: u64,
    /// Its text, which ends with four zeros. The array may hold anything after the text.
    text: [u8; 20],
    /// The length of the text.
    len: usize,
    ghost some: { 0 < round },
    ghost zeros: { round % 10_000 ≡ 0 },
    ghost within: { len ≤ 20 },
    ghost kept: { take len text ≡ decimal round },
}

impl KeptDigits {
    /// Keeps the digits of 10,000.
    pub fn new() -> KeptDigits {
        KeptDigits::of(10_000)
    }

    /// The digits of this multiple of 10,000, which is not 0.
    fn of(round: u64) -> KeptDigits
        requires some { 0 < round }
        requires zeros { round % 10_000 ≡ 0 }
    {
        let mut text = [0; 20];
        let len = write_decimal(&mut text, 0, round);
        KeptDigits { round, text, len }
    }

    /// Keeps the digits of a number except its last four, if it has more than four.
    #[inline(always)]
    pub fn keep(&mut self, number: u64) {
        let round = number - number % 10_000;
        if round != self.round {
            self.set(round);
        }
    }

    /// Keeps the digits of this multiple of 10,000. If it is 0, the digits kept before stay.
    #[cold]
    #[inline(never)]
    fn set(&mut self, round: u64)
        requires { round % 10_000 ≡ 0 }
    {
        if round > 0 {
            *self = KeptDigits::of(round);
        }
    }

    /// Writes a number in decimal from `at` on, and returns the index after it.
    ///
    /// If the number differs from the kept multiple of 10,000 only in its last four digits, the
    /// kept text is copied. The last four digits of the number are then written over the four zeros
    /// at the end of the copy.
    #[inline(always)]
    pub(crate) fn write(&self, page: &mut [u8], at: usize, number: u64) -> usize
        requires { at + 20 ≤ length page.old }
        ensures text { take result page.new ≡ take at page.old ++ decimal number }
        ensures fits { result ≤ at + 20 }
        ensures size { length page.new ≡ length page.old }
    {
        let last = number % 10_000;
        if number - last != self.round {
            return write_decimal(page, at, number);
        }
        let text = self.text;
        copy_into(page, at, &text);
        let end = at + self.len;
        itoa::write_digits(last, page, end);
        end
    }
}
