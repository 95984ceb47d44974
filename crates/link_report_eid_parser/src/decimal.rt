//! Decimal numbers without leading zeros.

ghost use Rattle.std.specs.Prelude.{◌≡◌, ◌≢◌, ℕ, ◌^◌, ◌<◌, IfSome, IfNone, decimal};

use itoa::Buffer;

/// The number below 2^64 whose decimal digits these are, if there is one.
// `parse` also accepts a plus sign and leading zeros, which `decimal` does not write.
pub(crate) fn read_decimal(digits: &[u8]) -> Option<u64>
    ensures some { IfSome result (λ number. decimal number ≡ digits.now) }
    ensures fits { IfSome result (λ number. number < 2 ^ 64) }
    ensures none { IfNone result ((number : ℕ) → number < 2 ^ 64 → decimal number ≢ digits.now) }
{
    let Ok(text) = str::from_utf8(digits) else {
        return None;
    };
    let Ok(number) = text.parse::<u64>() else {
        return None;
    };
    if Buffer::new().format(number).as_bytes() == digits {
        Some(number)
    } else {
        None
    }
}
