//! The judgement of the heads that block data has beside those of `link_bundle_heads`.
ghost use Rattle.std.specs.Prelude.{◌≡◌, ◌≤◌, IfOk};
ghost use Rattle.link_bundle_heads.specs.Rows.{array};
ghost use Rattle.link_bundle_data.specs.DataRows as row;

use crate::values::Integer;
use link_bundle_heads::row::ARRAY;
use link_bundle_types::BundleFault;
use link_cbor::Head;

/// The major type of negative integers (RFC 8949 section 3.1).
const NEGATIVE: u8 = 1;

/// The major type of simple values and floats (RFC 8949 section 3.3).
const SIMPLE: u8 = 7;

/// The number of elements of an array. Any other head is `WrongKind`.
#[inline(always)]
#[tactic(auto, unfolding(link_bundle_heads::specs::Rows::array))]
pub fn array(head: Head) -> Result<u64, BundleFault>
    ensures { result ≡ array head }
{
    match head.value {
        Some(count) if head.major == ARRAY => Ok(count),
        _ => Err(BundleFault::WrongKind),
    }
}

/// The number of elements of a status report's array: four, or six for a fragment.
///
/// Another number is `BadCount`. Another head, or an array of indefinite length, is `WrongKind`.
#[tactic(auto, unfolding(crate::specs::DataRows::four_or_six))]
pub fn four_or_six(head: Head) -> Result<u64, BundleFault>
    ensures { result ≡ row.four_or_six head }
{
    match array(head)? {
        count @ (4 | 6) => Ok(count),
        _ => Err(BundleFault::BadCount),
    }
}

/// The number of status assertions, at least four. A smaller one is `BadCount`.
#[tactic(auto, unfolding(crate::specs::DataRows::four_or_more))]
pub fn four_or_more(head: Head) -> Result<u64, BundleFault>
    ensures judged { result ≡ row.four_or_more head }
    ensures least { IfOk result (λ count. 4 ≤ count) }
{
    match array(head)? {
        count @ 4.. => Ok(count),
        _ => Err(BundleFault::BadCount),
    }
}

/// The number of elements of a status assertion's array: two if it has a time, and one if not.
#[tactic(auto, unfolding(crate::specs::DataRows::one_or_two))]
pub fn one_or_two(head: Head) -> Result<u64, BundleFault>
    ensures { result ≡ row.one_or_two head }
{
    match array(head)? {
        count @ 1..=2 => Ok(count),
        _ => Err(BundleFault::BadCount),
    }
}

/// The value of an integer of either sign. Any other head is `WrongKind`.
#[tactic(auto, unfolding(crate::specs::DataRows::integer))]
pub fn integer(head: Head) -> Result<Integer, BundleFault>
    ensures { result ≡ row.integer head }
{
    match head.value {
        Some(argument) if head.major <= NEGATIVE => Ok(Integer {
            negative: head.major == NEGATIVE,
            argument,
        }),
        _ => Err(BundleFault::WrongKind),
    }
}

/// The value of a Boolean whose head has `size` bytes.
///
/// It is one byte, `f4` for false (20) or `f5` for true (21). A longer head of major type 7
/// belongs to a float or to another simple value.
#[tactic(auto, unfolding(crate::specs::DataRows::boolean))]
fn boolean(size: u64, head: Head) -> Result<bool, BundleFault>
    ensures { result ≡ row.boolean size head }
{
    match head.value {
        Some(20) if head.major == SIMPLE && size == 1 => Ok(false),
        Some(21) if head.major == SIMPLE && size == 1 => Ok(true),
        _ => Err(BundleFault::WrongKind),
    }
}

/// The Boolean of a status assertion, which has to be true if a time follows it.
#[tactic(auto, unfolding(crate::specs::DataRows::assertion))]
pub fn assertion(has_time: bool, size: u64, head: Head) -> Result<bool, BundleFault>
    ensures { result ≡ row.assertion has_time size head }
{
    match boolean(size, head)? {
        false if has_time => Err(BundleFault::WrongKind),
        asserted => Ok(asserted),
    }
}
