//! The rows of the tables in docs/FORMATS.md. Each judges a head: its value, or its first fault.
//!
//! Each clause `lasts` says that no bytes that follow can mend the fault.
//!
//! The rows are inlined, since a result passes through memory at a call, and a row is a few
//! compares.
ghost use Rattle.std.specs.Prelude.{◌≡◌, ◌≤◌, ◌==◌, IfOk, IfErr, IfSome, IsTrue};
ghost use Rattle.std.specs.List.{list_any};
ghost use Rattle.link_bundle_types.specs.Faults.{lasts};
ghost use Rattle.link_bundle_heads.specs.Rows as row;

use crate::endpoint::Scheme;
use link_bundle_types::{BundleFault, EID_LIMIT};
use link_cbor::{CheckKind, Head};

/// The major types of heads in a bundle (RFC 8949 section 3.1).
pub const UNSIGNED: u8 = 0;

pub const BYTE_STRING: u8 = 2;

pub const TEXT_STRING: u8 = 3;

pub const ARRAY: u8 = 4;

const SIMPLE: u8 = 7;

/// The version of bundles (RFC 9171 section 4.3.1).
const VERSION: u64 = 7;

/// The bundle processing control flag "bundle is a fragment" (RFC 9171 section 4.2.3).
const FRAGMENT: u64 = 0x01;

/// The type code of the payload block (RFC 9171 section 4.1).
pub const PAYLOAD_TYPE: u64 = 1;

/// The block number of the payload block (RFC 9171 section 4.1).
const PAYLOAD_NUMBER: u64 = 1;

/// The value of a head of this major type, or `fault` for any other head or one without a value.
#[inline(always)]
fn of_major(fault: BundleFault, major: u8, head: Head) -> Result<u64, BundleFault>
    requires { IsTrue (lasts fault) }
    ensures judged { result ≡ row.of_major fault major head }
    ensures lasts { IfErr result (λ fault. IsTrue (lasts fault)) }
{
    match head.value {
        Some(value) if head.major == major => Ok(value),
        _ => Err(fault),
    }
}

/// The value of an unsigned integer.
///
/// The fault of another item is `WrongKind`.
#[inline(always)]
#[tactic(auto, unfolding(crate::specs::Rows::unsigned))]
pub fn unsigned(head: Head) -> Result<u64, BundleFault>
    ensures judged { result ≡ row.unsigned head }
    ensures lasts { IfErr result (λ fault. IsTrue (lasts fault)) }
{
    of_major(BundleFault::WrongKind, UNSIGNED, head)
}

/// The length of a block's data in bytes (RFC 9171 section 4.3.2).
///
/// The fault of another item, or of a byte string of indefinite length, is `WrongDataKind`.
#[inline(always)]
#[tactic(auto, unfolding(crate::specs::Rows::block_data))]
pub fn block_data(head: Head) -> Result<u64, BundleFault>
    ensures judged { result ≡ row.block_data head }
    ensures lasts { IfErr result (λ fault. IsTrue (lasts fault)) }
{
    of_major(BundleFault::WrongDataKind, BYTE_STRING, head)
}

/// The number of elements of an array. The fault of another item is `WrongKind`.
#[inline(always)]
#[tactic(auto, unfolding(crate::specs::Rows::array))]
fn array(head: Head) -> Result<u64, BundleFault>
    ensures judged { result ≡ row.array head }
    ensures lasts { IfErr result (λ fault. IsTrue (lasts fault)) }
{
    of_major(BundleFault::WrongKind, ARRAY, head)
}

/// The number of elements of an array, which has to be two.
///
/// The faults are `WrongKind` and `BadCount`, in this order.
#[inline(always)]
#[tactic(auto, unfolding(crate::specs::Rows::pair))]
pub fn pair(head: Head) -> Result<u64, BundleFault>
    ensures judged { result ≡ row.pair head }
    ensures lasts { IfErr result (λ fault. IsTrue (lasts fault)) }
{
    match array(head)? {
        2 => Ok(2),
        _ => Err(BundleFault::BadCount),
    }
}

/// Whether the head is the break of an indefinite length (RFC 8949 section 3.2.1).
#[inline(always)]
#[tactic(auto, unfolding(crate::specs::Rows::is_break))]
fn is_break(head: Head) -> bool
    ensures { result ≡ row.is_break head }
{
    head.major == SIMPLE && head.value.is_none()
}

/// The number of elements of the primary block's array, 8 to 11 (RFC 9171 section 4.3.1).
///
/// The faults are `WrongKind` and `BadCount`, in this order.
#[inline(always)]
#[tactic(auto, unfolding(crate::specs::Rows::primary_block))]
pub fn primary_block(head: Head) -> Result<u64, BundleFault>
    ensures judged { result ≡ row.primary_block head }
    ensures lasts { IfErr result (λ fault. IsTrue (lasts fault)) }
{
    match array(head)? {
        count @ 8..=11 => Ok(count),
        _ => Err(BundleFault::BadCount),
    }
}

/// The version of a bundle, which has to be 7 (RFC 9171 section 4.3.1).
///
/// The faults are `WrongKind` and `BadVersion`, in this order.
#[inline(always)]
#[tactic(auto, unfolding(crate::specs::Rows::version))]
pub fn version(head: Head) -> Result<u64, BundleFault>
    ensures judged { result ≡ row.version head }
    ensures lasts { IfErr result (λ fault. IsTrue (lasts fault)) }
{
    match unsigned(head)? {
        VERSION => Ok(VERSION),
        _ => Err(BundleFault::BadVersion),
    }
}

/// Whether a bundle with these flags is a fragment.
#[inline(always)]
#[tactic(auto, unfolding(crate::specs::Rows::is_fragment))]
pub fn is_fragment(flags: u64) -> bool
    ensures { result ≡ row.is_fragment flags }
{
    flags & FRAGMENT == FRAGMENT
}

/// The check type, which is `None` for 0 (RFC 9171 section 4.2.1).
///
/// The faults are `WrongKind` and `BadCheckType`, in this order.
#[inline(always)]
#[tactic(auto, unfolding(crate::specs::Rows::check_type))]
fn check_type(head: Head) -> Result<Option<CheckKind>, BundleFault>
    ensures judged { result ≡ row.check_type head }
    ensures lasts { IfErr result (λ fault. IsTrue (lasts fault)) }
{
    match unsigned(head)? {
        0 => Ok(None),
        1 => Ok(Some(CheckKind::Crc16)),
        2 => Ok(Some(CheckKind::Crc32)),
        _ => Err(BundleFault::BadCheckType),
    }
}

/// The number of elements that the check field adds to the array of its block.
#[inline(always)]
fn check_elements(kind: Option<CheckKind>) -> u64
    ensures { result ≡ row.check_elements kind }
{
    match kind {
        None => 0,
        Some(_) => 1,
    }
}

/// The check type of a primary block with these flags, whose array has `count` elements.
///
/// The faults are `WrongKind`, `BadCheckType` and `BadCount`, in this order. `BadCount` means that
/// `count` does not fit the flags and the check type.
#[inline(always)]
#[tactic(auto, unfolding(crate::specs::Rows::primary_check_type))]
pub fn primary_check_type(
    count: u64,
    flags: u64,
    head: Head,
) -> Result<Option<CheckKind>, BundleFault>
    ensures judged { result ≡ row.primary_check_type count flags head }
    ensures lasts { IfErr result (λ fault. IsTrue (lasts fault)) }
{
    let kind = check_type(head)?;
    let fragment_elements = if is_fragment(flags) { 2 } else { 0 };
    if count == 8 + fragment_elements + check_elements(kind) {
        Ok(kind)
    } else {
        Err(BundleFault::BadCount)
    }
}

/// The scheme of an endpoint ID, dtn or ipn (RFC 9171 section 4.2.5.1).
///
/// The faults are `WrongKind` and `BadScheme`, in this order.
#[inline(always)]
#[tactic(auto, unfolding(crate::specs::Rows::scheme))]
pub fn scheme(head: Head) -> Result<Scheme, BundleFault>
    ensures judged { result ≡ row.scheme head }
    ensures lasts { IfErr result (λ fault. IsTrue (lasts fault)) }
{
    match unsigned(head)? {
        1 => Ok(Scheme::Dtn),
        2 => Ok(Scheme::Ipn),
        _ => Err(BundleFault::BadScheme),
    }
}

/// The specific part of scheme dtn: the length of its name in bytes, or `None` for `dtn:none`.
///
/// The fault of a name of more than 1,024 bytes is `EidTooLong`. The fault of another item is
/// `BadSpecificPart`.
#[inline(always)]
#[tactic(auto, unfolding(crate::specs::Rows::dtn_part))]
pub fn dtn_part(head: Head) -> Result<Option<u64>, BundleFault>
    ensures judged { result ≡ row.dtn_part head }
    ensures short { IfOk result (λ part. IfSome part (λ length. length ≤ 1024)) }
    ensures lasts { IfErr result (λ fault. IsTrue (lasts fault)) }
{
    match (head.major, head.value) {
        (UNSIGNED, Some(0)) => Ok(None),
        (TEXT_STRING, Some(length)) if length <= EID_LIMIT as u64 => Ok(Some(length)),
        (TEXT_STRING, Some(_)) => Err(BundleFault::EidTooLong),
        _ => Err(BundleFault::BadSpecificPart),
    }
}

/// The specific part of scheme ipn: the number of elements of its array, two or three.
///
/// The fault of another number of elements is `BadCount`. The fault of another item, or of an array
/// of indefinite length, is `BadSpecificPart`.
#[inline(always)]
#[tactic(auto, unfolding(crate::specs::Rows::ipn_part))]
pub fn ipn_part(head: Head) -> Result<u64, BundleFault>
    ensures judged { result ≡ row.ipn_part head }
    ensures lasts { IfErr result (λ fault. IsTrue (lasts fault)) }
{
    match array(head) {
        Ok(count @ 2..=3) => Ok(count),
        Ok(_) => Err(BundleFault::BadCount),
        Err(_) => Err(BundleFault::BadSpecificPart),
    }
}

/// The number of elements of a canonical block's array, 5 or 6.
///
/// The payload block is still to come, so the fault of the break is `NoPayloadLast`. The faults of
/// other heads are `WrongKind` and `BadCount`, in this order.
#[inline(always)]
#[tactic(auto, unfolding(crate::specs::Rows::block))]
pub fn block(head: Head) -> Result<u64, BundleFault>
    ensures judged { result ≡ row.block head }
    ensures lasts { IfErr result (λ fault. IsTrue (lasts fault)) }
{
    if is_break(head) {
        return Err(BundleFault::NoPayloadLast);
    }
    match array(head)? {
        count @ 5..=6 => Ok(count),
        _ => Err(BundleFault::BadCount),
    }
}

/// Whether a number is among these.
// A loop instead of `contains`: for a few numbers, a call takes longer than the comparisons.
#[inline(always)]
fn is_among(number: u64, numbers: &[u64]) -> bool
    ensures { result ≡ list_any (λ earlier. earlier == number) numbers.now }
{
    for &earlier in numbers {
        if earlier == number {
            return true;
        }
    }
    false
}

/// The number of a block of this type, after blocks with these numbers.
///
/// The faults are `WrongKind`, `BadBlockNumber` and `RepeatedBlockNumber`, in this order.
#[inline(always)]
#[tactic(auto, unfolding(crate::specs::Rows::block_number))]
pub fn block_number(block_type: u64, numbers: &[u64], head: Head) -> Result<u64, BundleFault>
    ensures judged { result ≡ row.block_number block_type numbers.now head }
    ensures lasts { IfErr result (λ fault. IsTrue (lasts fault)) }
{
    let number = unsigned(head)?;
    if number == 0 || (number == PAYLOAD_NUMBER) != (block_type == PAYLOAD_TYPE) {
        return Err(BundleFault::BadBlockNumber);
    }
    if is_among(number, numbers) {
        return Err(BundleFault::RepeatedBlockNumber);
    }
    Ok(number)
}

/// The check type of a canonical block whose array has `count` elements.
///
/// The faults are `WrongKind`, `BadCheckType` and `BadCount`, in this order. `BadCount` means that
/// `count` does not fit the check type.
#[inline(always)]
#[tactic(auto, unfolding(crate::specs::Rows::block_check_type))]
pub fn block_check_type(count: u64, head: Head) -> Result<Option<CheckKind>, BundleFault>
    ensures judged { result ≡ row.block_check_type count head }
    ensures lasts { IfErr result (λ fault. IsTrue (lasts fault)) }
{
    let kind = check_type(head)?;
    if count == 5 + check_elements(kind) {
        Ok(kind)
    } else {
        Err(BundleFault::BadCount)
    }
}

/// The length of a check value in bytes (RFC 9171 section 4.2.2).
#[inline(always)]
pub fn check_width(kind: CheckKind) -> u64
    ensures { result ≡ row.check_width kind }
{
    match kind {
        CheckKind::Crc16 => 2,
        CheckKind::Crc32 => 4,
    }
}

/// The length of a check field's content in bytes, which has to be `check_width(kind)`.
///
/// The faults are `WrongCheckKind` and `BadCheckLength`, in this order.
#[inline(always)]
#[tactic(auto, unfolding(crate::specs::Rows::check_field))]
pub fn check_field(kind: CheckKind, head: Head) -> Result<u64, BundleFault>
    ensures judged { result ≡ row.check_field kind head }
    ensures lasts { IfErr result (λ fault. IsTrue (lasts fault)) }
{
    let count = of_major(BundleFault::WrongCheckKind, BYTE_STRING, head)?;
    if count == check_width(kind) {
        Ok(count)
    } else {
        Err(BundleFault::BadCheckLength)
    }
}

/// Returns true for the break that closes the bundle, after the payload block.
///
/// Any other head has the fault `NoPayloadLast`.
#[inline(always)]
#[tactic(auto, unfolding(crate::specs::Rows::closing))]
pub fn closing(head: Head) -> Result<bool, BundleFault>
    ensures judged { result ≡ row.closing head }
    ensures lasts { IfErr result (λ fault. IsTrue (lasts fault)) }
{
    if is_break(head) {
        Ok(true)
    } else {
        Err(BundleFault::NoPayloadLast)
    }
}
