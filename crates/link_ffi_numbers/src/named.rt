//! Faults by their numbers.

ghost use Rattle.std.specs.Prelude.{◌≡◌};
ghost use Rattle.link_ffi_numbers.specs.Named.{wire_by, order_by, answer_by, bundle_by, named_by};

use link_bundle_types::BundleFault;
use link_transfer::OrderFault;
use link_transfer_answer_judge::AnswerFault;
use link_wire::WireFault;

/// A fault of any kind.
#[derive(Clone, Copy, Debug, PartialEq, Eq)]
pub enum Named {
    /// A fault of a recording.
    Wire(WireFault),
    /// A fault of the order of messages.
    Order(OrderFault),
    /// A fault of an answer to a transfer.
    Answer(AnswerFault),
    /// A fault of a bundle.
    Bundle(BundleFault),
}

/// The fault of a recording with this code, or `None`. Only codes 3 to 6 look at the number.
fn wire_by(code: u64, number: u64) -> Option<WireFault>
    ensures { result ≡ wire_by code number }
{
    match code {
        1 => Some(WireFault::Truncated),
        2 => Some(WireFault::BadMagic),
        3 if number < 256 => Some(WireFault::BadVersion(number as u8)),
        4 if number < 256 => Some(WireFault::UnknownType(number as u8)),
        5 if number < 65536 => Some(WireFault::NodeIdTooLong(number as u16)),
        6 if number < 4294967296 => Some(WireFault::ListTooLong(number as u32)),
        7 => Some(WireFault::TooManyItems),
        8 => Some(WireFault::ItemsOverrun),
        _ => None,
    }
}

/// The fault of the order of messages that has this code, or `None`.
fn order_by(code: u64) -> Option<OrderFault>
    ensures { result ≡ order_by code }
{
    match code {
        51 => Some(OrderFault::SecondSessInit),
        52 => Some(OrderFault::SegmentBeforeSessInit),
        53 => Some(OrderFault::NoSuchOpenTransfer),
        54 => Some(OrderFault::StartRepeatsOpenId),
        55 => Some(OrderFault::StartAfterSessTerm),
        _ => None,
    }
}

/// The fault of an answer to a transfer that has this code, or `None`.
fn answer_by(code: u64) -> Option<AnswerFault>
    ensures { result ≡ answer_by code }
{
    match code {
        71 => Some(AnswerFault::OtherTransfer),
        72 => Some(AnswerFault::LengthFalls),
        73 => Some(AnswerFault::LengthNotSent),
        74 => Some(AnswerFault::EndTooEarly),
        _ => None,
    }
}

/// The fault of a bundle with this code, or `None`. Three faults share the code 105, which gives
/// `WrongKind`.
fn bundle_by(code: u64) -> Option<BundleFault>
    ensures { result ≡ bundle_by code }
{
    match code {
        101 => Some(BundleFault::Cut),
        102 => Some(BundleFault::Trailing),
        103 => Some(BundleFault::NotABundle),
        104 => Some(BundleFault::BadHead),
        105 => Some(BundleFault::WrongKind),
        106 => Some(BundleFault::BadCount),
        107 => Some(BundleFault::BadVersion),
        108 => Some(BundleFault::BadCheckType),
        109 => Some(BundleFault::BadScheme),
        110 => Some(BundleFault::BadSpecificPart),
        111 => Some(BundleFault::EidTooLong),
        112 => Some(BundleFault::BadCheckLength),
        113 => Some(BundleFault::CheckDiffers),
        114 => Some(BundleFault::BadBlockNumber),
        115 => Some(BundleFault::RepeatedBlockNumber),
        116 => Some(BundleFault::TooManyBlocks),
        117 => Some(BundleFault::NoPayloadLast),
        _ => None,
    }
}

/// The fault that has this code and this number, or `None` if no fault has them. Only codes 3 to 6
/// look at the number.
pub fn named_by(code: u64, number: u64) -> Option<Named>
    ensures { result ≡ named_by code number }
{
    if code < 51 {
        return wire_by(code, number).map(Named::Wire);
    }
    if code < 71 {
        return order_by(code).map(Named::Order);
    }
    if code < 101 {
        return answer_by(code).map(Named::Answer);
    }
    bundle_by(code).map(Named::Bundle)
}
