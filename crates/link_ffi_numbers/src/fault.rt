//! Faults as numbers.

ghost use Rattle.std.specs.Prelude.{◌≡◌};
ghost use Rattle.link_ffi_numbers.specs.Fault.{no_fault, bundle_code, bundle_fault, wire_numbers, wire_fault, wire_status, answer_code};

use crate::status::{FAULT, TRUNCATED};
use link_bundle_types::BundleFault;
use link_transfer_answer_judge::AnswerFault;
use link_wire::WireFault;

/// `struct tcpclkit_fault`: why bytes are refused.
#[repr(C)]
#[derive(Clone, Copy, Debug, PartialEq, Eq)]
pub struct Fault {
    /// The code of the fault, or 0.
    pub code: u64,
    /// The number that the code is about, or 0.
    pub number: u64,
    /// The offset of the fault in a bundle, or that of the message in a recording.
    pub offset: u64,
}

impl Fault {
    /// No fault.
    pub fn none() -> Fault
        ensures { result ≡ no_fault }
    {
        Fault {
            code: 0,
            number: 0,
            offset: 0,
        }
    }

    /// The fault of a bundle, at this offset.
    pub fn of_bundle(fault: BundleFault, offset: u64) -> Fault
        ensures { result ≡ bundle_fault fault offset }
    {
        Fault {
            code: bundle_code(fault),
            number: 0,
            offset,
        }
    }

    /// The fault of a recording, in the message that begins at this offset.
    pub fn of_wire(fault: WireFault, offset: u64) -> Fault
        ensures { result ≡ wire_fault fault offset }
    {
        let (code, number) = wire_numbers(fault);
        Fault {
            code,
            number,
            offset,
        }
    }
}

/// The code of a fault of a recording, and the number that the fault is about, or 0.
fn wire_numbers(fault: WireFault) -> (u64, u64)
    ensures { result ≡ wire_numbers fault }
{
    match fault {
        WireFault::Truncated => (1, 0),
        WireFault::BadMagic => (2, 0),
        WireFault::BadVersion(version) => (3, u64::from(version)),
        WireFault::UnknownType(kind) => (4, u64::from(kind)),
        WireFault::NodeIdTooLong(length) => (5, u64::from(length)),
        WireFault::ListTooLong(length) => (6, u64::from(length)),
        WireFault::TooManyItems => (7, 0),
        WireFault::ItemsOverrun => (8, 0),
    }
}

/// The status that a call returns for a fault of a recording.
pub fn wire_status(fault: WireFault) -> u32
    ensures { result ≡ wire_status fault }
{
    match fault {
        WireFault::Truncated => TRUNCATED,
        _ => FAULT,
    }
}

/// The code of a bundle's fault: 100 plus the fault's number in docs/FORMATS.md.
fn bundle_code(fault: BundleFault) -> u64
    ensures { result ≡ bundle_code fault }
{
    match fault {
        BundleFault::Cut => 101,
        BundleFault::Trailing => 102,
        BundleFault::NotABundle => 103,
        BundleFault::BadHead => 104,
        BundleFault::WrongKind | BundleFault::WrongDataKind | BundleFault::WrongCheckKind => 105,
        BundleFault::BadCount => 106,
        BundleFault::BadVersion => 107,
        BundleFault::BadCheckType => 108,
        BundleFault::BadScheme => 109,
        BundleFault::BadSpecificPart => 110,
        BundleFault::EidTooLong => 111,
        BundleFault::BadCheckLength => 112,
        BundleFault::CheckDiffers => 113,
        BundleFault::BadBlockNumber => 114,
        BundleFault::RepeatedBlockNumber => 115,
        BundleFault::TooManyBlocks => 116,
        BundleFault::NoPayloadLast => 117,
    }
}

/// The code of a fault of an answer to a transfer.
pub fn answer_code(fault: AnswerFault) -> u64
    ensures { result ≡ answer_code fault }
{
    match fault {
        AnswerFault::OtherTransfer => 71,
        AnswerFault::LengthFalls => 72,
        AnswerFault::LengthNotSent => 73,
        AnswerFault::EndTooEarly => 74,
    }
}
