//! The codes and the texts of the faults of bundles.

ghost use Rattle.std.specs.Prelude.{◌≡◌, ◌≤◌, length};
ghost use Rattle.link_report.specs.BundleFault.{code_text, bundle_fault_text};

use link_bundle_types::BundleFault;

/// The code of a bundle's fault, B1 to B17.
#[tactic(auto, unfolding(crate::specs::BundleFault::code_text))]
pub fn code_of(fault: BundleFault) -> &'static str
    ensures code { result.now ≡ code_text fault }
    ensures short { length result.now ≤ 3 }
{
    match fault {
        BundleFault::Cut => "B1",
        BundleFault::Trailing => "B2",
        BundleFault::NotABundle => "B3",
        BundleFault::BadHead => "B4",
        BundleFault::WrongKind | BundleFault::WrongDataKind | BundleFault::WrongCheckKind => "B5",
        BundleFault::BadCount => "B6",
        BundleFault::BadVersion => "B7",
        BundleFault::BadCheckType => "B8",
        BundleFault::BadScheme => "B9",
        BundleFault::BadSpecificPart => "B10",
        BundleFault::EidTooLong => "B11",
        BundleFault::BadCheckLength => "B12",
        BundleFault::CheckDiffers => "B13",
        BundleFault::BadBlockNumber => "B14",
        BundleFault::RepeatedBlockNumber => "B15",
        BundleFault::TooManyBlocks => "B16",
        BundleFault::NoPayloadLast => "B17",
    }
}

/// The text of a bundle's fault.
#[tactic(auto, unfolding(crate::specs::BundleFault::bundle_fault_text))]
pub fn words_of(fault: BundleFault) -> &'static str
    ensures words { result.now ≡ bundle_fault_text fault }
    ensures short { length result.now ≤ 40 }
{
    match fault {
        BundleFault::Cut => "input ends inside a bundle",
        BundleFault::Trailing => "bytes after the bundle",
        BundleFault::NotABundle => "not a bundle",
        BundleFault::BadHead => "ill-formed head",
        BundleFault::WrongKind | BundleFault::WrongDataKind | BundleFault::WrongCheckKind =>
            "wrong kind of item",
        BundleFault::BadCount => "wrong number of elements",
        BundleFault::BadVersion => "unsupported bundle version",
        BundleFault::BadCheckType => "unknown check type",
        BundleFault::BadScheme => "unknown endpoint scheme",
        BundleFault::BadSpecificPart => "wrong scheme-specific part",
        BundleFault::EidTooLong => "endpoint id too long",
        BundleFault::BadCheckLength => "wrong check length",
        BundleFault::CheckDiffers => "check differs",
        BundleFault::BadBlockNumber => "wrong block number",
        BundleFault::RepeatedBlockNumber => "repeated block number",
        BundleFault::TooManyBlocks => "too many blocks",
        BundleFault::NoPayloadLast => "no payload block at the end",
    }
}
