//! The blocks and the endpoint IDs that numbers describe.

ghost use Rattle.std.specs.Prelude.{◌≡◌, option_map, IfSome};
ghost use Rattle.link_bundle_writer.specs.NewPrimary.{viewed_new};
ghost use Rattle.link_ffi_writer.specs.Bundles.{check_by, fragment_by, primary_by, head_by, form_shown};

use link_bundle_types::EidForm;
use link_bundle_writer::{BlockHead, CheckKind, NewPrimary};
use link_ffi_numbers::block::BlockNumbers;
use link_ffi_numbers::bundle::{Bundle, EidNumbers, eid_by};

/// The check of a block with this check type. Type 0 is `Some(None)`: the block has no check. The
/// result is `None` if there is no such type.
pub fn check_by(check: u64) -> Option<Option<CheckKind>>
    ensures { result ≡ check_by check }
{
    match check {
        0 => Some(None),
        1 => Some(Some(CheckKind::Crc16)),
        2 => Some(Some(CheckKind::Crc32)),
        _ => None,
    }
}

/// The offset and the total length of a fragment with these numbers. It is `Some(None)` for a
/// bundle that is no fragment, and `None` if no bundle has these numbers.
fn fragment_by(is_fragment: u64, offset: u64, total: u64) -> Option<Option<(u64, u64)>>
    ensures { result ≡ fragment_by is_fragment offset total }
{
    match is_fragment {
        0 if offset == 0 && total == 0 => Some(None),
        1 => Some(Some((offset, total))),
        _ => None,
    }
}

/// The primary block of a bundle with these numbers and these names, or `None` if no bundle has
/// them.
pub fn primary_by<'a>(
    bundle: &Bundle,
    check: Option<CheckKind>,
    destination: &'a [u8],
    source: &'a [u8],
    report_to: &'a [u8],
) -> Option<NewPrimary<'a>>
    ensures primary { option_map viewed_new result ≡ primary_by bundle.now (record {
      destination = destination.now;
      source = source.now;
      report_to = report_to.now;
    }) }
    ensures check { IfSome result (λ new. new.check ≡ check) }
{
    let destination = eid_by(&bundle.destination, destination)?;
    let source = eid_by(&bundle.source, source)?;
    let report_to = eid_by(&bundle.report_to, report_to)?;
    let fragment = fragment_by(
        bundle.is_fragment,
        bundle.fragment_offset,
        bundle.fragment_total,
    )?;
    Some(NewPrimary {
        flags: bundle.flags,
        check,
        destination,
        source,
        report_to,
        time: bundle.time,
        sequence: bundle.sequence,
        lifetime: bundle.lifetime,
        fragment,
    })
}

/// The head of a canonical block with these numbers, or `None` if no canonical block has them.
pub fn block_head_by(block: &BlockNumbers) -> Option<BlockHead>
    ensures { result ≡ head_by block.now }
{
    if block.kind != 2 {
        return None;
    }
    let check = check_by(block.check)?;
    Some(BlockHead {
        block_type: block.block_type,
        number: block.number,
        flags: block.flags,
        check,
        data_length: block.data_length,
    })
}

/// The numbers of an endpoint ID of this form, whose dtn name has `size` bytes.
pub fn form_shown(form: EidForm, size: usize) -> EidNumbers
    ensures { result ≡ form_shown form size }
{
    let none = EidNumbers {
        kind: 0,
        allocator: 0,
        node: 0,
        service: 0,
        name_length: 0,
    };
    match form {
        EidForm::DtnNone => EidNumbers { kind: 1, ..none },
        EidForm::Dtn => EidNumbers {
            kind: 2,
            name_length: size as u64,
            ..none
        },
        EidForm::Ipn(node, service) => EidNumbers {
            kind: 3,
            node,
            service,
            ..none
        },
        EidForm::Ipn3(allocator, node, service) => EidNumbers {
            kind: 4,
            allocator,
            node,
            service,
            ..none
        },
    }
}
