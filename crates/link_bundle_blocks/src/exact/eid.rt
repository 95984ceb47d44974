//! Reads an endpoint ID (RFC 9171 section 4.2.5.1).
#![tactic(auto, unfolding(crate::specs::Reading::row_at))]

ghost use Rattle.std.specs.Prelude.{◌≡◌, ◌≤◌, IfOk, IfSome};
ghost use Rattle.link_bundle_types.specs.EidView.{viewed_eid};
ghost use Rattle.link_bundle_types.specs.ShortNames.{HasNoLongName};
ghost use Rattle.link_bundle_heads.specs.Rows as row;
ghost use Rattle.link_bundle_heads.specs.declared.endpoint.Scheme.TheVariants.{Dtn, Ipn};
ghost use Rattle.link_bundle_blocks.specs.Reading.{row_at};
ghost use Rattle.link_bundle_blocks.specs.EndpointId.{specific_at, eid_at};
ghost use Rattle.link_bundle_blocks.specs.Exact.{reading_by, reading_of};

use super::{PartFault, bytes_at, head_at, outcome_at, pair_at, unsigned_at};
use link_bundle_heads::{Scheme, row};
use link_bundle_types::EidView;

/// Reads the scheme of an endpoint ID.
fn scheme_at(bytes: &[u8], offset: usize) -> Result<(Scheme, usize), PartFault>
    ensures { reading_of result ≡ row_at row.scheme bytes.now offset }
{
    let (head, next) = head_at(bytes, offset)?;
    outcome_at(offset, next, row::scheme(head))
}

/// Reads the head of a specific part of scheme dtn, and returns the length of its name, if any.
fn dtn_part_at(bytes: &[u8], offset: usize) -> Result<(Option<u64>, usize), PartFault>
    ensures read { reading_of result ≡ row_at row.dtn_part bytes.now offset }
    ensures short { IfOk result (λ read. IfSome read.0 (λ size. size ≤ 1024)) }
{
    let (head, next) = head_at(bytes, offset)?;
    outcome_at(offset, next, row::dtn_part(head))
}

/// Reads the head of a specific part of scheme ipn, and returns its number of elements.
fn ipn_part_at(bytes: &[u8], offset: usize) -> Result<(u64, usize), PartFault>
    ensures { reading_of result ≡ row_at row.ipn_part bytes.now offset }
{
    let (head, next) = head_at(bytes, offset)?;
    outcome_at(offset, next, row::ipn_part(head))
}

/// Reads an endpoint ID.
#[tactic(auto, unfolding(crate::specs::EndpointId::eid_at))]
pub(crate) fn eid_at(bytes: &[u8], offset: usize) -> Result<(EidView<'_>, usize), PartFault>
    ensures read { reading_by viewed_eid result ≡ eid_at bytes.now offset }
    ensures short { IfOk result (λ read. HasNoLongName (viewed_eid read.0)) }
{
    let (_, offset) = pair_at(bytes, offset)?;
    let (scheme, offset) = scheme_at(bytes, offset)?;
    match scheme {
        Scheme::Dtn => dtn_at(bytes, offset),
        Scheme::Ipn => ipn_at(bytes, offset),
    }
}

/// Reads the specific part of scheme dtn.
#[tactic(auto, unfolding(crate::specs::EndpointId::specific_at, crate::specs::EndpointId::dtn_at))]
fn dtn_at(bytes: &[u8], offset: usize) -> Result<(EidView<'_>, usize), PartFault>
    ensures read { reading_by viewed_eid result ≡ specific_at Dtn bytes.now offset }
    ensures short { IfOk result (λ read. HasNoLongName (viewed_eid read.0)) }
{
    let (part, offset) = dtn_part_at(bytes, offset)?;
    match part {
        None => Ok((EidView::DtnNone, offset)),
        Some(size) => {
            let (name, offset) = bytes_at(size, bytes, offset)?;
            Ok((EidView::Dtn(name), offset))
        }
    }
}

/// Reads the specific part of scheme ipn.
#[tactic(auto, unfolding(crate::specs::EndpointId::specific_at, crate::specs::EndpointId::ipn_at))]
fn ipn_at(bytes: &[u8], offset: usize) -> Result<(EidView<'_>, usize), PartFault>
    ensures read { reading_by viewed_eid result ≡ specific_at Ipn bytes.now offset }
    ensures short { IfOk result (λ read. HasNoLongName (viewed_eid read.0)) }
{
    let (count, offset) = ipn_part_at(bytes, offset)?;
    let (first, offset) = unsigned_at(bytes, offset)?;
    let (second, offset) = unsigned_at(bytes, offset)?;
    if count != 3 {
        return Ok((EidView::Ipn(first, second), offset));
    }
    let (third, offset) = unsigned_at(bytes, offset)?;
    Ok((EidView::Ipn3(first, second, third), offset))
}
