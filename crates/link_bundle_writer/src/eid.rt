//! Endpoint IDs in CBOR (RFC 9171 section 4.2.5.1).

ghost use Rattle.std.specs.Prelude.{◌≡◌, ◌+◌, ◌≤◌, ◌++◌, true};
ghost use Rattle.arrayvec.specs.ArrayVec.{array_vec_len};
ghost use Rattle.link_bundle_types.specs.EidView.{viewed_eid};
ghost use Rattle.link_bundle_writer.specs.EndpointIds.{eid_bytes, is_short, eid_of};
ghost use Rattle.link_writing.specs.Writes.{WritesIntoSlice};

use crate::head::{TEXT_STRING, put_array, put_head, put_unsigned};
use arrayvec::ArrayVec;
use link_bundle_types::{EID_LIMIT, EidView};
use link_writing::{WriteFault, put_bytes, write_bytes};

/// A room for every endpoint ID: three heads and a name, or six heads.
pub const EID_MAX: usize = 1051;

/// The numbers of the schemes dtn and ipn.
const DTN: u64 = 1;

const IPN: u64 = 2;

/// Whether a dtn name has at most 1,024 bytes. Other endpoint IDs have no name.
pub(crate) fn is_short(eid: &EidView<'_>) -> bool
    ensures { result ≡ is_short (viewed_eid eid.now) }
{
    match *eid {
        EidView::Dtn(name) => name.len() <= EID_LIMIT,
        _ => true,
    }
}

/// Appends an endpoint ID.
#[tactic(auto, unfolding(crate::specs::EndpointIds::eid_bytes))]
pub(crate) fn put_eid<const N: usize>(buffer: &mut ArrayVec<u8, N>, eid: &EidView<'_>)
    requires short { is_short (viewed_eid eid.now) ≡ true }
    requires room { array_vec_len buffer.old + EID_MAX ≤ N }
    ensures items { buffer.new.items ≡ buffer.old.items ++ eid_bytes (viewed_eid eid.now) }
    ensures len { array_vec_len buffer.new ≤ array_vec_len buffer.old + EID_MAX }
{
    put_array(buffer, 2);
    match *eid {
        EidView::DtnNone => {
            put_unsigned(buffer, DTN);
            put_unsigned(buffer, 0);
        }
        EidView::Dtn(name) => {
            put_unsigned(buffer, DTN);
            put_head(buffer, TEXT_STRING, name.len() as u64);
            put_bytes(buffer, name);
        }
        EidView::Ipn(node, service) => {
            put_unsigned(buffer, IPN);
            put_array(buffer, 2);
            put_unsigned(buffer, node);
            put_unsigned(buffer, service);
        }
        EidView::Ipn3(allocator, node, service) => {
            put_unsigned(buffer, IPN);
            put_array(buffer, 3);
            put_unsigned(buffer, allocator);
            put_unsigned(buffer, node);
            put_unsigned(buffer, service);
        }
    }
}

/// Writes an endpoint ID to the start of the slice. Returns the number of bytes.
///
/// It is also the data of a previous node block (RFC 9171 section 4.4.1).
///
/// # Errors
///
/// A dtn name has more than 1,024 bytes, or the slice is too small.
pub fn write_eid(eid: &EidView<'_>, slice: &mut [u8]) -> Result<usize, WriteFault>
    ensures { WritesIntoSlice (eid_of (viewed_eid eid.now)) slice.old slice.new result }
{
    if !is_short(eid) {
        return Err(WriteFault::OutOfRange);
    }
    let mut bytes: ArrayVec<u8, EID_MAX> = ArrayVec::new();
    put_eid(&mut bytes, eid);
    write_bytes(bytes.as_slice(), slice)
}
