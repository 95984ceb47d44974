//! The kind of data that a block has.

ghost use Rattle.std.specs.Prelude.{◌≡◌};
ghost use Rattle.link_report_blocks.specs.Kinds.{is_record, kind_of};

use link_bundle_data::DataKind;
use link_bundle_heads::row::is_fragment;

/// The bundle processing control flag "payload is an administrative record" (RFC 9171 section
/// 4.2.3).
const RECORD: u64 = 0x02;

/// Whether the payload of a bundle with these flags is a whole administrative record.
#[tactic(auto, unfolding(crate::specs::Kinds::is_record))]
fn is_record(flags: u64) -> bool
    ensures { result ≡ is_record flags }
{
    flags & RECORD == RECORD && !is_fragment(flags)
}

/// The kind of a block's data, or `None` if the data of such a block is not read.
///
/// `bundle_flags` are the bundle processing control flags (RFC 9171 section 4.2.3), and
/// `block_type` is the block type code (RFC 9171 section 4.4, RFC 9172 section 3). The payload is
/// read if it is an administrative record and the bundle is no fragment.
#[tactic(auto, unfolding(crate::specs::Kinds::kind_of))]
pub fn data_kind(bundle_flags: u64, block_type: u64) -> Option<DataKind>
    ensures { result ≡ kind_of bundle_flags block_type }
{
    match block_type {
        1 if is_record(bundle_flags) => Some(DataKind::Record),
        6 => Some(DataKind::PreviousNode),
        7 => Some(DataKind::BundleAge),
        10 => Some(DataKind::HopCount),
        11 | 12 => Some(DataKind::Security),
        _ => None,
    }
}
