//! Rules of the flags of bundles and blocks (RFC 9171 sections 4.2.3 and 4.2.4).

ghost use Rattle.std.specs.Prelude.{◌≡◌};
ghost use Rattle.link_bundle_rules.specs.Flags.{is_set, requests_reports, if_reporting, if_other_block_flags};

use crate::block::BlockFacts;
use crate::rule::BundleRule;
use link_rules_shared::has_other_flags;

/// The payload is an administrative record.
pub(crate) const RECORD: u64 = 0x00_0002;

/// The bundle must not be fragmented.
pub(crate) const NO_FRAGMENTS: u64 = 0x00_0004;

/// Status reports are requested of reception, forwarding, delivery and deletion.
const REPORT_REQUESTS: u64 = 0x07_4000;

/// The bundle processing control flags that are defined.
pub(crate) const BUNDLE_FLAGS: u64 = 0x07_4067;

/// A status report is requested if the block cannot be processed.
const BLOCK_REPORT: u64 = 0x02;

/// The block processing control flags that are defined.
const BLOCK_FLAGS: u64 = 0x17;

/// Whether a flag is set.
pub(crate) fn is_set(flag: u64, flags: u64) -> bool
    ensures { result ≡ is_set flag flags }
{
    flags & flag == flag
}

/// Whether some status report is requested.
pub(crate) fn requests_reports(flags: u64) -> bool
    ensures { result ≡ requests_reports flags }
{
    flags & REPORT_REQUESTS != 0
}

/// The rule that a block breaks if it requests a status report.
///
/// The rule applies only in a bundle in which no block may request one. Whether the bundle is such
/// a bundle is not judged here.
pub(crate) fn if_reporting(block: &BlockFacts) -> Option<BundleRule>
    ensures { result ≡ if_reporting block.now }
{
    is_set(BLOCK_REPORT, block.flags).then_some(BundleRule::BlockReports {
        block: block.number,
    })
}

/// The rule that a block breaks by a flag that is not defined.
pub(crate) fn if_other_block_flags(block: &BlockFacts) -> Option<BundleRule>
    ensures { result ≡ if_other_block_flags block.now }
{
    let flags = block.flags;
    has_other_flags(BLOCK_FLAGS, flags).then_some(BundleRule::BlockFlags {
        block: block.number,
        flags,
    })
}
