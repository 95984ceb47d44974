//! The rule that the data of a transfer breaks.

ghost use Rattle.std.specs.Prelude.{◌≡◌, ℕ, List, Some, Err};
ghost use Rattle.link_rules_shared.specs.Heads.{unread_of};
ghost use Rattle.link_session_rules.specs.TransferData.{may_be_bundle, data_rule};

use crate::rule::TransferRule;
use link_bundle_types::BundleFault;
use link_rules_shared::Unread;

/// Whether data with a fault at offset `byte` may be a bundle that this toolkit does not read.
///
/// It may be one if the fault is a limit of this toolkit (an endpoint scheme, a long dtn name or
/// many blocks). If the fault is `NotABundle`, it may be one if the data begins as a bundle in tag
/// 55799 does. For four other faults, it may be one if the fault is at a head of a kind that this
/// toolkit reads nowhere. The fault decides which of these kinds count. `unread` says where the
/// first head of each such kind is.
fn may_be_bundle(unread: &Unread, fault: BundleFault, byte: u64) -> bool
    ensures { result ≡ may_be_bundle unread.now fault byte }
{
    let has_string = unread.string == Some(byte);
    let has_item = unread.item == Some(byte);
    match fault {
        BundleFault::BadScheme | BundleFault::EidTooLong | BundleFault::TooManyBlocks => true,
        BundleFault::NotABundle => unread.tagged,
        BundleFault::WrongKind | BundleFault::BadSpecificPart => has_string || has_item,
        BundleFault::WrongDataKind => has_item || unread.encoded == Some(byte),
        BundleFault::WrongCheckKind => has_item,
        _ => false,
    }
}

/// The rule that the data of a closed transfer breaks, if it has a fault at offset `byte`.
///
/// `unread` says where the data has heads that this toolkit does not read.
#[tactic(auto, unfolding(crate::specs::TransferData::data_rule))]
pub fn data_rule(fault: BundleFault, byte: u64, unread: &Unread) -> TransferRule
    ensures { (bytes : List ℕ) → unread.now ≡ unread_of bytes
        → Some result ≡ data_rule bytes (Err (fault, byte)) }
{
    if may_be_bundle(unread, fault, byte) {
        return TransferRule::NotRead { fault, byte };
    }
    TransferRule::Bundle { fault, byte }
}
