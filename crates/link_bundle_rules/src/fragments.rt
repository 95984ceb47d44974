//! Rules of fragments (RFC 9171 sections 3.1, 4.3.1, 5.8 and 5.9).

ghost use Rattle.std.specs.Prelude.{◌≡◌, ◌+◌, nat_lt};

use crate::flags::{NO_FRAGMENTS, is_set};
use crate::history::BundleHistory;
use crate::rule::BundleRule;
use link_rules_shared::Level;

/// Whether a payload of `size` bytes that begins at `offset` ends after `total`.
///
/// A sum of more than 64 bits is after every total.
fn ends_after(total: u64, offset: u64, size: u64) -> bool
    ensures { result ≡ nat_lt total (offset + size) }
{
    match offset.checked_add(size) {
        Some(end) => total < end,
        None => true,
    }
}

impl BundleHistory {
    ghost use Rattle.std.specs.Prelude.{◌≡◌, ℕ, Option, None};
    ghost use Rattle.link_bundle_rules.specs.Fragments.{is_no_fragment, ends_after_total, if_no_part, fragment, if_all, whole_fragment};
    ghost use Rattle.link_bundle_rules.specs.History.{bundle_of};

    /// The rule `fragment`, if a payload of `size` bytes breaks it.
    ///
    /// The result is the same for any `long_head`, the offset of the first head that is longer than
    /// it has to be.
    #[tactic(auto, unfolding(crate::specs::Fragments::fragment))]
    pub(crate) fn fragment(&self, size: u64) -> Option<BundleRule>
        ensures { (long_head : Option ℕ) → result ≡ fragment (bundle_of self.now long_head size) }
    {
        let part = self.primary.fragment?;
        self.if_no_part(part, size)
    }

    /// Whether the bundle must not be fragmented, or the payload of `size` bytes is empty.
    fn is_no_fragment(&self, size: u64) -> bool
        ensures { result ≡ is_no_fragment (bundle_of self.now None size) }
    {
        is_set(NO_FRAGMENTS, self.primary.flags) || size == 0
    }

    /// Whether the payload of `size` bytes ends after the total length, unless it may be
    /// ciphertext.
    ///
    /// `part` is the offset of the fragment and the total length of the original payload.
    fn ends_after_total(&self, part: (u64, u64), size: u64) -> bool
        ensures { result ≡ ends_after_total (bundle_of self.now None size) part }
    {
        let (offset, total) = part;
        !self.has_hidden_payload() && ends_after(total, offset, size)
    }

    /// The rule that a fragment breaks if the bundle must not be fragmented, or if the payload of
    /// `size` bytes is empty or ends after the total length. The end rests on data.
    ///
    /// `part` is the offset of the fragment and the total length of the original payload.
    fn if_no_part(&self, part: (u64, u64), size: u64) -> Option<BundleRule>
        ensures { result ≡ if_no_part (bundle_of self.now None size) part }
    {
        let (offset, total) = part;
        if self.is_no_fragment(size) {
            return Some(BundleRule::Fragment {
                offset,
                size,
                total,
                level: Level::Must,
            });
        }
        if !self.ends_after_total(part, size) {
            return None;
        }
        Some(BundleRule::Fragment {
            offset,
            size,
            total,
            level: self.data_level(),
        })
    }

    /// The rule `whole-fragment`, if a payload of `size` bytes breaks it.
    #[tactic(auto, unfolding(crate::specs::Fragments::whole_fragment))]
    pub(crate) fn whole_fragment(&self, size: u64) -> Option<BundleRule>
        ensures { (long_head : Option ℕ) → result ≡ whole_fragment (bundle_of self.now long_head size) }
    {
        let part = self.primary.fragment?;
        self.if_all(part, size)
    }

    /// The rule that a fragment breaks if its payload of `size` bytes is all of the original one. A
    /// payload that may be ciphertext is not judged.
    ///
    /// `part` is the offset of the fragment and the total length of the original payload.
    fn if_all(&self, part: (u64, u64), size: u64) -> Option<BundleRule>
        ensures { result ≡ if_all (bundle_of self.now None size) part }
    {
        let (offset, total) = part;
        let is_whole = offset == 0 && size == total && !self.has_hidden_payload();
        is_whole.then_some(BundleRule::WholeFragment { total })
    }
}
