//! What the rules need of the primary block.

ghost use Rattle.std.specs.Prelude.{◌≡◌};
ghost use Rattle.link_bundle_types.specs.EidView.{viewed_eid};
ghost use Rattle.link_bundle_rules.specs.BundleFacts.{is_none_eid};

use crate::flags::{RECORD, is_set};
use crate::names::{bad_name, is_group};
use crate::rule::Endpoint;
use link_bundle_blocks::PrimaryBlock;
use link_bundle_types::EidView;
use link_rules_shared::Level;

/// What the rules need of the primary block.
#[derive(Clone, Copy, Debug)]
pub(crate) struct PrimaryFacts {
    /// The bundle processing control flags (RFC 9171 section 4.2.3).
    pub(crate) flags: u64,
    pub(crate) has_check: bool,
    /// Whether the source is dtn:none.
    pub(crate) is_anonymous: bool,
    /// Whether the creation time is 0.
    pub(crate) has_zero_time: bool,
    /// The first endpoint ID that is a text and no dtn name.
    pub(crate) bad_name: Option<Endpoint>,
    /// Whether the source is a dtn name of an endpoint that is no singleton.
    pub(crate) has_group_source: bool,
    /// The lifetime in milliseconds.
    pub(crate) lifetime: u64,
    /// The offset and the total length of a fragment.
    pub(crate) fragment: Option<(u64, u64)>,
}

/// What is kept before a primary block has come.
pub(crate) const NO_PRIMARY: PrimaryFacts = PrimaryFacts {
    flags: 0,
    has_check: false,
    is_anonymous: false,
    has_zero_time: false,
    bad_name: None,
    has_group_source: false,
    lifetime: 0,
    fragment: None,
};

/// Whether an endpoint ID is dtn:none.
pub(crate) fn is_none_eid(eid: &EidView<'_>) -> bool
    ensures { result ≡ is_none_eid (viewed_eid eid.now) }
{
    matches!(eid, EidView::DtnNone)
}

impl PrimaryFacts {
    ghost use Rattle.std.specs.Prelude.{◌≡◌, if◌then◌else◌};
    ghost use Rattle.link_bundle_blocks.specs.Blocks.{viewed_primary};
    ghost use Rattle.link_bundle_rules.specs.Flags.{forbids_reports};
    ghost use Rattle.link_bundle_rules.specs.BundleFacts.{is_later, primary_facts};
    ghost use Rattle.link_rules_shared.specs.declared.level.Level.TheVariants.{Must, Should};

    /// What the rules need of this primary block.
    #[inline(always)]
    pub(crate) fn of(primary: &PrimaryBlock<'_>) -> PrimaryFacts
        ensures { result ≡ primary_facts (viewed_primary primary.now) primary.now.check }
    {
        PrimaryFacts {
            flags: primary.flags,
            has_check: primary.check.is_some(),
            is_anonymous: is_none_eid(&primary.source),
            has_zero_time: primary.time == 0,
            bad_name: bad_name(primary),
            has_group_source: is_group(&primary.source),
            lifetime: primary.lifetime,
            fragment: primary.fragment,
        }
    }

    /// Whether the blocks must request no status reports.
    pub(crate) fn forbids_reports(&self) -> bool
        ensures { result ≡ forbids_reports self.now }
    {
        is_set(RECORD, self.flags) || self.is_anonymous
    }

    /// Whether the bundle is a fragment with an offset above 0.
    pub(crate) fn is_later(&self) -> bool
        ensures { result ≡ is_later self.now.fragment }
    {
        match self.fragment {
            Some((offset, _)) => offset > 0,
            None => false,
        }
    }

    /// The level of a rule that asks for a block or a check. A later fragment may lack blocks, so
    /// its level is `Should`.
    pub(crate) fn level(&self) -> Level
        ensures { result ≡ (if is_later self.now.fragment then Should else Must) }
    {
        if self.is_later() {
            Level::Should
        } else {
            Level::Must
        }
    }
}
