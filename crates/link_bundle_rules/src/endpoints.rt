//! Rules of endpoint IDs (RFC 9171 sections 4.2.5.1.1 and 5.2).

ghost use Rattle.std.specs.Prelude.{◌≡◌};
ghost use Rattle.link_bundle_rules.specs.Endpoints.{bad_name_in};

use crate::block::{BlockFacts, DataFacts};
use crate::history::BundleHistory;
use crate::rule::{BundleRule, Endpoint};
use crate::rules::first_found;
use crate::source::KnownSource;

/// The endpoint ID in the data of block `number`, if it is a text and no dtn name. That of a status
/// report binds the source.
fn bad_name_in(source: KnownSource, number: u64, found: DataFacts) -> Option<Endpoint>
    ensures { result ≡ bad_name_in source number found }
{
    match found {
        DataFacts::PreviousNode(node) if node.has_bad_name => Some(Endpoint::PreviousNode(number)),
        // The security source is a text and no dtn name.
        DataFacts::Security(true) => Some(Endpoint::SecuritySource(number)),
        DataFacts::StatusReport(report) if report.has_bad_source => {
            source.if_judged(Some(Endpoint::ReportSource))
        }
        _ => None,
    }
}

impl BundleHistory {
    ghost use Rattle.std.specs.Prelude.{◌≡◌, ℕ, Option, None};
    ghost use Rattle.link_bundle_rules.specs.Endpoints.{bad_name_of, dtn_name, source_node};
    ghost use Rattle.link_bundle_rules.specs.History.{bundle_of};
    ghost use Rattle.link_bundle_rules.specs.Sources.{if_judged};
    ghost use Rattle.link_bundle_rules.specs.BundleFacts.{find_map};
    ghost use Rattle.std.specs.Option.{option_or};

    /// What `bad_name_in` returns for a block, unless its data may be ciphertext.
    fn bad_name_of(&self, source: KnownSource, block: &BlockFacts) -> Option<Endpoint>
        ensures { result ≡ bad_name_of source (bundle_of self.now None 0) block.now }
    {
        let read = self.unless_hidden(block)?;
        bad_name_in(source, read.number, read.data)
    }

    /// The first dtn endpoint ID of the bundle whose text is not a dtn name, among those that are
    /// judged.
    fn first_bad_name(&self, source: KnownSource) -> Option<Endpoint>
        ensures { result ≡ option_or (if_judged source self.now.primary.bad_name)
            (find_map (bad_name_of source (bundle_of self.now None 0)) self.now.blocks.items) }
    {
        let primary = source.if_judged(self.primary.bad_name);
        if primary.is_some() {
            return primary;
        }
        first_found(
            self.blocks.as_slice(),
            |block| self.bad_name_of(source, block),
        )
    }

    /// The rule `dtn-name`, if an endpoint ID breaks it.
    #[tactic(auto, unfolding(crate::specs::Endpoints::dtn_name))]
    pub(crate) fn dtn_name(&self, source: KnownSource) -> Option<BundleRule>
        ensures { (long_head : Option ℕ) (payload_length : ℕ)
            → result ≡ dtn_name source (bundle_of self.now long_head payload_length) }
    {
        let of = self.first_bad_name(source)?;
        Some(BundleRule::DtnName { of })
    }

    /// The rule `source-node`, if the source breaks it.
    #[tactic(auto, unfolding(crate::specs::Endpoints::source_node))]
    pub(crate) fn source_node(&self) -> Option<BundleRule>
        ensures { (long_head : Option ℕ) (payload_length : ℕ)
            → result ≡ source_node (bundle_of self.now long_head payload_length) }
    {
        self.primary
            .has_group_source
            .then_some(BundleRule::SourceNode)
    }
}
