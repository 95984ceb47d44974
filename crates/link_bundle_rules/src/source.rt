//! Whose rules of bundles are judged.

ghost use Rattle.std.specs.Prelude.{◌≡◌};
ghost use Rattle.link_bundle_types.specs.EidView.{viewed_eid};
ghost use Rattle.link_bundle_rules.specs.Sources.{known_source_of, is_judged, if_judged};

use link_bundle_types::EidView;
use link_rules_shared::is_node_of;

/// The node of a bundle's source, beside the node whose bundles are judged.
#[derive(Clone, Copy, Debug, PartialEq, Eq)]
pub enum KnownSource {
    /// It is the node whose bundles are judged, or the one that sent the bundle.
    Own,
    /// It may be any node, and the bundles of every node are judged.
    Any,
    /// It is not the node whose bundles are judged.
    Other,
}

impl KnownSource {
    /// What is known of the source of a bundle.
    ///
    /// `own` is the node ID of the node whose bundles are judged; if it is empty, those of every
    /// node are. `sender` is the node ID of the entity that sent the bundle, or empty.
    pub fn of(own: &[u8], sender: &[u8], source: &EidView<'_>) -> KnownSource
        ensures { result ≡ known_source_of own.now sender.now (viewed_eid source.now) }
    {
        match own {
            [] if is_node_of(sender, source) => KnownSource::Own,
            [] => KnownSource::Any,
            _ if is_node_of(own, source) => KnownSource::Own,
            _ => KnownSource::Other,
        }
    }

    /// Whether the rules that bind the source are judged.
    pub(crate) fn is_judged(self) -> bool
        ensures { result ≡ is_judged self }
    {
        !matches!(self, KnownSource::Other)
    }

    /// A rule that binds the source, or an item of the source, if such rules are judged.
    #[tactic(auto, unfolding(crate::specs::Sources::if_judged))]
    pub(crate) fn if_judged<T: Copy>(self, item: Option<T>) -> Option<T>
        ensures { result ≡ if_judged self item }
    {
        if self.is_judged() { item } else { None }
    }
}
