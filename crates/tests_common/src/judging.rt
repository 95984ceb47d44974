//! The options of `check` in a form that tables of tests can hold.

use link_tools::{BundleCheckOptions, CheckOptions, NodeId, PeerLimits};

/// The options of a run of `check` over a recording, with the node ID of `--own` as bytes.
#[derive(Clone, Copy)]
pub struct Judging {
    pub must: bool,
    pub own: &'static [u8],
    pub peer: PeerLimits,
}

impl Judging {
    /// The same options in the type that `check` takes. No row has a node ID of more than 1,024
    /// bytes, which this type cannot hold.
    pub fn options(&self) -> CheckOptions {
        CheckOptions {
            must: self.must,
            own: NodeId::try_from(self.own).unwrap_or_default(),
            peer: self.peer,
        }
    }
}

/// The options of a run of `check` over bundles, with the node ID of `--own` as bytes.
#[derive(Clone, Copy)]
pub struct BundleJudging {
    pub must: bool,
    pub own: &'static [u8],
}

impl BundleJudging {
    /// The same options in the type that `bundle_check` takes. No row has a node ID of more than
    /// 1,024 bytes, which this type cannot hold.
    pub fn options(&self) -> BundleCheckOptions {
        BundleCheckOptions {
            must: self.must,
            own: NodeId::try_from(self.own).unwrap_or_default(),
        }
    }
}

/// All rules, for bundles of every node and a peer whose limits are not known.
pub const ALL_RULES: Judging = Judging {
    must: false,
    own: b"",
    peer: PeerLimits {
        segment: None,
        transfer: None,
    },
};

/// All rules of bundles, for those of every node.
pub const ALL_RULES_OF_BUNDLES: BundleJudging = BundleJudging {
    must: false,
    own: b"",
};
