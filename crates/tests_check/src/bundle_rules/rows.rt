//! Bundles, with the rules that each breaks.
//!
//! Most are rows of tests/python/rows, which has more of them.

pub(super) mod blocks;
pub(super) mod data;
pub(super) mod doubt;
pub(super) mod nodes;
pub(super) mod primary;
pub(super) mod together;

use link_bundle_rules::{BundleRule, Level};

/// The parts of a good bundle, and the rules that it breaks.
pub(crate) type Row = (&'static [&'static [u8]], &'static [BundleRule]);

/// The node ID of the node whose bundles and security blocks are judged, the parts of a good
/// bundle, and the rules that it breaks.
pub(crate) type NodeRow = (
    &'static [u8],
    &'static [&'static [u8]],
    &'static [BundleRule],
);

/// The parts of a good bundle, the rules that it breaks, and the level of each of them.
pub(crate) type LevelRow = (&'static [&'static [u8]], &'static [BundleRule], Level);

/// The beginning of a bundle that breaks no rule, up to its primary block: 25 bytes.
pub(crate) const CLEAN: &[u8] =
    b"\x9f\x89\x07\x00\x01\x82\x02\x82\x02\x01\x82\x02\x82\x01\x01\x82\x01\x00\x82\x01\
    \x00\x14\x42\xac\x4c";

/// The same for a bundle of the node ipn:9.0. Other bundles are of the node ipn:1.0, and so are
/// security blocks.
pub(crate) const CLEAN_9: &[u8] =
    b"\x9f\x89\x07\x00\x01\x82\x02\x82\x02\x01\x82\x02\x82\x09\x01\x82\x01\x00\x82\x01\
    \x00\x14\x42\xa6\xa0";

/// The same for a bundle without a check of its primary block.
pub(crate) const UNCHECKED: &[u8] =
    b"\x9f\x88\x07\x00\x00\x82\x02\x82\x02\x01\x82\x02\x82\x01\x01\x82\x01\x00\x82\x01\
    \x00\x14";

/// The same for a bundle without a source that must not be fragmented.
pub(crate) const ANONYMOUS: &[u8] =
    b"\x9f\x89\x07\x04\x01\x82\x02\x82\x02\x01\x82\x01\x00\x82\x01\x00\x82\x01\x00\x14\
    \x42\xb3\xc4";

/// The same for the beginning of a payload of two bytes.
pub(crate) const FRAGMENT: &[u8] =
    b"\x9f\x8b\x07\x01\x01\x82\x02\x82\x02\x01\x82\x02\x82\x01\x01\x82\x01\x00\x82\x01\
    \x00\x14\x00\x02\x42\x1b\x00";

/// The same for an administrative record.
pub(crate) const RECORD: &[u8] =
    b"\x9f\x89\x07\x02\x01\x82\x02\x82\x02\x01\x82\x02\x82\x01\x01\x82\x01\x00\x82\x01\
    \x00\x14\x42\xf6\xe7";

/// The end of a bundle, from its payload block on.
pub(crate) const PAYLOAD: &[u8] = b"\x85\x01\x01\x00\x00\x41\x78\xff";

/// The end of a status report of a bundle that was received.
pub(crate) const GOOD_RECORD: &[u8] =
    b"\x85\x01\x01\x00\x00\x55\x82\x01\x84\x84\x81\xf5\x81\xf4\x81\xf4\x81\xf4\x00\x82\
    \x02\x82\x02\x01\x82\x01\x00\xff";

/// The end of a record that is an array of indefinite length.
pub(crate) const OPEN_RECORD: &[u8] = b"\x85\x01\x01\x00\x00\x44\x9f\x01\x00\xff\xff";

/// Good blocks, each with the number 2.
pub(crate) const NODE: &[u8] = b"\x85\x06\x02\x00\x00\x45\x82\x02\x82\x01\x00";

pub(crate) const AGE: &[u8] = b"\x85\x07\x02\x00\x00\x41\x05";

pub(crate) const HOPS: &[u8] = b"\x85\x0a\x02\x00\x00\x44\x82\x18\x1e\x01";

pub(crate) const INTEGRITY: &[u8] = b"\x85\x0b\x02\x00\x00\x49\x81\x01\x01\x00\x82\x02\x82\x01\x01";

/// Bad blocks with the same number: no age, a map of indefinite length, and two hop counts.
pub(crate) const NO_AGE: &[u8] = b"\x85\x07\x02\x00\x00\x40";

pub(crate) const OPEN_AGE: &[u8] = b"\x85\x07\x02\x00\x00\x41\xbf";

pub(crate) const NO_HOPS: &[u8] = b"\x85\x0a\x02\x00\x00\x43\x82\x00\x00";

pub(crate) const TOO_MANY_HOPS: &[u8] = b"\x85\x0a\x02\x00\x00\x43\x82\x05\x06";

/// Blocks of the same types with the number 3. The first has the age of `AGE`.
pub(crate) const AGE_3: &[u8] = b"\x85\x07\x03\x00\x00\x41\x05";

pub(crate) const OTHER_AGE: &[u8] = b"\x85\x07\x03\x00\x00\x41\x06";

pub(crate) const OTHER_HOPS: &[u8] = b"\x85\x0a\x03\x00\x00\x43\x82\x00\x00";

/// A block confidentiality block that has the payload block as its target, and is in every
/// fragment.
pub(crate) const HIDDEN: &[u8] =
    b"\x85\x0c\x09\x01\x00\x4b\x81\x01\x02\x00\x82\x02\x82\x01\x01\x81\x80";

/// One for block 2, one for block 3, and one whose target is cut.
pub(crate) const HIDDEN_2: &[u8] =
    b"\x85\x0c\x09\x00\x00\x4b\x81\x02\x02\x00\x82\x02\x82\x01\x01\x81\x80";

pub(crate) const HIDDEN_3: &[u8] =
    b"\x85\x0c\x09\x00\x00\x4b\x81\x03\x02\x00\x82\x02\x82\x01\x01\x81\x80";

pub(crate) const HIDDEN_CUT: &[u8] = b"\x85\x0c\x09\x00\x00\x42\x81\x18";

/// The beginnings of block confidentiality blocks with 64 and with 65 targets.
pub(crate) const HIDING_64: &[u8] = b"\x85\x0c\x09\x00\x00\x58\x89\x98\x40";

pub(crate) const HIDING_65: &[u8] = b"\x85\x0c\x09\x00\x00\x58\x8b\x98\x41";

/// Their targets, which no bundle has.
pub(crate) const TARGETS_63: &[u8] =
    b"\x18\x20\x18\x21\x18\x22\x18\x23\x18\x24\x18\x25\x18\x26\x18\x27\x18\x28\x18\x29\
    \x18\x2a\x18\x2b\x18\x2c\x18\x2d\x18\x2e\x18\x2f\x18\x30\x18\x31\x18\x32\x18\x33\
    \x18\x34\x18\x35\x18\x36\x18\x37\x18\x38\x18\x39\x18\x3a\x18\x3b\x18\x3c\x18\x3d\
    \x18\x3e\x18\x3f\x18\x40\x18\x41\x18\x42\x18\x43\x18\x44\x18\x45\x18\x46\x18\x47\
    \x18\x48\x18\x49\x18\x4a\x18\x4b\x18\x4c\x18\x4d\x18\x4e\x18\x4f\x18\x50\x18\x51\
    \x18\x52\x18\x53\x18\x54\x18\x55\x18\x56\x18\x57\x18\x58\x18\x59\x18\x5a\x18\x5b\
    \x18\x5c\x18\x5d\x18\x5e";

pub(crate) const TARGET_64: &[u8] = b"\x18\x5f";

pub(crate) const TARGET_65: &[u8] = b"\x18\x60";

/// What they break, since the first target is the number of no block.
pub(crate) const MISSING: BundleRule = BundleRule::SecurityTargets {
    block: 9,
    target: Some(0x20),
    level: Level::Should,
};

/// What follows their targets, up to the security source.
pub(crate) const SOURCE: &[u8] = b"\x02\x00\x82\x02\x82\x01\x01";
