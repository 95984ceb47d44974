//! One type for the options of every tool.

use crate::blocks::BlockOptions;
use crate::check::{BundleCheckOptions, CheckOptions};
use crate::pack::PackOptions;
use crate::wanted::Wanted;

/// A tool with its options.
#[derive(Debug, Drop, PartialEq, Eq)]
pub enum Options {
    /// `list`: a line for the contact header and for each message of a recording.
    List,
    /// `unpack`: the wanted data of a recording's transfers, and a line for each transfer.
    Unpack(Wanted),
    /// `blocks` of a recording: a line for each block of its bundles.
    Blocks(BlockOptions),
    /// `blocks` of bundles, one after another: a line for each of their blocks.
    BundleBlocks,
    /// `check` of a recording: a line for each rule that its messages or its bundles break.
    Check(CheckOptions),
    /// `check` of bundles, one after another: a line for each rule that they break.
    BundleCheck(BundleCheckOptions),
    /// `pack`: bundles as the stream of a sender, and a line for each bundle.
    Pack(PackOptions),
}
