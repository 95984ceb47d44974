//! Laws of the writers of bundles, over the definitions alone.
//!
//! The functions do nothing when they run. Their contracts are the laws.

ghost use Rattle.link_bundle_writer.specs.GoodBundle.{BundleReadsBack};
ghost use Rattle.link_bundle_writer.specs.Heads.{HeadReadsBack, HeadIsShortest};
ghost use Rattle.link_bundle_writer.specs.NewData.{PreviousNodeReadsBack, BundleAgeReadsBack, HopCountReadsBack};

/// A head is read as it was written, and no head of the same meaning is shorter.
pub fn heads()
    ensures reads_back { HeadReadsBack }
    ensures shortest { HeadIsShortest }
{}

/// The data of previous node, bundle age and hop count blocks is read as it was written.
pub fn data_reads_back()
    ensures node { PreviousNodeReadsBack }
    ensures age { BundleAgeReadsBack }
    ensures hop_count { HopCountReadsBack }
{}

/// At most 64 canonical blocks with distinct numbers, of which the payload block is the last, make
/// a good bundle.
///
/// Its verdict has the fields of the primary block, its payload is that of the payload block, and
/// each block is found with its fields, where it was written.
pub fn bundle_reads_back()
    ensures { BundleReadsBack }
{}
