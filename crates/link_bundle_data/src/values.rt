//! What the data of a block says.
ghost use Rattle.std.specs.Prelude.{◌≡◌};

use link_bundle_types::EidView;

/// The number of targets that are kept of a security block (RFC 9172 section 3.6).
pub const TARGETS_KEPT: usize = 64;

/// A CBOR integer (RFC 8949 section 3.1), from -2^64 to 2^64 - 1.
#[derive(Clone, Copy, Debug, Default, PartialEq, Eq)]
pub struct Integer {
    /// Whether the number is -1 - `argument`.
    pub negative: bool,
    /// The number itself, if it is not negative.
    pub argument: u64,
}

/// The beginning of an abstract security block (RFC 9172 section 3.6), without its source.
#[derive(Clone, Copy, Debug, PartialEq, Eq)]
pub struct SecurityBlock {
    /// The number of its targets.
    pub targets: u64,
    /// Whether 0, the number of the primary block, is among the targets.
    pub targets_primary: bool,
    /// The ID of the security context.
    pub context: Integer,
    /// The flags of the security context.
    pub flags: u64,
    /// The number of bytes of the data that are read: those up to the end of the security source.
    pub size: u64,
}

/// A status assertion (RFC 9171 section 6.1.1).
#[derive(Clone, Copy, Debug, PartialEq, Eq)]
pub enum Assertion {
    /// The node does not assert the status.
    No,
    /// The node asserts the status and gives no time.
    Yes,
    /// The node asserts the status at a time, in milliseconds since 2000-01-01 UTC.
    YesAt(u64),
}

impl Assertion {
    ghost use Rattle.link_bundle_data.specs.BlockData.{is_timed, is_untimed};

    /// Whether the status is asserted and has a time.
    pub(crate) fn is_timed(self) -> bool
        ensures { result ≡ is_timed self }
    {
        matches!(self, Assertion::YesAt(_))
    }

    /// Whether the status is asserted and has no time.
    pub(crate) fn is_untimed(self) -> bool
        ensures { result ≡ is_untimed self }
    {
        matches!(self, Assertion::Yes)
    }
}

/// A status report (RFC 9171 section 6.1.1), without the source of the bundle that it is about.
#[derive(Clone, Copy, Debug, PartialEq, Eq)]
pub struct Report {
    /// Whether the bundle was received.
    pub received: Assertion,
    /// Whether the bundle was forwarded.
    pub forwarded: Assertion,
    /// Whether the bundle was delivered.
    pub delivered: Assertion,
    /// Whether the bundle was deleted.
    pub deleted: Assertion,
    /// Whether some asserted status has a time. This and `untimed` are about all assertions, also
    /// those after the first four.
    pub timed: bool,
    /// Whether some asserted status has no time.
    pub untimed: bool,
    /// The reason code.
    pub reason: u64,
    /// The creation time of the bundle, in milliseconds since 2000-01-01 UTC.
    pub time: u64,
    /// The sequence number of the bundle's creation timestamp.
    pub sequence: u64,
    /// The offset and the length of the payload, both in bytes, if the bundle is a fragment.
    pub fragment: Option<(u64, u64)>,
}

/// Why the data of a block is malformed.
#[derive(Clone, Copy, Debug, PartialEq, Eq)]
pub struct DataFault {
    /// The offset in the data at which it is malformed.
    pub offset: u64,
    /// Whether the item there exceeds a limit of this toolkit.
    ///
    /// Its length is indefinite, or its endpoint scheme is neither dtn nor ipn, or its dtn name has
    /// more than 1,024 bytes.
    pub is_limit: bool,
}

/// What the data of a block says. It borrows the bytes of a dtn endpoint ID, and the targets of a
/// security block.
#[derive(Clone, Copy, Debug, PartialEq, Eq)]
pub enum DataView<'a> {
    /// The node that forwarded the bundle (RFC 9171 section 4.4.1).
    PreviousNode(EidView<'a>),
    /// The age of the bundle in milliseconds (RFC 9171 section 4.4.2).
    BundleAge(u64),
    /// The hop limit and the hop count (RFC 9171 section 4.4.3).
    HopCount(u64, u64),
    /// The beginning of an abstract security block, its first targets, and the security source.
    ///
    /// The targets are the first [`TARGETS_KEPT`], or all if there are no more.
    Security(SecurityBlock, &'a [u64], EidView<'a>),
    /// A status report, and the source of the bundle that it is about.
    StatusReport(Report, EidView<'a>),
    /// An administrative record (RFC 9171 section 6.1) of another type, by its type code.
    OtherRecord(u64),
}
