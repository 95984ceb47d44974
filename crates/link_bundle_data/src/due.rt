//! What is due next in the data of a block.
ghost use Rattle.std.specs.Prelude.{◌≡◌};
ghost use Rattle.link_bundle_data.specs.Turns as turns;

use crate::kind::DataKind;
use crate::values::DataFault;
use link_bundle_heads::Scheme;

/// The type code of a status report (RFC 9171 section 6.1).
const STATUS_REPORT: u64 = 1;

/// Whose endpoint ID it is.
#[derive(Clone, Copy)]
pub(crate) enum Owner {
    PreviousNode,
    /// The source of a security block.
    Security,
    /// The source of the bundle that a status report is about.
    Report,
}

/// Which status an assertion is about (RFC 9171 section 6.1.1).
#[derive(Clone, Copy)]
pub(crate) enum Status {
    Received,
    Forwarded,
    Delivered,
    Deleted,
    /// A status that is not kept; this many assertions follow it.
    Other(u64),
}

/// An unsigned integer that is due.
#[derive(Clone, Copy)]
pub(crate) enum Number {
    Age,
    HopLimit,
    /// The hop count, after this hop limit.
    HopCount(u64),
    /// A target of a security block; this many follow it.
    Target(u64),
    ContextFlags,
    RecordType,
    /// The time of a status assertion.
    AssertedTime(Status),
    Reason,
    CreationTime,
    Sequence,
    FragmentOffset,
    /// The length of the payload of a fragment, after this offset.
    FragmentLength(u64),
    /// The allocator identifier of an ipn endpoint ID with three numbers.
    Allocator(Owner),
    /// The node number, after the allocator identifier if there is one.
    Node(Owner, Option<u64>),
    /// The service number, after the allocator identifier and the node number.
    Service(Owner, Option<u64>, u64),
}

/// An array of two elements that is due.
#[derive(Clone, Copy)]
pub(crate) enum Pair {
    Eid(Owner),
    HopCount,
    Record,
    /// The creation timestamp in a status report.
    Timestamp,
}

/// The head that is due.
#[derive(Clone, Copy)]
pub(crate) enum Due {
    Number(Number),
    Pair(Pair),
    Scheme(Owner),
    /// The specific part of a dtn endpoint ID.
    DtnPart(Owner),
    /// The array of the numbers of an ipn endpoint ID.
    IpnPart(Owner),
    Targets,
    ContextId,
    /// The array of a status report.
    Report,
    /// The array of status assertions.
    Assertions,
    /// The array of a status assertion.
    Assertion(Status),
    /// The Boolean of a status assertion, and whether a time follows it.
    Asserted(Status, bool),
}

/// An item that was read to its end, or as far as it is read.
#[derive(Clone, Copy)]
pub(crate) enum Found {
    PreviousNode,
    BundleAge(u64),
    HopCount(u64, u64),
    Security,
    StatusReport,
    OtherRecord(u64),
}

/// The position of a scan in the data.
#[derive(Clone, Copy)]
pub(crate) enum DataStage {
    /// At a head.
    Head(Due),
    /// In a dtn name that has this many bytes left.
    Name(Owner, u64),
    /// After the item.
    Read(Found),
    /// The data is malformed.
    Failed(DataFault),
}

impl DataKind {
    /// The first head of data of this kind.
    pub(crate) fn first(self) -> Due
        ensures { result ≡ turns.first_due self }
    {
        match self {
            DataKind::PreviousNode => Due::Pair(Pair::Eid(Owner::PreviousNode)),
            DataKind::BundleAge => Due::Number(Number::Age),
            DataKind::HopCount => Due::Pair(Pair::HopCount),
            DataKind::Security => Due::Targets,
            DataKind::Record => Due::Pair(Pair::Record),
        }
    }
}

impl Owner {
    /// The stage after the endpoint ID.
    pub fn after_eid(self) -> DataStage
        ensures { result ≡ turns.after_eid self }
    {
        match self {
            Owner::PreviousNode => DataStage::Read(Found::PreviousNode),
            Owner::Security => DataStage::Read(Found::Security),
            Owner::Report => DataStage::Head(Due::Pair(Pair::Timestamp)),
        }
    }

    /// The stage in a dtn name with `left` more bytes, or after the endpoint ID if there are none.
    pub fn name_due(self, left: u64) -> DataStage
        ensures { result ≡ turns.name_due self left }
    {
        if left == 0 {
            return self.after_eid();
        }
        DataStage::Name(self, left)
    }

    /// The head of the specific part in this scheme.
    pub fn specific(self, scheme: Scheme) -> Due
        ensures { result ≡ turns.specific self scheme }
    {
        match scheme {
            Scheme::Dtn => Due::DtnPart(self),
            Scheme::Ipn => Due::IpnPart(self),
        }
    }

    /// The first number of an ipn endpoint ID that has this many numbers, two or three.
    pub fn first_number(self, count: u64) -> Due
        ensures { result ≡ turns.first_number self count }
    {
        if count == 3 {
            Due::Number(Number::Allocator(self))
        } else {
            Due::Number(Number::Node(self, None))
        }
    }
}

impl Status {
    /// The head after the assertion about this status. `others` assertions follow the first four.
    pub fn next(self, others: u64) -> Due
        ensures { result ≡ turns.after_status self others }
    {
        match self {
            Status::Received => Due::Assertion(Status::Forwarded),
            Status::Forwarded => Due::Assertion(Status::Delivered),
            Status::Delivered => Due::Assertion(Status::Deleted),
            Status::Deleted => Due::others(others),
            Status::Other(left) => Due::others(left),
        }
    }
}

impl Pair {
    /// The head of the first element.
    pub fn first(self) -> Due
        ensures { result ≡ turns.first_of self }
    {
        match self {
            Pair::Eid(owner) => Due::Scheme(owner),
            Pair::HopCount => Due::Number(Number::HopLimit),
            Pair::Record => Due::Number(Number::RecordType),
            Pair::Timestamp => Due::Number(Number::CreationTime),
        }
    }
}

impl Found {
    ghost use Rattle.link_bundle_data.specs.Left.{may_follow, if_judged};

    /// Whether bytes may follow what was read.
    ///
    /// They follow the source of a security block, and the type code of a record that is no status
    /// report.
    pub fn may_follow(self) -> bool
        ensures { result ≡ may_follow self }
    {
        matches!(self, Found::Security | Found::OtherRecord(_))
    }

    /// The first long head, or `None` in an administrative record, whose heads are not judged.
    pub fn if_judged(self, long: Option<u64>) -> Option<u64>
        ensures { result ≡ if_judged self long }
    {
        match self {
            Found::StatusReport | Found::OtherRecord(_) => None,
            _ => long,
        }
    }
}

impl Due {
    /// The head that is due when `left` more status assertions follow. None of them is kept.
    pub fn others(left: u64) -> Due
        ensures { result ≡ turns.others_due left }
    {
        if left == 0 {
            return Due::Number(Number::Reason);
        }
        Due::Assertion(Status::Other(left - 1))
    }

    /// The head that is due when this many targets of a security block are left.
    pub fn targets(left: u64) -> Due
        ensures { result ≡ turns.targets_due left }
    {
        if left == 0 {
            return Due::ContextId;
        }
        Due::Number(Number::Target(left - 1))
    }
}

impl DataStage {
    /// The stage after the type code of an administrative record.
    pub fn after_type(code: u64) -> DataStage
        ensures { result ≡ turns.after_type code }
    {
        if code == STATUS_REPORT {
            return DataStage::Head(Due::Report);
        }
        DataStage::Read(Found::OtherRecord(code))
    }
}
