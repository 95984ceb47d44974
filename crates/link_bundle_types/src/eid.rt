//! Endpoint IDs (RFC 9171 section 4.2.5.1), by value and by reference.
ghost use Rattle.std.specs.Prelude.{◌≡◌};
ghost use Rattle.link_bundle_types.specs.EidView.{viewed_eid};
ghost use Rattle.link_bundle_types.specs.ShortNames.{HasNoLongName};

use arrayvec::ArrayVec;

/// The greatest length of a dtn endpoint ID's specific part, in bytes.
pub const EID_LIMIT: usize = 1024;

/// An endpoint ID (RFC 9171 section 4.2.5.1).
#[derive(Debug, Drop, PartialEq, Eq)]
pub enum Eid {
    /// `dtn:none`, which is encoded as the number 0.
    DtnNone,
    /// The specific part of a dtn endpoint ID: the bytes after `dtn:`, unchanged.
    ///
    /// They need not be UTF-8.
    Dtn(ArrayVec<u8, EID_LIMIT>),
    /// The node number and the service number of an ipn endpoint ID.
    Ipn(u64, u64),
    /// The allocator identifier, node and service numbers of an ipn endpoint ID of three numbers.
    ///
    /// An allocator identifier of 0 is kept.
    Ipn3(u64, u64, u64),
}

impl Eid {
    /// The endpoint ID that a view shows. A dtn name in the view must have at most 1,024 bytes.
    pub fn of(view: EidView<'_>) -> Eid
        requires { HasNoLongName (viewed_eid view) }
        ensures { result ≡ viewed_eid view.entry }
    {
        match view {
            EidView::DtnNone => Eid::DtnNone,
            EidView::Dtn(bytes) => {
                let mut name = ArrayVec::new();
                name.try_extend_from_slice(bytes).unwrap();
                Eid::Dtn(name)
            }
            EidView::Ipn(node, service) => Eid::Ipn(node, service),
            EidView::Ipn3(allocator, node, service) => Eid::Ipn3(allocator, node, service),
        }
    }

    /// The same endpoint ID by reference.
    pub fn view(&self) -> EidView<'_>
        ensures view { viewed_eid result ≡ self.now }
        // This holds for every value: there is no room for a name of more than 1,024 bytes.
        ensures short { HasNoLongName self.now }
    {
        match self {
            Eid::DtnNone => EidView::DtnNone,
            Eid::Dtn(name) => EidView::Dtn(name.as_slice()),
            Eid::Ipn(node, service) => EidView::Ipn(*node, *service),
            Eid::Ipn3(allocator, node, service) => EidView::Ipn3(*allocator, *node, *service),
        }
    }
}

/// An [`Eid`] by reference, with the same variants.
///
/// It borrows the bytes of a dtn endpoint ID.
#[derive(Clone, Copy, Debug, PartialEq, Eq)]
pub enum EidView<'a> {
    /// `dtn:none`, which is encoded as the number 0.
    DtnNone,
    /// The specific part of a dtn endpoint ID: the bytes after `dtn:`, unchanged.
    Dtn(&'a [u8]),
    /// The node number and the service number of an ipn endpoint ID.
    Ipn(u64, u64),
    /// The allocator identifier, node and service numbers of an ipn endpoint ID of three numbers.
    Ipn3(u64, u64, u64),
}
