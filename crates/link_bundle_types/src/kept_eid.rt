//! An endpoint ID of the bundle that is being scanned.
ghost use Rattle.std.specs.Prelude.{◌≡◌, ◌+◌, ◌≤◌, [], ◌++◌, length, take, IsTrue};

use crate::eid::{EID_LIMIT, EidView};
use std::marker::Model;

/// The form of an endpoint ID: all of it except the bytes of a dtn name.
#[derive(Clone, Copy)]
pub enum EidForm {
    /// `dtn:none`.
    DtnNone,
    /// A dtn endpoint ID with a name.
    Dtn,
    /// The node number and the service number of an ipn endpoint ID.
    Ipn(u64, u64),
    /// The allocator identifier, node number and service number of an ipn endpoint ID.
    Ipn3(u64, u64, u64),
}

/// An endpoint ID that is kept in place.
///
/// The bytes of a dtn name are appended to it in pieces of any size.
#[derive(Drop)]
pub struct KeptEid {
    form: EidForm,
    /// The bytes of the name so far, and then bytes that are not read.
    name: [u8; EID_LIMIT],
    length: usize,
}

impl Model for KeptEid {
    ghost use Rattle.std.specs.Prelude.{◌≤◌, take};
    ghost use Rattle.link_bundle_types.specs.declared.eid.Eid.{Eid};
    ghost use Rattle.link_bundle_types.specs.KeptEid.{formed_eid};

    ghost Value = { Eid };

    ghost view = { λ eid. formed_eid eid.form (take eid.length eid.name) };

    ghost invariant = { λ eid. eid.length ≤ 1024 };
}

/// Writes the bytes into a buffer, from the index `at` on.
fn write_at(buffer: &mut [u8], at: usize, bytes: &[u8])
    requires { at + length bytes.now ≤ length buffer.old }
    ensures { take (at + length bytes.now) buffer.new ≡ take at buffer.old ++ bytes.now }
{
    buffer[at..at + bytes.len()].copy_from_slice(bytes);
}

impl KeptEid {
    ghost use Rattle.link_bundle_types.specs.EidView.{viewed_eid};
    ghost use Rattle.link_bundle_types.specs.ShortNames.{HasNoLongName};
    ghost use Rattle.link_bundle_types.specs.KeptEid.{formed_eid, name_of, name_fits};
    ghost use Rattle.link_bundle_types.specs.declared.eid.Eid.TheVariants.{DtnNone, Dtn};

    /// The endpoint ID `dtn:none`.
    pub fn new() -> KeptEid
        ensures { result ≡ DtnNone }
    {
        KeptEid {
            form: EidForm::DtnNone,
            name: [0; EID_LIMIT],
            length: 0,
        }
    }

    /// Keeps an endpoint ID of this form. A dtn name has no bytes yet.
    #[inline(always)]
    pub fn set(&mut self, form: EidForm)
        ensures { self.new ≡ formed_eid form [] }
    {
        self.form = form;
        self.length = 0;
    }

    /// Appends bytes to the dtn name.
    ///
    /// The endpoint ID must have a dtn name. With the new bytes, the name must have at most 1,024
    /// bytes.
    // Kept out of line: dtn names are rare, and copying one calls a function anyway.
    #[cold]
    #[inline(never)]
    pub fn extend(&mut self, bytes: &[u8])
        requires { IsTrue (name_fits self.old (length bytes.now)) }
        ensures { self.new ≡ Dtn (record { items = name_of self.old ++ bytes.now }) }
    {
        write_at(&mut self.name, self.length, bytes);
        self.length += bytes.len();
    }

    /// Keeps this endpoint ID, whose dtn name has at most 1,024 bytes.
    #[inline(always)]
    pub fn keep(&mut self, eid: EidView<'_>)
        requires { HasNoLongName (viewed_eid eid) }
        ensures { self.new ≡ viewed_eid eid.entry }
    {
        match eid {
            EidView::DtnNone => self.set(EidForm::DtnNone),
            EidView::Dtn(name) => {
                self.set(EidForm::Dtn);
                self.extend(name);
            }
            EidView::Ipn(node, service) => self.set(EidForm::Ipn(node, service)),
            EidView::Ipn3(allocator, node, service) => {
                self.set(EidForm::Ipn3(allocator, node, service));
            }
        }
    }

    /// The endpoint ID by reference.
    pub fn view(&self) -> EidView<'_>
        ensures view { viewed_eid result ≡ self.now }
        ensures short { HasNoLongName (viewed_eid result) }
    {
        match self.form {
            EidForm::DtnNone => EidView::DtnNone,
            EidForm::Dtn => EidView::Dtn(&self.name[..self.length]),
            EidForm::Ipn(node, service) => EidView::Ipn(node, service),
            EidForm::Ipn3(allocator, node, service) => EidView::Ipn3(allocator, node, service),
        }
    }
}
