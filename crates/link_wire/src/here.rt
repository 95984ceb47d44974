//! Tests whether the available bytes are enough for the contact header or for the next head.
//!
//! If they are, a call that reads it need not wait.

ghost use Rattle.std.specs.Prelude.{IsTrue};
ghost use Rattle.link_wire.specs.Message.{contact_at, message_at};
ghost use Rattle.link_wire.specs.Getting.{IsEnoughFor};

use crate::fault::WireFault;
use crate::slices::{contact_in, message_in};

/// The most bytes that the test for a head looks at.
///
/// A head with a few items has fewer.
pub const FRONT: usize = 128;

/// Whether these bytes are enough for the contact header that they begin with.
///
/// They are if the header is whole, or if they show a fault that more bytes do not mend.
pub fn has_contact(bytes: &[u8]) -> bool
    ensures { IsTrue result → IsEnoughFor contact_at bytes.now }
{
    !matches!(contact_in(bytes), Err(WireFault::Truncated))
}

/// Whether these bytes are enough for the head that they begin with.
///
/// They are if the head is whole, or if they show a fault that more bytes do not mend.
pub fn has_head(bytes: &[u8]) -> bool
    ensures { IsTrue result → IsEnoughFor message_at bytes.now }
{
    !matches!(message_in(bytes, 0), Err(WireFault::Truncated))
}
