//! The reason why the reading of a part of a message stops.

use crate::fault::{Stop, WireFault};
use link_io::IoFault;

/// A [`Stop`] without the offset of its message.
#[derive(Clone, Copy, Debug, PartialEq, Eq)]
pub enum Halt {
    Io(IoFault),
    Wire(WireFault),
}

impl Halt {
    ghost use Rattle.std.specs.Prelude.{◌≡◌};
    ghost use Rattle.link_wire.specs.Halt.{stop_at};

    /// The stop with this reason, in the message that begins at `offset`. A failure (`Io`) does not
    /// keep the offset.
    pub fn at(self, offset: u64) -> Stop
        ensures { result ≡ stop_at offset self }
    {
        match self {
            Halt::Io(fault) => Stop::Io(fault),
            Halt::Wire(fault) => Stop::Wire(offset, fault),
        }
    }
}
