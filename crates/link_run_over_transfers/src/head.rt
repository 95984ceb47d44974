//! The head of a message, as a walk shows it.

ghost use Rattle.std.specs.Prelude.{◌≡◌};
ghost use Rattle.link_run_over_transfers.specs.Walk.{abandons, closes, is_beginning, is_last, is_plain};
ghost use Rattle.link_run_over_transfers.specs.Telling.{viewed_head};

use link_transfer::{OrderFault, Turn};
use link_wire::MessageBuffer;

/// The head of a message.
#[derive(Clone, Copy)]
pub struct HeadView<'a> {
    /// The offset of its type byte in the input.
    pub offset: u64,
    pub message: &'a MessageBuffer,
    /// Why the message is not in order, if it is not.
    pub fault: Option<OrderFault>,
    /// What the message does to the transfers. It is `None` for a stray segment.
    pub turn: Option<Turn>,
}

impl HeadView<'_> {
    /// Whether the message begins a transfer.
    #[inline(always)]
    pub fn begins(&self) -> bool
        ensures { result ≡ is_beginning self.now.turn }
    {
        matches!(self.turn, Some(Turn::Begin { .. }))
    }

    /// Whether the message abandons the transfer that was open before it.
    #[inline(always)]
    pub fn abandons(&self) -> bool
        ensures { result ≡ abandons self.now.turn }
    {
        match self.turn {
            Some(Turn::Begin { abandoned, last: _ }) => abandoned.is_some(),
            _ => false,
        }
    }

    /// Whether the transfer is over with this head. It is if the message is the last segment, and
    /// has no data.
    #[inline(always)]
    pub fn closes(&self) -> bool
        ensures { result ≡ closes (viewed_head self.now) }
    {
        is_last(self.turn) && self.message.data_length() == 0
    }

    /// Whether the head is in order, and neither begins nor ends a transfer.
    #[inline(always)]
    pub fn is_plain(&self) -> bool
        ensures { result ≡ is_plain (viewed_head self.now) }
    {
        self.fault.is_none() && !self.begins() && !self.closes()
    }
}

/// Whether a message with this effect is the last segment of its transfer.
#[inline(always)]
pub(crate) fn is_last(turn: Option<Turn>) -> bool
    ensures { result ≡ is_last turn }
{
    match turn {
        Some(Turn::Begin { abandoned: _, last }) => last,
        Some(Turn::Continue { last }) => last,
        _ => false,
    }
}
