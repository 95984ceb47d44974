//! The part of a message that the rules on the order of messages use.

ghost use Rattle.std.specs.Prelude.{◌≡◌};
ghost use Rattle.link_wire.specs.Codes.{is_start, is_end};

use link_wire::{END, Fields, Message, START};

/// The part of a message that the rules on the order of messages use.
#[derive(Clone, Copy, Debug, PartialEq, Eq)]
pub enum Event {
    /// A SESS_INIT.
    SessInit,
    /// A SESS_TERM.
    SessTerm,
    /// An XFER_SEGMENT: its flags and its transfer ID.
    Segment { flags: u8, id: u64 },
    /// Any other message.
    ///
    /// It may come anywhere, and changes nothing for the messages after it.
    Other,
}

impl Event {
    ghost use Rattle.std.specs.Prelude.{◌≡◌, ℕ};
    ghost use Rattle.arrayvec.specs.ArrayVec.{ArrayVec};
    ghost use Rattle.link_wire.specs.MessageBuffer.{message_with};
    ghost use Rattle.link_wire.specs.declared.message.Item.{Item};
    ghost use Rattle.link_transfer.specs.Event.{event_of};

    /// The event of this message.
    pub fn of(message: &Message) -> Event
        ensures { result ≡ event_of message.now }
    {
        match message {
            Message::SessInit { .. } => Event::SessInit,
            Message::SessTerm { .. } => Event::SessTerm,
            Message::Segment(head) => Event::Segment {
                flags: head.flags,
                id: head.id,
            },
            _ => Event::Other,
        }
    }

    /// The event of a message with these fields, whatever its node ID and its items are.
    pub fn of_fields(fields: Fields) -> Event
        ensures { (node : ArrayVec ℕ) (items : ArrayVec Item)
            → result ≡ event_of (message_with fields node items) }
    {
        match fields {
            Fields::SessInit { .. } => Event::SessInit,
            Fields::SessTerm { .. } => Event::SessTerm,
            Fields::Segment { flags, id, .. } => Event::Segment { flags, id },
            _ => Event::Other,
        }
    }
}

/// Whether a segment with these flags is the first of its transfer.
pub(crate) fn has_start_flag(flags: u8) -> bool
    ensures { result ≡ is_start flags }
{
    flags & START == START
}

/// Whether a segment with these flags is the last of its transfer.
pub(crate) fn has_end_flag(flags: u8) -> bool
    ensures { result ≡ is_end flags }
{
    flags & END == END
}
