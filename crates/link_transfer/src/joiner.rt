//! The order of a session's messages, judged message by message.

ghost use Rattle.std.specs.Prelude.{◌≡◌, ◌==◌, List, [], ◌∷◌, ◌++◌, OnOk, OnErr, if◌then◌else◌};
ghost use Rattle.link_wire.specs.declared.message.Message.{Message};

use crate::event::{Event, has_end_flag, has_start_flag};
use crate::fault::OrderFault;
use link_wire::Message;
use std::mem;

/// The effect of an accepted message on the transfers of its session.
#[derive(Clone, Copy, Debug, PartialEq, Eq)]
pub enum Turn {
    /// The message is no segment and has no effect.
    Other,
    /// The message is the first segment of a transfer.
    Begin {
        /// The transfer that was open until then.
        ///
        /// It has no END and gets no more segments, like a transfer that was refused (RFC 9174
        /// section 5.2.4).
        abandoned: Option<u64>,
        /// Whether the message is the last segment of its transfer too.
        last: bool,
    },
    /// The message is a further segment of the open transfer.
    Continue {
        /// Whether the message is the last segment of its transfer.
        last: bool,
    },
}

/// A message that was taken whether or not it may come.
#[derive(Clone, Copy, Debug, PartialEq, Eq)]
pub struct Taken {
    /// The first reason why the message is refused, if there is one.
    pub fault: Option<OrderFault>,
    /// The effect of the message, or `None` for a stray segment.
    ///
    /// A stray segment is not the first of its transfer, and its transfer is not open.
    pub turn: Option<Turn>,
}

/// Judges the order of the messages that one entity sends in a session.
///
/// The rules are those of RFC 9174 sections 4, 4.7, 5.1.2, 5.2 and 6.1.
#[derive(Clone, Copy, Debug)]
pub struct Joiner {
    /// Whether a SESS_INIT was accepted.
    initiated: bool,
    /// Whether a SESS_TERM was accepted.
    terminated: bool,
    /// The ID of the open transfer.
    transfer: Option<u64>,
}

impl Joiner {
    ghost use Rattle.std.specs.Option.{option_eq};
    ghost use Rattle.link_transfer.specs.Event.{event_of};
    ghost use Rattle.link_transfer.specs.Order.{judged_message, open_of, continuable, refusal, refusal_by, turn_by, is_stray_by, effect_of, with_taken};
    ghost use Rattle.link_transfer.specs.Joiner.{IsJoinerAt, joiner_after};

    /// A joiner that has accepted no message.
    pub fn new() -> Joiner
        ensures { IsJoinerAt result [] }
    {
        Joiner {
            initiated: false,
            terminated: false,
            transfer: None,
        }
    }

    /// The ID of the open transfer.
    ///
    /// It is the ID of the latest segment accepted, unless that segment had END.
    pub fn open(&self) -> Option<u64>
        ensures { (before : List Message) → IsJoinerAt self.now before → result ≡ open_of before }
    {
        self.transfer
    }

    /// The ID of the open transfer, if a SESS_INIT was accepted.
    ///
    /// While this is `Some(id)`, an inner segment of transfer `id` is in order and changes nothing
    /// in the joiner. An inner segment is one without flags. So a caller that knows the ID need not
    /// pass such a segment to [`Joiner::event`].
    #[inline(always)]
    pub fn continuable(&self) -> Option<u64>
        ensures { (before : List Message) → IsJoinerAt self.now before
            → result ≡ continuable before }
    {
        if self.initiated { self.open() } else { None }
    }

    /// The first reason why the event is refused now, or `None` if it may come.
    fn refusal(&self, event: Event) -> Option<OrderFault>
        ensures { result ≡ refusal_by self.now.initiated self.now.terminated
            self.now.transfer event }
    {
        match event {
            Event::SessInit if self.initiated => Some(OrderFault::SecondSessInit),
            Event::Segment { .. } if !self.initiated => Some(OrderFault::SegmentBeforeSessInit),
            Event::Segment { flags, id } if !has_start_flag(flags) => self.continuation_refusal(id),
            Event::Segment { flags: _, id } => self.start_refusal(id),
            _ => None,
        }
    }

    /// Why a segment with this ID and without START is refused after a SESS_INIT, or `None`.
    fn continuation_refusal(&self, id: u64) -> Option<OrderFault>
        ensures { result ≡ (if option_eq ◌==◌ self.now.transfer (Some id) then None
            else Some OrderFault.NoSuchOpenTransfer) }
    {
        if self.transfer == Some(id) {
            None
        } else {
            Some(OrderFault::NoSuchOpenTransfer)
        }
    }

    /// Why a segment with this ID and with START is refused after a SESS_INIT, or `None`.
    fn start_refusal(&self, id: u64) -> Option<OrderFault>
        ensures { result ≡ (if option_eq ◌==◌ self.now.transfer (Some id)
            then Some OrderFault.StartRepeatsOpenId
            else if self.now.terminated then Some OrderFault.StartAfterSessTerm else None) }
    {
        if self.transfer == Some(id) {
            Some(OrderFault::StartRepeatsOpenId)
        } else if self.terminated {
            Some(OrderFault::StartAfterSessTerm)
        } else {
            None
        }
    }

    /// Accepts an event that may come, and returns its effect on the transfers.
    fn accept(&mut self, event: Event) -> Turn
        ensures turn { result ≡ turn_by self.old.transfer event }
        ensures after { self.new ≡ joiner_after self.old event }
    {
        match event {
            Event::SessInit => self.initiated = true,
            Event::SessTerm => self.terminated = true,
            Event::Segment { flags, id } => return self.accept_segment(flags, id),
            Event::Other => {}
        }
        Turn::Other
    }

    /// Accepts a segment that may come, and returns its effect on the transfers.
    fn accept_segment(&mut self, flags: u8, id: u64) -> Turn
        ensures turn { result ≡ turn_by self.old.transfer (Event.Segment flags id) }
        ensures after { self.new ≡ joiner_after self.old (Event.Segment flags id) }
    {
        let last = has_end_flag(flags);
        let open = if last { None } else { Some(id) };
        let abandoned = mem::replace(&mut self.transfer, open);
        if has_start_flag(flags) {
            Turn::Begin { abandoned, last }
        } else {
            Turn::Continue { last }
        }
    }

    /// Accepts the message and returns its effect on the transfers, or refuses it.
    ///
    /// The error is the first reason that holds. A refused message changes nothing.
    pub fn message(&mut self, message: &Message) -> Result<Turn, OrderFault>
        ensures judged { (before : List Message) → IsJoinerAt self.old before
            → result ≡ judged_message before (event_of message.now) }
        ensures accepted { (before : List Message) → IsJoinerAt self.old before
            → OnOk result (IsJoinerAt self.new (before ++ message.now ∷ [])) }
        ensures refused { OnErr result (self.new ≡ self.old) }
    {
        self.event(Event::of(message))
    }

    /// Accepts or refuses any message with this event, as [`Joiner::message`] does.
    pub fn event(&mut self, event: Event) -> Result<Turn, OrderFault>
        ensures judged { (before : List Message) → IsJoinerAt self.old before
            → result ≡ judged_message before event }
        ensures accepted { (before : List Message) (message : Message) → event_of message ≡ event
            → IsJoinerAt self.old before
            → OnOk result (IsJoinerAt self.new (before ++ message ∷ [])) }
        ensures refused { OnErr result (self.new ≡ self.old) }
    {
        if let Some(fault) = self.refusal(event) {
            return Err(fault);
        }
        Ok(self.accept(event))
    }

    /// Whether the event is a segment that belongs to no transfer.
    fn is_stray(&self, event: Event) -> bool
        ensures { result ≡ is_stray_by self.now.transfer event }
    {
        match event {
            Event::Segment { flags, id } if !has_start_flag(flags) => self.transfer != Some(id),
            _ => false,
        }
    }

    /// Takes any message with this event, whether or not it may come.
    ///
    /// A message that is refused has the effect that it would have if it were accepted. A stray
    /// segment changes nothing.
    pub fn take(&mut self, event: Event) -> Taken
        ensures fault { (before : List Message) → IsJoinerAt self.old before
            → result.fault ≡ refusal before event }
        ensures turn { (before : List Message) → IsJoinerAt self.old before
            → result.turn ≡ effect_of before event }
        ensures taken { (before : List Message) (message : Message) → event_of message ≡ event
            → IsJoinerAt self.old before → IsJoinerAt self.new (with_taken before message) }
    {
        match self.refusal(event) {
            None => Taken {
                fault: None,
                turn: Some(self.accept(event)),
            },
            Some(fault) => Taken {
                fault: Some(fault),
                turn: self.take_refused(event),
            },
        }
    }

    /// Takes an event that is refused, and returns its effect, or `None` for a stray segment.
    #[cold]
    fn take_refused(&mut self, event: Event) -> Option<Turn>
        ensures turn { (before : List Message) → IsJoinerAt self.old before
            → result ≡ effect_of before event }
        ensures taken { (before : List Message) (message : Message) → event_of message ≡ event
            → IsJoinerAt self.old before → IsJoinerAt self.new (with_taken before message) }
    {
        if self.is_stray(event) {
            return None;
        }
        Some(self.accept(event))
    }
}

mod parts;
