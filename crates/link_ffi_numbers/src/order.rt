//! The order of messages as numbers.

ghost use Rattle.std.specs.Prelude.{◌≡◌, ◌<◌, ◌≤◌, List, ◌++◌, ◌∷◌, []};
ghost use Rattle.link_wire.specs.declared.message.Message.{Message};
ghost use Rattle.link_transfer.specs.Event.{event_of};
ghost use Rattle.link_transfer.specs.Order.{judged_message, refusal, effect_of, with_taken};
ghost use Rattle.link_transfer.specs.Joiner.{IsJoinerAt};
ghost use Rattle.link_ffi_numbers.specs.Order.{order_code, event_by, no_turn, turn_shown, effect_shown, fault_shown, IsOrderAt, is_in_range, ReturnsTurn, ReturnsTakenTurn};
ghost use Rattle.link_ffi_numbers.specs.Status.{status_ok};

use crate::recording;
use crate::status::{FAULT, OK};
use link_transfer::{Event, Joiner, OrderFault, Turn as Effect};

/// `struct tcpclkit_order`: the part of the history that decides which message may come next.
#[repr(C)]
#[derive(Clone, Copy, Debug, PartialEq, Eq)]
pub struct Order {
    /// 1 after a SESS_INIT, and else 0.
    pub initiated: u64,
    /// 1 after a SESS_TERM, and else 0.
    pub terminated: u64,
    /// 1 while a transfer is open, and else 0.
    pub is_open: u64,
    /// The ID of the open transfer.
    pub transfer: u64,
}

/// `struct tcpclkit_turn`: what an accepted message does, or why it is refused.
#[repr(C)]
#[derive(Clone, Copy, Debug, PartialEq, Eq)]
pub struct Turn {
    /// The code of the fault, or 0.
    pub fault: u64,
    /// 0, or 1 for the first segment of a transfer, 2 for a further one, or 3 for a stray one.
    pub turn: u64,
    /// 1 for the last segment of a transfer, and else 0.
    pub last: u64,
    /// 1 if another transfer was open, and else 0.
    pub abandons: u64,
    /// The ID of that transfer.
    pub abandoned: u64,
}

/// The event of a message with these numbers: 7 is SESS_INIT, 5 is SESS_TERM, 1 is XFER_SEGMENT.
pub fn event_by(message: &recording::Message) -> Event
    requires { message.now.flags ≤ 255 }
    ensures { result ≡ event_by message.now }
{
    match message.kind {
        7 => Event::SessInit,
        5 => Event::SessTerm,
        1 => Event::Segment {
            flags: message.flags as u8,
            id: message.id,
        },
        _ => Event::Other,
    }
}

/// The code of a fault of the order.
fn order_code(fault: OrderFault) -> u64
    ensures { result ≡ order_code fault }
{
    match fault {
        OrderFault::SecondSessInit => 51,
        OrderFault::SegmentBeforeSessInit => 52,
        OrderFault::NoSuchOpenTransfer => 53,
        OrderFault::StartRepeatsOpenId => 54,
        OrderFault::StartAfterSessTerm => 55,
    }
}

/// The numbers of a message that does nothing to the transfers.
fn no_turn() -> Turn
    ensures { result ≡ no_turn }
{
    Turn {
        fault: 0,
        turn: 0,
        last: 0,
        abandons: 0,
        abandoned: 0,
    }
}

/// What an accepted message does to the transfers, as numbers.
fn turn_shown(turn: Effect) -> Turn
    ensures { result ≡ turn_shown turn }
{
    let none = no_turn();
    match turn {
        Effect::Other => none,
        Effect::Begin {
            abandoned: None,
            last,
        } => Turn {
            turn: 1,
            last: u64::from(last),
            ..none
        },
        Effect::Begin {
            abandoned: Some(abandoned),
            last,
        } => Turn {
            turn: 1,
            last: u64::from(last),
            abandons: 1,
            abandoned,
            ..none
        },
        Effect::Continue { last } => Turn {
            turn: 2,
            last: u64::from(last),
            ..none
        },
    }
}

/// The joiner that these numbers describe.
fn joiner_of(order: &Order) -> Joiner
    ensures { (before : List Message) → IsOrderAt order.now before → IsJoinerAt result before }
{
    let transfer = if order.is_open == 1 {
        Some(order.transfer)
    } else {
        None
    };
    Joiner::from_parts(order.initiated == 1, order.terminated == 1, transfer)
}

/// The numbers of a session before its first message.
pub fn new_order() -> Order
    ensures { IsOrderAt result [] }
{
    order_of(&Joiner::new())
}

/// The numbers of a joiner.
fn order_of(joiner: &Joiner) -> Order
    ensures { (before : List Message) → IsJoinerAt joiner.now before → IsOrderAt result before }
{
    let (is_open, transfer) = match joiner.open() {
        None => (0, 0),
        Some(transfer) => (1, transfer),
    };
    Order {
        initiated: u64::from(joiner.initiated()),
        terminated: u64::from(joiner.terminated()),
        is_open,
        transfer,
    }
}

/// Judges a message of this event, and returns the status.
///
/// If the message is accepted, the status is `OK`, `order` counts the message, and `answer` gets
/// what it does. If it is refused, the status is `FAULT`, `order` stays as it is, and `answer` gets
/// only the code of the fault.
pub fn judge(order: &mut Order, event: Event, answer: &mut Turn) -> u32
    ensures judged { (before : List Message) → IsOrderAt order.old before
        → ReturnsTurn (judged_message before event) answer.new result }
    ensures accepted { (before : List Message) (message : Message) → event_of message ≡ event
        → IsOrderAt order.old before → result ≡ status_ok
        → IsOrderAt order.new (before ++ message ∷ []) }
    ensures refused { 0 < result → order.new ≡ order.old }
{
    let mut joiner = joiner_of(order);
    match joiner.event(event) {
        Ok(turn) => {
            *order = order_of(&joiner);
            *answer = turn_shown(turn);
            OK
        }
        Err(fault) => {
            *answer = Turn {
                fault: order_code(fault),
                ..no_turn()
            };
            FAULT
        }
    }
}

/// What a message that was taken does to the transfers, as numbers. `None` is a stray segment,
/// which does nothing and has `turn` 3.
fn effect_shown(effect: Option<Effect>) -> Turn
    ensures { result ≡ effect_shown effect }
{
    match effect {
        Some(turn) => turn_shown(turn),
        None => Turn {
            turn: 3,
            ..no_turn()
        },
    }
}

/// The code of a fault of the order and `FAULT`, or 0 and `OK` if there is no fault.
fn fault_shown(fault: Option<OrderFault>) -> (u64, u32)
    ensures { result ≡ fault_shown fault }
{
    match fault {
        None => (0, OK),
        Some(fault) => (order_code(fault), FAULT),
    }
}

/// Takes a message of this event, even if it is refused, and returns the status.
///
/// The status is `FAULT` if the message is refused, and else `OK`. `answer` gets the code of the
/// fault, or 0, and what the message does to the transfers.
pub fn take(order: &mut Order, event: Event, answer: &mut Turn) -> u32
    ensures taken { (before : List Message) → IsOrderAt order.old before
        → ReturnsTakenTurn (refusal before event) (effect_of before event) answer.new result }
    ensures after { (before : List Message) (message : Message) → event_of message ≡ event
        → IsOrderAt order.old before → IsOrderAt order.new (with_taken before message) }
{
    let mut joiner = joiner_of(order);
    let taken = joiner.take(event);
    let (fault, status) = fault_shown(taken.fault);
    *order = order_of(&joiner);
    *answer = Turn {
        fault,
        ..effect_shown(taken.turn)
    };
    status
}

/// Whether the kind is 1 to 7, the flags fit in one byte, and each bit of `order` is 0 or 1.
pub fn is_in_range(order: &Order, message: &recording::Message) -> bool
    ensures { result ≡ is_in_range order.now message.now }
{
    message.kind >= 1
        && message.kind <= 7
        && message.flags <= 255
        && order.initiated <= 1
        && order.terminated <= 1
        && order.is_open <= 1
}
