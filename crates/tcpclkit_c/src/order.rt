//! The exports that judge the order of messages.

ghost use Rattle.std.specs.Prelude.{◌≡◌, ◌<◌, false, List, ◌++◌, ◌∷◌, []};
ghost use Rattle.link_wire.specs.declared.message.Message.{Message};
ghost use Rattle.link_transfer.specs.Event.{event_of};
ghost use Rattle.link_transfer.specs.Order.{judged_message, refusal, effect_of, with_taken};
ghost use Rattle.link_ffi_numbers.specs.Order.{HasNumbers, IsOrderAt, is_in_range, ReturnsTurn, ReturnsTakenTurn};
ghost use Rattle.link_ffi_numbers.specs.Status.{status_ok, status_range};

use link_ffi_numbers::order::{Order, Turn, event_by, is_in_range, judge, new_order, take};
use link_ffi_numbers::recording;
use link_ffi_numbers::status::{OK, RANGE};

/// Makes the order of a session before its first message, and returns `OK`.
#[unsafe(no_mangle)]
pub extern "C" fn tcpclkit_raw_start_order(order: &mut Order) -> u32
    ensures order { IsOrderAt order.new [] }
    ensures status { result ≡ status_ok }
{
    *order = new_order();
    OK
}

/// Judges whether a message is in order.
///
/// If it is, returns `OK`, `order` counts the message, and `answer` gets what the message does. If
/// it is out of order, returns `FAULT`, and `answer` gets only the code of the fault. If a number
/// is out of its range, returns `RANGE`. Neither `FAULT` nor `RANGE` changes `order`.
#[unsafe(no_mangle)]
pub extern "C" fn tcpclkit_raw_judge_message(
    order: &mut Order,
    message: &recording::Message,
    answer: &mut Turn,
) -> u32
    ensures judged { (before : List Message) (read : Message) → HasNumbers read message.now
        → IsOrderAt order.old before
        → ReturnsTurn (judged_message before (event_of read)) answer.new result }
    ensures accepted { (before : List Message) (read : Message) → HasNumbers read message.now
        → IsOrderAt order.old before → result ≡ status_ok
        → IsOrderAt order.new (before ++ read ∷ []) }
    ensures refused { 0 < result → order.new ≡ order.old }
    ensures range { is_in_range order.old message.now ≡ false
        → (result ≡ status_range) × (answer.new ≡ answer.old) }
{
    if !is_in_range(order, message) {
        return RANGE;
    }
    judge(order, event_by(message), answer)
}

/// Takes a message as `unpack --keep-going` does, even if the message is out of order.
///
/// Returns `OK`, or `FAULT` if the message is out of order. `answer` gets the code of the fault, or
/// 0, and what the message does. If a number is out of its range, changes nothing and returns
/// `RANGE`.
#[unsafe(no_mangle)]
pub extern "C" fn tcpclkit_raw_take_message(
    order: &mut Order,
    message: &recording::Message,
    answer: &mut Turn,
) -> u32
    ensures taken { (before : List Message) (read : Message) → HasNumbers read message.now
        → IsOrderAt order.old before
        → ReturnsTakenTurn (refusal before (event_of read)) (effect_of before (event_of read))
        answer.new result }
    ensures after { (before : List Message) (read : Message) → HasNumbers read message.now
        → IsOrderAt order.old before → IsOrderAt order.new (with_taken before read) }
    ensures range { is_in_range order.old message.now ≡ false
        → (result ≡ status_range) × (answer.new ≡ answer.old) × (order.new ≡ order.old) }
{
    if !is_in_range(order, message) {
        return RANGE;
    }
    take(order, event_by(message), answer)
}
