//! Rules of transfer IDs.

ghost use Rattle.std.specs.Prelude.{◌≡◌, ◌∷◌, take};
ghost use Rattle.std.specs.List.{list_any};
ghost use Rattle.link_wire.specs.MessageBuffer.{message_of};
ghost use Rattle.link_session_rules.specs.Remembered.{contains};
ghost use Rattle.link_session_rules.specs.Heads.{viewed_head, start_id};
ghost use Rattle.link_session_rules.specs.TransferIds.{abandoned_by, interleaved};

use crate::head::{JudgedHeadView, is_start};
use crate::rule::MessageRule;
use arrayvec::ArrayVec;
use link_transfer::Turn;
use link_wire::{Fields, MessageBuffer};

/// How many runs of IDs are kept, beside the newest one.
const EARLIER: usize = 63;

/// A run of IDs: transfer IDs, each one more than the one before it.
#[derive(Clone, Copy, Debug, Default, PartialEq, Eq)]
pub(crate) struct IdRun {
    first: u64,
    last: u64,
}

impl IdRun {
    ghost use Rattle.std.specs.Prelude.{◌≡◌, ◌==◌, ◌+◌, ℕ, true};
    ghost use Rattle.link_session_rules.specs.Remembered.{contains};

    /// A run of IDs with this ID alone.
    fn alone(id: u64) -> IdRun
        ensures { result ≡ record { first = id; last = id } }
    {
        IdRun {
            first: id,
            last: id,
        }
    }

    /// Whether an ID is in this run of IDs.
    fn contains(self, id: u64) -> bool
        ensures { result ≡ contains id self }
    {
        self.first <= id && id <= self.last
    }

    /// Whether an ID is one more than the last ID of this run of IDs.
    fn is_before(self, id: u64) -> bool
        ensures { result ≡ (id == self.last + 1) }
    {
        self.last.checked_add(1) == Some(id)
    }
}

/// The IDs of the transfers that began, as far as the rules need them.
#[derive(Debug, Drop)]
pub(crate) struct TransferIds {
    /// The newest run of IDs.
    last: Option<IdRun>,
    /// The runs of IDs before it, the newest first.
    earlier: ArrayVec<IdRun, EARLIER>,
    /// Whether an ID broke the rule of their order.
    jumped: bool,
}

/// Puts a run of IDs before the others. If there are then more than `EARLIER`, the oldest is
/// dropped.
#[cold]
#[inline(never)]
fn put_first(runs: &mut ArrayVec<IdRun, EARLIER>, run: IdRun)
    ensures { runs.new.items ≡ take EARLIER (run ∷ runs.old.items) }
{
    runs.truncate(EARLIER - 1);
    runs.insert(0, run);
}

/// Whether an ID is in one of these runs of IDs.
fn any_contains(runs: &[IdRun], id: u64) -> bool
    ensures { result ≡ list_any (contains id) runs.now }
{
    runs.iter().any(|run| run.contains(id))
}

impl TransferIds {
    ghost use Rattle.std.specs.Prelude.{◌≡◌, ◌||◌, List, [], ◌∷◌, Some, None, IsSome};
    ghost use Rattle.std.specs.List.{list_any};
    ghost use Rattle.link_wire.specs.declared.message.Message.{Message};
    ghost use Rattle.link_wire.specs.MessageBuffer.{message_of};
    ghost use Rattle.link_session_rules.specs.Heads.{HeadWithOrder, newest, held, is_sess_init};
    ghost use Rattle.link_session_rules.specs.TransferIds.{is_in, last_runs, ids_of, skips, jumps, jumps_to, transfer_id, transfer_id_order};
    ghost use Rattle.link_session_rules.specs.Remembered.{AreTransferIdsAt, kept_runs, kept_with};

    /// The IDs before the first message.
    pub(crate) fn none() -> TransferIds
        ensures { AreTransferIdsAt result [] }
    {
        TransferIds {
            last: None,
            earlier: ArrayVec::new(),
            jumped: false,
        }
    }

    /// Whether an ID is in one of the runs of IDs that are kept.
    #[tactic(auto, using(crate::proofs::Runs::contains_by))]
    #[inline(always)]
    fn contains(&self, id: u64) -> bool
        ensures { (older : List Message) → AreTransferIdsAt self.now older
            → result ≡ is_in (last_runs older) id }
    {
        match self.last {
            Some(run) => run.contains(id) || any_contains(self.earlier.as_slice(), id),
            None => false,
        }
    }

    /// Whether an ID is not the next one. The next ID is one more than the latest ID, or 0 if none
    /// came yet.
    #[tactic(auto, using(crate::proofs::Runs::skips_by))]
    #[inline(always)]
    fn skips(&self, id: u64) -> bool
        ensures { (older : List Message) → AreTransferIdsAt self.now older
            → result ≡ skips (ids_of older) id }
    {
        match self.last {
            Some(run) => !run.is_before(id),
            None => id != 0,
        }
    }

    /// Whether an ID is new and not the next one. It is new if it is in none of the latest 64 runs
    /// of IDs.
    ///
    /// `initiated` is whether a SESS_INIT came before it. If none came, the result is false.
    #[inline(always)]
    fn jumps_to(&self, initiated: bool, id: u64) -> bool
        ensures { (older : List Message) → initiated ≡ list_any is_sess_init older
            → AreTransferIdsAt self.now older → result ≡ jumps_to older (Some id) }
    {
        initiated && self.skips(id) && !self.contains(id)
    }

    /// Takes the next message. `initiated` is whether a SESS_INIT came before it.
    #[inline(always)]
    pub(crate) fn take(&mut self, initiated: bool, message: &MessageBuffer)
        ensures { (older : List Message) → initiated ≡ list_any is_sess_init older
            → AreTransferIdsAt self.old older
            → AreTransferIdsAt self.new (message_of message.now ∷ older) }
    {
        let Some(id) = start_id(message) else {
            return;
        };
        let jumped = self.has_jumped(initiated, id);
        self.put(id);
        self.jumped = jumped;
    }

    /// Whether this ID, or one before it, broke the rule of the order of transfer IDs.
    #[inline(always)]
    fn has_jumped(&self, initiated: bool, id: u64) -> bool
        ensures { (older : List Message) → initiated ≡ list_any is_sess_init older
            → AreTransferIdsAt self.now older
            → result ≡ (jumps_to older (Some id) || held jumps older) }
    {
        self.jumped || self.jumps_to(initiated, id)
    }

    /// Takes an ID into the runs of IDs. The next ID extends the newest run of IDs. Any other ID
    /// begins a new one. If more than `EARLIER` are then before it, the oldest is dropped.
    #[inline(always)]
    fn put(&mut self, id: u64)
        ensures runs { (self.old.last ≡ None → self.old.earlier.items ≡ [])
            → kept_runs self.new ≡ kept_with id EARLIER (kept_runs self.old) }
        ensures some { IsSome self.new.last }
    {
        match self.last {
            Some(run) if run.is_before(id) => {
                self.last = Some(IdRun {
                    first: run.first,
                    last: id,
                });
            }
            Some(run) => {
                put_first(&mut self.earlier, run);
                self.last = Some(IdRun::alone(id));
            }
            None => self.last = Some(IdRun::alone(id)),
        }
    }

    /// The rule of new transfer IDs, if it is broken.
    #[tactic(auto, unfolding(crate::specs::TransferIds::transfer_id))]
    #[inline(always)]
    pub(crate) fn transfer_id(&self, message: &MessageBuffer) -> Option<MessageRule>
        ensures { (before : List HeadWithOrder) → AreTransferIdsAt self.now (newest before)
            → result ≡ transfer_id before (message_of message.now) }
    {
        let id = start_id(message)?;
        self.contains(id).then_some(MessageRule::TransferId { id })
    }

    /// The rule of the order of transfer IDs, if it is broken. Only the first transfer ID that
    /// breaks it is reported.
    ///
    /// `initiated` is whether a SESS_INIT came before the message.
    #[tactic(auto, unfolding(crate::specs::TransferIds::transfer_id_order))]
    #[inline(always)]
    pub(crate) fn transfer_id_order(
        &self,
        initiated: bool,
        message: &MessageBuffer,
    ) -> Option<MessageRule>
        ensures { (before : List HeadWithOrder) → initiated ≡ list_any is_sess_init (newest before)
            → AreTransferIdsAt self.now (newest before)
            → result ≡ transfer_id_order before (message_of message.now) }
    {
        if self.jumped {
            return None;
        }
        let id = start_id(message)?;
        self.jumps_to(initiated, id)
            .then_some(MessageRule::TransferIdOrder { id })
    }
}

/// The ID of the transfer that a segment with START begins. `None` for any other message.
fn start_id(message: &MessageBuffer) -> Option<u64>
    ensures { result ≡ start_id (message_of message.now) }
{
    match message.fields {
        Fields::Segment { flags, id, .. } if is_start(flags) => Some(id),
        _ => None,
    }
}

/// The ID of the transfer that a message with this turn abandons, or `None` if it abandons none.
fn abandoned_by(turn: Option<Turn>) -> Option<u64>
    ensures { result ≡ abandoned_by turn }
{
    match turn {
        Some(Turn::Begin { abandoned, .. }) => abandoned,
        _ => None,
    }
}

/// The rule of transfers that begin while one of another ID is open, if it is broken.
#[tactic(auto, unfolding(crate::specs::TransferIds::interleaved))]
#[inline(always)]
pub(crate) fn interleaved(head: &JudgedHeadView<'_>) -> Option<MessageRule>
    ensures { result ≡ interleaved (viewed_head head.now) }
{
    let open = abandoned_by(head.turn)?;
    match head.message.fields {
        Fields::Segment { id, .. } if id != open => Some(MessageRule::Interleaved { id, open }),
        _ => None,
    }
}
