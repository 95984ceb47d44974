//! What a tool does with the transfers of a recorded stream.

ghost use Rattle.std.specs.Prelude.{◌≡◌, List};
ghost use Rattle.link_run_over_transfers.specs.Walk.{Telling, WalkEvent};
ghost use Rattle.link_run_over_transfers.specs.Telling.{IfHeadItemsHaveTotals, MayCome, Tells, viewed_events};

use crate::head::HeadView;
use link_run::Writers;
use link_wire::{Contact, IoFault, OutDevice};

/// How a tool goes about a stream.
#[derive(Clone, Copy, Debug, PartialEq, Eq)]
pub struct Manner {
    /// Whether the run goes on after a fault of the order. If not, such a fault ends it.
    pub goes_on: bool,
    /// Whether the tool is told of every head. If not, it is told of a head only if this is out of
    /// order, or begins or ends a transfer.
    pub all_heads: bool,
}

/// What a tool is told of at once.
#[derive(Clone, Copy)]
pub enum EventView<'a> {
    /// The contact header has come.
    Contact(&'a Contact),
    /// The head of a message has come. It may abandon the open transfer, begin one, or end one that
    /// has no more data.
    Head(HeadView<'a>),
    /// A segment in the middle of the open transfer has come: its head, and then all of its data.
    /// Only a tool that is told of every head is told of it in this way.
    Inner { head: HeadView<'a>, bytes: &'a [u8] },
    /// Data of the open transfer has come. `whole` is whether this was the last of it.
    Data { bytes: &'a [u8], whole: bool },
    /// The stream has ended between two messages, and a transfer is still open.
    LeftOpen,
}

/// A tool over transfers: what it keeps of the events so far, and what it says of each.
pub trait Consumer: Sized {
    /// What never changes in a run of the tool.
    type Options: Drop;

    /// What the tool says of a list of events.
    ghost telling: { Self.Options → Telling };

    /// Exactly these events have come, and the tool's fields agree with them.
    ghost knows: { Self.Options → Self → List WalkEvent → Type 0 };

    /// How the tool goes about a stream: whether it goes on after a fault of the order, and whether
    /// it is told of all heads.
    fn manner(options: &Self::Options) -> Manner
        ensures { result ≡ (telling options.now).manner };

    /// Writes what the tool says of an event. A failed call ends the run.
    fn event<W: OutDevice, E: OutDevice>(
        &mut self,
        options: &Self::Options,
        event: EventView<'_>,
        writers: &mut Writers<W, E>,
    ) -> Result<(), IoFault>
        requires { IfHeadItemsHaveTotals event }
        ensures { (before : List WalkEvent) → knows options.now self.old before
            → MayCome (telling options.now).manner before event.entry
            → Tells W.state E.state (telling options.now) (knows options.now self.new) before
            (viewed_events event.entry) writers.old writers.new result };

    /// Whether everything so far is good.
    fn is_good(&self, options: &Self::Options) -> bool
        ensures { (events : List WalkEvent) → knows options.now self.now events
            → result ≡ (telling options.now).good events };
}
