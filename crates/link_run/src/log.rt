//! Logs of runs, which only proofs read. They take no memory, and making them does nothing at run
//! time.
//!
//! Only this crate makes logs. A log holds the devices of its run, as they were at both ends, and
//! contracts compare them with those of the call. So no caller without `unsafe` code can pass off
//! the log of another run.

ghost use Rattle.std.specs.Prelude.{List};
ghost use Rattle.std.specs.Borrow.{ftrue};
ghost use Rattle.link_run.specs.Run.{Devices, Wait, WaitLog};

use crate::input::Position;
use crate::writers::Writers;
use std::marker::{Model, PhantomData};

/// The log of a run that has not ended. The input of the run keeps it.
#[derive(Drop)]
pub(crate) struct Log<S, W, E> {
    of: PhantomData<(S, W, E)>,
    pub ghost waits: { WaitLog S W E },
}

impl<S, W, E> Model for Log<S, W, E> {
    ghost also_owns = { λ _. ftrue };
}

impl<S, W, E> Log<S, W, E> {
    ghost use Rattle.std.specs.Prelude.{◌≡◌, ℕ};
    ghost use Rattle.link_run.specs.Run.{devices, no_waits, noted};

    /// The log of a run that begins with this feed and these writers.
    #[inline(always)]
    pub(crate) fn new(feed: &S, output: &W, report: &E) -> Log<S, W, E>
        ensures { result.waits ≡ no_waits (devices feed.now output.now report.now) }
    {
        Log { of: PhantomData }
    }

    /// This log with one more wait, which began at this position with these writers, and ended with
    /// this feed. `reach_of` gives how far the input of a feed is at hand.
    #[inline(always)]
    pub(crate) fn and(&self, position: &Position, writers: &Writers<W, E>, feed: &S) -> Log<S, W, E>
        ghost reach_of: { S → ℕ }
        ensures { result.waits ≡ noted self.now.waits (record {
          position = position.now;
          writers = writers.now;
          reach = reach_of feed.now;
        }) }
    {
        Log { of: PhantomData }
    }
}

/// The log of a run that has ended.
#[derive(Drop)]
pub struct Ran<R, W, E> {
    of: PhantomData<(R, W, E)>,
    /// The devices with which the run was made.
    pub ghost from: { Devices R W E },
    /// The devices at its end.
    pub ghost to: { Devices R W E },
    /// When it had to wait for its input.
    pub ghost waits: { List (Wait W E) },
}

impl<R, W, E> Model for Ran<R, W, E> {
    ghost also_owns = { λ _. ftrue };
}

impl<R, W, E> Ran<R, W, E> {
    ghost use Rattle.link_run.specs.Run.{devices, waits_by};
    ghost use Rattle.link_run.specs.WholeRun.{IsLogOf};

    /// The log of a run that ends with these devices. `reader_of` gives the reader of a feed.
    #[inline(always)]
    pub(crate) fn new<S>(log: &Log<S, W, E>, reader: &R, output: &W, report: &E) -> Ran<R, W, E>
        ghost reader_of: { S → R }
        ensures { IsLogOf (waits_by reader_of log.now.waits)
            (devices reader.now output.now report.now) result }
    {
        Ran { of: PhantomData }
    }
}
