//! What comes after a step: another step at some stage, or nothing.

ghost use Rattle.std.specs.Prelude.{◌≡◌};

use crate::run::{Progress, Status};
use link_wire::IoFault;

/// What comes after a step.
#[derive(Clone, Copy, Debug, PartialEq, Eq)]
pub enum Next<S> {
    /// A step at this stage.
    Stage(S),
    /// Nothing: the run has ended.
    Ended(Result<Status, IoFault>),
}

impl<S: Copy> Next<S> {
    ghost use Rattle.link_run.specs.Next.{next_of, progress_of, stage_after};

    /// What comes after a write: the stage `later`, or the end of the run if a writer failed.
    #[inline(always)]
    pub fn of(later: S, written: Result<(), IoFault>) -> Next<S>
        ensures { result ≡ next_of later written }
    {
        match written {
            Ok(()) => Next::Stage(later),
            Err(fault) => Next::Ended(Err(fault)),
        }
    }

    /// Keeps the stage that comes next, unless the run has ended. Returns the result of the step.
    #[inline(always)]
    pub fn keep(self, stage: &mut S) -> Result<Progress, IoFault>
        ensures progress { result ≡ progress_of self }
        ensures kept { stage.new ≡ stage_after stage.old self }
    {
        match self {
            Next::Stage(later) => {
                *stage = later;
                Ok(Progress::More)
            }
            Next::Ended(answer) => Progress::ended(answer),
        }
    }
}
