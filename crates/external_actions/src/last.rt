//! The last committed action of each thread.

ghost use Rattle.std.specs.Prelude.{◌<◌, ◌↔◌, IsTrue, length};
ghost use Rattle.step_members.specs.Members.{AreMembers};
ghost use Rattle.step_members.specs.Stages.{IsStage};
ghost use Rattle.external_actions.specs.Last.{AreLastCommitted, PrecedesBy, PrecedesCommitted};

use clocks::THREADS;
use step_members::{Member, Stage};

/// For each thread the place of its last committed action in the step's execution, where it has one.
#[derive(Clone, Copy, Debug, PartialEq, Eq)]
pub struct LastCommitted {
    pub places: [Option<usize>; THREADS],
}

impl LastCommitted {
    /// The last ones of the step's committed actions.
    pub fn of(stage: &Stage, members: &[Member]) -> LastCommitted
        requires stage { IsStage stage.now }
        requires members { AreMembers stage.now (length stage.now.own.now.flat.entries.items) members.now }
        ensures { AreLastCommitted stage.now result.places }
    {
        let mut places = [None; THREADS];
        for member in members {
            let thread = stage.own.flat.action(member.own).thread as usize;
            places[thread] = Some(member.own);
        }
        LastCommitted { places }
    }

    /// Whether the action at a place of the step's execution happens before a committed action of a thread.
    fn are_preceded(&self, stage: &Stage, thread: usize, at: usize) -> bool
        requires stage { IsStage stage.now }
        requires last { AreLastCommitted stage.now self.now.places }
        requires thread { thread < 8 }
        requires inside { at < length stage.now.own.now.flat.entries.items }
        ensures { IsTrue result ↔ PrecedesBy stage.now thread at }
    {
        match self.places[thread] {
            Some(place) => stage.own.happens_before(at, place),
            None => false,
        }
    }

    /// Whether the action at a place of the step's execution happens before a committed action.
    pub fn is_before_committed(&self, stage: &Stage, at: usize) -> bool
        requires stage { IsStage stage.now }
        requires last { AreLastCommitted stage.now self.now.places }
        requires inside { at < length stage.now.own.now.flat.entries.items }
        ensures { IsTrue result ↔ PrecedesCommitted stage.now at }
    {
        for thread in 0..THREADS {
            if self.are_preceded(stage, thread, at) {
                return true;
            }
        }
        false
    }
}
