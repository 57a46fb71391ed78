//! The check of all external actions.

ghost use Rattle.std.specs.Prelude.{◌<◌, ◌↔◌, IsTrue, length};
ghost use Rattle.action_orders.specs.Causality.{Condition1};
ghost use Rattle.step_members.specs.AtActions.{Condition9At, IsLeastAction};
ghost use Rattle.step_members.specs.Members.{AreMembers};
ghost use Rattle.step_members.specs.Stages.{IsStage, committed_of, program_of, step_of};
ghost use Rattle.external_actions.specs.Last.{AreLastCommitted, IsCommittedIfNeeded, IsExternalCommitted};

use crate::last::LastCommitted;
use least_break::noted;
use program::Kind;
use step_members::{Member, Stage, member_at};

/// Whether the action at a place of the step's execution is committed, if it happens before a committed action.
fn is_committed_if_needed(stage: &Stage, last: &LastCommitted, at: usize) -> bool
    requires stage { IsStage stage.now }
    requires present { Condition1 (program_of stage.now) (committed_of stage.now) (step_of stage.now) }
    requires last { AreLastCommitted stage.now last.now.places }
    requires inside { at < length stage.now.own.now.flat.entries.items }
    ensures { IsTrue result ↔ IsCommittedIfNeeded stage.now at }
{
    if !last.is_before_committed(stage, at) {
        return true;
    }
    match member_at(stage, at) {
        Some(_) => true,
        None => false,
    }
}

/// Whether the action at a place of the step's execution, if it is external, is committed where it has to be.
fn is_external_committed(stage: &Stage, last: &LastCommitted, at: usize) -> bool
    requires stage { IsStage stage.now }
    requires present { Condition1 (program_of stage.now) (committed_of stage.now) (step_of stage.now) }
    requires last { AreLastCommitted stage.now last.now.places }
    requires inside { at < length stage.now.own.now.flat.entries.items }
    ensures { IsTrue result ↔ IsExternalCommitted stage.now at }
{
    match stage.own.flat.action(at).kind {
        Kind::Print => is_committed_if_needed(stage, last, at),
        _ => true,
    }
}

/// The least action that breaks the ninth condition on a step (JLS 17.4.8), by its identifier, or none where the step meets it: an
/// external action that happens before a committed action is committed. It takes time in proportion to the actions of the
/// step's execution and the threads.
pub fn check_external(stage: &Stage, members: &[Member]) -> Option<u64>
    requires stage { IsStage stage.now }
    requires present { Condition1 (program_of stage.now) (committed_of stage.now) (step_of stage.now) }
    requires members { AreMembers stage.now (length stage.now.own.now.flat.entries.items) members.now }
    ensures { IsLeastAction (Condition9At (program_of stage.now) (committed_of stage.now) (step_of stage.now)) result }
{
    let last = LastCommitted::of(stage, members);
    let mut least = None;
    for at in 0..stage.own.flat.entries.len() {
        let id = stage.own.flat.action(at).id;
        least = noted(least, id, is_external_committed(stage, &last, at));
    }
    least
}
