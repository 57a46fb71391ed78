//! The writes that committed reads see.

ghost use Rattle.std.specs.Prelude.{◌↔◌, IsTrue, length};
ghost use Rattle.action_orders.specs.Causality.{Condition1};
ghost use Rattle.step_members.specs.AtActions.{Condition5At, IsLeastAction};
ghost use Rattle.step_members.specs.Members.{AreMembers, IsMember};
ghost use Rattle.step_members.specs.Stages.{IsEarlier, IsStage, committed_of, program_of, step_of};
ghost use Rattle.same_notes.specs.Notes.{AreSeenAlike, IsOneAction, SeesAlike, SeesAlikeBefore};

use action_orders::Note;
use least_break::noted;
use step_members::{Earlier, Member, Stage};

/// Whether both executions have an action with an identifier, and it is one action.
fn is_one_action(stage: &Stage, id: u64) -> bool
    requires { IsStage stage.now }
    ensures { IsTrue result ↔ IsOneAction stage.now id }
{
    let Some(whole) = stage.whole.place(id) else {
        return false;
    };
    match stage.own.place(id) {
        Some(own) => stage
            .whole
            .flat
            .action(whole)
            .same(stage.own.flat.action(own)),
        None => false,
    }
}

/// Whether two notes don't name two writes.
fn are_alike(stage: &Stage, whole: Note, own: Note) -> bool
    requires { IsStage stage.now }
    ensures { IsTrue result ↔ AreSeenAlike stage.now whole own }
{
    match (whole, own) {
        (Note::Sees(None), Note::Sees(None)) => true,
        (Note::Sees(Some(id)), Note::Sees(Some(other))) => id == other && is_one_action(stage, id),
        (Note::Sees(_), Note::Sees(_)) => false,
        _ => true,
    }
}

/// Whether a committed action, if it is a read, sees the same write in both executions.
fn sees_alike(stage: &Stage, member: Member) -> bool
    requires stage { IsStage stage.now }
    requires member { IsMember stage.now member }
    ensures { IsTrue result ↔ SeesAlike stage.now member }
{
    let whole = stage.whole.flat.entries[member.whole];
    let own = stage.own.flat.entries[member.own];
    are_alike(stage, whole.note, own.note)
}

/// Whether a committed action, if it is a read that was committed before, sees the same write in both executions.
fn sees_alike_before(stage: &Stage, earlier: &Earlier, member: Member) -> bool
    requires stage { IsStage stage.now }
    requires member { IsMember stage.now member }
    ensures { IsTrue result ↔ SeesAlikeBefore stage.now earlier.now member }
{
    if !earlier.has(stage.own.flat.action(member.own).id) {
        return true;
    }
    sees_alike(stage, member)
}

/// The least action that breaks the fifth condition on a step (JLS 17.4.8), by its identifier, or none where the step meets it:
/// the reads that were committed before see the same writes as in the execution that is committed. It takes time in proportion
/// to the committed actions.
pub fn check_seen(stage: &Stage, earlier: &Earlier, members: &[Member]) -> Option<u64>
    requires stage { IsStage stage.now }
    requires earlier { IsEarlier stage.now earlier.now }
    requires present { Condition1 (program_of stage.now) (committed_of stage.now) (step_of stage.now) }
    requires members { AreMembers stage.now (length stage.now.own.now.flat.entries.items) members.now }
    ensures { IsLeastAction (Condition5At (program_of stage.now) (committed_of stage.now) earlier.now.names.now (step_of stage.now)) result }
{
    let mut least = None;
    for member in members {
        let id = stage.own.flat.action(member.own).id;
        least = noted(least, id, sees_alike_before(stage, earlier, *member));
    }
    least
}
