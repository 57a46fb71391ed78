//! The values that committed writes store.

ghost use Rattle.std.specs.Prelude.{◌↔◌, IsTrue, length};
ghost use Rattle.action_orders.specs.Causality.{Condition1};
ghost use Rattle.step_members.specs.AtActions.{Condition4At, IsLeastAction};
ghost use Rattle.step_members.specs.Members.{AreMembers, IsMember};
ghost use Rattle.step_members.specs.Stages.{IsStage, committed_of, program_of, step_of};
ghost use Rattle.same_notes.specs.Notes.{StoresAlike, are_stored_alike};

use action_orders::Note;
use least_break::noted;
use step_members::{Member, Stage};

/// Whether two notes don't store two values.
fn are_alike(whole: Note, own: Note) -> bool
    ensures { IsTrue result ↔ are_stored_alike whole own }
{
    match (whole, own) {
        (Note::Stores(value), Note::Stores(other)) => value == other,
        _ => true,
    }
}

/// Whether a committed action stores the same in both executions.
fn stores_alike(stage: &Stage, member: Member) -> bool
    requires stage { IsStage stage.now }
    requires member { IsMember stage.now member }
    ensures { IsTrue result ↔ StoresAlike stage.now member }
{
    let whole = stage.whole.flat.entries[member.whole];
    let own = stage.own.flat.entries[member.own];
    are_alike(whole.note, own.note)
}

/// The least action that breaks the fourth condition on a step (JLS 17.4.8), by its identifier, or none where the step meets it:
/// the committed writes store the same values as in the execution that is committed. It takes time in proportion to the
/// committed actions.
pub fn check_stored(stage: &Stage, members: &[Member]) -> Option<u64>
    requires stage { IsStage stage.now }
    requires present { Condition1 (program_of stage.now) (committed_of stage.now) (step_of stage.now) }
    requires members { AreMembers stage.now (length stage.now.own.now.flat.entries.items) members.now }
    ensures { IsLeastAction (Condition4At (program_of stage.now) (committed_of stage.now) (step_of stage.now)) result }
{
    let mut least = None;
    for member in members {
        let id = stage.own.flat.action(member.own).id;
        least = noted(least, id, stores_alike(stage, *member));
    }
    least
}
