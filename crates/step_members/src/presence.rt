//! Whether committed actions are actions of the step's execution.

ghost use Rattle.std.specs.Prelude.{◌↔◌, IsTrue, length};
ghost use Rattle.least_break.specs.Least.{IsScanned};
ghost use Rattle.step_members.specs.AtActions.{Condition1At, IsLeastAction, WithId};
ghost use Rattle.step_members.specs.Stages.{IsStage, committed_of, program_of, step_of};
ghost use Rattle.step_members.specs.Members.{IsPresent};

use crate::stage::Stage;
use least_break::noted;

/// Whether the action of the committed execution with an identifier, if there is one, is an action of the step's execution.
fn is_present(stage: &Stage, id: u64) -> bool
    requires { IsStage stage.now }
    ensures { IsTrue result ↔ IsPresent stage.now id }
{
    let Some(place) = stage.whole.place(id) else {
        return true;
    };
    match stage.own.place(id) {
        Some(own) => stage
            .whole
            .flat
            .action(place)
            .same(stage.own.flat.action(own)),
        None => false,
    }
}

/// The least action that breaks the first condition on a step (JLS 17.4.8), by its identifier, or none where the step meets it:
/// the committed actions are actions of the step's execution. It takes time in proportion to the members.
pub fn check_presence(stage: &Stage) -> Option<u64>
    requires { IsStage stage.now }
    ensures { IsLeastAction (Condition1At (program_of stage.now) (committed_of stage.now) (step_of stage.now)) result }
{
    let ids = stage.ids.as_slice();
    let mut least = None;
    for id in ids {
        least = noted(least, *id, is_present(stage, *id));
    }
    least
}
