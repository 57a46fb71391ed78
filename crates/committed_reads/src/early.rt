//! Actions that were committed before.

ghost use Rattle.std.specs.Prelude.{◌<◌, ◌↔◌, IsTrue, length};
ghost use Rattle.action_orders.specs.Causality.{Condition1};
ghost use Rattle.step_members.specs.Stages.{IsEarlier, IsStage, committed_of, program_of, step_of};
ghost use Rattle.committed_reads.specs.Early.{IsEarlyAt};

use step_members::{Earlier, Stage};

/// Whether the action at a place of the step's execution was committed before.
pub fn is_early(stage: &Stage, earlier: &Earlier, at: usize) -> bool
    requires stage { IsStage stage.now }
    requires earlier { IsEarlier stage.now earlier.now }
    requires present { Condition1 (program_of stage.now) (committed_of stage.now) (step_of stage.now) }
    requires inside { at < length stage.now.own.now.flat.entries.items }
    ensures { IsTrue result ↔ IsEarlyAt stage.now earlier.now at }
{
    let id = stage.own.flat.action(at).id;
    if !earlier.has(id) {
        return false;
    }
    match stage.whole.place(id) {
        Some(_) => true,
        None => false,
    }
}
