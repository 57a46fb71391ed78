//! The committed actions of one thread.

ghost use Rattle.std.specs.Prelude.{◌≡◌, ◌++◌, [], ◌∷◌, IfOk, OnOk, length};
ghost use Rattle.orders.specs.Tables.{action_of};
ghost use Rattle.step_members.specs.Members.{AreMembers, IsMember};
ghost use Rattle.step_members.specs.Stages.{IsStage};
ghost use Rattle.same_orders.specs.Happening.{AreOfThread};

use ports::Memory;
use std::alloc::Global;
use step_members::{Member, Stage};

/// Adds a committed action, if it is of a thread.
fn add_of(ms: &mut Vec<Member>, stage: &Stage, member: Member, thread: usize) -> Result<(), Memory>
    requires stage { IsStage stage.now }
    requires member { IsMember stage.now member }
    ensures own { OnOk result ((action_of stage.now.own.now.flat member.own).thread ≡ thread → ms.new.items ≡ ms.old.items ++ member ∷ []) }
    ensures other { OnOk result (((action_of stage.now.own.now.flat member.own).thread ≡ thread → ⊥) → ms.new.items ≡ ms.old.items) }
{
    if stage.own.flat.action(member.own).thread as usize == thread {
        ms.push(member).map_err(|_| Memory)?;
    }
    Ok(())
}

/// The committed actions of a thread, in the order of the step's execution.
pub fn of_thread(
    alloc: Global,
    stage: &Stage,
    members: &[Member],
    thread: usize,
) -> Result<Vec<Member>, Memory>
    requires stage { IsStage stage.now }
    requires members { AreMembers stage.now (length stage.now.own.now.flat.entries.items) members.now }
    ensures { IfOk result (λ ms. AreOfThread stage.now thread ms.items) }
{
    let mut ms = Vec::new(alloc);
    for member in members {
        add_of(&mut ms, stage, *member, thread)?;
    }
    Ok(ms)
}
