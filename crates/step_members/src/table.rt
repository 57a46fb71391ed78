//! The committed actions by their places in both executions.

ghost use Rattle.std.specs.Prelude.{◌≡◌, ◌<◌, IfOk, IfNone, IfSome, OnOk, length};
ghost use Rattle.action_orders.specs.Causality.{Condition1};
ghost use Rattle.step_members.specs.Stages.{IsStage, committed_of, program_of, step_of};
ghost use Rattle.step_members.specs.Members.{AreMembers, IsMember, with_member};
ghost use Rattle.step_members.specs.declared.table.Member.{Member};

use crate::stage::Stage;
use ports::Memory;
use std::alloc::Global;

/// The places of a committed action among all threads' actions of the execution that is committed, and of the step's own.
#[derive(Clone, Copy, Debug, PartialEq, Eq)]
pub struct Member {
    pub whole: usize,
    pub own: usize,
}

/// The places of the action at a place of the step's execution, if it is committed.
pub fn member_at(stage: &Stage, own: usize) -> Option<Member>
    requires stage { IsStage stage.now }
    requires present { Condition1 (program_of stage.now) (committed_of stage.now) (step_of stage.now) }
    requires inside { own < length stage.now.own.now.flat.entries.items }
    ensures found { IfSome result (λ m. IsMember stage.now m × (m.own ≡ own)) }
    ensures none { IfNone result ((m : Member) → IsMember stage.now m → m.own ≡ own → ⊥) }
{
    let id = stage.own.flat.action(own).id;
    if !stage.has(id) {
        return None;
    }
    match stage.whole.place(id) {
        Some(whole) => Some(Member { whole, own }),
        None => None,
    }
}

/// Adds a pair of places, if any.
///
/// # Errors
///
/// `Memory` where an allocation fails.
pub fn add_member(ms: &mut Vec<Member>, member: Option<Member>) -> Result<(), Memory>
    ensures { OnOk result (ms.new.items ≡ with_member ms.old.items member) }
{
    if let Some(member) = member {
        ms.push(member).map_err(|_| Memory)?;
    }
    Ok(())
}

/// The committed actions, in the order of their places in the step's execution, where the first condition holds. It takes time
/// in proportion to the actions of the step's execution.
///
/// # Errors
///
/// `Memory` where an allocation fails.
pub fn members(alloc: Global, stage: &Stage) -> Result<Vec<Member>, Memory>
    requires stage { IsStage stage.now }
    requires present { Condition1 (program_of stage.now) (committed_of stage.now) (step_of stage.now) }
    ensures { IfOk result (λ ms. AreMembers stage.now (length stage.now.own.now.flat.entries.items) ms.items) }
{
    let mut ms = Vec::new(alloc);
    for own in 0..stage.own.flat.entries.len() {
        add_member(&mut ms, member_at(stage, own))?;
    }
    Ok(ms)
}
