//! The synchronization order over committed actions.

ghost use Rattle.std.specs.Prelude.{◌≡◌, ◌<◌, ◌↔◌, IfNone, IfOk, IfSome, IsTrue, length, map};
ghost use Rattle.action_orders.specs.Causality.{Condition1};
ghost use Rattle.least_break.specs.Least.{IsScanned};
ghost use Rattle.step_members.specs.AtActions.{Condition3At, IsLeastAction};
ghost use Rattle.step_members.specs.Stages.{IsStage, committed_of, program_of, step_of};
ghost use Rattle.step_members.specs.declared.table.Member.{Member};
ghost use Rattle.same_orders.specs.Lines.{IsLine};
ghost use Rattle.same_orders.specs.Synced.{AreAllLater, AreNoneLater, AreRising, AreSyncMembers, IsSyncMember, StandsAlike, sync_id};

use crate::line::Line;
use least_break::noted;
use ports::Memory;
use std::alloc::Global;
use step_members::{Member, Stage, add_member};

/// The places of the action at a place of the step's synchronization order, if it is committed.
fn sync_member_at(stage: &Stage, own: usize) -> Option<Member>
    requires stage { IsStage stage.now }
    requires inside { own < length stage.now.own.now.flat.execution.now.so }
    ensures found { IfSome result (λ m. IsSyncMember stage.now m × (m.own ≡ own)) }
    ensures none { IfNone result ((m : Member) → IsSyncMember stage.now m → m.own ≡ own → ⊥) }
{
    let orders = stage.own;
    let so = orders.flat.execution.so();
    let id = so[own];
    if !stage.has(id) {
        return None;
    }
    match stage.whole.synced_place(id) {
        Some(whole) => Some(Member { whole, own }),
        None => None,
    }
}

/// The committed synchronization actions, in the step's synchronization order.
fn sync_members(alloc: Global, stage: &Stage) -> Result<Vec<Member>, Memory>
    requires { IsStage stage.now }
    ensures { IfOk result (λ ms. AreSyncMembers stage.now (length stage.now.own.now.flat.execution.now.so) ms.items) }
{
    let orders = stage.own;
    let so = orders.flat.execution.so();
    let mut ms = Vec::new(alloc);
    for own in 0..so.len() {
        add_member(&mut ms, sync_member_at(stage, own))?;
    }
    Ok(ms)
}

/// Whether the members after one stand after it in the committed execution.
fn are_later(line: &Line, at: usize) -> bool
    requires line { IsLine line.now }
    requires inside { at < length line.now.members.items }
    ensures { IsTrue result ↔ AreAllLater line.now.members.items at }
{
    match line.least_from(at + 1) {
        Some(least) => line.members[at].whole < least,
        None => true,
    }
}

/// Whether a member before one stands after it in the committed execution.
fn is_earlier_later(line: &Line, at: usize) -> bool
    requires line { IsLine line.now }
    requires inside { at < length line.now.members.items }
    ensures { (IsTrue result → ⊥) ↔ AreNoneLater line.now.members.items at }
{
    match line.greatest_below(at) {
        Some(greatest) => line.members[at].whole < greatest,
        None => false,
    }
}

/// Whether a member stands before the same others in both orders.
fn stands_alike(line: &Line, at: usize) -> bool
    requires line { IsLine line.now }
    requires rising { AreRising line.now.members.items }
    requires inside { at < length line.now.members.items }
    ensures { IsTrue result ↔ StandsAlike line.now.members.items at }
{
    if is_earlier_later(line, at) {
        return false;
    }
    are_later(line, at)
}

/// The least committed action that doesn't stand before the same others in both orders.
fn scan(stage: &Stage, line: &Line) -> Option<u64>
    requires stage { IsStage stage.now }
    requires line { IsLine line.now }
    requires members { AreSyncMembers stage.now (length stage.now.own.now.flat.execution.now.so) line.now.members.items }
    ensures { IsScanned (StandsAlike line.now.members.items) (map (sync_id stage.now) line.now.members.items) (length line.now.members.items) result }
{
    let orders = stage.own;
    let so = orders.flat.execution.so();
    let mut least = None;
    for at in 0..line.members.len() {
        let id = so[line.members[at].own];
        least = noted(least, id, stands_alike(line, at));
    }
    least
}

/// The least action that breaks the third condition on a step (JLS 17.4.8), by its identifier, or none where the step meets it:
/// the synchronization order on the committed actions is that of the execution that is committed. The action is the first of a
/// pair. The first condition holds. It takes time in proportion to the synchronization actions of the step's execution.
///
/// # Errors
///
/// `Memory` where an allocation fails.
pub fn check_synchronization_order(alloc: Global, stage: &Stage) -> Result<Option<u64>, Memory>
    requires stage { IsStage stage.now }
    requires present { Condition1 (program_of stage.now) (committed_of stage.now) (step_of stage.now) }
    ensures { IfOk result (IsLeastAction (Condition3At (program_of stage.now) (committed_of stage.now) (step_of stage.now))) }
{
    let line = Line::new(alloc, sync_members(alloc, stage)?)?;
    Ok(scan(stage, &line))
}
