//! The first fault at a place.

ghost use Rattle.std.specs.Prelude.{◌≡◌, ◌≢◌, ◌<◌, ◌≤◌, ◌⊎◌, ◌↔◌, ℕ, length, true, false, IsTrue, IfOk, Some};
ghost use Rattle.typing.specs.Changes.{used_slot};
ghost use Rattle.typing.specs.Faults.{PastLocals, LeavesUnheld, IsReturn, ReturnsHolding};
ghost use Rattle.typing.specs.Joining.{count_at, stage_at};
ghost use Rattle.typing.specs.Summaries.{summary_of, change_of, summary_meets, IsMet, MissesStage, IsFirstShown};

use crate::change::{HeldChange, Misfit, ThreadChange};
use crate::deed::Deed;
use crate::effect::{Met, meet_states, used_slot};
use crate::joined::Joined;
use crate::maps::{Held, Threads, count_of, is_any_held, stage_of};
use crate::refusal::TypeKind;
use program::Frame;
use std::alloc::{AllocError, Global};

/// Whether the instruction uses a local that the frame doesn't have.
fn is_past_locals(frame: &Frame, deed: Deed) -> bool
    ensures { IsTrue result ↔ PastLocals frame.now (used_slot deed) }
{
    match used_slot(deed) {
        Some(slot) => frame.max_locals <= slot,
        None => false,
    }
}

/// Whether a monitor is left that is not held.
fn leaves_unheld(change: HeldChange, held: &Held) -> bool
    ensures { IsTrue result ↔ LeavesUnheld change (count_at held.now) }
{
    match change {
        HeldChange::Stays | HeldChange::Enters(_) => false,
        HeldChange::Leaves(monitor) => count_of(held, monitor) == 0,
    }
}

/// Whether the instruction is a return.
fn is_return(deed: Deed) -> bool
    ensures { IsTrue result ↔ IsReturn deed }
{
    matches!(deed, Deed::Return | Deed::ReturnInt)
}

/// Whether a return holds a monitor.
fn returns_holding(alloc: Global, deed: Deed, held: &Held) -> Result<bool, AllocError>
    ensures { IfOk result (λ yes_or_no. IsTrue yes_or_no ↔ ReturnsHolding deed (count_at held.now)) }
{
    if !is_return(deed) {
        return Ok(false);
    }
    is_any_held(alloc, held)
}

/// Whether a thread is started that is not ready, waited for that is not started or waited for, or asked for that is not
/// started.
fn misses_stage(change: ThreadChange, threads: &Threads) -> bool
    ensures { IsTrue result ↔ MissesStage change (stage_at threads.now) }
{
    match change {
        ThreadChange::Stays | ThreadChange::Makes(_) | ThreadChange::Readies(_) => false,
        ThreadChange::Starts(thread) => stage_of(threads, thread).unready,
        ThreadChange::Joins(thread) => stage_of(threads, thread).unawaited,
        ThreadChange::Asks(thread) => stage_of(threads, thread).unstarted,
    }
}

/// The first fault of an instruction that changes the states, if any.
fn fault_of_change(
    alloc: Global,
    frame: &Frame,
    deed: Deed,
    state: &Joined,
    met: &Met,
) -> Result<Option<TypeKind>, AllocError>
    requires stacks_agree { state.now.stacks_differ ≡ false }
    requires met { IsMet (summary_meets frame.now.result deed (summary_of state.now)) met.now }
    ensures { IfOk result (IsFirstShown frame.now deed (summary_of state.now)) }
{
    if met.stack.len() > frame.max_stack as usize || is_past_locals(frame, deed) {
        return Ok(Some(TypeKind::StackDepth));
    }
    let returns = returns_holding(alloc, deed, &state.held)?;
    if state.held_differs || leaves_unheld(met.changed.held, &state.held) || returns {
        return Ok(Some(TypeKind::Unstructured));
    }
    if misses_stage(met.changed.thread, &state.threads) {
        return Ok(Some(TypeKind::ThreadState));
    }
    Ok(None)
}

/// The first fault of an instruction on the paths that come to it, if any.
pub fn fault_of(
    alloc: Global,
    frame: &Frame,
    deed: Deed,
    state: &Joined,
) -> Result<Option<TypeKind>, AllocError>
    ensures { IfOk result (IsFirstShown frame.now deed (summary_of state.now)) }
{
    if state.stacks_differ {
        return Ok(Some(TypeKind::TypeMisfit));
    }
    match meet_states(alloc, state, deed, frame.result) {
        Ok(met) => fault_of_change(alloc, frame, deed, state, &met),
        Err(Misfit::Operands) => Ok(Some(TypeKind::TypeMisfit)),
        Err(Misfit::NoLock) if is_past_locals(frame, deed) => Ok(Some(TypeKind::StackDepth)),
        Err(Misfit::NoLock) => Ok(Some(TypeKind::LockOperand)),
        Err(Misfit::Memory) => Err(AllocError),
    }
}
