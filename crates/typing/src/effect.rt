//! What is kept behind an instruction.

ghost use Rattle.std.specs.Prelude.{◌≡◌, Some, IfOk, IfErr, ⊤};
ghost use Rattle.std.specs.Option.{option_and_then};
ghost use Rattle.typing.specs.Changes.{meeting, loaded_slot, used_slot};
ghost use Rattle.typing.specs.Joining.{known, local_at};
ghost use Rattle.typing.specs.Meets.{IsMisfit};
ghost use Rattle.typing.specs.Summaries.{summary_of, summary_meets, Follows, IsChanging, IsMet, IsBehind, change_of};

use crate::change::{Changed, Misfit};
use crate::deed::Deed;
use crate::joined::Joined;
use crate::joined_type::known;
use crate::maps::{
    change_held, change_locals, change_threads, copied_held, copied_locals, copied_threads,
    local_of,
};
use crate::meeting::meet;
use crate::stack::TypeStack;
use program::ValueType;
use std::alloc::{AllocError, Global};

/// What an instruction changes, and the stack that it leaves.
#[derive(Debug, Drop)]
pub struct Met {
    pub changed: Changed,
    pub stack: TypeStack,
}

/// The local that an instruction loads.
pub fn loaded_slot(deed: Deed) -> Option<u32>
    ensures { result ≡ loaded_slot deed }
{
    match deed {
        Deed::LoadInt(slot) | Deed::LoadReference(slot) | Deed::Increment(slot) => Some(slot),
        _ => None,
    }
}

/// The local that an instruction uses.
pub fn used_slot(deed: Deed) -> Option<u32>
    ensures { result ≡ used_slot deed }
{
    match deed {
        Deed::LoadInt(slot)
        | Deed::LoadReference(slot)
        | Deed::StoreInt(slot)
        | Deed::StoreReference(slot)
        | Deed::Increment(slot) => Some(slot),
        _ => None,
    }
}

/// The type that an instruction loads.
fn loaded(state: &Joined, deed: Deed) -> Option<ValueType>
    ensures { result ≡ option_and_then (λ slot. known (local_at state.now.locals slot)) (loaded_slot deed) }
{
    match loaded_slot(deed) {
        Some(slot) => known(local_of(&state.locals, slot)),
        None => None,
    }
}

/// How an instruction meets the states at a place.
pub fn meet_states(
    alloc: Global,
    state: &Joined,
    deed: Deed,
    has_result: bool,
) -> Result<Met, Misfit>
    ensures ok { IfOk result (IsMet (summary_meets has_result deed (summary_of state.now))) }
    ensures err { IfErr result (IsMisfit (summary_meets has_result deed (summary_of state.now))) }
{
    let Ok(mut stack) = state.stack.copied(alloc) else {
        return Err(Misfit::Memory);
    };
    match meet(&mut stack, has_result, deed, loaded(state, deed)) {
        Ok(changed) => Ok(Met { changed, stack }),
        Err(misfit) => Err(misfit),
    }
}

/// What is kept behind an instruction that changes the states so.
fn behind(alloc: Global, state: &Joined, met: Met) -> Result<Joined, AllocError>
    ensures { IfOk result (λ r. IsBehind (change_of met) (summary_of state.now) (summary_of r)) }
{
    let Met { changed, stack } = met;
    let mut locals = copied_locals(&state.locals)?;
    change_locals(alloc, &mut locals, changed.local)?;
    let mut held = copied_held(&state.held)?;
    change_held(&mut held, changed.held)?;
    let mut threads = copied_threads(&state.threads)?;
    change_threads(&mut threads, changed.thread)?;
    Ok(Joined {
        locals,
        stack,
        stacks_differ: false,
        held,
        held_differs: false,
        threads,
    })
}

/// What is kept behind an instruction.
pub fn advance(
    alloc: Global,
    state: &Joined,
    deed: Deed,
    has_result: bool,
) -> Result<Joined, AllocError>
    requires { IsChanging has_result deed (summary_of state.now) }
    ensures { IfOk result (λ r. Follows has_result deed (summary_of state.now) (summary_of r)) }
{
    match meet_states(alloc, state, deed, has_result) {
        Ok(met) => behind(alloc, state, met),
        Err(Misfit::Memory) => Err(AllocError),
        Err(Misfit::Operands | Misfit::NoLock) => unreachable!(),
    }
}
