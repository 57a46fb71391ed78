//! Typed states, from what is kept at the places.

ghost use Rattle.std.specs.Prelude.{◌≡◌, ◌∷◌, ◌++◌, [], reverse, IfOk, OnOk};
ghost use Rattle.typing.specs.Joining.{known, local_at, count_at};
ghost use Rattle.typing.specs.Listings.{Lists, HasType, IsHeld, IsTold, AddsLocal, AddsHeld};
ghost use Rattle.typing.specs.Summaries.{summary_of};

use crate::joined::Joined;
use crate::joined_type::known;
use crate::maps::{Held, Locals, count_of, keys_of, local_of};
use program::{HeldMonitor, Items, TypedLocal, TypedState, ValueType};
use std::alloc::{AllocError, Global};

/// Adds a local, if it has a type.
fn add_local(listed: &mut Vec<TypedLocal>, slot: u32, locals: &Locals) -> Result<(), AllocError>
    ensures { OnOk result (AddsLocal listed.old.items slot (known (local_at locals.now slot)) listed.new.items) }
{
    if let Some(holds) = known(local_of(locals, slot)) {
        listed.push(TypedLocal { slot, holds })?;
    }
    Ok(())
}

/// The locals that have a type, by slot.
fn typed_locals(alloc: Global, state: &Joined) -> Result<Items<TypedLocal>, AllocError>
    ensures { IfOk result (Lists (λ l. l.slot) (HasType (summary_of state.now))) }
{
    let slots = keys_of(alloc, &state.locals)?;
    let mut listed = Vec::new(alloc);
    for slot in &slots {
        add_local(&mut listed, *slot, &state.locals)?;
    }
    Ok(Items::of(listed))
}

/// Adds a monitor, if it is held.
fn add_held(listed: &mut Vec<HeldMonitor>, monitor: u32, held: &Held) -> Result<(), AllocError>
    ensures { OnOk result (AddsHeld listed.old.items monitor (count_at held.now monitor) listed.new.items) }
{
    let count = count_of(held, monitor);
    if count != 0 {
        listed.push(HeldMonitor { monitor, count })?;
    }
    Ok(())
}

/// The monitors that are held, by number.
fn held_monitors(alloc: Global, state: &Joined) -> Result<Items<HeldMonitor>, AllocError>
    ensures { IfOk result (Lists (λ h. h.monitor) (IsHeld (summary_of state.now))) }
{
    let monitors = keys_of(alloc, &state.held)?;
    let mut listed = Vec::new(alloc);
    for monitor in &monitors {
        add_held(&mut listed, *monitor, &state.held)?;
    }
    Ok(Items::of(listed))
}

/// The stack, the lowest type first.
fn typed_stack(alloc: Global, state: &Joined) -> Result<Items<ValueType>, AllocError>
    ensures { IfOk result (λ r. state.now.stack ≡ reverse r) }
{
    let mut items = Vec::new(alloc);
    items.extend_from_slice(state.stack.as_slice())?;
    Ok(Items::of(items))
}

/// The typed state of a place.
pub fn typed_state(alloc: Global, state: &Joined) -> Result<TypedState, AllocError>
    ensures { IfOk result (IsTold (summary_of state.now)) }
{
    Ok(TypedState {
        locals: typed_locals(alloc, state)?,
        stack: typed_stack(alloc, state)?,
        held: held_monitors(alloc, state)?,
    })
}
