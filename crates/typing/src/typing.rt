//! The types of a method.

ghost use Rattle.std.specs.Prelude.{◌≡◌, ◌<◌, ◌≤◌, ◌++◌, [], ◌∷◌, Some, ℕ, pos, length, IfOk, IfErr, OnOk};
ghost use Rattle.opcodes.specs.Listing.{IsByPc};
ghost use Rattle.typing.specs.Levels.{IsLevel, IsBegun, IsEntryKind, kept_at};
ghost use Rattle.typing.specs.Listings.{IsTold, IsToldOf};
ghost use Rattle.typing.specs.Ranks.{IsLowered, states_rank};
ghost use Rattle.typing.specs.Summaries.{summary_of};
ghost use Rattle.typing.specs.Paths.{PastEntry};
ghost use Rattle.typing.specs.Typing.{IsListed, AllReached, IsRefused, IsTyping};

use crate::entry::{entered, filled};
use crate::joined::Joined;
use crate::level::{absorb_all, arrivals};
use crate::look::{fault_at, refuse};
use crate::output::typed_state;
use crate::refusal::{TypeKind, TypeRefusal};
use crate::untyped::UntypedMethod;
use program::{Items, TypedState};
use std::alloc::Global;

/// The first kind of fault where a local is filled at the entry that the frame doesn't have, by the first fault of the
/// instruction there.
fn entry_kind(fault: Option<TypeKind>) -> TypeKind
    ensures { IsEntryKind fault result }
{
    if fault == Some(TypeKind::TypeMisfit) {
        TypeKind::TypeMisfit
    } else {
        TypeKind::StackDepth
    }
}

/// Refuses a method that fills locals at its entry that its frame doesn't have.
fn refuse_entry(
    alloc: Global,
    method: &UntypedMethod,
    states: &[Option<Joined>],
) -> Result<(), TypeRefusal>
    requires symbols { length method.now.symbols ≡ length method.now.listing }
    requires by_pc { IsByPc method.now.listing }
    requires start { IsListed method.now.listing (pos 0) }
    requires begun { IsBegun method.now states.now }
    ensures ok { OnOk result (PastEntry method.now → ⊥) }
    ensures err { IfErr result (IsRefused method.now) }
{
    if filled(method.entry, method.frame.parameters) <= method.frame.max_locals {
        return Ok(());
    }
    match fault_at(alloc, method, states, 0) {
        Ok(fault) => Err(TypeRefusal::Refused {
            kind: entry_kind(fault),
            pc: 0,
        }),
        Err(_) => Err(TypeRefusal::Memory),
    }
}

/// What is kept before the first step.
fn begin(alloc: Global, method: &UntypedMethod) -> Result<Vec<Option<Joined>>, TypeRefusal>
    requires symbols { length method.now.symbols ≡ length method.now.listing }
    requires by_pc { IsByPc method.now.listing }
    requires start { IsListed method.now.listing (pos 0) }
    ensures ok { IfOk result (λ v. IsLevel method.now 0 v.items (0 ∷ [])) }
    ensures err { IfErr result (IsRefused method.now) }
{
    let Ok(states) = entered(alloc, method) else {
        return Err(TypeRefusal::Memory);
    };
    match refuse_entry(alloc, method, &states) {
        Ok(()) => {}
        Err(refusal) => return Err(refusal),
    }
    match refuse(alloc, method, &states, &[0]) {
        Ok(()) => Ok(states),
        Err(refusal) => Err(refusal),
    }
}

/// Goes one level further. Lists the places that changed.
fn go_on(
    alloc: Global,
    method: &UntypedMethod,
    states: &mut Vec<Option<Joined>>,
    changed: &[usize],
) -> Result<Vec<usize>, TypeRefusal>
    requires symbols { length method.now.symbols ≡ length method.now.listing }
    requires by_pc { IsByPc method.now.listing }
    requires level { (most : ℕ) × IsLevel method.now most states.old.items changed.now }
    ensures ok { IfOk result (λ v. (most : ℕ) × IsLevel method.now most states.new.items v.items) }
    ensures err { IfErr result (IsRefused method.now) }
    ensures lowered { IfOk result (λ v. IsLowered v.items (states_rank states.old.items) (states_rank states.new.items)) }
{
    let Ok(arrivals) = arrivals(alloc, method, states, changed) else {
        return Err(TypeRefusal::Memory);
    };
    let Ok(changed) = absorb_all(alloc, states, &arrivals) else {
        return Err(TypeRefusal::Memory);
    };
    match refuse(alloc, method, states, &changed) {
        Ok(()) => Ok(changed),
        Err(refusal) => Err(refusal),
    }
}

/// What is kept at each place of the listing of all paths. Each level that changes a place lowers a rank, so the last one
/// comes.
fn joined_states(alloc: Global, method: &UntypedMethod) -> Result<Vec<Option<Joined>>, TypeRefusal>
    requires symbols { length method.now.symbols ≡ length method.now.listing }
    requires by_pc { IsByPc method.now.listing }
    requires start { IsListed method.now.listing (pos 0) }
    ensures ok { IfOk result (λ v. (most : ℕ) × IsLevel method.now most v.items []) }
    ensures err { IfErr result (IsRefused method.now) }
{
    let mut states = begin(alloc, method)?;
    let Ok(mut changed) = vec![in alloc; 0usize; 1] else {
        return Err(TypeRefusal::Memory);
    };
    'levels: while !changed.is_empty() {
        changed = go_on(alloc, method, &mut states, &changed)?;
    }
    Ok(states)
}

/// The typed state of a place.
fn told_at(alloc: Global, state: &Option<Joined>) -> Result<TypedState, TypeRefusal>
    requires { (x : Joined) × (state.now ≡ Some x) }
    ensures ok { IfOk result (λ s. (x : Joined) → state.now ≡ Some x → IsTold (summary_of x) s) }
    ensures err { IfErr result (λ e. e ≡ TypeRefusal.Memory) }
{
    match state {
        None => unreachable!(),
        Some(state) => match typed_state(alloc, state) {
            Ok(told) => Ok(told),
            Err(_) => Err(TypeRefusal::Memory),
        },
    }
}

/// Adds the typed state of a place to others.
fn tell(
    alloc: Global,
    told: &mut Vec<TypedState>,
    state: &Option<Joined>,
) -> Result<(), TypeRefusal>
    requires { (x : Joined) × (state.now ≡ Some x) }
    ensures ok { OnOk result ((s : TypedState) × (told.new.items ≡ told.old.items ++ s ∷ []) × ((x : Joined) → state.now ≡ Some x → IsTold (summary_of x) s)) }
    ensures err { IfErr result (λ e. e ≡ TypeRefusal.Memory) }
{
    let state = told_at(alloc, state)?;
    match told.push(state) {
        Ok(()) => Ok(()),
        Err(_) => Err(TypeRefusal::Memory),
    }
}

/// The typed states of all places.
fn told_states(alloc: Global, states: &[Option<Joined>]) -> Result<Items<TypedState>, TypeRefusal>
    requires { (q : ℕ) → q < length states.now → (x : Joined) × (kept_at states.now q ≡ Some x) }
    ensures ok { IfOk result (IsToldOf states.now (length states.now)) }
    ensures err { IfErr result (λ e. e ≡ TypeRefusal.Memory) }
{
    let mut told = Vec::new(alloc);
    for state in states {
        tell(alloc, &mut told, state)?;
    }
    Ok(Items::of(told))
}

/// The types of a method along all its paths: for each listed instruction, in order, what is known of the frame before it.
///
/// # Errors
/// `Refused` with the first kind of fault at the least place of the code on the shortest paths that fail or disagree,
/// `Memory` where there is no room.
pub fn type_method(alloc: Global, method: &UntypedMethod) -> Result<Items<TypedState>, TypeRefusal>
    requires symbols { length method.now.symbols ≡ length method.now.listing }
    requires start { IsListed method.now.listing (pos 0) }
    requires reached { AllReached method.now.listing }
    ensures ok { IfOk result (IsTyping method.now) }
    ensures err { IfErr result (IsRefused method.now) }
{
    // The places of a listing increase.
    let _by_pc = method.listing.as_slice();
    let states = joined_states(alloc, method)?;
    match told_states(alloc, &states) {
        Ok(told) => Ok(told),
        Err(_) => Err(TypeRefusal::Memory),
    }
}
