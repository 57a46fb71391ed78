//! The first fault among the places that changed.

ghost use Rattle.std.specs.Prelude.{◌≡◌, ◌<◌, ◌≤◌, ℕ, length, Some, None, IfOk, IfErr, OnOk, Contains};
ghost use Rattle.opcodes.specs.Listing.{IsByPc};
ghost use Rattle.typing.specs.Levels.{IsFirstAt, ShowsAt, IsUnlooked, IsLevel, IsLeastFound, IsSooner, StandsOn};
ghost use Rattle.typing.specs.Typing.{IsRefused};
ghost use Rattle.typing.specs.declared.refusal.TypeKind.{TypeKind};

use crate::fault::fault_of;
use crate::joined::Joined;
use crate::level::deed_at;
use crate::refusal::{TypeKind, TypeRefusal};
use crate::untyped::UntypedMethod;
use std::alloc::{AllocError, Global};

/// A fault at a place of the listing.
#[derive(Clone, Copy, Debug, PartialEq, Eq)]
pub struct Found {
    pub place: usize,
    pub kind: TypeKind,
}

/// The first fault at a place, if any.
pub fn fault_at(
    alloc: Global,
    method: &UntypedMethod,
    states: &[Option<Joined>],
    place: usize,
) -> Result<Option<TypeKind>, AllocError>
    requires symbols { length method.now.symbols ≡ length method.now.listing }
    requires long { length states.now ≡ length method.now.listing }
    requires inside { place < length method.now.listing }
    ensures { IfOk result (IsFirstAt method.now states.now place) }
{
    match &states[place] {
        None => Ok(None),
        Some(state) => fault_of(alloc, &method.frame, deed_at(method, place), state),
    }
}

/// The fault at the lesser place.
fn sooner(best: Option<Found>, place: usize, fault: Option<TypeKind>) -> Option<Found>
    ensures { IsSooner best place fault result }
{
    let Some(kind) = fault else {
        return best;
    };
    match best {
        Some(found) if found.place <= place => best,
        _ => Some(Found { place, kind }),
    }
}

/// The first fault at the least place with one, among those that changed.
fn least_fault(
    alloc: Global,
    method: &UntypedMethod,
    states: &[Option<Joined>],
    changed: &[usize],
) -> Result<Option<Found>, AllocError>
    requires symbols { length method.now.symbols ≡ length method.now.listing }
    requires long { length states.now ≡ length method.now.listing }
    requires inside { (q : ℕ) → Contains changed.now q → q < length method.now.listing }
    ensures { IfOk result (IsLeastFound method.now states.now changed.now (length changed.now)) }
{
    let mut best = None;
    for place in changed {
        let fault = fault_at(alloc, method, states, *place)?;
        best = sooner(best, *place, fault);
    }
    Ok(best)
}

/// Refuses the first fault at the least place with one, among those that changed.
pub fn refuse(
    alloc: Global,
    method: &UntypedMethod,
    states: &[Option<Joined>],
    changed: &[usize],
) -> Result<(), TypeRefusal>
    requires symbols { length method.now.symbols ≡ length method.now.listing }
    requires level { (most : ℕ) × IsUnlooked method.now most states.now changed.now }
    ensures ok { OnOk result ((most : ℕ) → IsUnlooked method.now most states.now changed.now → IsLevel method.now most states.now changed.now) }
    ensures err { IfErr result (IsRefused method.now) }
{
    match least_fault(alloc, method, states, changed) {
        Ok(None) => Ok(()),
        Ok(Some(found)) => Err(TypeRefusal::Refused {
            kind: found.kind,
            pc: pc_at(method, found.place),
        }),
        Err(_) => Err(TypeRefusal::Memory),
    }
}

/// The place of the code of a place of the listing.
fn pc_at(method: &UntypedMethod, place: usize) -> u32
    requires { place < length method.now.listing }
    ensures { StandsOn method.now.listing place result }
{
    let listing = method.listing.as_slice();
    listing[place].pc
}
