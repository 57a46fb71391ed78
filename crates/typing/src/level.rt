//! One level of the paths: what comes from the places that changed, and what is kept then.

ghost use Rattle.std.specs.Prelude.{◌≡◌, ◌≢◌, ◌<◌, ◌≤◌, ◌+◌, ℕ, List, length, Some, None, IfOk, OnOk, All, Contains, ◌⊎◌, nat_eq, true, false};
ghost use Rattle.opcodes.specs.Listing.{IsByPc};
ghost use Rattle.typing.specs.Levels.{DoesAt, IsAdvancing, ComesFrom, IsArrival, HasArrival, StepsTo, kept_at, Adds, IsFrom, Absorbs, IsDescribed, Landed};
ghost use Rattle.typing.specs.Describing.{DescribesAt};
ghost use Rattle.typing.specs.Ranks.{LeadsDown, IsLowered, states_rank};
ghost use Rattle.std.specs.List.{list_any};
ghost use Rattle.typing.specs.declared.untyped.UntypedMethod.{UntypedMethod};
ghost use Rattle.typing.specs.Summaries.{summary_of};

use crate::deed::Deed;
use crate::deeds::deed_of;
use crate::effect::advance;
use crate::joined::{Joined, merged};
use crate::targets::{listed_at, targets};
use crate::untyped::UntypedMethod;
use std::alloc::{AllocError, Global};

/// What comes from one place of the listing to another.
#[derive(Debug, Drop)]
pub struct Arrival {
    pub from: usize,
    pub to: usize,
    pub state: Joined,
}

/// What the instruction at a place of the listing does.
pub fn deed_at(method: &UntypedMethod, place: usize) -> Deed
    requires inside { place < length method.now.listing }
    requires symbols { length method.now.symbols ≡ length method.now.listing }
    ensures { DoesAt method.now place result }
{
    let listed = method.listing.get(place).unwrap();
    let symbol = method.symbols.get(place).unwrap();
    deed_of(&listed.instr, symbol)
}

/// What is kept behind the instruction at a place.
fn next_state(
    alloc: Global,
    method: &UntypedMethod,
    states: &[Option<Joined>],
    from: usize,
) -> Result<Joined, AllocError>
    requires symbols { length method.now.symbols ≡ length method.now.listing }
    requires long { length states.now ≡ length method.now.listing }
    requires advancing { IsAdvancing method.now states.now from }
    ensures { IfOk result (ComesFrom method.now states.now from) }
{
    match &states[from] {
        Some(state) => advance(alloc, state, deed_at(method, from), method.frame.result),
        None => unreachable!(),
    }
}

/// Adds what comes from a place to others.
fn arrive(
    alloc: Global,
    arrivals: &mut Vec<Arrival>,
    from: usize,
    to: usize,
    state: &Joined,
) -> Result<(), AllocError>
    ensures { OnOk result (Adds arrivals.old.items arrivals.new.items from to (summary_of state.now)) }
{
    arrivals.push(Arrival {
        from,
        to,
        state: state.copied(alloc)?,
    })?;
    Ok(())
}

/// Adds what comes from a place to each of these.
fn arrive_at_all(
    alloc: Global,
    arrivals: &mut Vec<Arrival>,
    from: usize,
    targets: &[usize],
    state: &Joined,
) -> Result<(), AllocError>
    ensures kept { OnOk result ((a : Arrival) → Contains arrivals.old.items a → Contains arrivals.new.items a) }
    ensures added { OnOk result ((to : ℕ) → Contains targets.now to → HasArrival arrivals.new.items from to) }
    ensures others { OnOk result (All (λ a. Contains arrivals.old.items a ⊎ IsFrom from targets.now (summary_of state.now) a) arrivals.new.items) }
{
    for to in targets {
        arrive(alloc, arrivals, from, *to, state)?;
    }
    Ok(())
}

/// Adds what comes from a place to others.
fn leave(
    alloc: Global,
    method: &UntypedMethod,
    states: &[Option<Joined>],
    from: usize,
    arrivals: &mut Vec<Arrival>,
) -> Result<(), AllocError>
    requires symbols { length method.now.symbols ≡ length method.now.listing }
    requires long { length states.now ≡ length method.now.listing }
    requires advancing { IsAdvancing method.now states.now from }
    ensures kept { OnOk result ((a : Arrival) → Contains arrivals.old.items a → Contains arrivals.new.items a) }
    ensures sound { OnOk result (All (IsArrival method.now states.now) arrivals.old.items → All (IsArrival method.now states.now) arrivals.new.items) }
    ensures whole { OnOk result ((to : ℕ) → StepsTo method.now.listing from to → HasArrival arrivals.new.items from to) }
{
    let next = next_state(alloc, method, states, from)?;
    let listing = method.listing.as_slice();
    let Some(at) = listed_at(listing, from) else {
        return Ok(());
    };
    let to = targets(alloc, listing, at)?;
    match arrive_at_all(alloc, arrivals, from, &to, &next) {
        Ok(()) => Ok(()),
        Err(error) => Err(error),
    }
}

/// What comes from the places that changed.
pub fn arrivals(
    alloc: Global,
    method: &UntypedMethod,
    states: &[Option<Joined>],
    changed: &[usize],
) -> Result<Vec<Arrival>, AllocError>
    requires symbols { length method.now.symbols ≡ length method.now.listing }
    requires long { length states.now ≡ length method.now.listing }
    requires advancing { (p : ℕ) → Contains changed.now p → IsAdvancing method.now states.now p }
    ensures sound { IfOk result (λ v. All (IsArrival method.now states.now) v.items) }
    ensures whole { IfOk result (λ v. (p to : ℕ) → Contains changed.now p → StepsTo method.now.listing p to → HasArrival v.items p to) }
{
    let mut arrivals = Vec::new(alloc);
    for from in changed {
        leave(alloc, method, states, *from, &mut arrivals)?;
    }
    Ok(arrivals)
}

/// A place takes an arrival. Says whether what it keeps changed.
fn absorb(
    alloc: Global,
    states: &mut Vec<Option<Joined>>,
    arrival: &Arrival,
) -> Result<bool, AllocError>
    requires { arrival.now.to < length states.old.items }
    ensures long { length states.new.items ≡ length states.old.items }
    ensures others { OnOk result ((q : ℕ) → q ≢ arrival.now.to → kept_at states.new.items q ≡ kept_at states.old.items q) }
    ensures here { IfOk result (Absorbs (kept_at states.old.items arrival.now.to) (kept_at states.new.items arrival.now.to) (summary_of arrival.now.state)) }
    ensures down { IfOk result (λ is_changed. LeadsDown is_changed (states_rank states.old.items) (states_rank states.new.items)) }
{
    match merged(alloc, &states[arrival.to], &arrival.state)? {
        Some(state) => {
            states[arrival.to] = Some(state);
            Ok(true)
        }
        None => Ok(false),
    }
}

/// Lists a place, if it changed.
fn note(changed: &mut Vec<usize>, place: usize, is_changed: bool) -> Result<(), AllocError>
    ensures unlisted { OnOk result ((q : ℕ) → list_any (nat_eq q) changed.new.items ≡ false → (list_any (nat_eq q) changed.old.items ≡ false) × (is_changed ≡ true → q ≢ place)) }
    ensures listed { OnOk result ((q : ℕ) → Contains changed.new.items q → Contains changed.old.items q ⊎ ((is_changed ≡ true) × (q ≡ place))) }
    ensures some { OnOk result (0 < length changed.new.items → (0 < length changed.old.items) ⊎ (is_changed ≡ true)) }
{
    if is_changed {
        changed.push(place)?;
    }
    Ok(())
}

/// The places take all arrivals. Lists the places that changed.
pub fn absorb_all(
    alloc: Global,
    states: &mut Vec<Option<Joined>>,
    arrivals: &[Arrival],
) -> Result<Vec<usize>, AllocError>
    requires { All (λ a. a.to < length states.old.items) arrivals.now }
    ensures long { length states.new.items ≡ length states.old.items }
    ensures described { OnOk result ((m : UntypedMethod) (most : ℕ) → IsDescribed m most states.old.items arrivals.now → (q : ℕ) → DescribesAt (Landed m most arrivals.now (length arrivals.now) q) (kept_at states.new.items q)) }
    ensures same { IfOk result (λ v. (q : ℕ) → list_any (nat_eq q) v.items ≡ false → kept_at states.new.items q ≡ kept_at states.old.items q) }
    ensures changed { IfOk result (λ v. (q : ℕ) → Contains v.items q → (q < length states.old.items) × ((x : Joined) × (kept_at states.new.items q ≡ Some x))) }
    ensures lowered { IfOk result (λ v. IsLowered v.items (states_rank states.old.items) (states_rank states.new.items)) }
{
    let mut changed = Vec::new(alloc);
    for arrival in arrivals {
        let is_changed = absorb(alloc, states, arrival)?;
        note(&mut changed, arrival.to, is_changed)?;
    }
    Ok(changed)
}
