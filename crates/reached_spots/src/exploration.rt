//! The spots that the threads of a program reach.

ghost use Rattle.std.specs.Prelude.{◌≡◌, ◌≤◌, ◌↔◌, ◌⊎◌, [], ◌∷◌, ◌++◌, Contains, IfErr, IfOk, OnOk, false, length, true};
ghost use Rattle.std.specs.List.Sorted.{IsStrictlySortedBy};
ghost use Rattle.spots.specs.Spots.{IsReached, StepsTo};
ghost use Rattle.spots.specs.Order.{spot_cmp};
ghost use Rattle.reached_spots.specs.Exploring.{AreTooMany, HasTooMany, IsExplored, IsExploring, IsInserted, IsMet, LeadsAmong, SomeLeavesOut, code_nodes};

use crate::refusal::ReachRefusal;
use ports::Memory;
use program::{Items, Program};
use spots::{Lead, Position, Spot, leads_from};
use std::alloc::Global;
use std::collections::BTreeSet;

/// How many spots the threads of a program may reach in all.
const CODE_NODES: usize = 1024;

/// The spots that are reached, in their order, and whether a step from one of them was left out, since it takes one backward
/// jump too many.
#[derive(Debug, Drop)]
pub struct Reached {
    pub spots: Items<Spot>,
    pub left_out: bool,
}

/// The spots that were met so far, and those of them whose steps were not looked at yet.
#[derive(Drop)]
struct Exploration {
    seen: BTreeSet<Spot>,
    waiting: Vec<Spot>,
}

/// The exploration that has met nothing.
fn nothing(alloc: Global) -> Exploration
    ensures seen { result.seen.keys ≡ [] }
    ensures waiting { result.waiting.items ≡ [] }
{
    Exploration {
        seen: BTreeSet::new(alloc),
        waiting: Vec::new(alloc),
    }
}

/// Adds a spot to a set, and says whether it is new there.
fn insert(seen: &mut BTreeSet<Spot>, spot: Spot) -> Result<bool, Memory>
    ensures { IfOk result (IsInserted seen.old seen.new spot) }
{
    let Ok(added) = seen.insert(spot) else {
        return Err(Memory);
    };
    Ok(added)
}

/// Lets a spot wait.
fn wait(waiting: &mut Vec<Spot>, spot: Spot) -> Result<(), Memory>
    ensures { OnOk result (waiting.new.items ≡ waiting.old.items ++ spot ∷ []) }
{
    match waiting.push(spot) {
        Ok(()) => Ok(()),
        Err(_) => Err(Memory),
    }
}

/// Adds a spot, unless it was met before.
fn add(alloc: Global, exploration: &mut Exploration, spot: &Spot) -> Result<(), Memory>
    ensures { OnOk result (IsMet exploration.old exploration.new (λ s. s ≡ spot.now)) }
{
    let seen = spot.copy(alloc)?;
    if insert(&mut exploration.seen, seen)? {
        let waiting = spot.copy(alloc)?;
        wait(&mut exploration.waiting, waiting)?;
    }
    Ok(())
}

/// Adds a spot, unless it was met before, and says whether there are too many then.
fn meet(alloc: Global, exploration: &mut Exploration, spot: &Spot) -> Result<(), ReachRefusal>
    ensures met { OnOk result (IsMet exploration.old exploration.new (λ s. s ≡ spot.now)) }
    ensures few { OnOk result (length exploration.new.seen.keys ≤ code_nodes) }
    ensures many { IfErr result (λ e. e ≡ ReachRefusal.TooMany → HasTooMany exploration.old exploration.new (λ s. s ≡ spot.now)) }
{
    add(alloc, exploration, spot)?;
    if exploration.seen.len() > CODE_NODES {
        return Err(ReachRefusal::TooMany);
    }
    Ok(())
}

/// Adds the spots to which these steps lead.
fn spread(alloc: Global, exploration: &mut Exploration, steps: &[Lead]) -> Result<(), ReachRefusal>
    requires { length exploration.old.seen.keys ≤ code_nodes }
    ensures met { OnOk result (IsMet exploration.old exploration.new (LeadsAmong steps.now)) }
    ensures few { OnOk result (length exploration.new.seen.keys ≤ code_nodes) }
    ensures many { IfErr result (λ e. e ≡ ReachRefusal.TooMany → HasTooMany exploration.old exploration.new (LeadsAmong steps.now)) }
{
    for step in steps {
        if let Err(refusal) = meet(alloc, exploration, &step.to) {
            return Err(refusal);
        }
    }
    Ok(())
}

/// The exploration that has met where each thread begins.
fn started(alloc: Global, program: &Program, limit: u32) -> Result<Exploration, ReachRefusal>
    ensures exploring { IfOk result (λ x. IsExploring program.now limit x false) }
    ensures few { IfOk result (λ x. length x.seen.keys ≤ code_nodes) }
    ensures many { IfErr result (λ e. e ≡ ReachRefusal.TooMany → AreTooMany program.now limit) }
{
    let mut exploration = nothing(alloc);
    for thread in 0..program.threads() {
        let begin = Spot {
            thread,
            position: Position::Begin,
        };
        if let Err(refusal) = meet(alloc, &mut exploration, &begin) {
            return Err(refusal);
        }
    }
    Ok(exploration)
}

/// Meets the spots to which steps lead from a spot, and says whether some step was left out.
fn explore_from(
    alloc: Global,
    program: &Program,
    limit: u32,
    exploration: &mut Exploration,
    spot: Spot,
) -> Result<bool, ReachRefusal>
    requires { length exploration.old.seen.keys ≤ code_nodes }
    ensures met { IfOk result (λ left_out. IsExplored program.now limit exploration.old exploration.new spot left_out) }
    ensures few { OnOk result (length exploration.new.seen.keys ≤ code_nodes) }
    ensures many { IfErr result (λ e. e ≡ ReachRefusal.TooMany → HasTooMany exploration.old exploration.new (StepsTo program.now limit spot)) }
{
    let leads = leads_from(alloc, program, limit, &spot)?;
    if let Err(refusal) = spread(alloc, exploration, leads.steps.as_slice()) {
        return Err(refusal);
    }
    Ok(leads.left_out)
}

/// Whether one of the two holds.
fn either(first: bool, second: bool) -> bool
    ensures { (result ≡ true) ↔ ((first ≡ true) ⊎ (second ≡ true)) }
{
    first || second
}

/// The spots of a set, in their order.
fn listed(alloc: Global, seen: BTreeSet<Spot>) -> Result<Items<Spot>, Memory>
    ensures items { IfOk result (λ spots. spots ≡ seen.keys) }
    ensures ordered { IfOk result (IsStrictlySortedBy spot_cmp) }
{
    let Ok(spots) = seen.into_iter().collect(alloc) else {
        return Err(Memory);
    };
    Ok(Items::of(spots))
}

/// The spots that the threads of a program reach where each takes at most so many backward jumps.
///
/// # Errors
/// `TooMany` where there are more than 1024 of them, and `Memory` where there is no room for them.
pub fn reached_spots(alloc: Global, program: &Program, limit: u32) -> Result<Reached, ReachRefusal>
    ensures ordered { IfOk result (λ reached. IsStrictlySortedBy spot_cmp reached.spots) }
    ensures exact { IfOk result (λ reached. (s : Spot) → Contains reached.spots s ↔ IsReached program.now limit s) }
    ensures few { IfOk result (λ reached. length reached.spots ≤ code_nodes) }
    ensures left_out { IfOk result (λ reached. (reached.left_out ≡ true) ↔ SomeLeavesOut program.now limit) }
    ensures many { IfErr result (λ e. e ≡ ReachRefusal.TooMany → AreTooMany program.now limit) }
{
    let mut exploration = started(alloc, program, limit)?;
    let mut left_out = false;
    while let Some(spot) = exploration.waiting.pop() {
        match explore_from(alloc, program, limit, &mut exploration, spot) {
            Ok(out) => left_out = either(left_out, out),
            Err(refusal) => return Err(refusal),
        }
    }
    let Exploration { seen, waiting: _ } = exploration;
    let spots = listed(alloc, seen)?;
    Ok(Reached { spots, left_out })
}
