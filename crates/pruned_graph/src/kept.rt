//! The spots from which threads can end.

ghost use Rattle.std.specs.Prelude.{◌≡◌, ◌≤◌, ◌<◌, ◌↔◌, ◌++◌, [], ◌∷◌, ℕ, cond, Contains, IfErr, IfOk, IfSome, IfNone, IsTrue, OnOk, length, true};
ghost use Rattle.std.specs.List.Sorted.{IsStrictlySortedBy};
ghost use Rattle.relations.specs.Least.{IsLeast};
ghost use Rattle.spots.specs.Order.{spot_cmp};
ghost use Rattle.spots.specs.Spots.{begin_of};
ghost use Rattle.reached_spots.specs.Exploring.{AreTooMany, SomeLeavesOut, code_nodes};
ghost use Rattle.pruned_graph.specs.Pruned.{HasNoBegin, IsMarkedThere, IsNode};

use crate::refusal::PruneRefusal;
use graph_shape::place_of;
use kept_spots::marked_spots;
use ports::Memory;
use program::{Items, Program};
use reached_spots::ReachRefusal;
use spots::{Position, Spot};
use std::alloc::Global;

/// The spots from which threads can end, in their order, and whether a step from a reached spot was left out.
#[derive(Drop)]
pub struct Kept {
    pub spots: Items<Spot>,
    pub left_out: bool,
}

/// Adds a spot to a list, if it is marked.
fn keep_marked(alloc: Global, kept: &mut Items<Spot>, spot: &Spot, mark: bool) -> Result<(), Memory>
    ensures { OnOk result (kept.new ≡ kept.old ++ cond mark (spot.now ∷ []) []) }
{
    if mark {
        kept.push(spot.copy(alloc)?)?;
    }
    Ok(())
}

/// The spots of a list that are marked.
fn marked(alloc: Global, spots: &[Spot], marks: &[bool]) -> Result<Items<Spot>, Memory>
    requires ordered { IsStrictlySortedBy spot_cmp spots.now }
    requires marks { length marks.now ≡ length spots.now }
    ensures ordered { IfOk result (IsStrictlySortedBy spot_cmp) }
    ensures exact { IfOk result (λ kept. (s : Spot) → Contains kept s ↔ IsMarkedThere spots.now marks.now s) }
    ensures few { IfOk result (λ kept. length kept ≤ length spots.now) }
{
    let mut kept = Items::new(alloc);
    for (place, spot) in spots.iter().enumerate() {
        keep_marked(alloc, &mut kept, spot, marks[place])?;
    }
    Ok(kept)
}

/// The spots of a program that are reached, and from which threads can end.
///
/// # Errors
/// `CodeNodes` where more than 1024 spots are reached, and `Memory` where there is no room for them.
pub fn kept_of(alloc: Global, program: &Program, limit: u32) -> Result<Kept, PruneRefusal>
    ensures ordered { IfOk result (λ kept. IsStrictlySortedBy spot_cmp kept.spots) }
    ensures exact { IfOk result (λ kept. (s : Spot) → Contains kept.spots s ↔ IsNode program.now limit s) }
    ensures few { IfOk result (λ kept. length kept.spots ≤ code_nodes) }
    ensures not_many { IfOk result (λ kept. AreTooMany program.now limit → ⊥) }
    ensures left_out { IfOk result (λ kept. (kept.left_out ≡ true) ↔ SomeLeavesOut program.now limit) }
    ensures many { IfErr result (λ e. e ≡ PruneRefusal.CodeNodes → AreTooMany program.now limit) }
    ensures ends { IfErr result (λ e. (thread : ℕ) → e ≡ PruneRefusal.NeverEnds thread → ⊥) }
{
    let all = match marked_spots(alloc, program, limit) {
        Ok(all) => all,
        Err(ReachRefusal::TooMany) => return Err(PruneRefusal::CodeNodes),
        Err(ReachRefusal::Memory) => return Err(PruneRefusal::Memory),
    };
    let spots = marked(alloc, all.spots.as_slice(), all.ends.as_slice())?;
    Ok(Kept {
        spots,
        left_out: all.left_out,
    })
}

/// Whether the beginning of a thread is one of these spots.
fn has_begin(spots: &[Spot], thread: u32) -> bool
    requires ordered { IsStrictlySortedBy spot_cmp spots.now }
    requires few { length spots.now ≤ code_nodes }
    ensures { IsTrue result ↔ Contains spots.now (begin_of thread) }
{
    let begin = Spot {
        thread,
        position: Position::Begin,
    };
    place_of(spots, &begin).is_some()
}

/// The least of so many threads whose beginning is not one of these spots.
pub fn first_without_begin(spots: &[Spot], threads: u32) -> Option<u32>
    requires ordered { IsStrictlySortedBy spot_cmp spots.now }
    requires few { length spots.now ≤ code_nodes }
    ensures some { IfSome result (IsLeast (HasNoBegin spots.now threads)) }
    ensures none { IfNone result ((thread : ℕ) → thread < threads → Contains spots.now (begin_of thread)) }
{
    for thread in 0..threads {
        if !has_begin(spots, thread) {
            return Some(thread);
        }
    }
    None
}
