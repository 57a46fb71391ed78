//! The reached spots, with those from which threads can end.

ghost use Rattle.std.specs.Prelude.{◌≡◌, ◌≤◌, ◌↔◌, ℕ, Contains, IfErr, IfOk, Some, length, slice_get, true};
ghost use Rattle.std.specs.List.Sorted.{IsStrictlySortedBy};
ghost use Rattle.spots.specs.Order.{spot_cmp};
ghost use Rattle.spots.specs.Spots.{IsReached};
ghost use Rattle.reached_spots.specs.Exploring.{AreTooMany, SomeLeavesOut, code_nodes};
ghost use Rattle.kept_spots.specs.Ending.{CanEnd};

use crate::ending::ending_spots;
use program::{Items, Program};
use reached_spots::{ReachRefusal, reached_spots};
use spots::Spot;
use std::alloc::Global;

/// The spots that are reached, in their order; for each of them whether it leads to the end of its thread; and whether a step
/// from one of them was left out.
#[derive(Drop)]
pub struct MarkedSpots {
    pub spots: Items<Spot>,
    pub ends: Vec<bool>,
    pub left_out: bool,
}

/// The spots that the threads of a program reach where each takes at most so many backward jumps, and which of them lead to
/// the end.
///
/// # Errors
/// `TooMany` where there are more than 1024 of them, and `Memory` where there is no room for them.
pub fn marked_spots(
    alloc: Global,
    program: &Program,
    limit: u32,
) -> Result<MarkedSpots, ReachRefusal>
    ensures ordered { IfOk result (λ marked. IsStrictlySortedBy spot_cmp marked.spots) }
    ensures exact { IfOk result (λ marked. (s : Spot) → Contains marked.spots s ↔ IsReached program.now limit s) }
    ensures few { IfOk result (λ marked. length marked.spots ≤ code_nodes) }
    ensures marks { IfOk result (λ marked. length marked.ends.items ≡ length marked.spots) }
    ensures ends { IfOk result (λ marked. (place : ℕ) (s : Spot) → slice_get marked.spots place ≡ Some s → (slice_get marked.ends.items place ≡ Some true) ↔ CanEnd program.now limit s) }
    ensures left_out { IfOk result (λ marked. (marked.left_out ≡ true) ↔ SomeLeavesOut program.now limit) }
    ensures many { IfErr result (λ e. e ≡ ReachRefusal.TooMany → AreTooMany program.now limit) }
{
    let reached = match reached_spots(alloc, program, limit) {
        Ok(reached) => reached,
        Err(refusal) => return Err(refusal),
    };
    let ends = ending_spots(alloc, program, limit, reached.spots.as_slice())?;
    Ok(MarkedSpots {
        spots: reached.spots,
        ends,
        left_out: reached.left_out,
    })
}
