//! Which spots lead to the end of their thread.

ghost use Rattle.std.specs.Prelude.{◌≡◌, ◌≤◌, ◌↔◌, ◌⊎◌, ℕ, IfOk, IsTrue, Some, length, slice_get, true};
ghost use Rattle.std.specs.List.Sorted.{IsStrictlySortedBy};
ghost use Rattle.spots.specs.Order.{spot_cmp};
ghost use Rattle.reached_spots.specs.Exploring.{code_nodes};
ghost use Rattle.kept_spots.specs.Ending.{AreClosed, CanEnd, IsAtEnd, IsMarked, SomeMarked};

use graph_shape::place_of;
use ports::Memory;
use program::Program;
use spots::{Position, Spot, leads_from};
use std::alloc::Global;

/// Whether a spot is the end of its thread.
fn is_end(spot: &Spot) -> bool
    ensures { IsTrue result ↔ IsAtEnd spot.now }
{
    match spot.position {
        Position::End => true,
        Position::Begin => false,
        Position::At(_) => false,
    }
}

/// Whether this place is marked.
fn is_marked(marks: &[bool], place: Option<u32>) -> bool
    ensures { IsTrue result ↔ IsMarked marks.now place }
{
    let Some(place) = place else {
        return false;
    };
    match marks.get(place as usize) {
        Some(mark) => *mark,
        None => false,
    }
}

/// Whether some step from a spot leads to one that is marked.
fn leads_to_marked(
    alloc: Global,
    program: &Program,
    limit: u32,
    spots: &[Spot],
    marks: &[bool],
    spot: &Spot,
) -> Result<bool, Memory>
    requires ordered { IsStrictlySortedBy spot_cmp spots.now }
    requires few { length spots.now ≤ code_nodes }
    ensures { IfOk result (λ b. IsTrue b ↔ SomeMarked program.now limit spots.now marks.now spot.now) }
{
    let leads = leads_from(alloc, program, limit, spot)?;
    for step in leads.steps.as_slice() {
        if is_marked(marks, place_of(spots, &step.to)) {
            return Ok(true);
        }
    }
    Ok(false)
}

/// Whether a spot is the end of its thread, or some step from it leads to one that is marked.
fn can_end(
    alloc: Global,
    program: &Program,
    limit: u32,
    spots: &[Spot],
    marks: &[bool],
    spot: &Spot,
) -> Result<bool, Memory>
    requires ordered { IsStrictlySortedBy spot_cmp spots.now }
    requires few { length spots.now ≤ code_nodes }
    ensures { IfOk result (λ b. IsTrue b ↔ (IsAtEnd spot.now ⊎ SomeMarked program.now limit spots.now marks.now spot.now)) }
{
    if is_end(spot) {
        return Ok(true);
    }
    let leads = leads_to_marked(alloc, program, limit, spots, marks, spot)?;
    Ok(leads)
}

/// For each spot of a list that is in order, and to which all steps from its spots lead back, whether some steps lead from it
/// to the end of its thread.
///
/// # Errors
/// `Memory` where there is no room for the answers.
pub fn ending_spots(
    alloc: Global,
    program: &Program,
    limit: u32,
    spots: &[Spot],
) -> Result<Vec<bool>, Memory>
    requires ordered { IsStrictlySortedBy spot_cmp spots.now }
    requires few { length spots.now ≤ code_nodes }
    requires closed { AreClosed program.now limit spots.now }
    ensures length { IfOk result (λ marks. length marks.items ≡ length spots.now) }
    ensures exact { IfOk result (λ marks. (place : ℕ) (spot : Spot) → slice_get spots.now place ≡ Some spot → (slice_get marks.items place ≡ Some true) ↔ CanEnd program.now limit spot) }
{
    let mut marks = vec![in alloc; false; spots.len()].map_err(|_| Memory)?;
    let mut left = spots.len();
    while left > 0 {
        left -= 1;
        let mark = can_end(alloc, program, limit, spots, marks.as_slice(), &spots[left])?;
        marks[left] = mark;
    }
    Ok(marks)
}
