//! The edges between the spots of a list.

ghost use Rattle.std.specs.Prelude.{◌≡◌, ◌<◌, ◌≤◌, ◌↔◌, ◌⊎◌, Contains, IfNone, IfOk, IfSome, OnOk, Some, length, slice_get};
ghost use Rattle.std.specs.List.Sorted.{IsStrictlySortedBy};
ghost use Rattle.spots.specs.Order.{spot_cmp};
ghost use Rattle.reached_spots.specs.Exploring.{code_nodes};
ghost use Rattle.graph_shape.specs.Edges.{IsEdge, IsEdgeAlong, IsEdgeFrom, edge_cmp};

use crate::edge::Edge;
use ports::Memory;
use program::{Items, Program};
use spots::{Lead, Spot, leads_from};
use std::alloc::Global;
use std::collections::BTreeSet;

/// The place of a spot in a list that is in order; None where it is not there.
pub fn place_of(spots: &[Spot], spot: &Spot) -> Option<u32>
    requires ordered { IsStrictlySortedBy spot_cmp spots.now }
    requires few { length spots.now ≤ code_nodes }
    ensures some { IfSome result (λ place. slice_get spots.now place ≡ Some spot.now) }
    ensures none { IfNone result (Contains spots.now spot.now → ⊥) }
{
    let Ok(place) = spots.binary_search(spot) else {
        return None;
    };
    Some(place as u32)
}

/// Adds an edge.
fn insert(edges: &mut BTreeSet<Edge>, edge: Edge) -> Result<(), Memory>
    ensures { OnOk result ((e : Edge) → Contains edges.new.keys e ↔ (Contains edges.old.keys e ⊎ (e ≡ edge))) }
{
    let Ok(_) = edges.insert(edge) else {
        return Err(Memory);
    };
    Ok(())
}

/// Adds the edge of a step from the spot at a place, if the step leads to a spot of the list.
fn add_edge(
    spots: &[Spot],
    from: u32,
    lead: &Lead,
    edges: &mut BTreeSet<Edge>,
) -> Result<(), Memory>
    requires ordered { IsStrictlySortedBy spot_cmp spots.now }
    requires few { length spots.now ≤ code_nodes }
    ensures { OnOk result ((e : Edge) → Contains edges.new.keys e ↔ (Contains edges.old.keys e ⊎ IsEdgeAlong spots.now from lead.now e)) }
{
    let Some(to) = place_of(spots, &lead.to) else {
        return Ok(());
    };
    let taken = lead.taken;
    insert(edges, Edge { from, taken, to })?;
    Ok(())
}

/// Adds the edges from one spot.
fn add_edges_from(
    alloc: Global,
    program: &Program,
    limit: u32,
    spots: &[Spot],
    from: u32,
    edges: &mut BTreeSet<Edge>,
) -> Result<(), Memory>
    requires ordered { IsStrictlySortedBy spot_cmp spots.now }
    requires few { length spots.now ≤ code_nodes }
    requires within { from < length spots.now }
    ensures { OnOk result ((e : Edge) → Contains edges.new.keys e ↔ (Contains edges.old.keys e ⊎ IsEdgeFrom program.now limit spots.now from e)) }
{
    let leads = leads_from(alloc, program, limit, &spots[from as usize])?;
    for lead in leads.steps.as_slice() {
        add_edge(spots, from, lead, edges)?;
    }
    Ok(())
}

/// The edges of a set, in their order.
fn listed(alloc: Global, edges: BTreeSet<Edge>) -> Result<Items<Edge>, Memory>
    ensures items { IfOk result (λ list. list ≡ edges.keys) }
    ensures ordered { IfOk result (IsStrictlySortedBy edge_cmp) }
{
    let Ok(list) = edges.into_iter().collect(alloc) else {
        return Err(Memory);
    };
    Ok(Items::of(list))
}

/// The edges between the spots of a list that is in order: one for each step from one of them to another.
///
/// # Errors
/// `Memory` where there is no room for them.
pub fn edges_among(
    alloc: Global,
    program: &Program,
    limit: u32,
    spots: &[Spot],
) -> Result<Items<Edge>, Memory>
    requires ordered { IsStrictlySortedBy spot_cmp spots.now }
    requires few { length spots.now ≤ code_nodes }
    ensures ordered { IfOk result (IsStrictlySortedBy edge_cmp) }
    ensures exact { IfOk result (λ edges. (e : Edge) → Contains edges e ↔ IsEdge program.now limit spots.now e) }
{
    let mut edges = BTreeSet::new(alloc);
    for from in 0..spots.len() as u32 {
        add_edges_from(alloc, program, limit, spots, from, &mut edges)?;
    }
    let list = listed(alloc, edges)?;
    Ok(list)
}
