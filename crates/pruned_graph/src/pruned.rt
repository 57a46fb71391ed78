//! The graph of what the threads of a program can do up to their ends.

ghost use Rattle.std.specs.Prelude.{◌≡◌, ◌≤◌, ◌<◌, ◌↔◌, ℕ, Contains, IfErr, IfOk, false, length, true};
ghost use Rattle.std.specs.List.Sorted.{IsStrictlySortedBy};
ghost use Rattle.relations.specs.Least.{IsLeast};
ghost use Rattle.program.specs.Bounds.{Ends, IsWhole};
ghost use Rattle.spots.specs.Order.{spot_cmp};
ghost use Rattle.reached_spots.specs.Exploring.{AreTooMany, code_nodes};
ghost use Rattle.graph_shape.specs.Edges.{IsEdge, edge_cmp};
ghost use Rattle.pruned_graph.specs.Pruned.{IsNode, NeverEnds};

use crate::kept::{first_without_begin, kept_of};
use crate::refusal::PruneRefusal;
use graph_shape::{Edge, edges_among};
use line_text::bounds::Bounds;
use program::{Items, Program};
use spots::Spot;
use std::alloc::Global;

/// The nodes of a program's graph, numbered from 0 by their places, the edges between them, and whether the bounds leave
/// nothing out.
#[derive(Drop)]
pub struct PrunedGraph {
    pub spots: Items<Spot>,
    pub edges: Items<Edge>,
    pub whole: bool,
}

/// Whether ints have 32 bits and no step was left out.
fn is_whole(width: u32, left_out: bool) -> bool
    ensures { (result ≡ true) ↔ ((width ≡ 32) × (left_out ≡ false)) }
{
    width == 32 && !left_out
}

/// The graph of what the threads of a program can do within bounds up to their ends.
///
/// # Errors
/// `CodeNodes` where the threads reach more than 1024 spots; else `NeverEnds` with the least thread that can't end; `Memory`
/// where there is no room for the graph.
pub fn pruned_graph(
    alloc: Global,
    program: &Program,
    bounds: &Bounds,
) -> Result<PrunedGraph, PruneRefusal>
    ensures ordered { IfOk result (λ g. IsStrictlySortedBy spot_cmp g.spots) }
    ensures nodes { IfOk result (λ g. (s : Spot) → Contains g.spots s ↔ IsNode program.now bounds.now.jumps s) }
    ensures few { IfOk result (λ g. length g.spots ≤ code_nodes) }
    ensures edges_ordered { IfOk result (λ g. IsStrictlySortedBy edge_cmp g.edges) }
    ensures edges { IfOk result (λ g. (e : Edge) → Contains g.edges e ↔ IsEdge program.now bounds.now.jumps g.spots e) }
    ensures whole { IfOk result (λ g. (g.whole ≡ true) ↔ IsWhole program.now bounds.now.jumps bounds.now.width) }
    ensures ends { IfOk result (λ g. (thread : ℕ) → thread < length program.now.threads → Ends program.now thread bounds.now.jumps) }
    ensures not_many { IfOk result (λ g. AreTooMany program.now bounds.now.jumps → ⊥) }
    ensures code_nodes { IfErr result (λ e. e ≡ PruneRefusal.CodeNodes → AreTooMany program.now bounds.now.jumps) }
    ensures never_ends { IfErr result (λ e. (thread : ℕ) → e ≡ PruneRefusal.NeverEnds thread → IsLeast (NeverEnds program.now bounds.now.jumps) thread) }
    ensures not_many_then { IfErr result (λ e. (thread : ℕ) → e ≡ PruneRefusal.NeverEnds thread → AreTooMany program.now bounds.now.jumps → ⊥) }
{
    let kept = match kept_of(alloc, program, bounds.jumps) {
        Ok(kept) => kept,
        Err(refusal) => return Err(refusal),
    };
    if let Some(thread) = first_without_begin(kept.spots.as_slice(), program.threads()) {
        return Err(PruneRefusal::NeverEnds { thread });
    }
    let edges = edges_among(alloc, program, bounds.jumps, kept.spots.as_slice())?;
    Ok(PrunedGraph {
        spots: kept.spots,
        edges,
        whole: is_whole(bounds.width, kept.left_out),
    })
}
