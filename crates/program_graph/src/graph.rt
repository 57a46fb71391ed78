//! The graph of a program within bounds.

ghost use Rattle.std.specs.Prelude.{◌≡◌, ◌≤◌, ◌+◌, ◌*◌, ◌↔◌, Contains, IfErr, IfOk, length, true};
ghost use Rattle.pruned_graph.specs.Pruned.{IsNode};
ghost use Rattle.program_graph.specs.Causes.{IsBareCause, IsCause};
ghost use Rattle.program_graph.specs.Graph.{AreDetails, IsFit, IsGraph};
ghost use Rattle.program_graph.specs.Limits as spec;
ghost use Rattle.program_graph.specs.Limits.{IsWithin};

use crate::actions::{ActionNode, actions_of};
use crate::limits::{first_passed, reads_among};
use crate::refusal::{GraphRefusal, refused};
use graph_shape::Edge;
use line_text::bounds::Bounds;
use node_details::{NodeDetails, details_of};
use ports::Memory;
use program::{Items, Program};
use pruned_graph::pruned_graph;
use spots::Spot;
use std::alloc::Global;

/// The graph of a program within bounds: the nodes, numbered from 0 by their places, with what is known of each; the edges
/// between them; the nodes that have an action, by number; whether the bounds leave nothing out; how many variables the
/// program has.
#[derive(Drop)]
pub struct Graph {
    pub bounds: Bounds,
    pub variables: usize,
    pub spots: Items<Spot>,
    pub details: Items<NodeDetails>,
    pub edges: Items<Edge>,
    pub actions: Items<ActionNode>,
    pub whole: bool,
}

/// What is known of each of these nodes.
fn all_details(
    alloc: Global,
    program: &Program,
    bounds: &Bounds,
    spots: &[Spot],
) -> Result<Items<NodeDetails>, Memory>
    requires fit { IsFit program.now }
    requires nodes { (s : Spot) → Contains spots.now s → IsNode program.now bounds.now.jumps s }
    ensures { IfOk result (λ details. AreDetails program.now spots.now details) }
{
    let mut details = Items::new(alloc);
    for spot in spots {
        details.push(details_of(alloc, program, spot)?)?;
    }
    Ok(details)
}

/// The graph of a program, whatever the number of its actions.
fn graph_of(alloc: Global, program: &Program, bounds: &Bounds) -> Result<Graph, GraphRefusal>
    requires fit { IsFit program.now }
    ensures graph { IfOk result (IsGraph program.now bounds.now) }
    ensures cause { IfErr result (IsBareCause program.now bounds.now) }
{
    let pruned = match pruned_graph(alloc, program, bounds) {
        Ok(pruned) => pruned,
        Err(refusal) => return Err(refused(refusal)),
    };
    let details = all_details(alloc, program, bounds, pruned.spots.as_slice())?;
    let actions = actions_of(alloc, details.as_slice())?;
    Ok(Graph {
        bounds: *bounds,
        variables: program.variables().len(),
        spots: pruned.spots,
        details,
        edges: pruned.edges,
        actions,
        whole: pruned.whole,
    })
}

/// The graph of a program within bounds. The program has the typed state of each instruction and each method that is called, as
/// linked programs have.
///
/// # Errors
/// The first of these that holds: `CodeNodes` where the threads reach more than 1024 spots; `NeverEnds` with the least thread
/// that can't end; `ActionNodes` where there are more than 64 actions; `ReadNodes` where more than 24 of them are reads;
/// `Multiplications` where there are more than 16. `Memory` where there is no room for the graph.
pub fn unroll(alloc: Global, program: &Program, bounds: &Bounds) -> Result<Graph, GraphRefusal>
    requires fit { IsFit program.now }
    ensures graph { IfOk result (IsGraph program.now bounds.now) }
    ensures within { IfOk result (λ g. IsWithin g.details g.actions) }
    ensures cause { IfErr result (IsCause program.now bounds.now) }
{
    let graph = graph_of(alloc, program, bounds)?;
    match first_passed(graph.details.as_slice(), graph.actions.as_slice()) {
        Some(refusal) => Err(refusal),
        None => Ok(graph),
    }
}

/// Whether the bounds leave nothing out.
pub fn whole(graph: &Graph) -> bool
    ensures { result ≡ graph.now.whole }
{
    graph.whole
}

/// The number of copies that the rules speak of: two for each read, and one.
pub fn steps_for(graph: &Graph) -> u32
    requires { length graph.now.actions ≤ 64 }
    ensures { result ≡ 2 * spec.reads_among graph.now.actions + 1 }
{
    2 * reads_among(graph.actions.as_slice()) as u32 + 1
}
