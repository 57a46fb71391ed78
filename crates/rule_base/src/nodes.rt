//! What stands at the nodes and edges of a graph, by number.

ghost use Rattle.std.specs.Prelude.{◌≡◌};
ghost use Rattle.rule_base.specs.Nodes as spec;

use node_details::Act;
use program::Kind;
use program_graph::Graph;

/// The action of a node, if it has one.
fn act_at(graph: &Graph, node: u32) -> Option<Act>
    ensures { result ≡ spec.act_at graph.now node }
{
    match graph.details.get(node as usize) {
        Some(details) => match details.action {
            Some(action) => Some(action.act),
            None => None,
        },
        None => None,
    }
}

/// Whether a thread begins at a node.
pub fn is_begin(graph: &Graph, node: u32) -> bool
    ensures { result ≡ spec.is_begin graph.now node }
{
    match act_at(graph, node) {
        Some(act) => matches!(act.kind, Kind::First),
        None => false,
    }
}

/// Whether a thread ends at a node.
pub fn is_end(graph: &Graph, node: u32) -> bool
    ensures { result ≡ spec.is_end graph.now node }
{
    match act_at(graph, node) {
        Some(act) => matches!(act.kind, Kind::Last),
        None => false,
    }
}

/// Whether a thread is started at a node.
pub fn is_start_of(graph: &Graph, thread: u32, node: u32) -> bool
    ensures { result ≡ spec.is_start_of graph.now thread node }
{
    match act_at(graph, node) {
        Some(act) => matches!(act.kind, Kind::Start) && act.operand == Some(thread),
        None => false,
    }
}

/// Whether a node is one of a thread.
fn is_node_of(graph: &Graph, thread: u32, node: u32) -> bool
    ensures { result ≡ spec.is_node_of graph.now thread node }
{
    match graph.spots.get(node as usize) {
        Some(spot) => spot.thread == thread,
        None => false,
    }
}

/// Whether a thread begins at a node.
pub fn is_begin_of(graph: &Graph, thread: u32, node: u32) -> bool
    ensures { result ≡ spec.is_begin_of graph.now thread node }
{
    is_begin(graph, node) && is_node_of(graph, thread, node)
}

/// Whether a thread has nodes.
pub fn has_nodes(graph: &Graph, thread: u32) -> bool
    ensures { result ≡ spec.has_nodes graph.now thread }
{
    graph
        .spots
        .as_slice()
        .iter()
        .any(|spot| spot.thread == thread)
}

/// Whether an edge leads from a node.
pub fn is_from(graph: &Graph, node: u32, edge: u32) -> bool
    ensures { result ≡ spec.is_from graph.now node edge }
{
    match graph.edges.get(edge as usize) {
        Some(found) => found.from == node,
        None => false,
    }
}

/// Whether an edge leads to a node.
pub fn is_to(graph: &Graph, node: u32, edge: u32) -> bool
    ensures { result ≡ spec.is_to graph.now node edge }
{
    match graph.edges.get(edge as usize) {
        Some(found) => found.to == node,
        None => false,
    }
}

/// Whether an edge leads from the node from which another one leads.
pub fn is_beside(graph: &Graph, other: u32, edge: u32) -> bool
    ensures { result ≡ spec.is_beside graph.now other edge }
{
    match graph.edges.get(other as usize) {
        Some(found) => is_from(graph, found.from, edge),
        None => false,
    }
}

/// The node from which an edge leads, or 0 where there is no such edge.
pub fn from_of(graph: &Graph, edge: u32) -> u32
    ensures { result ≡ spec.from_of graph.now edge }
{
    match graph.edges.get(edge as usize) {
        Some(found) => found.from,
        None => 0,
    }
}

/// The node to which an edge leads, or 0 where there is no such edge.
pub fn to_of(graph: &Graph, edge: u32) -> u32
    ensures { result ≡ spec.to_of graph.now edge }
{
    match graph.edges.get(edge as usize) {
        Some(found) => found.to,
        None => 0,
    }
}

/// Whether an edge goes along a jump.
pub fn is_taken(graph: &Graph, edge: u32) -> bool
    ensures { result ≡ spec.is_taken graph.now edge }
{
    match graph.edges.get(edge as usize) {
        Some(found) => found.taken,
        None => false,
    }
}
