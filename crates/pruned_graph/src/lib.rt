//! The nodes of a program's graph, from which each thread can end, and the edges between them (docs/GRAPH.md).
#![tactic(auto)]

mod kept;
mod pruned;
mod refusal;

pub use pruned::{PrunedGraph, pruned_graph};
pub use refusal::PruneRefusal;
