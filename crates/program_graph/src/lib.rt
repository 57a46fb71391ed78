//! The graph of what the threads of a program can do (docs/GRAPH.md).
#![tactic(auto)]

mod actions;
mod graph;
mod limits;
mod refusal;

pub use actions::ActionNode;
pub use graph::{Graph, steps_for, unroll, whole};
pub use refusal::GraphRefusal;
