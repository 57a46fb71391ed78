//! Laws of the graphs of linked programs (docs/GRAPH.md).
#![tactic(auto)]

pub mod laws;
