//! The lists of edges of a program's graph are the routes of the program (docs/GRAPH.md).
#![tactic(auto)]

pub mod laws;
