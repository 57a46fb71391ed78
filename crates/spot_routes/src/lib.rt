//! Steps between spots, one after another, are the routes through the code of the program (docs/GRAPH.md).
#![tactic(auto)]

pub mod laws;
