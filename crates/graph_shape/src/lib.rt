//! The spots of the graph of a program, and the edges between them (docs/GRAPH.md).
#![tactic(auto)]

mod edge;
mod edges;
pub mod laws;

pub use edge::Edge;
pub use edges::{edges_among, place_of};
