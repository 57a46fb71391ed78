//! Edges of the graph.

/// An edge between two spots, by their places in the list of spots, and whether it takes a jump. Edges are ordered by their
/// first spot, then the fall-through before the taken jump, then by their second spot.
#[derive(Clone, Copy, Debug, PartialEq, Eq, PartialOrd, Ord)]
pub struct Edge {
    pub from: u32,
    pub taken: bool,
    pub to: u32,
}
