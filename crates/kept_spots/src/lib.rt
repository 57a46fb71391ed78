//! The spots from which threads can end (docs/GRAPH.md).
#![tactic(auto)]

mod ending;
mod marked;

pub use ending::ending_spots;
pub use marked::{MarkedSpots, marked_spots};
