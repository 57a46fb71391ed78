//! The spots that the threads of a program reach (docs/GRAPH.md).
#![tactic(auto)]

mod exploration;
mod refusal;

pub use exploration::{Reached, reached_spots};
pub use refusal::ReachRefusal;
