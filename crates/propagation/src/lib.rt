//! Unit propagation through the watch lists of a pool, until nothing more follows.
//!
//! Each clause of two or more literals is watched at its first two. When a literal becomes false, each
//! clause that watches it is visited: the clause then watches another literal that isn't false, or its
//! other watched literal is true, or it becomes so, or the clause is false.
#![tactic(auto)]

mod laws;
mod unit_propagation;
mod visit;

pub use laws::{back_is_watched, back_keeps};
pub use unit_propagation::propagate;
