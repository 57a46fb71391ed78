//! Which variable is decided next: the one with the highest activity, by a heap, with the value that it
//! had last.
#![tactic(auto)]

mod heap;
mod order;

pub use order::{DecisionOrder, Memory};
