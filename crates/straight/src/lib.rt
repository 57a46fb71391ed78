//! Straight programs (main alone, without jumps, calls and volatile variables): the one execution of such a program, what it
//! prints, and a sequence that commits it (docs/MODEL.md, "Straight programs").
#![tactic(auto)]

mod doing;
pub mod laws;
mod run;
mod stack;
mod walk;

pub use doing::{Cell, Doing, StackItem};
pub use run::{StraightRun, run_straight};
pub use stack::Stack;
pub use walk::Walk;
