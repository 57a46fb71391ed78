//! Whether a program is straight and passes no limit of the graph (docs/PROFILE.md, "Straight programs").
#![tactic(auto)]

mod check;
mod code;
mod size;
mod type_stack;
mod variables;

pub use check::is_straight;
