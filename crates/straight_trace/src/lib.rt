//! What main prints in a straight program (main alone, without jumps, calls and volatile variables), by the trace of its one
//! thread within bounds (docs/MODEL.md, "Straight programs").
#![tactic(auto)]

mod printed;
mod reads;

pub use printed::printed_within;
