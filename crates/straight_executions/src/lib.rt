//! All executions of a straight program (main alone, without jumps, calls and volatile variables) have the values of its one
//! run (docs/MODEL.md, "Straight programs").
#![tactic(auto)]

pub mod laws;
