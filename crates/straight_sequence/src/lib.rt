//! The sequence that commits the execution of a straight program: first all actions but the reads, then all; in one step where
//! nothing is read (JLS 17.4.8, docs/MODEL.md, "Straight programs").
#![tactic(auto)]

mod defaults;
mod order;
mod steps;

pub use defaults::default_writes;
pub use steps::committing_sequence;
