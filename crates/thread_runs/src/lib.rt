//! The runs of the threads of an execution (docs/MODEL.md, "Executions"): intra-thread consistency, the fourth clause of
//! well-formedness, and the bounds.
#![tactic(auto)]

mod answers;
mod check;
mod judge;
pub mod laws;
mod part;
mod started;

pub use answers::Runs;
pub use check::check_runs;
pub use started::part_of;
