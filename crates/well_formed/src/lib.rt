//! Whether an execution is well-formed and within bounds (JLS 17.4.7; docs/MODEL.md, "Well-formed executions").
#![tactic(auto)]

mod check;
pub mod laws;
mod refusal;

pub use check::check_execution;
pub use refusal::NotWellFormed;
