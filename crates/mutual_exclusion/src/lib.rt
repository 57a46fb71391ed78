//! Mutual exclusion by counts (docs/MODEL.md, "Executions"): the third clause of well-formedness.
#![tactic(auto)]

mod check;
mod counts;
mod locking;

pub use check::check_locks;
