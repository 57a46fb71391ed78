//! The synchronization order against program order, and against starts and ends of threads (docs/MODEL.md, "Well-formed
//! executions"): the second clause of well-formedness.
#![tactic(auto)]

mod check;
mod gate;
mod latest;
mod placed;

pub use check::check_agreement;
