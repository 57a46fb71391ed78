//! Whether a step of a committing sequence has committed the external actions that happen before its committed actions (JLS
//! 17.4.8; docs/MODEL.md, "Committing sequences"): the ninth condition.
#![tactic(auto)]

mod check;
mod last;

pub use check::check_external;
