//! Whether an execution shows an outcome (docs/MODEL.md, "Committing sequences").
#![tactic(auto)]

mod check;
mod printed;

pub use check::check_outcome;
