//! Reads against happens-before (JLS 17.4.5; docs/MODEL.md, "Well-formed executions"): the fifth clause of well-formedness.
#![tactic(auto)]

mod accesses;
mod check;
mod places;
mod sights;
mod writes;

pub use check::check_reads;
pub use sights::seen;
