//! Volatile reads against the synchronization order (JLS 17.4.7; docs/MODEL.md, "Well-formed executions"): the sixth clause of
//! well-formedness.
#![tactic(auto)]

mod check;
mod entries;
mod last_writes;

pub use check::check_volatile_reads;
pub use entries::seen;
