//! Whether the actions that a step of a committing sequence has committed stand in the same orders in the step's execution as in
//! the execution that is committed (JLS 17.4.8; docs/MODEL.md, "Committing sequences"): the second and the third condition.
#![tactic(auto)]

mod happening;
pub mod laws;
mod line;
mod synced;
mod threads;

pub use happening::check_happens_before;
pub use synced::check_synchronization_order;
