//! Whether what is noted beside the actions that a step of a committing sequence has committed is the same in the step's execution
//! as in the execution that is committed (JLS 17.4.8; docs/MODEL.md, "Committing sequences"): the values that writes store, the
//! fourth condition, and the writes that reads see, the fifth.
#![tactic(auto)]

mod seen;
mod stored;

pub use seen::check_seen;
pub use stored::check_stored;
