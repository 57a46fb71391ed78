//! Clauses that are put into the pool in the middle of a search, as reasons, and taken out again.
#![tactic(auto)]

mod forgetting;
mod learning;

pub use forgetting::{compact, forget, is_reason};
pub use learning::{add_reason, exclude};
