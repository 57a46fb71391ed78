//! What is learned from a conflict: the first unique implication point.
//!
//! From the clause that became false, the reasons of its literals are resolved, the newest literal
//! first, until one literal of the last decision is left.
#![tactic(auto)]

mod analysis;
mod exclusion;
mod hint;
mod resolvent;
mod walk;

pub use analysis::{Analysis, Memory};
pub use hint::Hint;
