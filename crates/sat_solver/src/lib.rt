//! A search for an assignment that makes every clause of a formula true. Where there is none, its log is a refutation of the
//! formula.
#![tactic(auto)]

mod assigning;
mod deciding;
mod opening;
mod search;

pub use search::{Answer, Memory, Search, WriteFault};
