//! A search that writes down what it learns: each conflict is answered by the line of a clause, and each clause of the
//! pool and each reason by decisions has the name of a live clause of the log.
#![tactic(auto)]

mod choosing;
mod conflict;
mod keeping;
mod raising;
mod search;
mod settling;
mod unwinding;

pub use conflict::{answer_conflict, refute};
pub use search::LoggedSearch;
pub use settling::settle;
