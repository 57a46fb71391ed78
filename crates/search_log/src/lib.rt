//! The text that a search writes, line by line: rules, clauses with their hints, and clauses taken out.
//!
//! A [`Log`] keeps the name of each clause that hints may name: a place of the formula, until the clause's rule is put,
//! which is directly before the first clause line that uses it; and then the clause's number. No call after
//! [`Log::open`] takes memory.
#![tactic(auto)]

pub mod log;
pub mod name;
pub mod number;

pub use log::{Log, Memory};
pub use name::Name;
