//! Hints followed by number are hints followed by literals.
#![tactic(auto)]

pub mod laws;
