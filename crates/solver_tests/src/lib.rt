//! Tests of the search of formulas as a whole: its answers against all assignments, and its logs against the check.
#![tactic(auto)]

#[cfg(test)]
mod answers;
pub mod ruled;
#[cfg(test)]
mod solved;
