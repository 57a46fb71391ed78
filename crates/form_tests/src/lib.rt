//! Tests of the checks of the first two clauses of well-formedness.
#![tactic(auto)]

#[cfg(test)]
mod agreement;
#[cfg(test)]
mod form;
#[cfg(test)]
mod pieces;
