//! Tests of the check of reads against happens-before.
#![tactic(auto)]

#[cfg(test)]
mod pieces;
#[cfg(test)]
mod reads;
