//! Tests of the command as a whole.
#![tactic(auto)]

#[cfg(test)]
mod run;
