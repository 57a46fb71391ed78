//! Tests of the orders on actions.
#![tactic(auto)]

#[cfg(test)]
mod unacted;
