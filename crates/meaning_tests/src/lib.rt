//! Tests of the public calls on ints, programs, threads and executions.
#![tactic(auto)]

#[cfg(test)]
mod code_steps;
#[cfg(test)]
mod executions;
#[cfg(test)]
mod ints;
#[cfg(test)]
mod programs;
#[cfg(test)]
mod reached;
#[cfg(test)]
mod traces;
