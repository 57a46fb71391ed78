//! Tests of intra-thread consistency and the bounds, over programs that are linked from class files.
#![tactic(auto)]

#[cfg(test)]
mod classes;
#[cfg(test)]
mod executions;
#[cfg(test)]
mod rows;
#[cfg(test)]
mod runs;
