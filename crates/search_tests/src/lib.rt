//! Tests of the public calls of the search for a model.
#![tactic(auto)]

#[cfg(test)]
mod conflicts;
#[cfg(test)]
mod decisions;
#[cfg(test)]
mod literals_as_numbers;
#[cfg(test)]
mod logs;
#[cfg(test)]
mod pool;
#[cfg(test)]
mod trails;
