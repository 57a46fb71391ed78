//! Tests of formulas, of the texts of literals, of the lines of refutations, of hints and of refutations in bytes.
#![tactic(auto)]

#[cfg(test)]
mod checks;
#[cfg(test)]
mod formulas;
#[cfg(test)]
mod hints;
#[cfg(test)]
mod lines;
#[cfg(test)]
mod literals;
pub mod small;
