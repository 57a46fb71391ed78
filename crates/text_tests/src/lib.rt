//! Tests of the public calls on files and texts.
#![tactic(auto)]

#[cfg(test)]
mod listings;
#[cfg(test)]
mod outside;
#[cfg(test)]
mod sequences;
#[cfg(test)]
mod words;
