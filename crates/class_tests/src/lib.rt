//! Tests of the public calls that lead from class files to programs.
#![tactic(auto)]

#[cfg(test)]
mod class_bytes;
#[cfg(test)]
mod files;
#[cfg(test)]
mod instructions;
#[cfg(test)]
mod limits;
#[cfg(test)]
mod linked;
#[cfg(test)]
mod naming;
#[cfg(test)]
mod profile;
#[cfg(test)]
mod reaching;
#[cfg(test)]
mod reading;
#[cfg(test)]
mod types;
#[cfg(test)]
mod writing;
