//! The entries of an execution in one list, and sets of identifiers.
#![tactic(auto)]

mod flat;
mod id_set;

pub use flat::flat_entries;
pub use id_set::IdSet;
