//! The clauses of a refutation as its lines are read: what a line adds, follows, and takes out.
#![tactic(auto)]

pub mod rule_words;
pub mod table;
mod variables;

pub use rule_words::{add_named, rule_of, with_argument};
pub use table::ClauseTable;
