//! Refutations: their lines, what makes lines a refutation of a list of instances, and their texts (docs/TEXTS.md).
#![tactic(auto)]

pub mod laws;
pub mod line;
pub mod put;

pub use line::{ClauseNumbers, Line};
pub use put::{
    NumberedLiterals, put_counted, put_deletion, put_header, put_instance, put_line,
    put_numbered_clause,
};
