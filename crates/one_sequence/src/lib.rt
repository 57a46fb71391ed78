//! That the text of a sequence belongs to one execution and one sequence (docs/TEXTS.md, "Sequences").
#![tactic(auto)]

pub mod laws;
