//! The form of executions (JLS 17.4.6, docs/MODEL.md, "Well-formed executions"): the first clause of well-formedness.
#![tactic(auto)]

mod check;
mod entry;
mod fact;
mod facts;
mod needs;
mod order;

pub use check::check_form;
