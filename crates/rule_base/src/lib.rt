//! What the tables of rules have in common: what arguments range over, and the instances of a table (docs/RULES.md).
#![tactic(auto)]

mod choices;
mod clause;
mod domain;
mod instance_test;
mod instances;
mod instructions;
mod laws;
mod letter;
mod naming;
mod nodes;
mod odometer;
mod question;
mod table;
mod variables;

pub use choices::Choices;
pub use clause::{Each, equal, minus, plus};
pub use instances::{Instance, Instances};
pub use instructions::{condition_of, inner_gate_of, instruction_at, result_gate_of};
pub use laws::{all_instances_once, true_at_its_arguments};
pub use letter::Letter;
pub use naming::{choices_of, instances_are_named, rule_of};
pub use nodes::{from_of, is_taken, to_of};
pub use question::Question;
pub use table::Table;
pub use variables::{ca, go, on, re, sl};
