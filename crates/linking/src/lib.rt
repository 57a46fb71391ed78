//! Linking: the program that classes make, or why they make none (docs/PROFILE.md, "Linking").
#![tactic(auto)]

mod class_list;
mod laws;
mod linker;
mod methods;
mod operands;
mod parts;
mod phases;
mod refusal;

pub use class_list::ClassList;
pub use laws::{one_program, one_refusal, program_or_refusal};
pub use linker::link;
pub use refusal::ProgramRefusal;
