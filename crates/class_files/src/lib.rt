//! From the names of class files to the program that their classes make (docs/TEXTS.md, "Class files").
#![tactic(auto)]

mod class_reader;
mod file_list;
mod file_reader;
mod file_refusal;
mod linked;
mod linker;
mod refusal;
mod whole_file;

pub use linked::Linked;
pub use linker::link_files;
pub use refusal::InputRefusal;
