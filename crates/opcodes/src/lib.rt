//! The instructions of the Java virtual machine that the profile knows, and the list of those that a
//! method's code reaches (JVMS 6, docs/PROFILE.md).
#![tactic(auto)]

mod decoding;
mod fault;
pub mod instruction;
pub mod laws;
pub mod listed;
mod opcode;
mod reading;
pub mod refusal;
mod survey;

pub use decoding::decode;
pub use instruction::Instr;
pub use laws::{one_instruction, one_listing};
pub use listed::{Listed, Listing};
pub use refusal::OpcodeRefusal;
