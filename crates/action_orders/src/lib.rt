//! Executions of a program and the orders on their actions, and what the memory model says of them (JLS 17.4.2 to 17.4.8,
//! docs/MODEL.md).
#![tactic(auto)]

mod action;
mod execution;
pub mod laws;
mod lists;
mod sequence;

pub use action::{Action, ActionOperand, ActionRef, Entry, Note};
pub use execution::{Execution, ThreadPart};
pub use lists::{ActionRefs, Entries};
pub use sequence::{Sequence, SequenceStep};
