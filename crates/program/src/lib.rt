//! The program that class files make: its variables, its threads, the instructions that they reach, and what a run of a
//! thread is (docs/MODEL.md, "Programs and runs").
#![tactic(auto)]

mod accessors;
mod event;
mod items;
mod kind;
mod method;
mod name;
mod operands;
mod program;
mod stack_type;
mod value_type;

pub use event::Event;
pub use items::Items;
pub use kind::Kind;
pub use method::{Frame, Method, MethodId, Operand};
pub use name::Name;
pub use operands::Operands;
pub use program::{Program, Variable};
pub use stack_type::StackType;
pub use value_type::{HeldMonitor, TypedLocal, TypedState, ValueType};
