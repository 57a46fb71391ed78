//! The program of the classes before it is typed: its variables, its monitors, its threads, and what the instructions of
//! the reached methods name by numbers (docs/MODEL.md, "The program of the classes").
#![tactic(auto)]

mod call_graph;
mod edges;
mod fields;
mod laws;
mod limits;
mod marks;
mod methods;
mod monitors;
mod numbers;
mod order;
mod refusal;
mod signature;
mod symbols;
mod threads;
mod untyped;

pub use laws::{field_numbers_are_places, monitor_numbers_are_places, one_untyped_program};
pub use limits::check_limits;
pub use refusal::{LimitKind, LimitRefusal};
pub use untyped::{UntypedProgram, untyped_program};
