//! The listing of a program: its variables, its monitors, its threads, and the instructions that it reaches
//! (docs/TEXTS.md, "Listings").
#![tactic(auto)]

mod instruction_names;
mod listing;
mod method_names;
mod methods;
mod operands;
mod piece;
mod printable;

pub use instruction_names::name_of_instruction;
pub use listing::put_listing;
pub use printable::put_detail;
