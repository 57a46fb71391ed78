//! The steps of a search for values: decisions, what follows from them, and the way back.
#![tactic(auto)]

mod adding;
mod back;
mod choice;
mod state;

pub use adding::{Added, add};
pub use back::{exclude_last, take_back, unwind};
pub use choice::next_open;
pub use state::{State, settle};
