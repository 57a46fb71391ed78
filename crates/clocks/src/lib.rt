//! Happens-before by clocks, over a plain list of events.
//!
//! Each event belongs to a thread, and may take from a channel what was given to it before. An event leads to each later
//! event of its thread, and to each later event that takes from the channel that it gives to. A clock of an event has for
//! each thread the last event of that thread from which a path leads to it, so one pass over the list answers for every
//! pair whether there is a path (docs/MODEL.md, "Clocks").
#![tactic(auto)]

mod clock;
mod pass;
mod table;
mod takers;

pub use clock::{Clock, THREADS};
pub use pass::Event;
pub use table::Clocks;
