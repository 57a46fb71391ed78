//! What the nodes of a program's graph are: instructions, slots and actions (docs/GRAPH.md, "Nodes in detail").
#![tactic(auto)]

mod details;
mod doing;
mod known;
mod slots;

pub use details::{NodeAction, NodeDetails, NodeInstruction, details_of};
pub use doing::{Act, act_of, is_outermost};
pub use known::{KnownFrame, known_frames};
pub use slots::{int_slots, slots_below};
