//! Where the threads of a program can stand, and the steps between such places (docs/GRAPH.md).
#![tactic(auto)]

mod chain;
mod leads;
mod spot;

pub use chain::Chain;
pub use leads::{Lead, Leads, leads_from};
pub use spot::{Position, Spot, Standing};
