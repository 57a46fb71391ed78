//! The trail of a search: the literals that were made true, in order, each with its reason, and the
//! level of each, which is the number of decisions up to it.
#![tactic(auto)]

mod step;
mod trail;

pub use step::{Reason, Step, Value};
pub use trail::{Memory, Trail};
