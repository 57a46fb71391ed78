//! What the actions of a thread say about its run (docs/MODEL.md, "Executions"): the values that its reads get, the threads whose
//! end it detects, and whether they are the events of a run.
#![tactic(auto)]

mod ended;
mod matching;
mod operands;
mod values;

pub use ended::ended_threads;
pub use matching::have_events;
pub use values::values_read;
