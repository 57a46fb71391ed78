//! What reads see in the step's execution and in the execution that is committed (JLS 17.4.8; docs/MODEL.md, "Committing
//! sequences"): writes that happen before them, where they were not committed before, which is the sixth condition on a step, and
//! writes that were committed before, where they are committed now, the seventh.
#![tactic(auto)]

mod defaults;
mod early;
mod first;
mod now;

pub use defaults::default_numbers;
pub use first::check_uncommitted_reads;
pub use now::check_committed_now;
