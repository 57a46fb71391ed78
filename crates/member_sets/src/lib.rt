//! Sets of actions as increasing lists of their names, and whether the sets of a committing sequence grow (docs/MODEL.md,
//! "Committing sequences").
#![tactic(auto)]

mod chain;
mod growth;
mod member;

pub use chain::{first_without_growth, set_before};
pub use growth::grows;
pub use member::same;
