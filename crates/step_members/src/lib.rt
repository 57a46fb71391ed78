//! The members of the sets of a committing sequence (JLS 17.4.8; docs/MODEL.md, "Committing sequences"), and whether those of a
//! step are actions of the step's execution: the first of its conditions.
#![tactic(auto)]

mod presence;
mod stage;
mod table;

pub use presence::check_presence;
pub use stage::{Earlier, Stage, ids_of};
pub use table::{Member, add_member, member_at, members};
