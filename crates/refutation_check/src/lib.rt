//! What a check of refutations does by number: the clauses that are live, marks, unit propagation along hints.
#![tactic(auto)]

pub mod hints;
pub mod judging;
pub mod live;
pub mod marks;

pub use hints::{HintRefusal, follow, last_hint, unit_of_hint};
pub use judging::{Judgement, judge, negation};
pub use live::{LiteralNumbers, LiveClauses};
pub use marks::Marks;
