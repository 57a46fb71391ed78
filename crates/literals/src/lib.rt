//! Literals as numbers, truth under an assignment, and what follows by unit propagation.
//!
//! Variables are numbered from 0. The literals of the variable v are the numbers 2v, the positive one,
//! and 2v + 1, the negative one. A clause is a list of literals, and is true where one of them is.
#![tactic(auto)]

mod laws;
mod literal;
mod truth;

pub use laws::{empty_is_unsatisfiable, following_is_true, resolvent_is_true};
pub use literal::{is_positive, negative, opposite, positive, variable};
pub use truth::{holds, is_true};
