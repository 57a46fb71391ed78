//! Words on relations and lists that know no type of the project: paths, places, the least number with a property.
#![tactic(auto)]

mod places;

pub use places::stands_before;
