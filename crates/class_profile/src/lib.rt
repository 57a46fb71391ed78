//! Which classes are of the profile (docs/PROFILE.md, "Classes of the profile").
#![tactic(auto)]

mod check;
mod distinct;
mod laws;
mod main_method;
mod members;
mod name_form;
mod refusal;
mod text_set;
mod threads;

pub use check::check_classes;
pub use laws::{no_fault_of_profile, one_first_fault};
pub use main_method::{MainPlace, main_of};
pub use name_form::is_name;
pub use refusal::{ClassKind, ProfileRefusal};
