//! The methods that a program reaches, and what is wrong with their instructions (docs/PROFILE.md, "Reached methods").
#![tactic(auto)]

mod adding;
mod code;
mod components;
mod cycles;
mod exploring;
mod fault;
mod laws;
mod loops;
mod method;
mod method_set;
mod naming;
mod places;
mod ranks;
mod reaching;
mod reading;
mod refusal;
mod runs;
mod survey;

pub use code::{MethodCode, find_code};
pub use laws::{no_first_fault, one_first_fault, one_list};
pub use method::ReachedMethod;
pub use reaching::reach;
pub use refusal::{CodeKind, CodeRefusal, Detail};
pub use runs::Runs;
