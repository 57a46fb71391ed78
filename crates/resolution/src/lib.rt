//! What the instructions of a class name by its constant pool, among the classes (JVMS 5.4.3; docs/PROFILE.md, "Names").
#![tactic(auto)]

mod forms;
mod index;
mod places;
mod refusal;
mod resolver;
mod signature;
mod target;
mod targets;

pub use index::ClassIndex;
pub use refusal::Misnamed;
pub use resolver::resolve;
pub use signature::{Signature, signature_of};
pub use target::Target;
pub use targets::is_run;
