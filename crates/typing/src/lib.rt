//! The types of the locals and the stack of a method of the profile along its paths (docs/PROFILE.md, "Typing").
#![tactic(auto)]

mod change;
mod deed;
mod deeds;
mod effect;
mod entry;
mod fault;
mod joined;
mod joined_type;
pub mod laws;
mod level;
mod look;
mod maps;
mod meeting;
mod object;
mod output;
mod refusal;
mod stack;
mod stage;
mod symbol;
mod targets;
mod typing;
mod untyped;

pub use laws::{no_refusal_of_typed, one_refusal, one_typing};
pub use refusal::{TypeKind, TypeRefusal};
pub use symbol::Symbol;
pub use typing::type_method;
pub use untyped::{Entry, UntypedMethod};
