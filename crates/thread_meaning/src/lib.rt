//! The meaning of a thread: the one run that it has for the values of its reads (docs/MODEL.md, "Programs and runs").
#![tactic(auto)]

mod code;
mod decoding;
mod doing;
mod effect;
mod end;
mod events;
mod frame;
mod frames;
pub mod laws;
mod stack;
mod steps;
mod tracing;
mod value;
mod walk;

pub use code::{Here, look};
pub use doing::{Binary, Comparison, Doing, Test, Unary};
pub use effect::Effect;
pub use end::TraceEnd;
pub use events::Events;
pub use frame::Frame;
pub use frames::Frames;
pub use stack::Stack;
pub use tracing::trace;
pub use value::Value;
pub use walk::{Trace, Walk};
