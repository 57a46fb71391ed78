//! Steps along the code of a program, calls and returns included (docs/MODEL.md, "Programs and runs").
#![tactic(auto)]

mod hops;
mod place;

pub use hops::{Hops, hops_from};
pub use place::{CodeHop, CodePlace};
