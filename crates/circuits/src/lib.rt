//! The circuits that tell what instructions compute, bit by bit (docs/RULES.md).
#![tactic(auto)]

mod circuit;
mod gate;
mod inputs;
mod products;
mod shifts;
mod source;
mod sums;
mod tests;

pub use circuit::{
    condition, has_gates, has_result, inner_bits, inner_gate, reads_variable, result_gate,
};
pub use gate::{Gate, Input, Pair, Triple, Wire};
pub use source::{Source, source_along};
