//! Class files as bytes (JVMS, chapter 4), from their records.
#![tactic(auto)]

mod attributes;
mod classes;
mod fields;
mod pool;

pub use classes::write_class;
