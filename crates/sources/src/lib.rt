//! Where bytes come from, as a trait: bytes in memory, and named files. Each object counts its faults, and answers that it
//! failed only where its count rose.
#![tactic(auto)]

pub mod file_source;
pub mod memory_source;
mod numbered_calls;
pub mod source;

pub use file_source::FileSource;
pub use memory_source::MemorySource;
pub use source::Source;
