//! The outside of the program as traits: files by name, and sinks of bytes. Each object counts its faults, and answers
//! that it failed only where its count rose.
#![tactic(auto)]

pub mod answers;
pub mod file_sink;
pub mod memory_files;
pub mod memory_sink;
mod numbered_calls;
pub mod outside;
pub mod put;
pub mod real;
mod store;

pub use answers::{Failed, Memory};
pub use file_sink::FileSink;
pub use memory_files::MemoryFiles;
pub use memory_sink::MemorySink;
pub use outside::{Files, Sink};
pub use put::put_all;
pub use real::{RealFiles, RealOut};
