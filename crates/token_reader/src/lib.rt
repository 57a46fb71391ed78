//! Bytes of a source that are looked at before they are taken.
#![tactic(auto)]

mod buffer;
pub mod bytes;
pub mod reader;

pub use bytes::{Bytes, ReadRefusal};
pub use reader::Reader;
