//! The parts of a refutation's lines in bytes, read one after another: bytes, numbers, literals, the beginning.
#![tactic(auto)]

pub mod parts;
pub mod refusal;

pub use parts::{expect_byte, expect_end, expect_header, take_byte, take_literal, take_number};
pub use refusal::{CheckRefusal, LineRefusal, Reason};
