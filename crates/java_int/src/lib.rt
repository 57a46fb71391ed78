//! The operations of the Java language on ints (JLS 4.2.2, JVMS 6.5), each given on whole numbers.
#![tactic(auto)]

mod arithmetic;
mod bits;
pub mod laws;
mod shifts;

pub use arithmetic::{add, fits, less, mul, neg, sub};
pub use bits::{and, bit, or, to_byte, to_char, to_short, xor};
pub use shifts::{shl, shr, ushr};
