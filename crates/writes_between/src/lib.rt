//! Writes that lie between another write and a read in happens-before (JLS 17.4.5).
//!
//! Of a thread's actions those that happen before a read are the first ones, up to what the read's clock knows of the thread;
//! and what happens before one of them happens before the last of them. So of some writes of a thread one is looked at, which
//! a binary search finds (docs/MODEL.md, "Clocks").
#![tactic(auto)]

mod known;
mod overwritten;
mod places;

pub use overwritten::{is_before, is_overwritten};
