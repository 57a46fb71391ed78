//! Laws of happens-before and of committing sequences, as the standard words them (JLS 17.4.5, 17.4.8; docs/MODEL.md).
#![tactic(auto)]

pub mod laws;
