//! No method of a linked program runs within itself, so that nothing above has to look into typing (docs/MODEL.md, "Programs and
//! runs").
#![tactic(auto)]

pub mod laws;
