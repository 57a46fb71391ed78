//! What holds of each program that linking accepts, so that nothing above has to look into typing (docs/MODEL.md, "The program
//! of the classes").
#![tactic(auto)]

pub mod laws;
