//! What the runs of linked programs have in common with the types of their methods, so that nothing above has to look into
//! typing (docs/MODEL.md, "Programs and runs").
#![tactic(auto)]

pub mod laws;
