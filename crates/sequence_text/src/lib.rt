//! Executions with the sequences that commit them, as text (docs/TEXTS.md, "Sequences").
#![tactic(auto)]

mod pieces;
mod text;
mod write;

pub use pieces::Piece;
pub use text::{Text, put_each};
pub use write::write_sequence;
