//! The parts of a refutation's lines in words, read one after another: words behind blanks, what follows a word, the
//! first line.
#![tactic(auto)]

pub mod parts;
pub mod words;

pub use parts::{
    ClauseWord, Gap, expect_header, take_argument, take_clause_word, take_gap, take_number,
};
pub use words::arguments_fit;
