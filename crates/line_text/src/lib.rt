//! Texts of one line: bounds, outcomes, words of a command, and decimal numbers.
#![tactic(auto)]

pub mod bounds;
pub mod command;
pub mod number;
pub mod outcome;
pub mod outcome_reader;
pub mod word_list;

pub use command::{Command, WordsRefusal, read_words};
pub use number::put_number;
pub use outcome::{OutcomePart, Values};
pub use outcome_reader::{OutcomeRefusal, read_outcome};
pub use word_list::Words;
