//! The top call: what the words ask of the class files, and the answer with its certificate (docs/TEXTS.md, "Command lines" and
//! "Output"). So far `show` is built, and `decide` for straight programs.
#![tactic(auto)]

mod answer;
mod decide;
mod input;
mod judge;
mod kind_names;
mod lines;
mod pieces;
mod request;
mod status;
mod stop;
mod top_call;

pub use status::Status;
pub use top_call::run;
