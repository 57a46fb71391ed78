//! The names of a formula: variables, literals, clauses under their rules, and assignments (docs/TEXTS.md).
#![tactic(auto)]

pub mod args;
pub mod assignment;
pub mod byte_reading;
pub mod family;
pub mod formula;
pub mod laws;
pub mod numbers;
pub mod reading;
pub mod rule;
pub mod spelling;
pub mod var;

pub use args::{Arg, Args};
pub use assignment::Assignment;
pub use byte_reading::{argument_of, read_lit_bytes};
pub use family::{FAMILIES, Family};
pub use formula::Formula;
pub use numbers::number_of;
pub use reading::{read_lit, read_number};
pub use rule::{Rule, RuleClause, RuleRefusal, RuleSource};
pub use spelling::{
    ArgumentBytes, DottedArguments, LiteralBytes, put_argument, put_lit, put_lit_bytes,
};
pub use var::{Lit, Var, is_variable};
