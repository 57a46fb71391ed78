//! The instances of a table, in order.

ghost use Rattle.std.specs.Prelude.{◌≤◌, length};

use crate::choices::Choices;
use crate::question::Question;
use crate::table::Table;

/// An instance of the rule at a place of a table, by the numbers that are chosen for its arguments.
#[derive(Debug, Drop)]
pub struct Instance {
    pub place: usize,
    pub choices: Choices,
}

/// The instances that are left: those of a rule from its chosen arguments and the next choice on, and those of later rules.
#[derive(Drop)]
pub struct Instances<'a> {
    pub(crate) question: Question<'a>,
    pub(crate) table: Table<'a>,
    pub(crate) place: usize,
    pub(crate) chosen: Choices,
    pub(crate) next: u64,
    ghost known: { place ≤ length table.rows.now },
}
