//! Which numbers are arguments of a rule.

ghost use Rattle.std.specs.Prelude.{◌≡◌};
ghost use Rattle.rule_base.specs.Instances.{is_instance};

use crate::choices::Choices;
use crate::question::Question;
use crate::table::Table;

impl<'a> Question<'a> {
    /// Whether these numbers are arguments of the rule at a place of a table.
    pub fn is_instance(&self, table: &Table, place: usize, args: &Choices) -> bool
        ensures { result ≡ is_instance self.now table.now.rows.now place args.now }
    {
        if table.len() <= place {
            return false;
        }
        let mut before = Choices::new();
        for argument in 0..args.len() {
            let Some(letter) = table.letter(place, argument) else {
                return false;
            };
            let x = args.at(argument);
            if !self.takes(letter, &before, x) {
                return false;
            }
            before.push(x);
        }
        match table.letter(place, args.len()) {
            Some(_) => false,
            None => true,
        }
    }
}
