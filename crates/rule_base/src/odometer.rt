//! The steps from one instance to the next.

ghost use Rattle.std.specs.Prelude.{◌≡◌, ◌<◌, ◌≤◌, ◌^◌, ◌++◌, [], ◌∷◌, length};
ghost use Rattle.rule_base.specs.Instances.{all_instances, IsSpent, GivesOf};
ghost use Rattle.rule_base.specs.Rest.{rest, work};

use crate::choices::Choices;
use crate::instances::{Instance, Instances};
use crate::question::Question;
use crate::table::Table;

impl<'a> Iterator for Instances<'a> {
    type Item = Instance;

    ghost use Rattle.std.specs.Iterator.{YieldsFirst, item_count};
    ghost use Rattle.rule_base.specs.Rest.{rest};

    ghost next_gives = { YieldsFirst rest };

    ghost remaining = { item_count rest };

    fn next(&mut self) -> Option<Instance> {
        while self.place < self.table.len() {
            if let Some(found) = self.step() {
                return Some(found);
            }
        }
        None
    }
}

impl<'a> Instances<'a> {
    /// All instances of a table.
    pub fn new(question: Question<'a>, table: Table<'a>) -> Instances<'a>
        ensures { rest result ≡ all_instances question.entry table.entry.rows.now }
    {
        Instances {
            question,
            table,
            place: 0,
            chosen: Choices::new(),
            next: 0,
        }
    }

    /// One step: takes the next choice, or goes back where there is none.
    fn step(&mut self) -> Option<Instance>
        requires { self.old.place < length self.old.table.rows.now }
        ensures left { GivesOf (rest self.old) result (rest self.new) }
        ensures work { work self.new < work self.old }
    {
        let argument = self.chosen.len();
        let Some(here) = self.table.letter(self.place, argument) else {
            self.back();
            return None;
        };
        if self.question.size(here, &self.chosen) <= self.next {
            self.back();
            return None;
        }
        let x = self.next as u32;
        if !self.question.fits(here, &self.chosen, x) {
            self.next += 1;
            return None;
        }
        match self.table.letter(self.place, argument + 1) {
            Some(_) => {
                self.chosen.push(x);
                self.next = 0;
                None
            }
            None => {
                let mut choices = self.chosen.copy();
                choices.push(x);
                self.next += 1;
                Some(Instance {
                    place: self.place,
                    choices,
                })
            }
        }
    }

    /// Goes back to the choice before, or to the next rule.
    fn back(&mut self)
        requires place { self.old.place < length self.old.table.rows.now }
        requires spent { IsSpent self.old.question self.old.table.rows.now self.old.place self.old.chosen self.old.next }
        ensures left { rest self.new ≡ rest self.old }
        ensures work { work self.new < work self.old }
    {
        match self.chosen.pop() {
            Some(x) => self.next = x as u64 + 1,
            None => {
                self.place += 1;
                self.next = 0;
            }
        }
    }
}
