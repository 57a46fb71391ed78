//! The entries of the threads, one by one.

ghost use Rattle.std.specs.Prelude.{◌≡◌, ◌↔◌, ℕ, length, map, Contains, IsTrue, IfOk};
ghost use Rattle.action_orders.specs.Actions.{entries};
ghost use Rattle.action_orders.specs.WellFormed.{IsThere};
ghost use Rattle.entry_tables.specs.Lists.{seen};
ghost use Rattle.least_break.specs.Least.{IsScanned};
ghost use Rattle.execution_form.specs.Facts.{AreFacts, stated};
ghost use Rattle.execution_form.specs.Form.{IsRightAt, IsRightEntry, IsForm};
ghost use Rattle.execution_form.specs.Needs.{IsListed};

use crate::fact::{Fact, Facts};
use crate::needs::{plain, seen, synchronizing, volatile};
use action_orders::{ActionOperand, Entry, Execution};
use entry_tables::IdSet;
use least_break::noted;
use ports::Memory;
use program::Program;
use std::alloc::Global;

/// An execution, with what its entries are judged by.
#[derive(Drop)]
pub struct Form<'a> {
    pub program: &'a Program,
    pub execution: &'a Execution,
    pub entries: Vec<&'a Entry>,
    pub facts: Facts<'a>,
    pub listed: IdSet,
}

impl<'a> Form<'a> {
    /// Whether the program has what the operand names.
    fn is_there(&self, operand: &ActionOperand) -> bool
        requires { IsForm self.now }
        ensures { IsTrue result ↔ IsThere self.now.program.now operand.now }
    {
        match operand {
            ActionOperand::Variable { class, name } => self.facts.has(Fact::Variable {
                class: class.as_slice(),
                name: name.as_slice(),
            }),
            ActionOperand::Monitor { class } => self.facts.has(Fact::Monitor {
                class: class.as_slice(),
            }),
            ActionOperand::Thread(thread) => *thread < self.program.threads(),
            ActionOperand::Nothing => true,
        }
    }

    /// Whether the synchronization order has the identifier, if there is one.
    fn is_listed(&self, id: Option<u64>) -> bool
        requires { IsForm self.now }
        ensures { IsTrue result ↔ IsListed self.now.execution.now id }
    {
        match id {
            Some(id) => self.listed.has(id),
            None => true,
        }
    }

    /// Whether the entry is right by itself, whatever identifiers the others have.
    fn is_right(&self, entry: &Entry) -> bool
        requires { IsForm self.now }
        ensures { IsTrue result ↔ IsRightEntry self.now.program.now self.now.execution.now entry.now }
    {
        if !self.is_there(&entry.action.operand) {
            return false;
        }
        if !self.facts.meets(seen(entry)) {
            return false;
        }
        if !self.facts.meets(volatile(&entry.action)) {
            return false;
        }
        if !self.facts.misses(plain(&entry.action)) {
            return false;
        }
        self.is_listed(synchronizing(&entry.action))
    }

    /// The pass over the entries, no two of which are to have one identifier.
    pub fn scan_entries(&self, alloc: Global) -> Result<Option<u64>, Memory>
        requires { IsForm self.now }
        ensures { IfOk result (IsScanned (IsRightAt self.now.program.now self.now.execution.now) (map (λ n. n.action.id) (entries self.now.execution.now)) (length (entries self.now.execution.now))) }
    {
        let mut found = IdSet::new(alloc);
        let mut least = None;
        for at in 0..self.entries.len() {
            let entry = self.entries[at];
            let new = found.add(entry.action.id)?;
            let itself = self.is_right(entry);
            let right = itself && new;
            least = noted(least, entry.action.id, right);
        }
        Ok(least)
    }
}
