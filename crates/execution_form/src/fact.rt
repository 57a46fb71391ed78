//! What entries may rest on.

ghost use Rattle.std.specs.Prelude.{◌≡◌, ◌↔◌, Contains, IsTrue, [], OnOk};
ghost use Rattle.entry_tables.specs.Added.{IsAdded};
ghost use Rattle.execution_form.specs.Facts.{Stated, stated_by, stated_given, stated, IsMet, IsMissed};

use indexmap::IndexSet;
use ports::Memory;
use std::alloc::Global;

/// What the program has, or an execution.
#[derive(Clone, Copy, Debug, PartialEq, Eq, Hash)]
pub enum Fact<'a> {
    /// The program has a variable.
    Variable {
        class: &'a [u8],
        name: &'a [u8],
    },
    /// It has a volatile variable.
    Volatile {
        class: &'a [u8],
        name: &'a [u8],
    },
    /// It has a monitor.
    Monitor {
        class: &'a [u8],
    },
    /// An action with this identifier writes to a variable.
    Write {
        id: u64,
        class: &'a [u8],
        name: &'a [u8],
    },
}

/// A set of facts.
#[derive(Drop)]
pub struct Facts<'a> {
    pub set: IndexSet<Fact<'a>>,
}

impl<'a> Facts<'a> {
    /// No fact.
    pub fn new(alloc: Global) -> Facts<'a>
        ensures { stated result ≡ [] }
    {
        Facts {
            set: IndexSet::new(alloc),
        }
    }

    /// Adds a fact.
    pub fn add(&mut self, fact: Fact<'a>) -> Result<(), Memory>
        ensures { OnOk result (IsAdded (stated self.old) (Some (stated_by fact.entry)) (stated self.new)) }
    {
        match self.set.insert_full(fact) {
            Ok(_) => Ok(()),
            Err(_) => Err(Memory),
        }
    }

    /// Adds a fact, if there is one.
    pub fn note(&mut self, fact: Option<Fact<'a>>) -> Result<(), Memory>
        ensures { OnOk result (IsAdded (stated self.old) (stated_given fact.entry) (stated self.new)) }
    {
        match fact {
            Some(fact) => self.add(fact),
            None => Ok(()),
        }
    }

    /// Whether the fact is there.
    pub fn has(&self, fact: Fact) -> bool
        ensures { IsTrue result ↔ Contains (stated self.now) (stated_by fact.entry) }
    {
        self.set.contains(&fact)
    }

    /// Whether a fact that is needed, if there is one, is there.
    pub fn meets(&self, fact: Option<Fact>) -> bool
        ensures { IsTrue result ↔ IsMet (stated self.now) (stated_given fact.entry) }
    {
        match fact {
            Some(fact) => self.has(fact),
            None => true,
        }
    }

    /// Whether a fact that is excluded, if there is one, is not there.
    pub fn misses(&self, fact: Option<Fact>) -> bool
        ensures { IsTrue result ↔ IsMissed (stated self.now) (stated_given fact.entry) }
    {
        match fact {
            Some(fact) => !self.has(fact),
            None => true,
        }
    }
}
