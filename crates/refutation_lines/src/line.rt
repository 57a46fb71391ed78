ghost use Rattle.std.specs.Prelude.{◌++◌, ◌≡◌, [], ◌∷◌, length, OnErr, OnOk, slice_get};

use ports::Memory;
use std::alloc::Global;
use std::marker::Model;
use var_names::{Rule, RuleClause};

/// Numbers of clauses. The clauses of a refutation are numbered from 1, in the order of its lines.
#[derive(Debug, Drop)]
pub struct ClauseNumbers {
    items: Vec<u64>,
}

impl Model for ClauseNumbers {
    ghost use Rattle.std.specs.Prelude.{List, ℕ};

    ghost Value = { List ℕ };

    ghost view = { λ numbers. numbers.items.items };
}

impl ClauseNumbers {
    /// No number.
    pub fn new(alloc: Global) -> ClauseNumbers
        ensures { result ≡ [] }
    {
        ClauseNumbers {
            items: Vec::new(alloc),
        }
    }

    /// Adds a number at the end.
    ///
    /// # Errors
    /// `Memory` where there is no room. Then nothing changed.
    pub fn push(&mut self, number: u64) -> Result<(), Memory>
        ensures ok { OnOk result (self.new ≡ self.old ++ number ∷ []) }
        ensures memory { OnErr result (self.new ≡ self.old) }
    {
        self.items.push(number).map_err(|_| Memory)
    }

    /// How many there are.
    pub fn len(&self) -> usize
        ensures { result ≡ length self.now }
    {
        self.items.len()
    }

    /// The number at a place, or `None` exactly at or past the length.
    pub fn get(&self, at: usize) -> Option<u64>
        ensures { result ≡ slice_get self.now at }
    {
        self.items.get(at).copied()
    }

    /// All of them.
    pub fn as_slice(&self) -> &[u64]
        ensures { result.now ≡ self.now }
    {
        self.items.as_slice()
    }
}

/// A line of a refutation.
#[derive(Debug, Drop)]
pub enum Line {
    /// An instance becomes the next clause.
    Instance(Rule),
    /// These literals become the next clause, which follows from the clauses of its hints by unit propagation.
    Clause {
        literals: RuleClause,
        hints: ClauseNumbers,
    },
    /// These clauses are taken out.
    Deletion(ClauseNumbers),
}
