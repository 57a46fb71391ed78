ghost use Rattle.std.specs.Prelude.{◌++◌, ◌+◌, ◌<◌, ◌≡◌, ◌^◌, ℕ, List, [], ◌∷◌, length, false, MatchBool, MatchOption, OnErr, OnOk, Some};
ghost use Rattle.refutation_check.specs.LiveClauses.{IsLiveClause, TakesOut};

use ports::Memory;
use smallvec::SmallVec;
use std::alloc::Global;
use std::collections::HashMap;
use std::marker::Model;

/// The literals of a clause by number; four of them lie in the value itself.
#[derive(Debug, Drop)]
pub struct LiteralNumbers {
    items: SmallVec<u32, 4>,
}

impl Model for LiteralNumbers {
    ghost use Rattle.std.specs.Prelude.{List, ℕ};

    ghost Value = { List ℕ };

    ghost view = { λ numbers. numbers.items.items };
}

impl LiteralNumbers {
    /// No number.
    pub fn new(alloc: Global) -> LiteralNumbers
        ensures { result ≡ [] }
    {
        LiteralNumbers {
            items: SmallVec::new(alloc),
        }
    }

    /// Adds a number at the end.
    ///
    /// # Errors
    /// `Memory` where there is no room. Then nothing changed.
    pub fn push(&mut self, number: u32) -> Result<(), Memory>
        ensures ok { OnOk result (self.new ≡ self.old ++ number ∷ []) }
        ensures memory { OnErr result (self.new ≡ self.old) }
    {
        self.items.push(number).map_err(|_| Memory)
    }

    /// All of them.
    pub fn as_slice(&self) -> &[u32]
        ensures { result.now ≡ self.now }
    {
        self.items.as_slice()
    }
}

/// The clauses of a refutation so far, numbered from 1. Those that were taken out take no room.
#[derive(Drop)]
pub struct LiveClauses {
    live: HashMap<u64, LiteralNumbers>,
    count: u64,
}

impl Model for LiveClauses {
    ghost use Rattle.std.specs.Prelude.{List, ℕ, Option, nat_eq};
    ghost use Rattle.std.specs.HashMap.{get};
    ghost use Rattle.refutation_check.specs.LiveClauses.{AreInRange, clauses_upto};

    ghost Value = { List (Option (List ℕ)) };

    ghost view = { λ clauses. clauses_upto clauses.count (get nat_eq clauses.live) };

    ghost invariant = { λ clauses. AreInRange clauses.count (get nat_eq clauses.live) };
}

impl LiveClauses {
    /// No clause.
    pub fn new(alloc: Global) -> LiveClauses
        ensures { result ≡ [] }
    {
        LiveClauses {
            live: HashMap::new(alloc),
            count: 0,
        }
    }

    /// How many clauses there were.
    pub fn count(&self) -> u64
        ensures { result ≡ length self.now }
    {
        self.count
    }

    /// Adds a clause, on condition that there were fewer than 2^64 - 1.
    ///
    /// # Errors
    /// `Memory` where there is no room. Then nothing changed.
    pub fn push(&mut self, clause: LiteralNumbers) -> Result<(), Memory>
        requires { length self.old + 1 < 2 ^ 64 }
        ensures ok { OnOk result (self.new ≡ self.old ++ Some clause ∷ []) }
        ensures memory { OnErr result (self.new ≡ self.old) }
    {
        let number = self.count + 1;
        match self.live.insert(number, clause) {
            Ok(_) => {
                self.count = number;
                Ok(())
            }
            Err(_) => Err(Memory),
        }
    }

    /// The clause of a number, or `None` exactly where it is not live.
    pub fn get(&self, number: u64) -> Option<&[u32]>
        ensures { MatchOption result ((clause : List ℕ) → ¬ (IsLiveClause self.now number clause))
            (λ clause. IsLiveClause self.now number clause.now) }
    {
        Some(self.live.get(&number)?.as_slice())
    }

    /// Takes the clause of a number out, where it is live.
    pub fn take_out(&mut self, number: u64) -> bool
        ensures taken { MatchBool result (TakesOut self.old number self.new) ((clause : List ℕ) → ¬ (IsLiveClause self.old number clause)) }
        ensures unknown { result ≡ false → self.new ≡ self.old }
    {
        self.live.remove(&number).is_some()
    }
}
