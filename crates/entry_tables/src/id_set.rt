//! Sets of identifiers.

ghost use Rattle.std.specs.Prelude.{◌≡◌, ◌≢◌, ◌↔◌, ◌++◌, [], ◌∷◌, Some, slice_get, AllPairs, Contains, IsTrue, IsSome, IfSome, IfOk, OnOk};
ghost use Rattle.entry_tables.specs.Added.{IsAdded};

use indexmap::IndexSet;
use ports::Memory;
use std::alloc::Global;
use std::marker::Model;

/// Identifiers of actions, each once, in the order in which they were added. Each call but `of` takes constant time.
#[derive(Drop)]
pub struct IdSet {
    set: IndexSet<u64>,
}

impl Model for IdSet {
    ghost use Rattle.std.specs.Prelude.{ℕ, List};

    ghost Value = { List ℕ };

    ghost view = { λ s. s.set.keys };
}

impl IdSet {
    /// No identifier.
    pub fn new(alloc: Global) -> IdSet
        ensures { result ≡ [] }
    {
        IdSet {
            set: IndexSet::new(alloc),
        }
    }

    /// The set of distinct identifiers, in their order.
    ///
    /// # Errors
    ///
    /// `Memory` where an allocation fails.
    pub fn of(alloc: Global, ids: &[u64]) -> Result<IdSet, Memory>
        requires { AllPairs (λ m n. m ≢ n) ids.now }
        ensures { IfOk result (λ set. set ≡ ids.now) }
    {
        let mut set = IdSet::new(alloc);
        for id in ids {
            set.add(*id)?;
        }
        Ok(set)
    }

    /// Adds an identifier, and says whether it is new.
    ///
    /// # Errors
    ///
    /// `Memory` where an allocation fails.
    pub fn add(&mut self, id: u64) -> Result<bool, Memory>
        ensures new { IfOk result (λ added. IsTrue added ↔ (Contains self.old id → ⊥)) }
        ensures members { OnOk result (IsAdded self.old (Some id) self.new) }
        ensures last { OnOk result ((Contains self.old id → ⊥) → self.new ≡ self.old ++ id ∷ []) }
    {
        match self.set.insert_full(id) {
            Ok((_, added)) => Ok(added),
            Err(_) => Err(Memory),
        }
    }

    /// Adds an identifier, if there is one.
    ///
    /// # Errors
    ///
    /// `Memory` where an allocation fails.
    pub fn note(&mut self, id: Option<u64>) -> Result<(), Memory>
        ensures { OnOk result (IsAdded self.old id self.new) }
    {
        if let Some(id) = id {
            self.add(id)?;
        }
        Ok(())
    }

    /// Whether the identifier is there.
    pub fn has(&self, id: u64) -> bool
        ensures { IsTrue result ↔ Contains self.now id }
    {
        self.set.contains(&id)
    }

    /// The place of an identifier in the order of the set.
    pub fn place(&self, id: u64) -> Option<usize>
        ensures found { IfSome result (λ n. slice_get self.now n ≡ Some id) }
        ensures there { IsSome result ↔ Contains self.now id }
    {
        self.set.get_index_of(&id)
    }
}
