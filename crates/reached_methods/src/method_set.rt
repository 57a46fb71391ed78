//! Sets of methods.

ghost use Rattle.std.specs.Prelude.{◌≡◌, ◌<◌, ◌↔◌, [], IsSome, OnOk, length, slice_get};
ghost use Rattle.reached_methods.specs.Exploring.{with_method};

use indexmap::IndexSet;
use ports::Memory;
use program::MethodId;
use std::alloc::Global;
use std::marker::Model;

/// A method, as a set keeps it.
#[derive(Clone, Copy, Debug, PartialEq, Eq, Hash)]
struct Key {
    class: u32,
    method: u32,
}

/// Methods, no two alike, in the order in which they came.
#[derive(Drop)]
pub struct MethodSet {
    keys: IndexSet<Key>,
}

impl Model for MethodSet {
    ghost use Rattle.std.specs.Prelude.{List, map};
    ghost use Rattle.program.specs.declared.method.MethodId.{MethodId};

    ghost Value = { List MethodId };

    ghost view = { λ set. map (λ key. record { class = key.class; method = key.method }) set.keys.keys };
}

impl MethodSet {
    /// No method.
    pub fn new(alloc: Global) -> MethodSet
        ensures { result ≡ [] }
    {
        MethodSet {
            keys: IndexSet::new(alloc),
        }
    }

    /// Adds a method at the end where it is new.
    pub fn add(&mut self, id: MethodId) -> Result<(), Memory>
        ensures { OnOk result (self.new ≡ with_method self.old id) }
    {
        let key = Key {
            class: id.class,
            method: id.method,
        };
        match self.keys.insert_full(key) {
            Ok(_) => Ok(()),
            Err(_) => Err(Memory),
        }
    }

    /// The method that came at this place.
    pub fn get(&self, at: usize) -> Option<MethodId>
        ensures { result ≡ slice_get self.now at }
    {
        let key = self.keys.get_index(at)?;
        Some(MethodId {
            class: key.class,
            method: key.method,
        })
    }
}
