//! Lists of entries and of names of actions.

ghost use Rattle.std.specs.Prelude.{◌≡◌, ◌<◌, ◌↔◌, ◌++◌, [], ◌∷◌, length, IsTrue, IsSome, OnOk, OnErr, slice_get};
ghost use Rattle.std.specs.Option.{option_copied};

use crate::action::{ActionRef, Entry};
use ports::Memory;
use std::alloc::Global;
use std::marker::Model;

/// The actions of one thread with their notes, in program order (JLS 17.4.3).
#[derive(Clone, Debug, Drop)]
pub struct Entries {
    items: Vec<Entry>,
}

impl Model for Entries {
    ghost use Rattle.std.specs.Prelude.{List};
    ghost use Rattle.action_orders.specs.declared.action.Entry.{Entry};

    ghost Value = { List Entry };

    ghost view = { λ list. list.items.items };
}

impl Entries {
    /// No entry.
    pub fn new(alloc: Global) -> Entries
        ensures { result ≡ [] }
    {
        Entries {
            items: Vec::new(alloc),
        }
    }

    /// Adds an entry at the end. Where memory is short, the list is unchanged.
    pub fn push(&mut self, item: Entry) -> Result<(), Memory>
        ensures ok { OnOk result (self.new ≡ self.old ++ item ∷ []) }
        ensures err { OnErr result (self.new ≡ self.old) }
    {
        self.items.push(item).map_err(|_| Memory)
    }

    /// How many entries there are.
    pub fn len(&self) -> usize
        ensures { result ≡ length self.now }
    {
        self.items.len()
    }

    /// Whether there is none.
    pub fn is_empty(&self) -> bool
        ensures { IsTrue result ↔ (self.now ≡ []) }
    {
        self.items.is_empty()
    }

    /// The entry at a place.
    pub fn get(&self, at: usize) -> Option<&Entry>
        ensures value { option_copied result ≡ slice_get self.now at }
        ensures within { IsSome result ↔ (at < length self.now) }
    {
        self.items.get(at)
    }

    /// The whole list.
    pub fn as_slice(&self) -> &[Entry]
        ensures { result.now ≡ self.now }
    {
        self.items.as_slice()
    }
}

/// A set of actions, as the increasing list of their names.
#[derive(Clone, Debug, Drop)]
pub struct ActionRefs {
    items: Vec<ActionRef>,
}

impl Model for ActionRefs {
    ghost use Rattle.std.specs.Prelude.{List};
    ghost use Rattle.action_orders.specs.declared.action.ActionRef.{ActionRef};

    ghost Value = { List ActionRef };

    ghost view = { λ list. list.items.items };
}

impl ActionRefs {
    /// No name.
    pub fn new(alloc: Global) -> ActionRefs
        ensures { result ≡ [] }
    {
        ActionRefs {
            items: Vec::new(alloc),
        }
    }

    /// Adds a name at the end. Where memory is short, the list is unchanged.
    pub fn push(&mut self, item: ActionRef) -> Result<(), Memory>
        ensures ok { OnOk result (self.new ≡ self.old ++ item ∷ []) }
        ensures err { OnErr result (self.new ≡ self.old) }
    {
        self.items.push(item).map_err(|_| Memory)
    }

    /// How many names there are.
    pub fn len(&self) -> usize
        ensures { result ≡ length self.now }
    {
        self.items.len()
    }

    /// Whether there is none.
    pub fn is_empty(&self) -> bool
        ensures { IsTrue result ↔ (self.now ≡ []) }
    {
        self.items.is_empty()
    }

    /// The name at a place.
    pub fn get(&self, at: usize) -> Option<&ActionRef>
        ensures value { option_copied result ≡ slice_get self.now at }
        ensures within { IsSome result ↔ (at < length self.now) }
    {
        self.items.get(at)
    }

    /// The whole list.
    pub fn as_slice(&self) -> &[ActionRef]
        ensures { result.now ≡ self.now }
    {
        self.items.as_slice()
    }
}
