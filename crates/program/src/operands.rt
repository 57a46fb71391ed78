//! Lists of what instructions name.

ghost use Rattle.std.specs.Prelude.{◌≡◌, ◌<◌, ◌↔◌, ◌++◌, [], ◌∷◌, length, IsTrue, IsSome, OnOk, OnErr, slice_get};
ghost use Rattle.std.specs.Option.{option_copied};

use crate::method::Operand;
use ports::Memory;
use std::alloc::Global;
use std::marker::Model;

/// What the instructions of a listing name, in the order of the listing.
#[derive(Debug, Drop)]
pub struct Operands {
    items: Vec<Operand>,
}

impl Model for Operands {
    ghost use Rattle.std.specs.Prelude.{List};
    ghost use Rattle.program.specs.declared.method.Operand.{Operand};

    ghost Value = { List Operand };

    ghost view = { λ list. list.items.items };
}

impl Operands {
    /// No operand.
    pub fn new(alloc: Global) -> Operands
        ensures { result ≡ [] }
    {
        Operands {
            items: Vec::new(alloc),
        }
    }

    /// Adds an operand at the end. Where memory is short, the list is unchanged.
    pub fn push(&mut self, item: Operand) -> Result<(), Memory>
        ensures ok { OnOk result (self.new ≡ self.old ++ item ∷ []) }
        ensures err { OnErr result (self.new ≡ self.old) }
    {
        self.items.push(item).map_err(|_| Memory)
    }

    /// How many operands there are.
    pub fn len(&self) -> usize
        ensures { result ≡ length self.now }
    {
        self.items.len()
    }

    /// Whether there is none.
    pub fn is_empty(&self) -> bool
        ensures { IsTrue result ↔ (self.now ≡ []) }
    {
        self.items.is_empty()
    }

    /// The operand at a place.
    pub fn get(&self, at: usize) -> Option<&Operand>
        ensures value { option_copied result ≡ slice_get self.now at }
        ensures within { IsSome result ↔ (at < length self.now) }
    {
        self.items.get(at)
    }

    /// The whole list.
    pub fn as_slice(&self) -> &[Operand]
        ensures { result.now ≡ self.now }
    {
        self.items.as_slice()
    }
}
