ghost use Rattle.std.specs.Prelude.{◌≡◌, [], ◌∷◌, ◌++◌, ◌<◌, ◌^◌, ◌↔◌, length, slice_get, All, IsSome, OnOk, OnErr, IfOk};
ghost use Rattle.std.specs.Option.{option_copied};

use crate::refusal::FormatRefusal;
use std::alloc::Global;
use std::marker::Model;

/// A list of numbers of 16 bits, as the indices of a class file are.
#[derive(Debug, Drop)]
pub struct Indices {
    numbers: Vec<u16>,
}

impl Model for Indices {
    ghost use Rattle.std.specs.Prelude.{List, ℕ, All, ◌<◌};

    ghost Value = { List ℕ };

    ghost view = { λ list. list.numbers.items };

    ghost invariant = { λ list. All (λ n. n < 65536) list.numbers.items };
}

impl Indices {
    /// The empty list. It takes no memory.
    pub fn new(alloc: Global) -> Indices
        ensures { result ≡ [] }
    {
        Indices {
            numbers: Vec::new(alloc),
        }
    }

    /// A copy of the numbers. The one refusal is want of memory.
    pub fn copied(alloc: Global, numbers: &[u16]) -> Result<Indices, FormatRefusal>
        ensures ok { IfOk result (λ list. list ≡ numbers.now) }
        ensures memory { OnErr result (result ≡ Err FormatRefusal.Memory) }
    {
        let numbers = Vec::from_slice(alloc, numbers).map_err(|_| FormatRefusal::Memory)?;
        Ok(Indices { numbers })
    }

    /// How many numbers there are.
    pub fn len(&self) -> usize
        ensures value { result ≡ length self.now }
        ensures small { result < 2 ^ 63 }
    {
        self.numbers.len()
    }

    /// The number at a place, from 0.
    pub fn get(&self, at: usize) -> Option<&u16>
        ensures value { option_copied result ≡ slice_get self.now at }
        ensures within { IsSome result ↔ (at < length self.now) }
    {
        self.numbers.get(at)
    }

    /// The numbers as a slice.
    pub fn as_slice(&self) -> &[u16]
        ensures value { result.now ≡ self.now }
        ensures numbers { All (λ n. n < 65536) self.now }
    {
        self.numbers.as_slice()
    }

    /// Adds the number at the end. The one refusal is want of memory.
    pub fn push(&mut self, item: u16) -> Result<(), FormatRefusal>
        ensures ok { OnOk result (self.new ≡ self.old ++ item ∷ []) }
        ensures err { OnErr result (self.new ≡ self.old) }
        ensures memory { OnErr result (result ≡ Err FormatRefusal.Memory) }
    {
        self.numbers.push(item).map_err(|_| FormatRefusal::Memory)
    }
}
