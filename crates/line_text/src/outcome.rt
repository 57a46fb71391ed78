ghost use Rattle.std.specs.Prelude.{◌++◌, ◌<◌, ◌≡◌, ◌↔◌, [], ◌∷◌, IsSome, IsTrue, length, OnErr, OnOk, slice_get};
ghost use Rattle.std.specs.Option.{option_copied};
ghost use Rattle.line_text.specs.Ints.{AreInts};
ghost use Rattle.line_text.specs.Outcomes.{IsNextThread, IsOutcomeList, TakesValue, with_value};

use ports::Memory;
use std::alloc::Global;
use std::marker::Model;

/// A list of ints.
#[derive(Clone, Debug, Drop)]
pub struct Values {
    items: Vec<i32>,
}

impl Model for Values {
    ghost use Rattle.std.specs.Prelude.{List, ℤ};
    ghost use Rattle.line_text.specs.Ints.{AreInts};

    ghost Value = { List ℤ };

    ghost view = { λ values. values.items.items };

    ghost invariant = { λ values. AreInts values.items.items };
}

impl Values {
    /// An empty list.
    pub fn new(alloc: Global) -> Values
        ensures { result ≡ [] }
    {
        Values {
            items: Vec::new(alloc),
        }
    }

    /// Adds an int at the end.
    ///
    /// # Errors
    /// `Memory` where there is no room. Then nothing changed.
    pub fn push(&mut self, item: i32) -> Result<(), Memory>
        ensures ok { OnOk result (self.new ≡ self.old ++ item ∷ []) }
        ensures memory { OnErr result (self.new ≡ self.old) }
    {
        self.items.push(item).map_err(|_| Memory)
    }

    /// How many ints there are.
    pub fn len(&self) -> usize
        ensures len { result ≡ length self.now }
        ensures ints { AreInts self.now }
    {
        self.items.len()
    }

    /// The int at a place, or `None` exactly at or past the length.
    pub fn get(&self, at: usize) -> Option<&i32>
        ensures value { option_copied result ≡ slice_get self.now at }
        ensures within { IsSome result ↔ (at < length self.now) }
    {
        self.items.get(at)
    }

    /// All of them.
    pub fn as_slice(&self) -> &[i32]
        ensures value { result.now ≡ self.now }
        ensures ints { AreInts self.now }
    {
        self.items.as_slice()
    }

    /// Whether two lists have the same ints in the same order.
    pub fn same(&self, other: &Values) -> bool
        ensures { IsTrue result ↔ (self.now ≡ other.now) }
    {
        self.items.as_slice() == other.items.as_slice()
    }
}

/// One thread of an outcome, with the values that it prints in order.
#[derive(Debug, Drop)]
pub struct OutcomePart {
    pub thread: u32,
    pub values: Values,
}

/// An outcome: for some threads, the values that each prints. The threads increase strictly, and each has at most 65535
/// values.
#[derive(Debug, Drop)]
pub struct Outcome {
    parts: Vec<OutcomePart>,
}

impl Model for Outcome {
    ghost use Rattle.std.specs.Prelude.{List};
    ghost use Rattle.line_text.specs.declared.outcome.OutcomePart.{OutcomePart};
    ghost use Rattle.line_text.specs.Outcomes.{IsOutcomeList};

    ghost Value = { List OutcomePart };

    ghost view = { λ outcome. outcome.parts.items };

    ghost invariant = { λ outcome. IsOutcomeList outcome.parts.items };
}

impl Outcome {
    /// An outcome that names no thread.
    pub fn new(alloc: Global) -> Outcome
        ensures { result ≡ [] }
    {
        Outcome {
            parts: Vec::new(alloc),
        }
    }

    /// Names a thread, with no value yet, on condition that it is above the last one.
    ///
    /// # Errors
    /// `Memory` where there is no room. Then nothing changed.
    pub fn name(&mut self, thread: u32) -> Result<(), Memory>
        requires { IsNextThread self.old thread }
        ensures ok { OnOk result (self.new ≡ self.old ++ record { thread = thread; values = [] } ∷ []) }
        ensures memory { OnErr result (self.new ≡ self.old) }
    {
        let alloc = *self.parts.allocator();
        self.parts
            .push(OutcomePart {
                thread,
                values: Values::new(alloc),
            })
            .map_err(|_| Memory)
    }

    /// Adds a value to the last thread, on condition that there is one and that it has fewer than 65535 values.
    ///
    /// # Errors
    /// `Memory` where there is no room. Then nothing changed.
    pub fn value(&mut self, value: i32) -> Result<(), Memory>
        requires { TakesValue self.old }
        ensures ok { OnOk result (self.new ≡ with_value self.old value) }
        ensures memory { OnErr result (self.new ≡ self.old) }
    {
        let last = self.parts.len() - 1;
        let part = &mut self.parts[last];
        part.values.push(value)?;
        Ok(())
    }

    /// How many threads are named.
    pub fn len(&self) -> usize
        ensures len { result ≡ length self.now }
        ensures kept { IsOutcomeList self.now }
    {
        self.parts.len()
    }

    /// The part at a place, or `None` exactly at or past the length.
    pub fn get(&self, at: usize) -> Option<&OutcomePart>
        ensures value { option_copied result ≡ slice_get self.now at }
        ensures within { IsSome result ↔ (at < length self.now) }
    {
        self.parts.get(at)
    }
}
