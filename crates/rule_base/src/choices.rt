//! The numbers that were chosen for the numbers of a rule.

ghost use Rattle.std.specs.Prelude.{◌≡◌, ◌<◌, ◌≤◌, ◌^◌, [], ◌∷◌, ◌++◌, length};
ghost use Rattle.std.specs.Prelude.{slice_index};
ghost use Rattle.rule_base.specs.Choices.{PopsLast};

use std::marker::Model;

/// At most five numbers.
#[derive(Debug, Drop)]
pub struct Choices {
    items: [u32; 5],
    len: usize,
}

impl Model for Choices {
    ghost use Rattle.std.specs.Prelude.{List, ℕ, take, ◌≤◌};

    ghost Value = { List ℕ };

    ghost view = { λ choices. take choices.len choices.items };

    ghost invariant = { λ choices. choices.len ≤ 5 };
}

impl Choices {
    /// No number.
    pub fn new() -> Choices
        ensures { result ≡ [] }
    {
        Choices {
            items: [0, 0, 0, 0, 0],
            len: 0,
        }
    }

    /// One number.
    pub fn one(a: u32) -> Choices
        ensures { result ≡ a ∷ [] }
    {
        let mut choices = Choices::new();
        choices.push(a);
        choices
    }

    /// Two numbers.
    pub fn two(a: u32, b: u32) -> Choices
        ensures { result ≡ a ∷ b ∷ [] }
    {
        let mut choices = Choices::new();
        choices.push(a);
        choices.push(b);
        choices
    }

    /// How many numbers there are.
    pub fn len(&self) -> usize
        ensures value { result ≡ length self.now }
        ensures few { result ≤ 5 }
    {
        self.len
    }

    /// The number at a place, or 0 past the end.
    pub fn at(&self, place: usize) -> u32
        ensures { result ≡ slice_index self.now place }
    {
        if place < self.len {
            self.items[place]
        } else {
            0
        }
    }

    /// Adds a number at the end.
    pub fn push(&mut self, choice: u32)
        requires { length self.old < 5 }
        ensures { self.new ≡ self.old ++ choice ∷ [] }
    {
        self.items[self.len] = choice;
        self.len += 1;
    }

    /// The same numbers.
    pub fn copy(&self) -> Choices
        ensures { result ≡ self.now }
    {
        Choices {
            items: self.items,
            len: self.len,
        }
    }

    /// Takes the last number away.
    pub fn pop(&mut self) -> Option<u32>
        ensures { PopsLast self.old result self.new }
    {
        if self.len == 0 {
            return None;
        }
        self.len -= 1;
        Some(self.items[self.len])
    }
}
