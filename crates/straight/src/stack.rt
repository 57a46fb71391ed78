//! The operand stack of straight code.

ghost use Rattle.std.specs.Prelude.{◌≡◌, ◌≢◌, [], ◌∷◌, OnOk, OnErr};

use crate::doing::StackItem;
use ports::Memory;
use std::alloc::Global;
use std::marker::Model;

/// A stack, seen as the list of its values from the top down.
#[derive(Debug, Drop)]
pub struct Stack {
    items: Vec<StackItem>,
}

impl Model for Stack {
    ghost use Rattle.std.specs.Prelude.{List, reverse};
    ghost use Rattle.straight.specs.declared.doing.StackItem.{StackItem};

    ghost Value = { List StackItem };

    ghost view = { λ s. reverse s.items.items };
}

impl Stack {
    /// An empty stack.
    pub fn new(alloc: Global) -> Stack
        ensures { result ≡ [] }
    {
        Stack {
            items: Vec::new(alloc),
        }
    }

    /// Puts a value on top. Where memory is short, the stack is unchanged.
    pub fn push(&mut self, item: StackItem) -> Result<(), Memory>
        ensures ok { OnOk result (self.new ≡ item ∷ self.old) }
        ensures err { OnErr result (self.new ≡ self.old) }
    {
        self.items.push(item).map_err(|_| Memory)
    }

    /// Takes the top value.
    pub fn pop(&mut self) -> StackItem
        requires { self.old ≢ [] }
        ensures { self.old ≡ result ∷ self.new }
    {
        self.items.pop().unwrap()
    }
}
