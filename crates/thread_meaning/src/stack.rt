//! The operand stack of a frame.

ghost use Rattle.std.specs.Prelude.{◌≡◌, [], ◌∷◌, Some, None, IfOk, IfErr, OnOk};
ghost use Rattle.thread_meaning.specs.Changes.{value_on, int_on, monitor_on, object_on, target_on, below_out, AreArguments, CannotTake};

use crate::end::TraceEnd;
use crate::value::Value;
use std::alloc::Global;
use std::marker::Model;

/// A stack, seen as the list of its values from the top down.
#[derive(Debug, Drop)]
pub struct Stack {
    items: Vec<Value>,
}

impl Model for Stack {
    ghost use Rattle.std.specs.Prelude.{List, reverse};
    ghost use Rattle.program.specs.Step.{JavaValue};

    ghost Value = { List JavaValue };

    ghost view = { λ s. reverse s.items.items };
}

impl Stack {
    /// An empty stack.
    pub fn new(alloc: Global) -> Stack
        ensures { result ≡ [] }
    {
        Stack {
            items: Vec::new(alloc),
        }
    }

    /// Puts a value on top.
    pub fn push(&mut self, item: Value) -> Result<(), TraceEnd>
        ensures ok { OnOk result (self.new ≡ item ∷ self.old) }
        ensures err { IfErr result (λ e. e ≡ TraceEnd.Memory) }
    {
        self.items.push(item).map_err(|_| TraceEnd::Memory)
    }

    /// Takes the top value.
    pub fn pop(&mut self) -> Result<Value, TraceEnd>
        ensures ok { IfOk result (λ value. value_on self.old ≡ Some (record { top = value; rest = self.new })) }
        ensures err { IfErr result (λ e. (e ≡ TraceEnd.NotLinked) × (value_on self.old ≡ None)) }
    {
        self.items.pop().ok_or(TraceEnd::NotLinked)
    }

    /// Takes the int on top.
    pub fn pop_int(&mut self) -> Result<i32, TraceEnd>
        ensures ok { IfOk result (λ n. int_on self.old ≡ Some (record { top = n; rest = self.new })) }
        ensures err { IfErr result (λ e. (e ≡ TraceEnd.NotLinked) × (int_on self.old ≡ None)) }
    {
        self.pop()?.as_int().ok_or(TraceEnd::NotLinked)
    }

    /// Takes the class object of a monitor on top.
    pub fn pop_monitor(&mut self) -> Result<u32, TraceEnd>
        ensures ok { IfOk result (λ m. monitor_on self.old ≡ Some (record { top = m; rest = self.new })) }
        ensures err { IfErr result (λ e. (e ≡ TraceEnd.NotLinked) × (monitor_on self.old ≡ None)) }
    {
        self.pop()?.as_monitor().ok_or(TraceEnd::NotLinked)
    }

    /// Takes the object of a thread on top.
    pub fn pop_object(&mut self) -> Result<u32, TraceEnd>
        ensures ok { IfOk result (λ k. object_on self.old ≡ Some (record { top = k; rest = self.new })) }
        ensures err { IfErr result (λ e. (e ≡ TraceEnd.NotLinked) × (object_on self.old ≡ None)) }
    {
        self.pop()?.as_object().ok_or(TraceEnd::NotLinked)
    }

    /// Takes the target of a thread on top.
    pub fn pop_target(&mut self) -> Result<u32, TraceEnd>
        ensures ok { IfOk result (λ k. target_on self.old ≡ Some (record { top = k; rest = self.new })) }
        ensures err { IfErr result (λ e. (e ≡ TraceEnd.NotLinked) × (target_on self.old ≡ None)) }
    {
        self.pop()?.as_target().ok_or(TraceEnd::NotLinked)
    }

    /// Takes this many values as arguments of a method, the first of them being the lowest.
    pub fn pop_arguments(
        &mut self,
        alloc: Global,
        count: u32,
    ) -> Result<Vec<Option<Value>>, TraceEnd>
        ensures ok { IfOk result (λ locals. AreArguments count locals.items self.old self.new) }
        ensures err { IfErr result (CannotTake count self.old) }
    {
        let mut locals = Vec::new(alloc);
        for _ in 0..count {
            let value = self.pop()?;
            locals.push(Some(value)).map_err(|_| TraceEnd::Memory)?;
        }
        locals.reverse();
        Ok(locals)
    }

    /// Takes the object of `System.out` on top.
    pub fn pop_out(&mut self) -> Result<(), TraceEnd>
        ensures ok { IfOk result (λ _. below_out self.old ≡ Some self.new) }
        ensures err { IfErr result (λ e. (e ≡ TraceEnd.NotLinked) × (below_out self.old ≡ None)) }
    {
        if self.pop()?.is_out() {
            Ok(())
        } else {
            Err(TraceEnd::NotLinked)
        }
    }
}
