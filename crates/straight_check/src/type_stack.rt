//! The types on the operand stack along straight code (JVMS 6.5).

ghost use Rattle.std.specs.Prelude.{◌≡◌, ◌↔◌, [], ◌∷◌, IfOk, OnOk, IsTrue, MatchOption, length};
ghost use Rattle.program.specs.Straight.{IsNumbered, GoesOn};
ghost use Rattle.straight_check.specs.Telling.{TellsTop, TellsChange, TellsStep};
ghost use Rattle.opcodes.specs.declared.instruction.Instr.{Instr};

use opcodes::{Instr, Listed};
use ports::Memory;
use program::{Operand, StackType};
use std::alloc::Global;
use std::marker::Model;

/// The types of the operand stack, seen as a list from the top down.
#[derive(Debug, Drop)]
pub struct TypeStack {
    items: Vec<StackType>,
}

impl Model for TypeStack {
    ghost use Rattle.std.specs.Prelude.{List, reverse};
    ghost use Rattle.program.specs.declared.stack_type.StackType.{StackType};

    ghost Value = { List StackType };

    ghost view = { λ s. reverse s.items.items };
}

impl TypeStack {
    /// An empty stack.
    pub fn new(alloc: Global) -> TypeStack
        ensures { result ≡ [] }
    {
        TypeStack {
            items: Vec::new(alloc),
        }
    }

    /// How many types there are.
    fn len(&self) -> usize
        ensures { result ≡ length self.now }
    {
        self.items.len()
    }

    /// Puts a type on top.
    fn push(&mut self, item: StackType) -> Result<(), Memory>
        ensures { OnOk result (self.new ≡ item ∷ self.old) }
    {
        self.items.push(item).map_err(|_| Memory)
    }

    /// Takes the top type.
    fn pop(&mut self) -> Option<StackType>
        ensures { MatchOption result (self.old ≡ []) (λ top. self.old ≡ top ∷ self.new) }
    {
        self.items.pop()
    }

    /// Takes the top type where it is the one that is wanted.
    fn take(&mut self, wanted: StackType) -> bool
        ensures { TellsTop self.old wanted self.new result }
    {
        match self.pop() {
            Some(top) => top == wanted,
            None => false,
        }
    }

    /// Does what a constant does.
    fn constant(&mut self, value: i32) -> Result<bool, Memory>
        ensures { IfOk result (λ fits. (instr : Instr) → TellsChange instr (Operand.Constant value) self.old self.new fits) }
    {
        self.push(StackType::Int)?;
        Ok(true)
    }

    /// Does what an access to a variable does.
    fn access(&mut self, instr: &Instr, variable: u32) -> Result<bool, Memory>
        ensures { IfOk result (TellsChange instr.now (Operand.Variable variable) self.old self.new) }
    {
        match instr {
            Instr::Getstatic { .. } => {
                self.push(StackType::Int)?;
                Ok(true)
            }
            Instr::Putstatic { .. } => Ok(self.take(StackType::Int)),
            _ => Ok(false),
        }
    }

    /// Does what a read of `System.out` does.
    fn read_out(&mut self, instr: &Instr) -> Result<bool, Memory>
        ensures { IfOk result (TellsChange instr.now Operand.Out self.old self.new) }
    {
        match instr {
            Instr::Getstatic { .. } => {
                self.push(StackType::Out)?;
                Ok(true)
            }
            _ => Ok(false),
        }
    }

    /// Takes what a call of `println` takes.
    fn print(&mut self) -> bool
        ensures { (instr : Instr) → TellsChange instr Operand.Print self.old self.new result }
    {
        self.take(StackType::Int) && self.take(StackType::Out)
    }

    /// Does what the instruction does; false where it doesn't fit the stack.
    fn change(&mut self, instr: &Instr, operand: &Operand) -> Result<bool, Memory>
        ensures { IfOk result (TellsChange instr.now operand.now self.old self.new) }
    {
        match operand {
            Operand::Constant(value) => self.constant(*value),
            Operand::Variable(variable) => self.access(instr, *variable),
            Operand::Out => self.read_out(instr),
            Operand::Print => Ok(self.print()),
            _ => Ok(false),
        }
    }

    /// Does what an instruction at this place does; false where it is no step of straight code.
    pub fn step(
        &mut self,
        limits: Limits,
        pc: u64,
        item: &Listed,
        operand: &Operand,
    ) -> Result<bool, Memory>
        ensures { IfOk result (TellsStep limits.variables limits.max_stack pc item.now operand.now self.old self.new) }
    {
        if u64::from(item.pc) != pc || !goes_on(&item.instr) || !is_numbered(limits, operand) {
            return Ok(false);
        }
        if !self.change(&item.instr, operand)? {
            return Ok(false);
        }
        if self.len() > limits.max_stack {
            return Ok(false);
        }
        Ok(true)
    }
}

/// How many variables there are, and how high the stack may be.
#[derive(Clone, Copy)]
pub struct Limits {
    pub variables: usize,
    pub max_stack: usize,
}

/// Whether the next instruction always comes next.
fn goes_on(instr: &Instr) -> bool
    ensures { IsTrue result ↔ GoesOn instr.now }
{
    instr.falls_through() && instr.jump().is_none()
}

/// Whether the variable that an instruction names, if it does, is one of those that there are.
fn is_numbered(limits: Limits, operand: &Operand) -> bool
    ensures { IsTrue result ↔ IsNumbered limits.variables operand.now }
{
    match operand {
        Operand::Variable(variable) => (*variable as usize) < limits.variables,
        _ => true,
    }
}
