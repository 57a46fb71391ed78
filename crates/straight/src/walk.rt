//! The walk along straight code, one instruction after the other.

ghost use Rattle.action_orders.specs.Execution.{FitsKind};
ghost use Rattle.program.specs.Program.{IsSpeltVariable};
ghost use Rattle.action_orders.specs.Spelling.{IsSpeltOperand};
ghost use Rattle.straight.specs.Meaning.{operand_of};
ghost use Rattle.std.specs.Prelude.{◌≡◌, ◌<◌, Some, length, slice_get, vec_len, IfOk, OnOk, ◌∷◌, ◌++◌, []};

use crate::doing::{Cell, Doing, StackItem};
use crate::stack::Stack;
use action_orders::{Action, ActionOperand, Entry, Execution, Note};
use line_text::Values;
use ports::Memory;
use program::{Kind, Program, Variable};
use std::alloc::Global;

/// Where the walk stands, and what it has met.
#[derive(Debug, Drop)]
pub struct Walk {
    pub stack: Stack,
    pub cells: Vec<Cell>,
    pub execution: Execution,
    pub printed: Values,
    pub ints: Values,
}

/// The variable with this number.
fn variable_of(program: &Program, number: u32) -> &Variable
    requires { number < length program.now.variables }
    ensures variable { slice_get program.now.variables number ≡ Some result.now }
    ensures spelt { IsSpeltVariable result.now }
{
    &program.variables()[number as usize]
}

/// The operand of an action on the variable with this number.
fn operand_of(program: &Program, number: u32) -> Result<ActionOperand, Memory>
    requires { number < length program.now.variables }
    ensures operand { IfOk result (λ o. o ≡ operand_of program.now number) }
    ensures spelt { IfOk result IsSpeltOperand }
    ensures variable { IfOk result (λ o. FitsKind Kind.Read o × FitsKind Kind.Write o) }
{
    let variable = variable_of(program, number);
    let class = variable.class.duplicate()?;
    let name = variable.name.duplicate()?;
    Ok(ActionOperand::Variable { class, name })
}

impl Walk {
    ghost use Rattle.straight.specs.Walk.{IsReady, Walked, IsAlone, HasInt, HasIntOnOut, state_of};
    ghost use Rattle.straight.specs.Meaning.{cell_of};
    ghost use Rattle.program.specs.Program.{Prog};

    /// Takes the int on top of the stack.
    fn pop_int(&mut self) -> i32
        requires { HasInt self.old.stack }
        ensures taken { self.old.stack ≡ StackItem.Int result ∷ self.new.stack }
        ensures rest { self.new ≡ record self.old { stack = self.new.stack } }
    {
        match self.stack.pop() {
            StackItem::Int(value) => value,
            StackItem::Out => unreachable!(),
        }
    }

    /// Pushes an int, and notes it.
    fn push_int(&mut self, value: i32) -> Result<(), Memory>
        ensures { OnOk result (self.new ≡ record self.old { stack = StackItem.Int value ∷ self.old.stack; ints = self.old.ints ++ value ∷ [] }) }
    {
        self.stack.push(StackItem::Int(value))?;
        self.ints.push(value)?;
        Ok(())
    }

    /// What is known of a variable.
    fn cell(&self, variable: u32) -> Cell
        requires { variable < vec_len self.now.cells }
        ensures { result ≡ cell_of (state_of self.now) variable }
    {
        self.cells[variable as usize]
    }

    /// A read of a variable.
    fn read(&mut self, program: &Program, id: u64, variable: u32) -> Result<(), Memory>
        requires numbered { variable < length program.now.variables }
        requires cells { vec_len self.old.cells ≡ length program.now.variables }
        requires alone { IsAlone self.old.execution }
        ensures { OnOk result (Walked program.now id (Doing.Read variable) self.old self.new) }
    {
        let cell = self.cell(variable);
        let operand = operand_of(program, variable)?;
        let action = Action {
            thread: 0,
            id,
            kind: Kind::Read,
            operand,
        };
        self.execution.entry(Entry {
            action,
            note: Note::Sees(cell.seen),
        })?;
        self.push_int(cell.value)?;
        Ok(())
    }

    /// A write of the int on top of the stack to a variable.
    fn write(&mut self, program: &Program, id: u64, variable: u32) -> Result<(), Memory>
        requires numbered { variable < length program.now.variables }
        requires cells { vec_len self.old.cells ≡ length program.now.variables }
        requires int { HasInt self.old.stack }
        requires alone { IsAlone self.old.execution }
        ensures { OnOk result (Walked program.now id (Doing.Write variable) self.old self.new) }
    {
        let value = self.pop_int();
        let operand = operand_of(program, variable)?;
        let action = Action {
            thread: 0,
            id,
            kind: Kind::Write,
            operand,
        };
        self.execution.entry(Entry {
            action,
            note: Note::Stores(value),
        })?;
        self.cells[variable as usize] = Cell {
            seen: Some(id),
            value,
        };
        self.ints.push(value)?;
        Ok(())
    }

    /// A print of the int on top of the stack, with the object below it.
    fn print(&mut self, id: u64) -> Result<(), Memory>
        requires items { HasIntOnOut self.old.stack }
        requires alone { IsAlone self.old.execution }
        ensures { OnOk result ((p : Prog) → Walked p id Doing.Print self.old self.new) }
    {
        let value = self.pop_int();
        let _object = self.stack.pop();
        let action = Action {
            thread: 0,
            id,
            kind: Kind::Print,
            operand: ActionOperand::Nothing,
        };
        self.execution.entry(Entry {
            action,
            note: Note::Nothing,
        })?;
        self.printed.push(value)?;
        Ok(())
    }

    /// One instruction.
    pub fn execute(&mut self, program: &Program, id: u64, doing: Doing) -> Result<(), Memory>
        requires ready { IsReady (length program.now.variables) self.old.stack doing }
        requires cells { vec_len self.old.cells ≡ length program.now.variables }
        requires alone { IsAlone self.old.execution }
        ensures { OnOk result (Walked program.now id doing self.old self.new) }
    {
        match doing {
            Doing::Push(value) => self.push_int(value),
            Doing::Read(variable) => self.read(program, id, variable),
            Doing::Write(variable) => self.write(program, id, variable),
            Doing::PushOut => self.stack.push(StackItem::Out),
            Doing::Print => self.print(id),
            Doing::Nothing => Ok(()),
        }
    }
}
