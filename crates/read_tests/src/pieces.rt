//! A program, and pieces of executions.

ghost use Rattle.std.specs.Prelude.{◌≡◌, [], ◌∷◌, IfOk};
ghost use Rattle.action_orders.specs.Execution.{FitsKind, HasNote, IsEntryOf};
ghost use Rattle.action_orders.specs.Spelling.{IsSpeltEntry};
ghost use Rattle.action_orders.specs.declared.action.ActionOperand.TheVariants as operand;
ghost use Rattle.action_orders.specs.declared.action.Note.TheVariants as note;
ghost use Rattle.program.specs.Names.{IsName};

use action_orders::{Action, ActionOperand, Entry, Note};
use program::{Kind, MethodId, Name, Program, Variable};
use std::test::Fail;

/// A name of one letter.
pub fn letter(rt: &HostRuntime, byte: u8) -> Result<Name, Fail>
    ensures { IfOk result (λ name. name ≡ byte ∷ []) }
{
    Ok(Name::copied(rt.alloc(), &[byte])?)
}

/// Two threads, the plain variable M.x, and the volatile variable M.v.
pub fn program(rt: &HostRuntime) -> Result<Program, Fail> {
    let mut program = Program::new(rt.alloc());
    program.add_variable(Variable {
        class: letter(rt, b'M')?,
        name: letter(rt, b'x')?,
        volatile: false,
    })?;
    program.add_variable(Variable {
        class: letter(rt, b'M')?,
        name: letter(rt, b'v')?,
        volatile: true,
    })?;
    program.add_thread(MethodId {
        class: 0,
        method: 0,
    })?;
    program.add_thread(MethodId {
        class: 1,
        method: 0,
    })?;
    Ok(program)
}

/// An action on nothing.
pub fn on_nothing(thread: u32, id: u64, kind: Kind) -> Entry
    requires operand { FitsKind kind operand.Nothing }
    requires note { HasNote kind note.Nothing }
    ensures fits { IsEntryOf thread result }
    ensures spelt { IsSpeltEntry result }
{
    Entry {
        action: Action {
            thread,
            id,
            kind,
            operand: ActionOperand::Nothing,
        },
        note: Note::Nothing,
    }
}

/// The start of thread 1 by main.
pub fn start(id: u64) -> Entry
    ensures fits { IsEntryOf 0 result }
    ensures spelt { IsSpeltEntry result }
{
    Entry {
        action: Action {
            thread: 0,
            id,
            kind: Kind::Start,
            operand: ActionOperand::Thread(1),
        },
        note: Note::Nothing,
    }
}

/// An access to a variable of M.
pub fn on_field(
    rt: &HostRuntime,
    thread: u32,
    id: u64,
    kind: Kind,
    name: u8,
    note: Note,
) -> Result<Entry, Fail>
    requires operand { FitsKind kind (operand.Variable (77 ∷ []) (name ∷ [])) }
    requires note { HasNote kind note }
    requires class { IsName (77 ∷ []) }
    requires name { IsName (name ∷ []) }
    ensures fits { IfOk result (IsEntryOf thread) }
    ensures spelt { IfOk result IsSpeltEntry }
{
    let class = letter(rt, b'M')?;
    let name = letter(rt, name)?;
    let action = Action {
        thread,
        id,
        kind,
        operand: ActionOperand::Variable { class, name },
    };
    Ok(Entry { action, note })
}
