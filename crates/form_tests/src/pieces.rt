//! A program, and pieces of executions.

ghost use Rattle.std.specs.Prelude.{◌≡◌, [], ◌∷◌, IfOk};
ghost use Rattle.action_orders.specs.declared.action.ActionOperand.TheVariants as operand;
ghost use Rattle.action_orders.specs.declared.action.Note.TheVariants as note;

use action_orders::{Action, ActionOperand, Entry, Note};
use program::{Kind, MethodId, Name, Program, Variable};
use std::test::Fail;

/// A name of one letter.
pub fn letter(rt: &HostRuntime, byte: u8) -> Result<Name, Fail>
    ensures { IfOk result (λ name. name ≡ byte ∷ []) }
{
    Ok(Name::copied(rt.alloc(), &[byte])?)
}

/// Two threads, the plain variable M.x, the volatile variable M.v, and the monitor M.
pub fn program(rt: &HostRuntime) -> Result<Program, Fail> {
    let mut program = Program::new(rt.alloc());
    program.add_variable(Variable {
        class: letter(rt, b'M')?,
        name: letter(rt, b'x')?,
        volatile: false,
    })?;
    program.add_variable(Variable {
        class: letter(rt, b'M')?,
        name: letter(rt, b'v')?,
        volatile: true,
    })?;
    program.add_monitor(letter(rt, b'M')?)?;
    program.add_thread(MethodId {
        class: 0,
        method: 0,
    })?;
    program.add_thread(MethodId {
        class: 1,
        method: 0,
    })?;
    Ok(program)
}

/// An action on nothing.
pub fn on_nothing(thread: u32, id: u64, kind: Kind) -> Entry
    ensures action { result.action ≡ record { thread = thread; id = id; kind = kind; operand = operand.Nothing } }
    ensures note { result.note ≡ note.Nothing }
{
    Entry {
        action: Action {
            thread,
            id,
            kind,
            operand: ActionOperand::Nothing,
        },
        note: Note::Nothing,
    }
}

/// An action of main on a thread.
pub fn on_thread(id: u64, kind: Kind, thread: u32) -> Entry
    ensures action { result.action ≡ record { thread = 0; id = id; kind = kind; operand = operand.Thread thread } }
    ensures note { result.note ≡ note.Nothing }
{
    Entry {
        action: Action {
            thread: 0,
            id,
            kind,
            operand: ActionOperand::Thread(thread),
        },
        note: Note::Nothing,
    }
}

/// Action 5 of main, on a monitor of one letter.
pub fn on_monitor(rt: &HostRuntime, kind: Kind, class: u8) -> Result<Entry, Fail>
    ensures { IfOk result (λ entry. entry ≡ record { action = record { thread = 0; id = 5; kind = kind; operand = operand.Monitor (class ∷ []) }; note = note.Nothing }) }
{
    let class = letter(rt, class)?;
    let action = Action {
        thread: 0,
        id: 5,
        kind,
        operand: ActionOperand::Monitor { class },
    };
    Ok(Entry {
        action,
        note: Note::Nothing,
    })
}

/// Action 5 of main, on a variable of M.
pub fn on_field(rt: &HostRuntime, kind: Kind, name: u8, note: Note) -> Result<Entry, Fail>
    ensures { IfOk result (λ entry. entry ≡ record { action = record { thread = 0; id = 5; kind = kind; operand = operand.Variable (77 ∷ []) (name ∷ []) }; note = note }) }
{
    let class = letter(rt, b'M')?;
    let name = letter(rt, name)?;
    let action = Action {
        thread: 0,
        id: 5,
        kind,
        operand: ActionOperand::Variable { class, name },
    };
    Ok(Entry { action, note })
}
