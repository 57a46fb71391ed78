//! Executions of the programs, as rows say them.

ghost use Rattle.std.specs.Prelude.{◌≡◌, ◌<◌, ◌≤◌, ◌↔◌, None, IfOk, IfSome, IfNone, IsSomeAnd, IsTrue};
ghost use Rattle.action_orders.specs.Execution.{FitsKind, HasNote, IsEntryOf, last_part};
ghost use Rattle.action_orders.specs.Spelling.{IsSpeltEntry};
ghost use Rattle.program.specs.Names.{IsName};

use action_orders::{Action, ActionOperand, Entry, Execution, Note, ThreadPart};
use program::{Kind, Name};
use std::alloc::Global;
use std::process::Abort;
use std::test::Fail;

/// An action, without its thread and its identifier.
#[derive(Clone, Copy)]
pub enum Item {
    First,
    Last,
    /// Reads x and sees this write; none is the default write.
    Read(Option<u64>),
    /// Writes this value to x.
    Write(i32),
    Start(u32),
    Detect(u32),
    Print,
}

/// A thread, with its actions and their identifiers.
#[derive(Clone, Copy)]
pub struct Part {
    pub thread: u32,
    pub actions: &'static [(u64, Item)],
}

/// The threads, and the synchronization order.
#[derive(Clone, Copy)]
pub struct Written {
    pub parts: &'static [Part],
    pub so: &'static [u64],
}

/// An action on nothing.
fn on_nothing(thread: u32, id: u64, kind: Kind) -> Entry
    requires fits { FitsKind kind ActionOperand.Nothing }
    requires note { HasNote kind Note.Nothing }
    ensures own { IsEntryOf thread result }
    ensures spelt { IsSpeltEntry result }
{
    let action = Action {
        thread,
        id,
        kind,
        operand: ActionOperand::Nothing,
    };
    Entry {
        action,
        note: Note::Nothing,
    }
}

/// An action on a thread.
fn on_thread(thread: u32, id: u64, kind: Kind, other: u32) -> Entry
    requires fits { FitsKind kind (ActionOperand.Thread other) }
    requires note { HasNote kind Note.Nothing }
    requires few { other ≤ 7 }
    ensures own { IsEntryOf thread result }
    ensures spelt { IsSpeltEntry result }
{
    let action = Action {
        thread,
        id,
        kind,
        operand: ActionOperand::Thread(other),
    };
    Entry {
        action,
        note: Note::Nothing,
    }
}

/// A name that can be written.
fn name(rt: &impl Abort, alloc: Global, bytes: &[u8]) -> Result<Name, Fail>
    ensures { IfOk result IsName }
{
    let name = Name::copied(alloc, bytes)?;
    assert!(rt; name.can_be_written());
    Ok(name)
}

/// A read of x.
fn read(
    rt: &impl Abort,
    alloc: Global,
    thread: u32,
    id: u64,
    write: Option<u64>,
) -> Result<Entry, Fail>
    ensures own { IfOk result (IsEntryOf thread) }
    ensures spelt { IfOk result IsSpeltEntry }
{
    let class = name(rt, alloc, b"M")?;
    let name = name(rt, alloc, b"x")?;
    let action = Action {
        thread,
        id,
        kind: Kind::Read,
        operand: ActionOperand::Variable { class, name },
    };
    Ok(Entry {
        action,
        note: Note::Sees(write),
    })
}

/// A write to x.
fn write(rt: &impl Abort, alloc: Global, thread: u32, id: u64, value: i32) -> Result<Entry, Fail>
    ensures own { IfOk result (IsEntryOf thread) }
    ensures spelt { IfOk result IsSpeltEntry }
{
    let class = name(rt, alloc, b"M")?;
    let name = name(rt, alloc, b"x")?;
    let action = Action {
        thread,
        id,
        kind: Kind::Write,
        operand: ActionOperand::Variable { class, name },
    };
    Ok(Entry {
        action,
        note: Note::Stores(value),
    })
}

/// The entry of an action.
fn entry(rt: &impl Abort, alloc: Global, thread: u32, id: u64, item: Item) -> Result<Entry, Fail>
    ensures own { IfOk result (IsEntryOf thread) }
    ensures spelt { IfOk result IsSpeltEntry }
{
    match item {
        Item::First => Ok(on_nothing(thread, id, Kind::First)),
        Item::Last => Ok(on_nothing(thread, id, Kind::Last)),
        Item::Print => Ok(on_nothing(thread, id, Kind::Print)),
        Item::Read(seen) => read(rt, alloc, thread, id, seen),
        Item::Write(value) => write(rt, alloc, thread, id, value),
        Item::Start(other) => {
            assert!(rt; other <= 7);
            Ok(on_thread(thread, id, Kind::Start, other))
        }
        Item::Detect(other) => {
            assert!(rt; other <= 7);
            Ok(on_thread(thread, id, Kind::Detect, other))
        }
    }
}

/// The number of the last thread.
fn last_thread(execution: &Execution) -> Option<u32>
    ensures some { IfSome result (λ k. IsSomeAnd (last_part execution.now) (λ t. t.thread ≡ k)) }
    ensures none { IfNone result (last_part execution.now ≡ None) }
{
    let parts: &[ThreadPart] = execution.threads();
    match parts.last() {
        Some(part) => Some(part.thread),
        None => None,
    }
}

/// Adds an action to the last thread.
fn add(
    rt: &impl Abort,
    alloc: Global,
    execution: &mut Execution,
    id: u64,
    item: Item,
) -> Result<(), Fail> {
    let Some(thread) = last_thread(execution) else {
        assert!(rt; false, "no thread");
        return Ok(());
    };
    let entry = entry(rt, alloc, thread, id, item)?;
    execution.entry(entry)?;
    Ok(())
}

/// Adds a thread behind those that are there.
fn add_thread(rt: &impl Abort, execution: &mut Execution, thread: u32) -> Result<(), Fail> {
    assert!(rt; thread <= 7);
    match last_thread(execution) {
        Some(last) => {
            assert!(rt; last < thread);
            execution.thread(thread)?;
        }
        None => execution.thread(thread)?,
    }
    Ok(())
}

/// The execution that a row says.
pub fn built(rt: &impl Abort, alloc: Global, written: &Written) -> Result<Execution, Fail> {
    let mut execution = Execution::new(alloc);
    for part in written.parts {
        add_thread(rt, &mut execution, part.thread)?;
        for (id, item) in part.actions {
            add(rt, alloc, &mut execution, *id, *item)?;
        }
    }
    for id in written.so {
        execution.order(*id)?;
    }
    Ok(execution)
}
