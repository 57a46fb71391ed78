//! A whole text, and a sink that fails within one.

ghost use Rattle.std.specs.Prelude.{◌≡◌, [], ◌∷◌, IfOk};
ghost use Rattle.action_orders.specs.declared.action.ActionOperand.TheVariants as operand;
ghost use Rattle.action_orders.specs.declared.action.Note.TheVariants as note;

use action_orders::{Action, ActionOperand, ActionRef, Entry, Execution, Note, Sequence};
use ports::{Failed, MemorySink};
use program::{Kind, Name};
use sequence_text::write_sequence;
use std::test::Fail;

/// main alone, which prints once.
const PRINTS_ONCE: &str = "jmm-sequence 1
execution
t 0
a 0 first
a 3 print
a 5 last
so 0 5
step
commit 0 3 5
t 0
a 0 first
a 3 print
a 5 last
so 0 5
end
";

/// An action of thread 0 on nothing.
fn on_nothing(id: u64, kind: Kind) -> Entry
    ensures action { result.action ≡ record { thread = 0; id = id; kind = kind; operand = operand.Nothing } }
    ensures note { result.note ≡ note.Nothing }
{
    Entry {
        action: Action {
            thread: 0,
            id,
            kind,
            operand: ActionOperand::Nothing,
        },
        note: Note::Nothing,
    }
}

fn prints_once(rt: &HostRuntime) -> Result<Execution, Fail> {
    let mut execution = Execution::new(rt.alloc());
    execution.thread(0)?;
    execution.entry(on_nothing(0, Kind::First))?;
    execution.entry(on_nothing(3, Kind::Print))?;
    execution.entry(on_nothing(5, Kind::Last))?;
    execution.order(0)?;
    execution.order(5)?;
    Ok(execution)
}

#[test]
fn texts(rt: HostRuntime) -> Result<(), Fail> {
    let execution = prints_once(&rt)?;
    let mut sequence = Sequence::new(rt.alloc());
    sequence.step(prints_once(&rt)?)?;
    sequence.commit(ActionRef::Id(0))?;
    sequence.commit(ActionRef::Id(3))?;
    sequence.commit(ActionRef::Id(5))?;
    let mut sink = MemorySink::open(rt.alloc(), 200, Vec::new(rt.alloc()))?;
    assert_eq!(rt; write_sequence(&mut sink, &execution, &sequence), Ok(()));
    assert_eq!(rt; sink.bytes(), PRINTS_ONCE.as_bytes());
    let mut short = MemorySink::open(rt.alloc(), 30, Vec::new(rt.alloc()))?;
    assert_eq!(rt;
        write_sequence(&mut short, &execution, &sequence),
        Err(Failed)
    );
    assert_eq!(rt; Some(short.bytes()), PRINTS_ONCE.as_bytes().get(..30));
    Ok(())
}

/// Thread 1 alone, which writes a field and reads it, once as a volatile one and once its default write.
const FIELDS: &str = "jmm-sequence 1
execution
t 1
a 10 first
a 12 write M.x -7
a 13 vread M.x 12
a 14 read M.x -
a 18446744073709551615 last
so 10 13 18446744073709551615
step
commit -M.x 12
t 1
a 10 first
a 12 write M.x -7
a 13 vread M.x 12
a 14 read M.x -
a 18446744073709551615 last
so 10 13 18446744073709551615
end
";

/// An action of thread 1 on M.x.
fn on_field(rt: &HostRuntime, id: u64, kind: Kind, note: Note) -> Result<Entry, Fail>
    ensures { IfOk result (λ entry. entry ≡ record { action = record { thread = 1; id = id; kind = kind; operand = operand.Variable (77 ∷ []) (120 ∷ []) }; note = note }) }
{
    let class = Name::copied(rt.alloc(), b"M")?;
    let name = Name::copied(rt.alloc(), b"x")?;
    let action = Action {
        thread: 1,
        id,
        kind,
        operand: ActionOperand::Variable { class, name },
    };
    Ok(Entry { action, note })
}

/// An action of thread 1 on nothing.
fn of_thread_1(id: u64, kind: Kind) -> Entry
    ensures action { result.action ≡ record { thread = 1; id = id; kind = kind; operand = operand.Nothing } }
    ensures note { result.note ≡ note.Nothing }
{
    let Entry { mut action, note } = on_nothing(id, kind);
    action.thread = 1;
    Entry { action, note }
}

fn reads_field(rt: &HostRuntime) -> Result<Execution, Fail> {
    let mut execution = Execution::new(rt.alloc());
    execution.thread(1)?;
    execution.entry(of_thread_1(10, Kind::First))?;
    execution.entry(on_field(rt, 12, Kind::Write, Note::Stores(-7))?)?;
    execution.entry(on_field(rt, 13, Kind::VolatileRead, Note::Sees(Some(12)))?)?;
    execution.entry(on_field(rt, 14, Kind::Read, Note::Sees(None))?)?;
    execution.entry(of_thread_1(u64::MAX, Kind::Last))?;
    execution.order(10)?;
    execution.order(13)?;
    execution.order(u64::MAX)?;
    Ok(execution)
}

#[test]
fn fields(rt: HostRuntime) -> Result<(), Fail> {
    let execution = reads_field(&rt)?;
    let mut sequence = Sequence::new(rt.alloc());
    sequence.step(reads_field(&rt)?)?;
    let class = Name::copied(rt.alloc(), b"M")?;
    let name = Name::copied(rt.alloc(), b"x")?;
    sequence.commit(ActionRef::Default { class, name })?;
    sequence.commit(ActionRef::Id(12))?;
    let mut sink = MemorySink::open(rt.alloc(), 500, Vec::new(rt.alloc()))?;
    assert_eq!(rt; write_sequence(&mut sink, &execution, &sequence), Ok(()));
    assert_eq!(rt; sink.bytes(), FIELDS.as_bytes());
    Ok(())
}
