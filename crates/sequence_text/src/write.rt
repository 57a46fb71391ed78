//! The text of an execution with a sequence.

ghost use Rattle.std.specs.Prelude.{◌≡◌, codes};
ghost use Rattle.ports.specs.Faults.{HasCause};
ghost use Rattle.ports.specs.Growth.{PutsAll};
ghost use Rattle.sequence_text.specs.SequenceText.{action_head, kind_word, sequence_text, thread_line};

use crate::pieces::Piece;
use crate::text::{Text, put_each};
use action_orders::{
    Action, ActionOperand, ActionRef, Entry, Execution, Note, Sequence, SequenceStep, ThreadPart,
};
use ports::{Failed, Sink, put_all};
use program::Kind;

/// The word of a kind of action.
fn word_of(kind: Kind) -> &'static [u8]
    ensures { result.now ≡ kind_word kind }
{
    match kind {
        Kind::Read => b"read",
        Kind::Write => b"write",
        Kind::VolatileRead => b"vread",
        Kind::VolatileWrite => b"vwrite",
        Kind::Lock => b"lock",
        Kind::Unlock => b"unlock",
        Kind::First => b"first",
        Kind::Last => b"last",
        Kind::Start => b"start",
        Kind::Detect => b"detect",
        Kind::Print => b"print",
    }
}

impl Text for ActionOperand {
    ghost use Rattle.sequence_text.specs.SequenceText.{operand_text};

    ghost text = { operand_text };

    fn put<S: Sink>(&self, out: &mut S) -> Result<(), Failed> {
        match self {
            ActionOperand::Variable { class, name } => put_each(
                out,
                &[
                    Piece::Bytes(b" "),
                    Piece::Bytes(class.as_slice()),
                    Piece::Bytes(b"."),
                    Piece::Bytes(name.as_slice()),
                ],
            ),
            ActionOperand::Monitor { class } => put_each(
                out,
                &[Piece::Bytes(b" "), Piece::Bytes(class.as_slice())],
            ),
            ActionOperand::Thread(thread) => put_each(
                out,
                &[Piece::Bytes(b" "), Piece::Number(*thread as i128)],
            ),
            ActionOperand::Nothing => Ok(()),
        }
    }
}

impl Text for Note {
    ghost use Rattle.sequence_text.specs.SequenceText.{note_text};

    ghost text = { note_text };

    fn put<S: Sink>(&self, out: &mut S) -> Result<(), Failed> {
        match self {
            Note::Sees(Some(id)) => put_each(
                out,
                &[Piece::Bytes(b" "), Piece::Number(*id as i128)],
            ),
            Note::Sees(None) => put_all(out, b" -"),
            Note::Stores(value) => put_each(
                out,
                &[Piece::Bytes(b" "), Piece::Number(*value as i128)],
            ),
            Note::Nothing => Ok(()),
        }
    }
}

impl Text for u64 {
    ghost use Rattle.sequence_text.specs.SequenceText.{id_text};

    ghost text = { id_text };

    fn put<S: Sink>(&self, out: &mut S) -> Result<(), Failed> {
        put_each(out, &[Piece::Bytes(b" "), Piece::Number(*self as i128)])
    }
}

impl Text for ActionRef {
    ghost use Rattle.sequence_text.specs.SequenceText.{member_text};

    ghost text = { member_text };

    fn put<S: Sink>(&self, out: &mut S) -> Result<(), Failed> {
        match self {
            ActionRef::Default { class, name } => put_each(
                out,
                &[
                    Piece::Bytes(b" -"),
                    Piece::Bytes(class.as_slice()),
                    Piece::Bytes(b"."),
                    Piece::Bytes(name.as_slice()),
                ],
            ),
            ActionRef::Id(id) => id.put(out),
        }
    }
}

/// Puts an action's identifier and the word of its kind.
fn put_action_head<S: Sink>(out: &mut S, action: &Action) -> Result<(), Failed>
    ensures bytes { PutsAll (S.held out.old) (S.held out.new) result (action_head action.now) }
    ensures cause { HasCause (S.faults out.old) (S.faults out.new) result }
    ensures rest { S.same_rest out.old out.new }
{
    let head = [
        Piece::Bytes(b"a "),
        Piece::Number(action.id as i128),
        Piece::Bytes(b" "),
        Piece::Bytes(word_of(action.kind)),
    ];
    put_each(out, &head)
}

/// Puts the line that names a thread.
fn put_thread_line<S: Sink>(out: &mut S, thread: u32) -> Result<(), Failed>
    ensures bytes { PutsAll (S.held out.old) (S.held out.new) result (thread_line thread) }
    ensures cause { HasCause (S.faults out.old) (S.faults out.new) result }
    ensures rest { S.same_rest out.old out.new }
{
    let line = [
        Piece::Bytes(b"t "),
        Piece::Number(thread as i128),
        Piece::Bytes(b"\n"),
    ];
    put_each(out, &line)
}

impl Text for Entry {
    ghost use Rattle.sequence_text.specs.SequenceText.{entry_text};

    ghost text = { entry_text };

    fn put<S: Sink>(&self, out: &mut S) -> Result<(), Failed> {
        put_action_head(out, &self.action)?;
        self.action.operand.put(out)?;
        self.note.put(out)?;
        put_all(out, b"\n")
    }
}

impl Text for ThreadPart {
    ghost use Rattle.sequence_text.specs.SequenceText.{thread_text};

    ghost text = { thread_text };

    fn put<S: Sink>(&self, out: &mut S) -> Result<(), Failed> {
        put_thread_line(out, self.thread)?;
        put_each(out, self.entries.as_slice())
    }
}

impl Text for Execution {
    ghost use Rattle.sequence_text.specs.SequenceText.{body_text};

    ghost text = { body_text };

    fn put<S: Sink>(&self, out: &mut S) -> Result<(), Failed> {
        put_each(out, self.threads())?;
        put_all(out, b"so")?;
        put_each(out, self.so())?;
        put_all(out, b"\n")
    }
}

impl Text for SequenceStep {
    ghost use Rattle.sequence_text.specs.SequenceText.{step_text};

    ghost text = { step_text };

    fn put<S: Sink>(&self, out: &mut S) -> Result<(), Failed> {
        put_all(out, b"step\ncommit")?;
        put_each(out, self.set.as_slice())?;
        put_all(out, b"\n")?;
        self.execution.put(out)
    }
}

/// Puts the text of an execution with a sequence (docs/TEXTS.md, "Sequences"). It takes no memory. Where it failed, a
/// prefix of the text was put.
///
/// # Errors
/// `Failed` only where the sink's count of faults rose.
pub fn write_sequence<S: Sink>(
    out: &mut S,
    execution: &Execution,
    sequence: &Sequence,
) -> Result<(), Failed>
    ensures bytes { PutsAll (S.held out.old) (S.held out.new) result (sequence_text execution.now sequence.now) }
    ensures cause { HasCause (S.faults out.old) (S.faults out.new) result }
    ensures rest { S.same_rest out.old out.new }
{
    put_all(out, b"jmm-sequence 1\nexecution\n")?;
    execution.put(out)?;
    put_each(out, sequence.steps())?;
    put_all(out, b"end\n")
}
