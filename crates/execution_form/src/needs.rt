//! What entries state, and what they need.

ghost use Rattle.std.specs.Prelude.{◌≡◌};
ghost use Rattle.execution_form.specs.Facts.{stated_given};
ghost use Rattle.execution_form.specs.Needs.{write_of, seen_of, seen_at, volatile_of, plain_of, sync_id};

use crate::fact::Fact;
use action_orders::{Action, ActionOperand, Entry, Note};
use program::Kind;

/// That an entry writes to a variable.
pub fn written<'a>(action: &'a Action) -> Option<Fact<'a>>
    ensures { stated_given result ≡ write_of action.now }
{
    match (action.kind, &action.operand) {
        (Kind::Write | Kind::VolatileWrite, ActionOperand::Variable { class, name }) => Some(
            Fact::Write {
                id: action.id,
                class: class.as_slice(),
                name: name.as_slice(),
            },
        ),
        _ => None,
    }
}

/// That there is the write that a note names, to the variable.
fn seen_write<'a>(operand: &'a ActionOperand, note: Note) -> Option<Fact<'a>>
    ensures { stated_given result ≡ seen_at operand.now note }
{
    match (operand, note) {
        (ActionOperand::Variable { class, name }, Note::Sees(Some(id))) => Some(Fact::Write {
            id,
            class: class.as_slice(),
            name: name.as_slice(),
        }),
        (ActionOperand::Variable { class, name }, Note::Sees(None)) => Some(Fact::Variable {
            class: class.as_slice(),
            name: name.as_slice(),
        }),
        _ => None,
    }
}

/// That there is the write that a read sees; the default write of a variable is there where the variable is.
pub fn seen<'a>(entry: &'a Entry) -> Option<Fact<'a>>
    ensures { stated_given result ≡ seen_of entry.now }
{
    match entry.action.kind {
        Kind::Read | Kind::VolatileRead => seen_write(&entry.action.operand, entry.note),
        _ => None,
    }
}

/// That the variable of a volatile action is volatile.
pub fn volatile<'a>(action: &'a Action) -> Option<Fact<'a>>
    ensures { stated_given result ≡ volatile_of action.now }
{
    match (action.kind, &action.operand) {
        (Kind::VolatileRead | Kind::VolatileWrite, ActionOperand::Variable { class, name }) => Some(
            Fact::Volatile {
                class: class.as_slice(),
                name: name.as_slice(),
            },
        ),
        _ => None,
    }
}

/// That the variable of an action that is not volatile is volatile, which may not be.
pub fn plain<'a>(action: &'a Action) -> Option<Fact<'a>>
    ensures { stated_given result ≡ plain_of action.now }
{
    match (action.kind, &action.operand) {
        (Kind::Read | Kind::Write, ActionOperand::Variable { class, name }) => Some(
            Fact::Volatile {
                class: class.as_slice(),
                name: name.as_slice(),
            },
        ),
        _ => None,
    }
}

/// The identifier of a synchronization action (JLS 17.4.2).
pub fn synchronizing(action: &Action) -> Option<u64>
    ensures { result ≡ sync_id action.now }
{
    match action.kind {
        Kind::Read | Kind::Write | Kind::Print => None,
        _ => Some(action.id),
    }
}
