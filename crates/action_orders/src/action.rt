//! Actions (JLS 17.4.2), with what an execution notes beside them.

ghost use Rattle.std.specs.Prelude.{◌≡◌, ◌↔◌, IsTrue};

use program::{Kind, Name};

/// What an action acts on.
#[derive(Clone, Debug, Drop)]
pub enum ActionOperand {
    /// A variable, by the name of its class and its own.
    Variable { class: Name, name: Name },
    /// A monitor, by the name of its class.
    Monitor { class: Name },
    /// A thread, by number.
    Thread(u32),
    /// Nothing: a first or last action, or a print.
    Nothing,
}

/// An action of a thread. Identifiers are any numbers, distinct within one execution.
#[derive(Clone, Debug, Drop)]
pub struct Action {
    pub thread: u32,
    pub id: u64,
    pub kind: Kind,
    pub operand: ActionOperand,
}

/// What an execution notes beside an action.
#[derive(Clone, Copy, Debug, PartialEq, Eq)]
pub enum Note {
    /// The write that a read sees, by its identifier; none is the default write.
    Sees(Option<u64>),
    /// The value that a write stores.
    Stores(i32),
    /// No other action has a note.
    Nothing,
}

/// An action with its note.
#[derive(Clone, Debug, Drop)]
pub struct Entry {
    pub action: Action,
    pub note: Note,
}

/// How a set names an action.
#[derive(Clone, Debug, Drop)]
pub enum ActionRef {
    /// The default write of a variable.
    Default { class: Name, name: Name },
    /// The action with this identifier.
    Id(u64),
}

impl ActionOperand {
    /// Whether the two are one operand.
    pub fn same(&self, other: &ActionOperand) -> bool
        ensures { IsTrue result ↔ (self.now ≡ other.now) }
    {
        match (self, other) {
            (
                ActionOperand::Variable { class, name },
                ActionOperand::Variable {
                    class: other_class,
                    name: other_name,
                },
            ) => class.same(other_class) && name.same(other_name),
            (ActionOperand::Monitor { class }, ActionOperand::Monitor { class: other_class }) =>
                class.same(other_class),
            (ActionOperand::Thread(thread), ActionOperand::Thread(other_thread)) => *thread
                == *other_thread,
            (ActionOperand::Nothing, ActionOperand::Nothing) => true,
            _ => false,
        }
    }
}

impl Action {
    /// Whether the two are one action: thread, identifier, kind and operand are equal.
    pub fn same(&self, other: &Action) -> bool
        ensures { IsTrue result ↔ (self.now ≡ other.now) }
    {
        self.thread == other.thread
            && self.id == other.id
            && self.kind == other.kind
            && self.operand.same(&other.operand)
    }
}
