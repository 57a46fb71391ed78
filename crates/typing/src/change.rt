//! What an instruction changes in a frame besides the stack.

ghost use Rattle.std.specs.Prelude.{◌≡◌};

use crate::object::Object;
use program::ValueType;

/// What becomes of the locals.
#[derive(Clone, Copy, Debug, PartialEq, Eq)]
pub enum LocalChange {
    /// Nothing.
    Stays,
    /// A local takes a type.
    Stores { slot: u32, holds: ValueType },
    /// The constructor of an object was called.
    Constructs(Object),
}

/// What becomes of the monitors that are held.
#[derive(Clone, Copy, Debug, PartialEq, Eq)]
pub enum HeldChange {
    /// Nothing.
    Stays,
    /// A monitor is entered once more.
    Enters(u32),
    /// A monitor is left once.
    Leaves(u32),
}

/// What becomes of the threads.
#[derive(Clone, Copy, Debug, PartialEq, Eq)]
pub enum ThreadChange {
    /// Nothing.
    Stays,
    /// A thread's object is made.
    Makes(u32),
    /// Its constructor is called.
    Readies(u32),
    /// It is started.
    Starts(u32),
    /// Its end is waited for.
    Joins(u32),
    /// It is asked whether it is alive.
    Asks(u32),
}

/// What an instruction changes besides the stack.
#[derive(Clone, Copy, Debug, PartialEq, Eq)]
pub struct Changed {
    pub local: LocalChange,
    pub held: HeldChange,
    pub thread: ThreadChange,
}

/// Why an instruction changes nothing.
#[derive(Clone, Copy, Debug, PartialEq, Eq)]
pub enum Misfit {
    /// The operands or the loaded local are not what it takes.
    Operands,
    /// A monitor instruction finds no class object.
    NoLock,
    /// There is not enough memory.
    Memory,
}

impl Changed {
    /// Nothing but the stack changes.
    pub fn nothing() -> Changed
        ensures { result ≡ record { local = LocalChange.Stays; held = HeldChange.Stays; thread = ThreadChange.Stays } }
    {
        Changed {
            local: LocalChange::Stays,
            held: HeldChange::Stays,
            thread: ThreadChange::Stays,
        }
    }

    /// A local changes.
    pub fn in_local(local: LocalChange) -> Changed
        ensures { result ≡ record { local = local; held = HeldChange.Stays; thread = ThreadChange.Stays } }
    {
        Changed {
            local,
            held: HeldChange::Stays,
            thread: ThreadChange::Stays,
        }
    }

    /// The monitors that are held change.
    pub fn in_held(held: HeldChange) -> Changed
        ensures { result ≡ record { local = LocalChange.Stays; held = held; thread = ThreadChange.Stays } }
    {
        Changed {
            local: LocalChange::Stays,
            held,
            thread: ThreadChange::Stays,
        }
    }

    /// A thread changes.
    pub fn in_thread(thread: ThreadChange) -> Changed
        ensures { result ≡ record { local = LocalChange.Stays; held = HeldChange.Stays; thread = thread } }
    {
        Changed {
            local: LocalChange::Stays,
            held: HeldChange::Stays,
            thread,
        }
    }
}
