//! Objects that are made first and constructed then.

ghost use Rattle.std.specs.Prelude.{◌≡◌};
ghost use Rattle.typing.specs.Objects.{fresh_of, made_of, same_object};

use program::ValueType;

/// An object that a `new` makes and a constructor's call completes.
#[derive(Clone, Copy, Debug, PartialEq, Eq)]
pub enum Object {
    /// The object of the thread with this number.
    Thread(u32),
    /// The target of the thread with this number.
    Target(u32),
}

impl Object {
    /// Its type before the constructor's call.
    pub fn fresh(self) -> ValueType
        ensures { result ≡ fresh_of self }
    {
        match self {
            Object::Thread(thread) => ValueType::Fresh(thread),
            Object::Target(thread) => ValueType::FreshTarget(thread),
        }
    }

    /// Its type behind the constructor's call.
    pub fn made(self) -> ValueType
        ensures { result ≡ made_of self }
    {
        match self {
            Object::Thread(thread) => ValueType::Thread(thread),
            Object::Target(thread) => ValueType::Target(thread),
        }
    }

    /// Whether both are the same.
    pub fn same(self, other: Object) -> bool
        ensures { result ≡ same_object self other }
    {
        match (self, other) {
            (Object::Thread(a), Object::Thread(b)) => a == b,
            (Object::Target(a), Object::Target(b)) => a == b,
            _ => false,
        }
    }
}
