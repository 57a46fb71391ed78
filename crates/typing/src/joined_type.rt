//! What is known of a local on the paths to a place.

ghost use Rattle.std.specs.Prelude.{◌≡◌};
ghost use Rattle.typing.specs.Objects.{object_of};
ghost use Rattle.typing.specs.Joining.{Joins, JoinsLocal, joined_object, known, constructed_local};

use crate::object::Object;
use crate::stack::constructed;
use program::ValueType;

/// What is known of a local that has something on all paths.
#[derive(Clone, Copy, Debug, PartialEq, Eq)]
pub enum JoinedType {
    /// It has this type on all paths.
    Known(ValueType),
    /// It has this object on all paths; on some of them the constructor was called, and on others not.
    Made(Object),
}

/// The object, constructed or not, that has this type.
fn object_of(holds: ValueType) -> Option<Object>
    ensures { result ≡ object_of holds }
{
    match holds {
        ValueType::Fresh(thread) | ValueType::Thread(thread) => Some(Object::Thread(thread)),
        ValueType::FreshTarget(thread) | ValueType::Target(thread) => {
            Some(Object::Target(thread))
        }
        _ => None,
    }
}

/// The object that a local has.
fn joined_object(holds: JoinedType) -> Option<Object>
    ensures { result ≡ joined_object holds }
{
    match holds {
        JoinedType::Known(holds) => object_of(holds),
        JoinedType::Made(object) => Some(object),
    }
}

/// What is known of a local on the paths of two kinds.
fn join_types(a: JoinedType, b: JoinedType) -> Option<JoinedType>
    ensures { Joins a b result }
{
    if a == b {
        return Some(a);
    }
    match (joined_object(a), joined_object(b)) {
        (Some(object), Some(other)) if object == other => Some(JoinedType::Made(object)),
        _ => None,
    }
}

/// What is known of a local on the paths of two kinds, where something or nothing is known of it on each.
pub fn join_local(a: Option<JoinedType>, b: Option<JoinedType>) -> Option<JoinedType>
    ensures { JoinsLocal a b result }
{
    match (a, b) {
        (Some(a), Some(b)) => join_types(a, b),
        _ => None,
    }
}

/// The type that is known of a local.
pub fn known(holds: Option<JoinedType>) -> Option<ValueType>
    ensures { result ≡ known holds }
{
    match holds {
        Some(JoinedType::Known(holds)) => Some(holds),
        _ => None,
    }
}

/// What is known of a local behind the constructor's call of an object.
pub fn constructed_local(object: Object, holds: JoinedType) -> JoinedType
    ensures { result ≡ constructed_local object holds }
{
    match holds {
        JoinedType::Known(holds) => JoinedType::Known(constructed(object, holds)),
        JoinedType::Made(made) if object.same(made) => JoinedType::Known(made.made()),
        JoinedType::Made(made) => JoinedType::Made(made),
    }
}
