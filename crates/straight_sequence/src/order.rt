//! The order of the members of a set.

ghost use Rattle.std.specs.Prelude.{◌↔◌, IsTrue};
ghost use Rattle.action_orders.specs.Sequence.{IsNameBelow};

use program::Name;
use std::cmp::Ordering;

/// Whether the bytes of a name are below those of another, a name before its extensions.
pub fn is_name_below(name: &Name, other: &Name) -> bool
    ensures { IsTrue result ↔ IsNameBelow name.now other.now }
{
    matches!(name.as_slice().cmp(other.as_slice()), Ordering::Less)
}
