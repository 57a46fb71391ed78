//! Members of sets.

ghost use Rattle.std.specs.Prelude.{◌≡◌, ◌↔◌, IsTrue, Some, slice_get};

use action_orders::ActionRef;

/// Whether the two name one action.
pub fn same(a: &ActionRef, b: &ActionRef) -> bool
    ensures { IsTrue result ↔ (a.now ≡ b.now) }
{
    match (a, b) {
        (
            ActionRef::Default { class, name },
            ActionRef::Default {
                class: other_class,
                name: other_name,
            },
        ) => class.same(other_class) && name.same(other_name),
        (ActionRef::Id(id), ActionRef::Id(other)) => *id == *other,
        _ => false,
    }
}

/// Whether a member stands at this place of a set.
pub fn stands_at(set: &[ActionRef], at: usize, member: &ActionRef) -> bool
    ensures { IsTrue result ↔ (slice_get set.now at ≡ Some member.now) }
{
    match set.get(at) {
        Some(other) => same(other, member),
        None => false,
    }
}
