//! The names of the default writes, in order.

ghost use Rattle.std.specs.Prelude.{◌≡◌, ◌≤◌, ◌<◌, ◌↔◌, ℕ, length, slice_index_or, IsTrue, IfOk, OnOk};
ghost use Rattle.straight_sequence.specs.Defaults.{AreDefaultsInOrder, Inserts, default_of};
ghost use Rattle.action_orders.specs.Sequence.{IsBelow};
ghost use Rattle.program.specs.Straight.{AreApart};

use crate::order::is_name_below;
use action_orders::ActionRef;
use ports::Memory;
use program::{Program, Variable};
use std::alloc::Global;

/// Whether one member stands before another in a set (docs/TEXTS.md, "Sequences").
pub fn is_below(member: &ActionRef, other: &ActionRef) -> bool
    ensures { IsTrue result ↔ IsBelow member.now other.now }
{
    match (member, other) {
        (
            ActionRef::Default { class, name },
            ActionRef::Default {
                class: other_class,
                name: other_name,
            },
        ) => {
            is_name_below(class, other_class)
                || class.same(other_class) && is_name_below(name, other_name)
        }
        (ActionRef::Default { .. }, ActionRef::Id(_)) => true,
        (ActionRef::Id(_), ActionRef::Default { .. }) => false,
        (ActionRef::Id(id), ActionRef::Id(other_id)) => id < other_id,
    }
}

/// The first place whose member does not stand before this one, or the number of members.
pub fn place_among(members: &[ActionRef], member: &ActionRef) -> usize
    ensures within { result ≤ length members.now }
    ensures before { (k : ℕ) (d : ActionRef) → k < result → IsBelow (slice_index_or members.now k d) member.now }
    ensures there { (d : ActionRef) → result < length members.now → IsBelow (slice_index_or members.now result d) member.now → ⊥ }
{
    for (i, other) in members.iter().enumerate() {
        if !is_below(other, member) {
            return i;
        }
    }
    members.len()
}

/// The name of a variable's default write.
fn default_of(variable: &Variable) -> Result<ActionRef, Memory>
    ensures { IfOk result (λ member. member ≡ default_of variable.now) }
{
    let class = variable.class.duplicate()?;
    let name = variable.name.duplicate()?;
    Ok(ActionRef::Default { class, name })
}

/// Puts a member before the first that does not stand before it.
fn insert(members: &mut Vec<ActionRef>, member: ActionRef) -> Result<(), Memory>
    ensures { OnOk result (Inserts member members.old.items members.new.items) }
{
    let place = place_among(members.as_slice(), &member);
    members.insert(place, member).map_err(|_| Memory)
}

/// The names of the default writes of all variables, in increasing order.
pub fn default_writes(alloc: Global, program: &Program) -> Result<Vec<ActionRef>, Memory>
    requires { AreApart program.now.variables }
    ensures { IfOk result (λ members. AreDefaultsInOrder program.now members.items) }
{
    let mut members = Vec::new(alloc);
    for variable in program.variables() {
        let member = default_of(variable)?;
        insert(&mut members, member)?;
    }
    Ok(members)
}
