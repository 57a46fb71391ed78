//! Volatile variables by their places in a program's list of variables.

ghost use Rattle.std.specs.Prelude.{◌≡◌, ◌<◌, ◌≤◌, ◌+◌, ◌↔◌, ℕ, length, Contains, IsTrue, true, slice_index_or};
ghost use Rattle.relations.specs.Places.{StandsBefore};
ghost use Rattle.action_orders.specs.Actions.{var_of};
ghost use Rattle.orders.specs.Volatiles.{IsVolatileAt, IsVolatileFrom, volatile_vars};

use program::{Name, Variable};

/// Whether the variable at a place is volatile and has this name.
fn is_volatile(variables: &[Variable], at: usize, class: &Name, name: &Name) -> bool
    requires { at < length variables.now }
    ensures { IsTrue result ↔ IsVolatileAt variables.now at (record { class = class.now; name = name.now }) }
{
    let variable = &variables[at];
    if !variable.volatile {
        return false;
    }
    variable.class.same(class) && variable.name.same(name)
}

/// Whether a variable from a place on is volatile and has this name.
pub fn is_volatile_from(variables: &[Variable], from: usize, class: &Name, name: &Name) -> bool
    requires { from ≤ length variables.now }
    ensures { IsTrue result ↔ IsVolatileFrom variables.now from (record { class = class.now; name = name.now }) }
{
    for at in from..variables.len() {
        if is_volatile(variables, at, class, name) {
            return true;
        }
    }
    false
}

/// Whether the one volatile variable stands before the other.
pub fn stands_before(
    variables: &[Variable],
    class: &Name,
    name: &Name,
    later_class: &Name,
    later_name: &Name,
) -> bool
    ensures { IsTrue result ↔ StandsBefore (volatile_vars variables.now) (record { class = class.now; name = name.now }) (record { class = later_class.now; name = later_name.now }) }
{
    for at in 0..variables.len() {
        if is_volatile(variables, at, class, name)
            && is_volatile_from(variables, at + 1, later_class, later_name)
        {
            return true;
        }
    }
    false
}
