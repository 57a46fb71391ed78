//! The values that a trail gives.

ghost use Rattle.std.specs.Prelude.{◌≡◌, ℕ, length, true};
ghost use Rattle.clause_pool.specs.PoolValue.{IsIn};
ghost use Rattle.literals.specs.Truth.{holds, values_of};
ghost use Rattle.trail.specs.Steps.{literals_of, IsSoundTrail};

use literals::{is_positive, variable};
use trail::Trail;
use var_names::Assignment;

/// Gives the variables of a trail's literals the values under which these are true.
pub fn assign_all(values: &mut Assignment, trail: &Trail)
    requires variables { length values.old ≡ trail.now.variables }
    requires sound { IsSoundTrail trail.now }
    ensures holds { (literal : ℕ) → IsIn literal (literals_of trail.now.steps) → holds (values_of values.new) literal ≡ true }
    ensures length { length values.new ≡ length values.old }
{
    for place in 0..trail.len() {
        let literal = trail.step(place).literal;
        values.set(variable(literal) as usize, is_positive(literal));
    }
}
