//! Truth under an assignment.

ghost use Rattle.std.specs.Prelude.{◌≡◌, ◌*◌, ◌<◌, ◌↔◌, All, length, IsTrue};
ghost use Rattle.literals.specs.Truth.{values_of, IsTrueClause};
ghost use Rattle.literals.specs.Truth.{holds as holds_under};

use crate::literal::{is_positive, variable};

/// Whether a literal is true under the values of the variables.
#[tactic(auto, unfolding(crate::specs::Truth::holds))]
pub fn holds(values: &[bool], literal: u32) -> bool
    requires { literal < 2 * length values.now }
    ensures { result ≡ holds_under (values_of values.now) literal }
{
    let value = values[variable(literal) as usize];
    if is_positive(literal) { value } else { !value }
}

/// Whether a clause is true under the values of the variables.
pub fn is_true(values: &[bool], clause: &[u32]) -> bool
    requires { All (λ literal. literal < 2 * length values.now) clause.now }
    ensures { IsTrue result ↔ IsTrueClause (values_of values.now) clause.now }
{
    for literal in clause {
        if holds(values, *literal) {
            return true;
        }
    }
    false
}
