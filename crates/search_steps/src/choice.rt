//! Which literal is decided next.

ghost use Rattle.std.specs.Prelude.{◌≡◌, ◌*◌, ◌<◌, ◌≤◌, ◌^◌, ℕ, IfNone, IfSome};
ghost use Rattle.literals.specs.Literal.{variable_of};
ghost use Rattle.literals.specs.Propagation.{HasNoValueIn};
ghost use Rattle.clause_pool.specs.PoolValue.{IsIn};
ghost use Rattle.trail.specs.Steps.{literals_of};
ghost use Rattle.search_steps.specs.States.{AreWaiting, AreWaitingBut};

use decision_order::DecisionOrder;
use literals::{negative, positive};
use trail::{Trail, Value};

/// The literal of a variable that has this value.
fn literal_of(variable: u32, value: bool) -> u32
    requires { variable < 2 ^ 31 }
    ensures variable { variable_of result ≡ variable }
    ensures below { (count : ℕ) → variable < count → result < 2 * count }
{
    if value {
        positive(variable)
    } else {
        negative(variable)
    }
}

/// The literal to decide next: of the most active variable without a value, the one that was true last.
/// None where every variable has a value.
pub fn next_open(order: &mut DecisionOrder, trail: &Trail) -> Option<u32>
    requires waiting { AreWaiting trail.now.steps order.old }
    requires variables { order.old.variables ≡ trail.now.variables }
    requires few { trail.now.variables < 2 ^ 31 }
    ensures below { IfSome result (λ literal. literal < 2 * trail.now.variables) }
    ensures open_value { IfSome result (HasNoValueIn (literals_of trail.now.steps)) }
    ensures waiting { IfSome result (λ literal. AreWaitingBut trail.now.steps order.new (variable_of literal)) }
    ensures none { IfNone result (AreWaiting trail.now.steps order.new) }
    ensures empty { IfNone result ((variable : ℕ) → IsIn variable order.new.waiting → ⊥) }
    ensures variables { order.new.variables ≡ order.old.variables }
{
    while let Some(variable) = order.next() {
        let literal = literal_of(variable, order.phase(variable));
        if let Value::Open = trail.value(literal) {
            return Some(literal);
        }
    }
    None
}
