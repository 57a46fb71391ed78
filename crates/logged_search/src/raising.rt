//! Variables that a conflict met become more active.

ghost use Rattle.std.specs.Prelude.{◌≡◌, ◌*◌, ◌<◌, All, IsSome, length};
ghost use Rattle.clause_pool.specs.PoolValue.{clause_at};
ghost use Rattle.conflict_analysis.specs.Hints.{AreKnownHints};
ghost use Rattle.propagation.specs.Ready.{IsFit};
ghost use Rattle.logged_search.specs.Raised.{IsRaised};

use clause_pool::{ClauseRef, Pool};
use conflict_analysis::Hint;
use decision_order::DecisionOrder;
use literals::variable;
use trail::{Trail, Value};

/// Raises the variable of a literal.
fn raise(order: &mut DecisionOrder, literal: u32)
    requires { literal < 2 * order.old.variables }
    ensures { IsRaised order.old order.new }
{
    order.raise(variable(literal));
}

/// Raises the variable to which a clause gave its value, where it did.
fn raise_given(order: &mut DecisionOrder, pool: &Pool, trail: &Trail, clause: ClauseRef)
    requires used { IsSome (clause_at pool.now.clauses clause) }
    requires fit { IsFit pool.now trail.now }
    requires variables { order.old.variables ≡ trail.now.variables }
    ensures { IsRaised order.old order.new }
{
    for literal in pool.lits(clause) {
        if let Value::True = trail.value(*literal) {
            raise(order, *literal);
            return;
        }
    }
}

/// Raises the variables of a clause that was learned, and those to which the clauses of its hints gave their values. What is
/// raised later counts for more.
pub fn raise_met(
    order: &mut DecisionOrder,
    pool: &Pool,
    trail: &Trail,
    learned: &[u32],
    hints: &[Hint],
)
    requires fit { IsFit pool.now trail.now }
    requires variables { order.old.variables ≡ trail.now.variables }
    requires below { All (λ literal. literal < 2 * trail.now.variables) learned.now }
    requires known { AreKnownHints pool.now.clauses trail.now.steps hints.now }
    ensures { IsRaised order.old order.new }
{
    for literal in learned {
        raise(order, *literal);
    }
    for hint in hints {
        match hint {
            Hint::Stored(clause) => raise_given(order, pool, trail, *clause),
            Hint::Excluded(_) => {}
        }
    }
    order.age();
}
