//! Clauses that are taken out.

ghost use Rattle.std.specs.Prelude.{◌≡◌, ◌*◌, ◌<◌, ◌↔◌, IsSome, IsTrue, length, true};
ghost use Rattle.clause_pool.specs.PoolValue.{clause_at, forget_clause, compact_pool};
ghost use Rattle.literals.specs.Literal.{variable_of};
ghost use Rattle.literals.specs.Propagation.{IsTrueIn};
ghost use Rattle.trail.specs.Steps.{literals_of, reason_at, IsSoundTrail};
ghost use Rattle.propagation.specs.Ready.{IsFit};
ghost use Rattle.search_steps.specs.States.{IsState};
ghost use Rattle.learning_steps.specs.Reasons.{IsReasonIn, IsSettled};

use clause_pool::{ClauseRef, Pool};
use search_steps::State;
use trail::{Reason, Trail, Value};

/// Whether a literal is true by this clause.
fn is_reason_of(trail: &Trail, clause: ClauseRef, literal: u32) -> bool
    requires sound { IsSoundTrail trail.now }
    requires below { literal < 2 * trail.now.variables }
    ensures reason { result ≡ true → IsTrueIn (literals_of trail.now.steps) literal × (reason_at trail.now.steps (variable_of literal) ≡ Reason.Clause clause) }
    ensures all { IsTrueIn (literals_of trail.now.steps) literal → reason_at trail.now.steps (variable_of literal) ≡ Reason.Clause clause → result ≡ true }
{
    match trail.value(literal) {
        Value::True => match trail.reason_of(literal) {
            Reason::Clause(other) => other == clause,
            Reason::Decision | Reason::Decisions => false,
        },
        Value::Open | Value::False => false,
    }
}

/// Whether a clause is the reason of a step.
pub fn is_reason(pool: &Pool, trail: &Trail, clause: ClauseRef) -> bool
    requires used { IsSome (clause_at pool.now.clauses clause) }
    requires fit { IsFit pool.now trail.now }
    ensures { IsTrue result ↔ IsReasonIn trail.now.steps clause }
{
    for literal in pool.lits(clause) {
        if is_reason_of(trail, clause, *literal) {
            return true;
        }
    }
    false
}

/// Takes a clause out of the pool that is no reason.
pub fn forget(state: &mut State, clause: ClauseRef)
    requires state { IsState state.old }
    requires used { IsSome (clause_at state.old.pool.clauses clause) }
    requires free { IsReasonIn state.old.trail.steps clause → ⊥ }
    ensures state { IsState state.new }
    ensures settled { IsSettled state.old.pool state.old.trail → IsSettled state.new.pool state.new.trail }
    ensures pool { state.new.pool ≡ forget_clause state.old.pool clause }
    ensures trail { state.new.trail ≡ state.old.trail }
    ensures order { state.new.order ≡ state.old.order }
{
    state.pool.forget(clause);
}

/// Moves the clauses together, so that only their words are used.
pub fn compact(state: &mut State)
    requires { IsState state.old }
    ensures state { IsState state.new }
    ensures settled { IsSettled state.old.pool state.old.trail → IsSettled state.new.pool state.new.trail }
    ensures pool { state.new.pool ≡ compact_pool state.old.pool }
    ensures trail { state.new.trail ≡ state.old.trail }
    ensures order { state.new.order ≡ state.old.order }
{
    state.pool.compact();
}
