//! Literals that become true by what was learned.

ghost use Rattle.std.specs.Prelude.{◌≡◌, ◌*◌, ◌<◌, All, IfOk, IsErr, ◌↔◌, OnErr, length, slice_index};
ghost use Rattle.clause_pool.specs.PoolValue.{IsFree, IsFull, NoneTwice, put_clause};
ghost use Rattle.literals.specs.Propagation.{HasNoValueIn};
ghost use Rattle.trail.specs.Steps.{literals_of, with_step};
ghost use Rattle.propagation.specs.Ready.{IsReady};
ghost use Rattle.search_steps.specs.States.{IsState};
ghost use Rattle.learning_steps.specs.Reasons.{IsNextReason, IsSettled};

use clause_pool::{ClauseRef, Full};
use search_steps::State;
use trail::Reason;

/// Puts a clause into the pool whose literals but the first are false, and makes the first true by it.
///
/// # Errors
///
/// `Full` exactly where the pool has no room for the clause. Then nothing changed.
pub fn add_reason(state: &mut State, literals: &[u32]) -> Result<ClauseRef, Full>
    requires state { IsState state.old }
    requires settled { IsSettled state.old.pool state.old.trail }
    requires below { All (λ x. x < 2 * state.old.trail.variables) literals.now }
    requires different { NoneTwice literals.now }
    requires next { IsNextReason state.old.trail.steps literals.now }
    ensures full { IsErr result ↔ IsFull state.old.pool (length literals.now) }
    ensures unchanged { OnErr result (state.new ≡ state.old) }
    ensures fresh { IfOk result (IsFree state.old.pool) }
    ensures put { IfOk result (λ clause. state.new.pool ≡ put_clause state.old.pool clause literals.now) }
    ensures trail { IfOk result (λ clause. state.new.trail ≡ with_step state.old.trail (slice_index literals.now 0) (Reason.Clause clause)) }
    ensures state { IfOk result (λ clause. IsState state.new) }
    ensures ready { IfOk result (λ clause. IsReady state.new.pool state.new.trail (length state.old.trail.steps)) }
{
    let clause = state.pool.put(literals)?;
    state.trail.assign(literals[0], Reason::Clause(clause));
    Ok(clause)
}

/// Makes a literal true whose opposite the decisions exclude.
pub fn exclude(state: &mut State, literal: u32)
    requires state { IsState state.old }
    requires settled { IsSettled state.old.pool state.old.trail }
    requires below { literal < 2 * state.old.trail.variables }
    requires open_value { HasNoValueIn (literals_of state.old.trail.steps) literal }
    ensures state { IsState state.new }
    ensures ready { IsReady state.new.pool state.new.trail (length state.old.trail.steps) }
    ensures trail { state.new.trail ≡ with_step state.old.trail literal Reason.Decisions }
    ensures pool { state.new.pool ≡ state.old.pool }
{
    state.trail.assign(literal, Reason::Decisions);
}
