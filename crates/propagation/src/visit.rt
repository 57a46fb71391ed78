//! One visit of a clause that watches a literal which became false.

ghost use Rattle.std.specs.Prelude.{◌≡◌, ◌≢◌, ◌*◌, ◌<◌, ◌≤◌, ℕ, All, IfNone, IfSome, length, slice_index};
ghost use Rattle.clause_pool.specs.PoolValue.{IsWatched, IsWatching, NoneTwice};
ghost use Rattle.literals.specs.Propagation.{IsFalseIn};
ghost use Rattle.trail.specs.Steps.{literals_of};
ghost use Rattle.propagation.specs.Ready.{Visits};

use clause_pool::{ClauseRef, Pool};
use trail::{Reason, Trail, Value};

/// What a visit found and did.
#[derive(Clone, Copy, Debug, PartialEq, Eq)]
pub enum Visit {
    /// The other watched literal is true.
    Kept,
    /// The clause watches a literal that isn't false in place of this one.
    Moved,
    /// The other watched literal became true.
    Propagated,
    /// All literals of the clause are false.
    Conflict,
}

/// The other one of a clause's watched literals.
fn other_watch(literals: &[u32], literal: u32) -> u32
    requires watched { IsWatched literals.now literal }
    requires different { NoneTwice literals.now }
    ensures watched { IsWatched literals.now result }
    ensures other { result ≢ literal }
{
    if literals[0] == literal {
        literals[1]
    } else {
        literals[0]
    }
}

/// The first place behind the watched ones of a literal that isn't false.
fn place_not_false(trail: &Trail, literals: &[u32]) -> Option<usize>
    requires { All (λ literal. literal < 2 * trail.now.variables) literals.now }
    ensures behind { IfSome result (λ at. (2 ≤ at) × (at < length literals.now)) }
    ensures not_false { IfSome result
        (λ at. IsFalseIn (literals_of trail.now.steps) (slice_index literals.now at) → ⊥) }
    ensures all_false { IfNone result
        ((k : ℕ) → 2 ≤ k → k < length literals.now → IsFalseIn (literals_of trail.now.steps) (slice_index literals.now k)) }
{
    for at in 2..literals.len() {
        match trail.value(literals[at]) {
            Value::False => {}
            Value::Open | Value::True => return Some(at),
        }
    }
    None
}

/// Visits a clause that watches a literal which became false.
pub fn visit_clause(pool: &mut Pool, trail: &mut Trail, clause: ClauseRef, literal: u32) -> Visit
    requires watching { IsWatching pool.old.clauses literal clause }
    requires is_false { IsFalseIn (literals_of trail.old.steps) literal }
    requires fit { length pool.old.watches ≡ 2 * trail.old.variables }
    ensures { Visits pool.old pool.new trail.old trail.new clause literal result }
{
    let literals = pool.lits(clause);
    let other = other_watch(literals, literal);
    let value = trail.value(other);
    if let Value::True = value {
        return Visit::Kept;
    }
    if let Some(at) = place_not_false(trail, literals) {
        pool.swap_watch(clause, literal, at);
        return Visit::Moved;
    }
    if let Value::False = value {
        return Visit::Conflict;
    }
    trail.assign(other, Reason::Clause(clause));
    Visit::Propagated
}
