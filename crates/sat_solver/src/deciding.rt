//! Decisions and conflicts by turns.

ghost use Rattle.std.specs.Prelude.{◌≡◌, ◌<◌, ◌^◌, [], MatchResult};
ghost use Rattle.ports.specs.Faults.{HasCause};
ghost use Rattle.logged_search.specs.Going.{Breaks};
ghost use Rattle.logged_search.specs.Logged.{IsLogged};
ghost use Rattle.sat_solver.specs.Ends.{Ends};
ghost use Rattle.sat_solver.specs.Opened.{IsRefuted};

use clause_pool::ClauseRef;
use logged_search::{LoggedSearch, answer_conflict, refute, settle};
use ports::{Failed, Sink};
use var_names::Formula;

/// How a search ended.
#[derive(Clone, Copy, Debug, PartialEq, Eq)]
pub enum End {
    /// The trail makes every clause true.
    Satisfied,
    /// The last line is the clause without literals.
    Refuted,
    /// There are as many clause lines as the budget allows, and a conflict.
    Spent,
}

/// Searches until every variable has a value, until the clause without literals was put, or until a conflict comes when there
/// are as many clause lines as the budget allows.
///
/// # Errors
/// `Failed` only where the sink's count of faults rose.
pub fn decide<S: Sink>(
    search: &mut LoggedSearch,
    formula: &Formula,
    budget: u64,
    out: &mut S,
) -> Result<End, Failed>
    requires logged { IsLogged formula.now search.old [] }
    requires begun { search.old.log.derived ≡ 0 }
    ensures ends { MatchResult result
        (Ends formula.now budget search.old search.new (S.held out.old) (S.held out.new))
        (λ _. Breaks formula.now (S.held out.old) (S.held out.new) []) }
    ensures cause { HasCause (S.faults out.old) (S.faults out.new) result }
    ensures rest { S.same_rest out.old out.new }
{
    let mut handled = 0;
    loop {
        let Some(conflict) = settle(search, handled) else {
            return Ok(End::Satisfied);
        };
        let derived = search.log.derived();
        if derived == budget {
            return Ok(End::Spent);
        }
        let level = search.state.trail.level();
        if level == 0 {
            refute(search, formula, out, conflict)?;
            return Ok(End::Refuted);
        }
        handled = answer_conflict(search, formula, out, conflict)?;
    }
}

/// Ends the search of a formula of which a clause is false before any decision.
///
/// # Errors
/// `Failed` only where the sink's count of faults rose.
pub fn end_at_once<S: Sink>(
    search: &mut LoggedSearch,
    formula: &Formula,
    conflict: ClauseRef,
    budget: u64,
    out: &mut S,
) -> Result<End, Failed>
    requires { IsRefuted formula.now search.old conflict }
    ensures ends { MatchResult result
        (Ends formula.now budget search.old search.new (S.held out.old) (S.held out.new))
        (λ _. Breaks formula.now (S.held out.old) (S.held out.new) []) }
    ensures cause { HasCause (S.faults out.old) (S.faults out.new) result }
    ensures rest { S.same_rest out.old out.new }
{
    if budget == 0 {
        return Ok(End::Spent);
    }
    refute(search, formula, out, conflict)?;
    Ok(End::Refuted)
}
