//! The answer to a conflict.

ghost use Rattle.std.specs.Prelude.{◌≡◌, ◌+◌, ◌*◌, ◌<◌, ◌^◌, ℕ, IfOk, List, MatchResult, OnOk, Option};
ghost use Rattle.ports.specs.Faults.{HasCause};
ghost use Rattle.trail.specs.Steps.{level_of};
ghost use Rattle.propagation.specs.Ready.{IsFit, IsReady, IsConflict};
ghost use Rattle.logged_search.specs.Going.{Goes, Closes, Breaks};
ghost use Rattle.logged_search.specs.Tied.{AreTied};
ghost use Rattle.logged_search.specs.Logged.{IsLogged, HasLog, HasTie};

use crate::choosing::choose;
use crate::keeping::keep;
use crate::raising::raise_met;
use crate::search::LoggedSearch;
use crate::unwinding::unwind;
use clause_pool::ClauseRef;
use ports::{Failed, Sink};
use var_names::Formula;

/// Answers a conflict after decisions by the line of a clause, goes back, and makes true what that clause says then. Says how
/// many steps there are before that one.
///
/// # Errors
/// `Failed` only where the sink's count of faults rose.
pub fn answer_conflict<S: Sink>(
    search: &mut LoggedSearch,
    formula: &Formula,
    out: &mut S,
    conflict: ClauseRef,
) -> Result<usize, Failed>
    requires logged { HasLog formula.now search.old }
    requires decided { 0 < level_of search.old.state.trail.steps }
    requires conflict { IsConflict search.old.state.pool search.old.state.trail conflict }
    requires few { search.old.log.derived + 1 < 2 ^ 64 }
    ensures goes { MatchResult result
        (λ _. (clauses : List (Option (List ℕ))) → IsLogged formula.now search.old clauses
        → Goes formula.now search.old.log search.new.log (S.held out.old) (S.held out.new) clauses (IsLogged formula.now search.new))
        (λ _. (clauses : List (Option (List ℕ))) → IsLogged formula.now search.old clauses → Breaks formula.now (S.held out.old) (S.held out.new) clauses) }
    ensures ready { IfOk result (IsReady search.new.state.pool search.new.state.trail) }
    ensures derived { OnOk result (search.new.log.derived ≡ search.old.log.derived + 1) }
    ensures cause { HasCause (S.faults out.old) (S.faults out.new) result }
    ensures rest { S.same_rest out.old out.new }
{
    let back = choose(
        &mut search.analysis,
        &search.state,
        search.words,
        search.spare,
        conflict,
    );
    raise_met(
        &mut search.state.order,
        &search.state.pool,
        &search.state.trail,
        search.analysis.learned(),
        search.analysis.hints(),
    );
    search.log.put_clause(
        formula,
        out,
        search.analysis.learned(),
        search.analysis.hints(),
    )?;
    unwind(&mut search.state, &mut search.log, out, back)?;
    let handled = search.state.trail.len();
    keep(search);
    Ok(handled)
}

/// Answers a conflict before all decisions by the line of the clause without literals.
///
/// # Errors
/// `Failed` only where the sink's count of faults rose.
pub fn refute<S: Sink>(
    search: &mut LoggedSearch,
    formula: &Formula,
    out: &mut S,
    conflict: ClauseRef,
) -> Result<(), Failed>
    requires fit { IsFit search.old.state.pool search.old.state.trail }
    requires sized { search.old.analysis.literals ≡ 2 * search.old.state.trail.variables }
    requires tied { HasTie formula.now search.old }
    requires undecided { level_of search.old.state.trail.steps ≡ 0 }
    requires conflict { IsConflict search.old.state.pool search.old.state.trail conflict }
    requires few { search.old.log.derived + 1 < 2 ^ 64 }
    ensures closes { MatchResult result
        (λ _. (clauses : List (Option (List ℕ))) → AreTied formula.now clauses search.old.state.pool search.old.state.trail.steps search.old.log
        → Closes formula.now 0 (S.held out.old) (S.held out.new) clauses)
        (λ _. (clauses : List (Option (List ℕ))) → AreTied formula.now clauses search.old.state.pool search.old.state.trail.steps search.old.log
        → Breaks formula.now (S.held out.old) (S.held out.new) clauses) }
    ensures cause { HasCause (S.faults out.old) (S.faults out.new) result }
    ensures rest { S.same_rest out.old out.new }
{
    search
        .analysis
        .analyze(&search.state.pool, &search.state.trail, conflict);
    search.log.put_clause(
        formula,
        out,
        search.analysis.learned(),
        search.analysis.hints(),
    )
}
