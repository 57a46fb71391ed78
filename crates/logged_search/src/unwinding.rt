//! The way back, with the lines that take reasons out.

ghost use Rattle.std.specs.Prelude.{◌≡◌, ◌<◌, ◌∷◌, ℕ, List, MatchResult, OnOk, Option};
ghost use Rattle.ports.specs.Faults.{HasCause};
ghost use Rattle.trail.specs.Steps.{back_in, level_of, without_newest};
ghost use Rattle.var_names.specs.Formulas.{FormulaValue};
ghost use Rattle.search_steps.specs.States.{IsState};
ghost use Rattle.logged_search.specs.Going.{Goes, Breaks};
ghost use Rattle.logged_search.specs.Tied.{IsPending, HasPending};

use conflict_analysis::Hint;
use ports::{Failed, Sink};
use search_log::Log;
use search_steps::State;
use trail::Reason;

/// Takes the newest step back. Where its reason was the clause of the decisions before it, that is taken out of the log.
fn take_back<S: Sink>(state: &mut State, log: &mut Log, out: &mut S) -> Result<(), Failed>
    requires state { IsState state.old }
    requires decided { 0 < level_of state.old.trail.steps }
    requires pending { HasPending state.old log.old }
    ensures state { IsState state.new }
    ensures trail { state.new.trail ≡ without_newest state.old.trail }
    ensures pool { state.new.pool ≡ state.old.pool }
    ensures derived { OnOk result (log.new.derived ≡ log.old.derived) }
    ensures goes { MatchResult result
        (λ _. (formula : FormulaValue) (clauses : List (Option (List ℕ))) (learned : List ℕ) → IsPending formula state.old log.old clauses learned
        → Goes formula log.old log.new (S.held out.old) (S.held out.new) clauses (λ after. IsPending formula state.new log.new after learned))
        (λ _. (formula : FormulaValue) (clauses : List (Option (List ℕ))) (learned : List ℕ) → IsPending formula state.old log.old clauses learned
        → Breaks formula (S.held out.old) (S.held out.new) clauses) }
    ensures cause { HasCause (S.faults out.old) (S.faults out.new) result }
    ensures rest { S.same_rest out.old out.new }
{
    let step = search_steps::take_back(state);
    match step.reason {
        Reason::Decision | Reason::Clause(_) => Ok(()),
        Reason::Decisions => log.delete(out, &Hint::Excluded(step.literal)),
    }
}

/// Takes the newest steps back until the level is no higher than this one.
///
/// # Errors
/// `Failed` only where the sink's count of faults rose.
pub fn unwind<S: Sink>(
    state: &mut State,
    log: &mut Log,
    out: &mut S,
    level: u32,
) -> Result<(), Failed>
    requires state { IsState state.old }
    requires pending { HasPending state.old log.old }
    ensures state { OnOk result (IsState state.new) }
    ensures trail { OnOk result (state.new.trail ≡ back_in state.old.trail level) }
    ensures pool { OnOk result (state.new.pool ≡ state.old.pool) }
    ensures derived { OnOk result (log.new.derived ≡ log.old.derived) }
    ensures goes { MatchResult result
        (λ _. (formula : FormulaValue) (clauses : List (Option (List ℕ))) (learned : List ℕ) → IsPending formula state.old log.old clauses learned
        → Goes formula log.old log.new (S.held out.old) (S.held out.new) clauses (λ after. IsPending formula state.new log.new after learned))
        (λ _. (formula : FormulaValue) (clauses : List (Option (List ℕ))) (learned : List ℕ) → IsPending formula state.old log.old clauses learned
        → Breaks formula (S.held out.old) (S.held out.new) clauses) }
    ensures cause { HasCause (S.faults out.old) (S.faults out.new) result }
    ensures rest { S.same_rest out.old out.new }
{
    while state.trail.level() > level {
        take_back(state, log, out)?;
    }
    Ok(())
}
