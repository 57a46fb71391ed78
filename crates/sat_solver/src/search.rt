//! The search as a whole.

ghost use Rattle.std.specs.Prelude.{◌≡◌, ◌<◌, ◌^◌, [], IfOk, MatchResult, length};
ghost use Rattle.ports.specs.Faults.{HasCause};
ghost use Rattle.sat_solver.specs.Answers.{Answers, Faults, IsSearch};
ghost use Rattle.sat_solver.specs.Ends.{Ends, IsHeaded};
ghost use Rattle.sat_solver.specs.Opened.{IsBegun};

use crate::assigning::assign_all;
use crate::deciding::{End, decide, end_at_once};
pub use crate::opening::Memory;
use crate::opening::{add_all, open_empty};
use clause_pool::ClauseRef;
use logged_search::LoggedSearch;
use ports::{Failed, Sink};
use refutation_lines::laws::refuted_is_unsatisfiable;
use refutation_lines::put_header;
use std::alloc::Global;
use var_names::{Assignment, Formula};

/// What a search found.
#[derive(Debug, Drop)]
pub enum Answer {
    /// Every clause is true under these values.
    Satisfied(Assignment),
    /// No assignment makes every clause true: the log is a refutation.
    Refuted,
    /// The log has as many clause lines as the budget allows.
    Spent,
}

/// The log could not be written.
#[derive(Clone, Copy, Debug, PartialEq, Eq)]
pub struct WriteFault;

/// A search of a formula, which has all the memory that it will use.
#[derive(Drop)]
pub struct Search<'a> {
    pub formula: &'a Formula,
    pub state: LoggedSearch,
    pub values: Assignment,
    /// A clause that is false before any decision.
    pub conflict: Option<ClauseRef>,
}

/// Puts the beginning of the log, and searches.
fn search_from<S: Sink>(
    state: &mut LoggedSearch,
    formula: &Formula,
    conflict: Option<ClauseRef>,
    budget: u64,
    log: &mut S,
) -> Result<End, Failed>
    requires { IsBegun formula.now state.old conflict }
    ensures ends { MatchResult result
        (λ end. IsHeaded formula.now (S.held log.old) (λ begun. Ends formula.now budget state.old state.new begun (S.held log.new) end))
        (λ _. Faults formula.now (S.held log.old) (S.held log.new)) }
    ensures cause { HasCause (S.faults log.old) (S.faults log.new) result }
    ensures rest { S.same_rest log.old log.new }
{
    put_header(log, formula.steps())?;
    match conflict {
        Some(clause) => end_at_once(state, formula, clause, budget, log),
        None => decide(state, formula, budget, log),
    }
}

impl<'a> Search<'a> {
    /// Takes all memory that a search of the formula needs, with so many words for the clauses that it learns.
    ///
    /// # Errors
    /// `Memory` where an allocation fails, or where the clauses and these words take 2^32 words or more.
    pub fn open(alloc: Global, formula: &'a Formula, learn_words: u32) -> Result<Search<'a>, Memory>
        ensures made { IfOk result IsSearch }
        ensures formula { IfOk result (λ search. search.formula.now ≡ formula.now) }
    {
        let mut state = open_empty(alloc, formula, learn_words)?;
        let conflict = add_all(&mut state, formula)?;
        let Ok(values) = Assignment::new(alloc, formula.variables()) else {
            return Err(Memory);
        };
        Ok(Search {
            formula,
            state,
            values,
            conflict,
        })
    }

    /// Searches, and writes the log, with at most so many clause lines. It takes no memory.
    ///
    /// # Errors
    /// `WriteFault` only where the sink's count of faults rose.
    pub fn run<S: Sink>(self, budget: u64, log: &mut S) -> Result<Answer, WriteFault>
        requires { IsSearch self }
        ensures answers { MatchResult result
            (Answers self.entry.formula.now budget (S.held log.old) (S.held log.new))
            (λ _. Faults self.entry.formula.now (S.held log.old) (S.held log.new)) }
        ensures cause { HasCause (S.faults log.old) (S.faults log.new) result }
        ensures rest { S.same_rest log.old log.new }
    {
        let Search {
            formula,
            mut state,
            mut values,
            conflict,
        } = self;
        match search_from(&mut state, formula, conflict, budget, log) {
            Ok(End::Satisfied) => {
                assign_all(&mut values, &state.state.trail);
                Ok(Answer::Satisfied(values))
            }
            Ok(End::Refuted) => {
                refuted_is_unsatisfiable();
                Ok(Answer::Refuted)
            }
            Ok(End::Spent) => Ok(Answer::Spent),
            Err(Failed) => Err(WriteFault),
        }
    }
}
