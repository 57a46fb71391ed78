//! A search takes all its memory, and the clauses of the formula.

ghost use Rattle.std.specs.Prelude.{◌≡◌, ◌<◌, ◌^◌, ℕ, [], IfOk, length};
ghost use Rattle.clause_pool.specs.PoolValue.{IsIn};
ghost use Rattle.var_names.specs.Formulas.{literals_of};
ghost use Rattle.var_names.specs.LiteralNumbers.{AddsVariables};
ghost use Rattle.search_steps.specs.Adding.{clause_of};
ghost use Rattle.sat_solver.specs.Opened.{IsAddedTo, IsBegun, IsOpened};

use clause_pool::{ClauseRef, Full, Pool};
use conflict_analysis::Analysis;
use decision_order::DecisionOrder;
use logged_search::LoggedSearch;
use search_log::Log;
use search_steps::{Added, State, add};
use std::alloc::Global;
use trail::Trail;
use var_names::Formula;

/// There was no memory for the search, or it wanted more than a pool can have.
#[derive(Clone, Copy, Debug, PartialEq, Eq)]
pub struct Memory;

impl From<clause_pool::Memory> for Memory {
    fn from(_error: clause_pool::Memory) -> Memory {
        Memory
    }
}

impl From<Full> for Memory {
    fn from(_error: Full) -> Memory {
        Memory
    }
}

impl From<trail::Memory> for Memory {
    fn from(_error: trail::Memory) -> Memory {
        Memory
    }
}

impl From<decision_order::Memory> for Memory {
    fn from(_error: decision_order::Memory) -> Memory {
        Memory
    }
}

impl From<search_log::Memory> for Memory {
    fn from(_error: search_log::Memory) -> Memory {
        Memory
    }
}

impl From<conflict_analysis::Memory> for Memory {
    fn from(_error: conflict_analysis::Memory) -> Memory {
        Memory
    }
}

/// How many words the clauses of the formula and so many more take.
fn words_for(formula: &Formula, learn_words: u32) -> Result<u32, Memory> {
    let mut words = learn_words as u64;
    for place in 0..formula.clauses() {
        let Some(numbers) = formula.clause(place) else {
            return Err(Memory);
        };
        words = words.saturating_add(numbers.len() as u64).saturating_add(3);
    }
    if words >= 1 << 32 {
        return Err(Memory);
    }
    Ok(words as u32)
}

/// How many handles there are, so that clauses which fit into so many words find one.
fn handles_for(formula: &Formula, learn_words: u32) -> Result<u32, Memory> {
    let clauses = formula.clauses() as u64;
    let handles = clauses.saturating_add((learn_words / 4 + 1) as u64);
    if handles >= 1 << 32 {
        return Err(Memory);
    }
    Ok(handles as u32)
}

/// How many variables the formula has.
fn variables_of(formula: &Formula) -> Result<u32, Memory>
    ensures size { IfOk result (λ count. count ≡ length formula.now.variables) }
    ensures few { IfOk result (λ count. count < 2 ^ 31) }
    ensures first { IfOk result (λ count. AddsVariables [] (literals_of formula.now.clauses) formula.now.variables) }
{
    let count = formula.variables();
    if count >= 1 << 31 {
        return Err(Memory);
    }
    Ok(count as u32)
}

/// Lets all variables wait for a decision.
fn wait_all(order: &mut DecisionOrder, variables: u32)
    requires { variables ≡ order.old.variables }
    ensures waiting { (variable : ℕ) → variable < variables → IsIn variable order.new.waiting }
    ensures variables { order.new.variables ≡ order.old.variables }
{
    for variable in 0..variables {
        order.put_back(variable, false);
    }
}

/// A search without clauses.
pub fn open_empty(
    alloc: Global,
    formula: &Formula,
    learn_words: u32,
) -> Result<LoggedSearch, Memory>
    ensures { IfOk result (λ search. IsOpened formula.now search 0) }
{
    let words = words_for(formula, learn_words)?;
    let handles = handles_for(formula, learn_words)?;
    let variables = variables_of(formula)?;
    let pool = Pool::open(alloc, words, handles, 2 * variables)?;
    let trail = Trail::open(alloc, variables)?;
    let mut order = DecisionOrder::open(alloc, variables)?;
    let log = Log::open(alloc, handles, variables)?;
    let analysis = Analysis::open(alloc, variables)?;
    wait_all(&mut order, variables);
    Ok(LoggedSearch {
        state: State { pool, trail, order },
        log,
        analysis,
        words,
        spare: handles,
    })
}

/// The handle of a clause that was added.
fn handle_of(added: &Added) -> ClauseRef
    ensures { result ≡ clause_of added.now }
{
    match added {
        Added::Kept(clause) | Added::Conflict(clause) => *clause,
    }
}

/// Adds the clause of the formula at this place.
fn add_clause(search: &mut LoggedSearch, formula: &Formula, place: u32) -> Result<Added, Memory>
    requires opened { IsOpened formula.now search.old place }
    requires within { place < length formula.now.clauses }
    ensures { IfOk result (IsAddedTo formula.now search.new place) }
{
    let Some(numbers) = formula.clause(place as usize) else {
        unreachable!()
    };
    let added = add(&mut search.state, numbers)?;
    search.log.name_rule(handle_of(&added), place);
    search.spare -= 1;
    Ok(added)
}

/// Adds the clauses of the formula, up to one that is false before any decision, which is the answer.
pub fn add_all(search: &mut LoggedSearch, formula: &Formula) -> Result<Option<ClauseRef>, Memory>
    requires { IsOpened formula.now search.old 0 }
    ensures { IfOk result (IsBegun formula.now search.new) }
{
    let count = formula.clauses();
    if count >= 1 << 32 {
        return Err(Memory);
    }
    for place in 0..count as u32 {
        match add_clause(search, formula, place)? {
            Added::Kept(_) => {}
            Added::Conflict(clause) => return Ok(Some(clause)),
        }
    }
    Ok(None)
}
