//! A search of a formula, whose answer is tried out.

use crate::ruled::RuledFormula;
use bytes_check::check_bytes;
use ports::MemorySink;
use sat_solver::{Answer, Search};
use sources::MemorySource;
use std::alloc::Global;
use std::test::Fail;
use token_reader::Reader;
use var_names::{Assignment, Formula};

/// How a search ended.
#[derive(Clone, Copy, Debug, PartialEq, Eq)]
pub enum Ending {
    Satisfied,
    Refuted,
    Spent,
}

/// The bytes that a log may have.
const ROOM: usize = 1 << 16;

/// How many assignments there are at most.
const ASSIGNMENTS: usize = 1 << 8;

/// Whether one of these literals is true.
fn is_true(numbers: &[u32], values: &[bool]) -> bool {
    for number in numbers {
        if values.get((*number / 2) as usize).copied() == Some(*number % 2 == 0) {
            return true;
        }
    }
    false
}

/// Whether these values make every clause true.
fn is_model(formula: &Formula, values: &[bool]) -> bool {
    for place in 0..formula.clauses() {
        let Some(numbers) = formula.clause(place) else {
            return false;
        };
        if !is_true(numbers, values) {
            return false;
        }
    }
    true
}

/// Goes on to the next values, and says whether there are any.
fn advance(values: &mut [bool]) -> bool {
    for value in values.iter_mut() {
        *value = !*value;
        if *value {
            return true;
        }
    }
    false
}

/// Whether some values make every clause true, by trying all.
pub fn has_model(alloc: Global, formula: &Formula) -> Result<bool, Fail> {
    let mut values = vec![in alloc; false; formula.variables()]?;
    for _ in 0..ASSIGNMENTS {
        if is_model(formula, values.as_slice()) {
            return Ok(true);
        }
        if !advance(&mut values) {
            return Ok(false);
        }
    }
    Err(Fail::from("too many variables"))
}

/// The values of an assignment.
fn values_of(alloc: Global, assignment: &Assignment) -> Result<Vec<bool>, Fail> {
    let mut values = Vec::new(alloc);
    for at in 0..assignment.len() {
        values.push(assignment.get(at).ok_or("no value")?)?;
    }
    Ok(values)
}

/// The answer of a search, tried out: the clauses are true under the values, or the log is a refutation.
fn tried(
    alloc: Global,
    formula: &RuledFormula,
    answer: &Answer,
    log: &[u8],
) -> Result<Ending, Fail> {
    match answer {
        Answer::Satisfied(assignment) => {
            let values = values_of(alloc, assignment)?;
            if !is_model(formula.formula(), values.as_slice()) {
                return Err(Fail::from("a clause is false"));
            }
            Ok(Ending::Satisfied)
        }
        Answer::Refuted => {
            let source = MemorySource::open(alloc, log, Vec::new(alloc))?;
            let mut reader = Reader::open(alloc, source)?;
            check_bytes(alloc, formula, 1, &mut reader)?;
            Ok(Ending::Refuted)
        }
        Answer::Spent => Ok(Ending::Spent),
    }
}

/// How a search of a formula ends, and how many bytes its log has.
pub fn solve(
    alloc: Global,
    formula: &RuledFormula,
    learn_words: u32,
    budget: u64,
) -> Result<(Ending, usize), Fail> {
    let mut log = MemorySink::open(alloc, ROOM, Vec::new(alloc))?;
    let search = Search::open(alloc, formula.formula(), learn_words)?;
    let answer = search.run(budget, &mut log)?;
    let ending = tried(alloc, formula, &answer, log.bytes())?;
    Ok((ending, log.bytes().len()))
}
