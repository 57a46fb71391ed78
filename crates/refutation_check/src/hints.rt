ghost use Rattle.std.specs.Prelude.{◌≡◌, false, MatchResult, true};
ghost use Rattle.refutation_check.specs.Hints.{ConflictsAlong, FailsAlong, IsGoodHint, IsHintFault};

use crate::judging::{Judgement, judge};
use crate::live::LiveClauses;
use crate::marks::Marks;
use thiserror::Error;

/// Why hints do not lead to a clause that is false.
#[derive(Clone, Copy, Debug, PartialEq, Eq, Drop, Error)]
pub enum HintRefusal {
    /// A hinted clause before the last has not exactly one literal that is open, or the last one is not false, or there
    /// is no hint.
    #[error("a hinted clause is not as it is to be")]
    NotUnit,
    /// A hint names no live clause.
    #[error("a hint names no live clause")]
    Unknown,
    /// Memory ran out.
    #[error("memory ran out")]
    Memory,
}

/// The last hint: its clause is to be false.
///
/// # Errors
/// The fault of the hint.
pub fn last_hint(live: &LiveClauses, marks: &Marks, hint: u64) -> Result<(), HintRefusal>
    ensures { MatchResult result (λ _. IsGoodHint live.now marks.now hint None) (IsHintFault live.now marks.now true hint) }
{
    let Some(clause) = live.get(hint) else {
        return Err(HintRefusal::Unknown);
    };
    match judge(marks, clause) {
        Judgement::Falsified => Ok(()),
        Judgement::Unit(_) => Err(HintRefusal::NotUnit),
        Judgement::Open => Err(HintRefusal::NotUnit),
    }
}

/// A hint before the last: its clause is to have one literal that is open, and the others false. Answers that literal.
///
/// # Errors
/// The fault of the hint.
pub fn unit_of_hint(live: &LiveClauses, marks: &Marks, hint: u64) -> Result<u32, HintRefusal>
    ensures { MatchResult result (λ unit. IsGoodHint live.now marks.now hint (Some unit)) (IsHintFault live.now marks.now false hint) }
{
    let Some(clause) = live.get(hint) else {
        return Err(HintRefusal::Unknown);
    };
    match judge(marks, clause) {
        Judgement::Unit(unit) => Ok(unit),
        Judgement::Falsified => Err(HintRefusal::NotUnit),
        Judgement::Open => Err(HintRefusal::NotUnit),
    }
}

/// Makes true along the hints what they make true, up to a clause that is false.
///
/// # Errors
/// The first fault along the hints, but for want of memory.
pub fn follow(live: &LiveClauses, marks: &mut Marks, hints: &[u64]) -> Result<(), HintRefusal>
    ensures { MatchResult result (λ _. ConflictsAlong live.now marks.old hints.now) (FailsAlong live.now marks.old hints.now) }
{
    let Some((last, before)) = hints.split_last() else {
        return Err(HintRefusal::NotUnit);
    };
    for hint in before {
        let unit = match unit_of_hint(live, marks, *hint) {
            Ok(unit) => unit,
            Err(refusal) => return Err(refusal),
        };
        if marks.mark(unit).is_err() {
            return Err(HintRefusal::Memory);
        }
    }
    last_hint(live, marks, *last)
}
