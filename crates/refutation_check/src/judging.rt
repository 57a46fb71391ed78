ghost use Rattle.std.specs.Prelude.{◌≡◌, ◌≢◌, ◌↔◌, All, Contains, IsTrue, MatchOption};
ghost use Rattle.refutation_check.specs.Judged.{IsFalseNumber, IsJudged, negation_of};

use crate::marks::Marks;

/// What a clause is under the literals that were made true.
#[derive(Clone, Copy, Debug, PartialEq, Eq, Drop)]
pub enum Judgement {
    /// All its literals are false.
    Falsified,
    /// All but this one are false, and it is neither true nor false.
    Unit(u32),
    /// Neither.
    Open,
}

/// The number of a literal's negation.
pub fn negation(number: u32) -> u32
    ensures { result ≡ negation_of number }
{
    if number % 2 == 0 {
        number + 1
    } else {
        number - 1
    }
}

/// Whether a literal is false.
fn is_false(marks: &Marks, number: u32) -> bool
    ensures { IsTrue result ↔ IsFalseNumber marks.now number }
{
    marks.is_marked(negation(number))
}

/// The first literal of a clause that is not false.
fn first_open(marks: &Marks, numbers: &[u32]) -> Option<u32>
    ensures { MatchOption result (All (IsFalseNumber marks.now) numbers.now)
        (λ unit. Contains numbers.now unit × ¬ (IsFalseNumber marks.now unit)) }
{
    for number in numbers {
        if !is_false(marks, *number) {
            return Some(*number);
        }
    }
    None
}

/// Whether a literal is false, or that one.
fn is_false_or(marks: &Marks, number: u32, unit: u32) -> bool
    ensures { IsTrue result ↔ (number ≢ unit → IsFalseNumber marks.now number) }
{
    if number == unit {
        return true;
    }
    is_false(marks, number)
}

/// Whether all literals of a clause but one are false.
fn others_false(marks: &Marks, numbers: &[u32], unit: u32) -> bool
    ensures { IsTrue result ↔ All (λ other. other ≢ unit → IsFalseNumber marks.now other) numbers.now }
{
    for number in numbers {
        if !is_false_or(marks, *number, unit) {
            return false;
        }
    }
    true
}

/// What a clause is under the literals that were made true.
pub fn judge(marks: &Marks, numbers: &[u32]) -> Judgement
    ensures { IsJudged marks.now numbers.now result }
{
    let Some(unit) = first_open(marks, numbers) else {
        return Judgement::Falsified;
    };
    if marks.is_marked(unit) {
        return Judgement::Open;
    }
    if !others_false(marks, numbers, unit) {
        return Judgement::Open;
    }
    Judgement::Unit(unit)
}
