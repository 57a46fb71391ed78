//! The least number that breaks a condition, found in a pass over a list of numbers.
#![tactic(auto)]

ghost use Rattle.least_break.specs.Least.{IsNoted, IsLesser};

/// The least number found so far that doesn't fit, with one more number that fits or doesn't.
pub fn noted(least: Option<u64>, id: u64, fits: bool) -> Option<u64>
    ensures { IsNoted least id fits result }
{
    if fits {
        return least;
    }
    match least {
        None => Some(id),
        Some(found) => Some(found.min(id)),
    }
}

/// The lesser of two numbers that may be there.
pub fn lesser(first: Option<u64>, second: Option<u64>) -> Option<u64>
    ensures { IsLesser first second result }
{
    match (first, second) {
        (Some(one), Some(other)) => Some(one.min(other)),
        (Some(one), None) => Some(one),
        (None, other) => other,
    }
}
