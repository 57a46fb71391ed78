//! One step of a trail.

ghost use Rattle.std.specs.Prelude.{◌≡◌};
ghost use Rattle.trail.specs.Steps.{rise_of};

use clause_pool::ClauseRef;

/// Why a literal was made true.
#[derive(Clone, Copy, Debug, PartialEq, Eq)]
pub enum Reason {
    /// It was decided.
    Decision,
    /// All other literals of this clause are false.
    Clause(ClauseRef),
    /// All decisions before it, together, exclude its opposite.
    Decisions,
}

/// How far a step with this reason raises the level.
pub(crate) fn rise(reason: &Reason) -> u32
    ensures { result ≡ rise_of reason.now }
{
    match reason {
        Reason::Decision => 1,
        Reason::Clause(_) | Reason::Decisions => 0,
    }
}

/// A literal that was made true, and why.
#[derive(Clone, Copy, Debug, PartialEq, Eq)]
pub struct Step {
    pub literal: u32,
    pub reason: Reason,
}

/// The value of a literal.
#[derive(Clone, Copy, Debug, PartialEq, Eq)]
pub enum Value {
    /// It has none yet.
    Open,
    True,
    False,
}

/// What is kept for a variable that has a value.
#[derive(Clone, Copy, Debug)]
pub struct Assigned {
    /// The number of decisions up to its step.
    pub level: u32,
    /// The number of steps before its step.
    pub place: u32,
}
