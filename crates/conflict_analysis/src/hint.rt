//! The clauses that a learned clause follows from.

use clause_pool::ClauseRef;

/// A clause that a learned clause follows from.
#[derive(Clone, Copy, Debug, PartialEq, Eq)]
pub enum Hint {
    /// A clause of the pool.
    Stored(ClauseRef),
    /// The clause of this literal and of the opposites of all decisions before it, which is its reason.
    Excluded(u32),
}
