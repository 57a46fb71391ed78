//! Names of clauses.

/// How the log names a clause.
#[derive(Clone, Copy, Debug, PartialEq, Eq)]
pub enum Name {
    /// There is no clause.
    Unnamed,
    /// The clause of the formula at this place, which has no line so far.
    Ruled(u32),
    /// The clause with this number.
    Numbered(u128),
}
