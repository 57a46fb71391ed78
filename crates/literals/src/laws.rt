//! What is proved of the definitions. These functions compute nothing: each is there for its contract.

ghost use Rattle.literals.specs.Laws.{FollowingIsTrue, ResolventIsTrue, EmptyIsUnsatisfiable};

/// A clause that follows from clauses by unit propagation is true wherever these are.
pub const fn following_is_true()
    ensures { FollowingIsTrue }
{}

/// The resolvent of two clauses is true wherever both are.
pub const fn resolvent_is_true()
    ensures { ResolventIsTrue }
{}

/// Where the empty clause follows from clauses, no assignment makes them all true.
pub const fn empty_is_unsatisfiable()
    ensures { EmptyIsUnsatisfiable }
{}
