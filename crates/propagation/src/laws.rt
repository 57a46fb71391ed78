//! What is proved of the definitions. These functions compute nothing: each is there for its contract.

ghost use Rattle.propagation.specs.Laws.{BackIsWatched, BackKeeps};

/// Where decisions are taken back, the watches hold for all steps that are left.
pub const fn back_is_watched()
    ensures { BackIsWatched }
{}

/// What stood at each decision that is left, and each reason, stands.
pub const fn back_keeps()
    ensures { BackKeeps }
{}
