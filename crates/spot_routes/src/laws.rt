//! Laws of the steps between spots. A caller takes one by calling its function, which does nothing.

ghost use Rattle.spot_routes.specs.Laws.{AreRoutes, AreApart, EndsBySteps, WholeWhereNoneIsLeftOut};

/// The lists of steps from where a thread begins to its end are those of the routes of its code from the entry to the
/// outermost return, with few enough backward jumps, and with an answer for each instruction on them that asks whether a
/// thread is alive.
pub fn are_routes()
    ensures { AreRoutes }
{}

/// Different routes, or different answers on them, are different lists of steps.
pub fn are_apart()
    ensures { AreApart }
{}

/// A thread can end exactly where some steps lead from its beginning to its end.
pub fn ends_by_steps()
    ensures { EndsBySteps }
{}

/// The bounds leave nothing out exactly where the width is that of an int and no step from a reached spot is left out.
pub fn whole_where_none_is_left_out()
    ensures { WholeWhereNoneIsLeftOut }
{}
