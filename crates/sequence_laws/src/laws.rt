//! Laws of the definitions, as contracts of functions that do nothing.

ghost use Rattle.sequence_laws.specs.Laws.{ConditionsByIndex, FrontPadding, HappensBeforeByList, Merging};

/// One action happens before another exactly where a list of two or more leads from the one to the other, neighbours in
/// which are related by program order or synchronizes-with.
pub fn happens_before_by_list()
    ensures { HappensBeforeByList }
{}

/// The nine conditions, step after step, are the conditions at each index, with the set of the step before it.
pub fn conditions_by_index()
    ensures { ConditionsByIndex }
{}

/// The conditions stay where the first step's execution is put before the sequence, with nothing committed.
pub fn front_padding()
    ensures { FrontPadding }
{}

/// Of two neighbouring steps that commit no reads the earlier can be dropped.
pub fn merging()
    ensures { Merging }
{}
