//! A law of well-formed executions, as the contract of a function that does nothing.

ghost use Rattle.same_orders.specs.Laws.{DefaultsComeFirst};

/// In a well-formed execution each default write happens before each action of a thread.
pub fn defaults_come_first()
    ensures { DefaultsComeFirst }
{}
