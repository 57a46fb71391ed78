//! Laws of linked programs. A caller takes one by calling its function, which does nothing.

ghost use Rattle.linked_laws.specs.Laws.{FewThreads, AreOrdered, EntriesAreMethods, CalledAreMethods, NoneCallsItself, OperandsAreInRange, VariablesAreSpelt, MonitorsAreSpelt, VariablesAreApart, MonitorsAreApart};

/// A linked program has at most eight threads.
pub fn few_threads()
    ensures { FewThreads }
{}

/// No two methods of a linked program have one name, and the instructions of each stand by their places.
pub fn are_ordered()
    ensures { AreOrdered }
{}

/// The entry of each thread of a linked program is one of its methods.
pub fn entries_are_methods()
    ensures { EntriesAreMethods }
{}

/// Each method that a method of a linked program calls is one of its methods.
pub fn called_are_methods()
    ensures { CalledAreMethods }
{}

/// No method of a linked program calls itself by any way.
pub fn none_calls_itself()
    ensures { NoneCallsItself }
{}

/// A linked program has each variable, monitor, thread and method that an instruction names, and each constant is an int.
pub fn operands_are_in_range()
    ensures { OperandsAreInRange }
{}

/// The names of the variables of a linked program can be written.
pub fn variables_are_spelt()
    ensures { VariablesAreSpelt }
{}

/// The names of the monitors of a linked program can be written.
pub fn monitors_are_spelt()
    ensures { MonitorsAreSpelt }
{}

/// No two variables of a linked program have one name.
pub fn variables_are_apart()
    ensures { VariablesAreApart }
{}

/// No two monitors of a linked program have one name.
pub fn monitors_are_apart()
    ensures { MonitorsAreApart }
{}
