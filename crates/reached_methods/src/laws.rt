//! Laws of the faults and of the lists of reached methods, for the crates above.

ghost use Rattle.reached_methods.specs.Laws.{NoFirstFault, OneFirstFault, OneList};

/// A program has at most one first fault.
pub fn one_first_fault()
    ensures { OneFirstFault }
{}

/// Where nothing is wrong with the reached instructions, there is no first fault.
pub fn no_first_fault()
    ensures { NoFirstFault }
{}

/// A program has at most one list of its reached methods.
pub fn one_list()
    ensures { OneList }
{}
