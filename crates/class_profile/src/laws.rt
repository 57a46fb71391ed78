//! Laws of first faults, for the crates above.

ghost use Rattle.class_profile.specs.Laws.{OneFirstFault, NoFaultOfProfile};

/// Classes have at most one first fault.
pub fn one_first_fault()
    ensures { OneFirstFault }
{}

/// Classes of the profile have no first fault.
pub fn no_fault_of_profile()
    ensures { NoFaultOfProfile }
{}
