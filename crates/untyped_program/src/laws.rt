//! What follows from the definitions.

ghost use Rattle.untyped_program.specs.Laws.{FieldNumbersArePlaces, MonitorNumbersArePlaces, OneUntypedProgram};

/// The variable at the number of a field is that field's.
pub fn field_numbers_are_places()
    ensures { FieldNumbersArePlaces }
{}

/// The monitor at the number of a name has this name.
pub fn monitor_numbers_are_places()
    ensures { MonitorNumbersArePlaces }
{}

/// Reached methods make at most one program.
pub fn one_untyped_program()
    ensures { OneUntypedProgram }
{}
