//! What follows from the definitions.

ghost use Rattle.linking.specs.Laws.{OneProgram, OneRefusal, ProgramOrRefusal};

/// Classes make at most one program.
pub fn one_program()
    ensures { OneProgram }
{
    reached_methods::one_list();
    untyped_program::one_untyped_program();
    typing::one_typing();
}

/// Classes meet at most one refusal but want of memory.
pub fn one_refusal()
    ensures { OneRefusal }
{
    class_profile::one_first_fault();
    class_profile::no_fault_of_profile();
    reached_methods::one_first_fault();
    reached_methods::no_first_fault();
    reached_methods::one_list();
    untyped_program::one_untyped_program();
    typing::one_refusal();
}

/// Classes that make a program meet no refusal but want of memory.
pub fn program_or_refusal()
    ensures { ProgramOrRefusal }
{
    class_profile::no_fault_of_profile();
    reached_methods::no_first_fault();
    reached_methods::one_list();
    untyped_program::one_untyped_program();
}
