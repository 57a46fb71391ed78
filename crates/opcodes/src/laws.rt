//! Laws of the definitions. A caller takes one by calling its function, which does nothing.

ghost use Rattle.opcodes.specs.Laws.{OneInstruction, OneListing};

/// One instruction at most begins at a place of a code.
pub fn one_instruction()
    ensures { OneInstruction }
{}

/// A code has one listing at most.
pub fn one_listing()
    ensures { OneListing }
{}
