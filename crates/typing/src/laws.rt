//! Laws of the definitions. A caller takes one by calling its function, which does nothing.

ghost use Rattle.typing.specs.Laws.{OneRefusal, OneTyping, NoRefusalOfTyped};

/// A method has at most one refusal.
pub fn one_refusal()
    ensures { OneRefusal }
{}

/// A method has at most one list of typed states.
pub fn one_typing()
    ensures { OneTyping }
{}

/// A method that has types has no refusal.
pub fn no_refusal_of_typed()
    ensures { NoRefusalOfTyped }
{}
