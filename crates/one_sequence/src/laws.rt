//! The law. A caller takes it by calling its function, which does nothing.

ghost use Rattle.one_sequence.specs.Pairs.{OneTextOnePair};

/// Bytes are the text of at most one execution with a sequence.
pub fn one_text_one_pair()
    ensures { OneTextOnePair }
{}
