//! Reached methods before they are typed.

use crate::symbol::Symbol;
use opcodes::Listing;
use program::{Frame, Items, MethodId};

/// What stands in the first locals of a method when it is entered.
#[derive(Clone, Copy, Debug, PartialEq, Eq)]
pub enum Entry {
    /// The argument of main.
    Main,
    /// The object whose `run()V` is run.
    Run,
    /// As many ints as the frame has parameters.
    Static,
}

/// A reached method: its frame, its reached instructions by place, and in the same order what each of them names.
#[derive(Debug, Drop)]
pub struct UntypedMethod {
    pub id: MethodId,
    pub entry: Entry,
    pub frame: Frame,
    pub listing: Listing,
    pub symbols: Items<Symbol>,
}
