//! Places in the code of methods, and the steps between them.

ghost use Rattle.std.specs.Prelude.{false};
ghost use Rattle.std.proofs.Common.{rules};
ghost use Rattle.std.specs.Cmp.{partial_order_from_own_ties};
ghost use Rattle.std.specs.Cmp.Rules.{comparing};
ghost use Rattle.std.specs.Ordering.{as_partial_cmp};
ghost use Rattle.code_paths.specs.Order.{place_cmp};

use program::{Items, MethodId};
use std::cmp::Ordering;

/// A place in the code of a method. Places are ordered by their place in the code, and then by method.
#[derive(Clone, Copy, Debug, PartialEq, Eq, Drop)]
pub struct CodePlace {
    pub method: MethodId,
    pub pc: u64,
}

impl Ord for CodePlace {
    ghost cmp = { place_cmp };

    ghost total = { Prim.search (comparing, rules) };

    ghost matches_partial_cmp = { Prim.search (comparing, rules) };

    ghost matches_eq = { Prim.search (comparing, rules) };

    fn cmp(&self, other: &CodePlace) -> Ordering {
        self.pc
            .cmp(&other.pc)
            .then(self.method.class.cmp(&other.method.class))
            .then(self.method.method.cmp(&other.method.method))
    }
}

impl PartialOrd for CodePlace {
    ghost partial_cmp = { as_partial_cmp place_cmp };

    ghost laws = { partial_order_from_own_ties (Prim.search (comparing, rules)) (Prim.search (comparing, rules)) };

    fn partial_cmp(&self, other: &CodePlace) -> Option<Ordering> {
        Some(self.cmp(other))
    }
}

/// One step along the code: whether a jump is taken, whether that jump is backward, and where it leads. The place of the
/// instruction stands first there, and then those of the calls that led to it, the last call first; there is none behind the
/// outermost return.
#[derive(Debug, Drop)]
pub struct CodeHop {
    pub taken: bool,
    pub backward: bool,
    pub to: Items<CodePlace>,
}
