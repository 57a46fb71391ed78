//! The calls that led to an instruction, and the instruction.

ghost use Rattle.std.specs.Prelude.{◌≡◌, IfOk, Some, refl, reverse};
ghost use Rattle.std.specs.Cmp.{eq_by_cmp_equiv, partial_equiv_from_equiv, po};
ghost use Rattle.std.specs.Ordering.{eq_by_cmp};
ghost use Rattle.spots.specs.Chains.{chain_cmp, chain_total};

use code_paths::CodePlace;
use ports::Memory;
use program::Items;
use std::alloc::Global;
use std::cmp::Ordering;
use std::marker::Model;

/// Where a thread stands in the code: the place of each call that led there, the outermost first, and then the place of the
/// instruction. Chains are ordered place by place; a chain comes before its extensions.
#[derive(Debug, Drop)]
pub struct Chain {
    places: Vec<CodePlace>,
}

impl Model for Chain {
    ghost use Rattle.std.specs.Prelude.{List};
    ghost use Rattle.code_paths.specs.declared.place.CodePlace.{CodePlace};

    ghost Value = { List CodePlace };

    ghost view = { λ chain. chain.places.items };
}

impl Chain {
    /// The chain of these places, of which the last comes first.
    ///
    /// # Errors
    /// `Memory` where there is no room for them.
    pub fn of_innermost_first(alloc: Global, places: &[CodePlace]) -> Result<Chain, Memory>
        ensures { IfOk result (λ chain. chain ≡ reverse places.now) }
    {
        let mut chain = Chain::copied(alloc, places)?;
        chain.places.reverse();
        Ok(chain)
    }

    /// The chain of these places.
    fn copied(alloc: Global, places: &[CodePlace]) -> Result<Chain, Memory>
        ensures { IfOk result (λ chain. chain ≡ places.now) }
    {
        let mut copy = Vec::new(alloc);
        copy.extend_from_slice(places).map_err(|_| Memory)?;
        Ok(Chain { places: copy })
    }

    /// The same chain.
    ///
    /// # Errors
    /// `Memory` where there is no room for it.
    pub fn copy(&self, alloc: Global) -> Result<Chain, Memory>
        ensures { IfOk result (λ chain. chain ≡ self.now) }
    {
        Chain::copied(alloc, self.as_slice())
    }

    /// Its places, the outermost first.
    pub fn as_slice(&self) -> &[CodePlace]
        ensures { result.now ≡ self.now }
    {
        self.places.as_slice()
    }

    /// Its places, the innermost first.
    ///
    /// # Errors
    /// `Memory` where there is no room for them.
    pub fn innermost_first(&self, alloc: Global) -> Result<Items<CodePlace>, Memory>
        ensures { IfOk result (λ places. places ≡ reverse self.now) }
    {
        let mut chain = self.copy(alloc)?;
        chain.places.reverse();
        Ok(Items::of(chain.places))
    }
}

impl PartialEq for Chain {
    ghost eq = { eq_by_cmp chain_cmp };

    ghost laws = { partial_equiv_from_equiv (eq_by_cmp_equiv chain_total) };

    fn eq(&self, other: &Chain) -> bool {
        self.cmp(other).is_eq()
    }
}

impl Eq for Chain {
    ghost laws = { eq_by_cmp_equiv chain_total };
}

impl PartialOrd for Chain {
    ghost partial_cmp = { λ a b. Some (chain_cmp a b) };

    ghost laws = { po chain_total (λ a b. refl) };

    fn partial_cmp(&self, other: &Chain) -> Option<Ordering> {
        Some(self.cmp(other))
    }
}

impl Ord for Chain {
    ghost cmp = { chain_cmp };

    ghost total = { chain_total };

    ghost matches_partial_cmp = { λ a b. refl };

    ghost matches_eq = { λ a b. refl };

    fn cmp(&self, other: &Chain) -> Ordering {
        self.places.cmp(&other.places)
    }
}
