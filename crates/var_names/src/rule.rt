ghost use Rattle.std.specs.Prelude.{AllPairs, ◌++◌, ◌<◌, ◌≡◌, ◌↔◌, ◌≢◌, ℕ, [], ◌∷◌, IsSome, length, OnErr, OnOk, slice_get, Option, None, List};
ghost use Rattle.std.specs.Option.{option_copied};
ghost use Rattle.var_names.specs.Instances.{FindsClause};
ghost use Rattle.var_names.specs.Formulas.{RuledClause};

use crate::args::Args;
use crate::var::Lit;
use ports::Memory;
use smallvec::SmallVec;
use std::alloc::Global;
use std::marker::Model;
use thiserror::Error;

/// What names an instance: the number of a rule, and arguments.
#[derive(Clone, Copy, Debug, PartialEq, Eq, Hash, Drop)]
pub struct Rule {
    pub number: u32,
    pub args: Args,
}

/// The clause of an instance: a list of literals, of which one is to be true.
#[derive(Debug, Drop)]
pub struct RuleClause {
    items: SmallVec<Lit, 8>,
}

impl Model for RuleClause {
    ghost use Rattle.std.specs.Prelude.{List};
    ghost use Rattle.var_names.specs.declared.var.Lit.{Lit};

    ghost Value = { List Lit };

    ghost view = { λ clause. clause.items.items };
}

impl RuleClause {
    /// No literal.
    pub fn new(alloc: Global) -> RuleClause
        ensures { result ≡ [] }
    {
        RuleClause {
            items: SmallVec::new(alloc),
        }
    }

    /// Adds a literal at the end.
    ///
    /// # Errors
    /// `Memory` where there is no room. Then nothing changed.
    pub fn push(&mut self, lit: Lit) -> Result<(), Memory>
        ensures ok { OnOk result (self.new ≡ self.old ++ lit ∷ []) }
        ensures memory { OnErr result (self.new ≡ self.old) }
    {
        self.items.push(lit).map_err(|_| Memory)
    }

    /// How many literals there are.
    pub fn len(&self) -> usize
        ensures { result ≡ length self.now }
    {
        self.items.len()
    }

    /// The literal at a place, or `None` exactly at or past the length.
    pub fn get(&self, at: usize) -> Option<&Lit>
        ensures value { option_copied result ≡ slice_get self.now at }
        ensures within { IsSome result ↔ (at < length self.now) }
    {
        self.as_slice().get(at)
    }

    /// What its memory comes from.
    pub(crate) fn alloc(&self) -> Global {
        *self.items.allocator()
    }

    /// All of them.
    pub fn as_slice(&self) -> &[Lit]
        ensures { result.now ≡ self.now }
    {
        self.items.as_slice()
    }
}

/// Why a rule has no clause.
#[derive(Clone, Copy, Debug, PartialEq, Eq, Drop, Error)]
pub enum RuleRefusal {
    /// The number and the arguments name no instance.
    #[error("the rule names no instance")]
    BadRule,
    /// Memory ran out.
    #[error("memory ran out")]
    Memory,
}

impl From<Memory> for RuleRefusal {
    ghost use Rattle.var_names.specs.declared.rule.RuleRefusal.TheVariants.{Memory as NoMemory};

    ghost from_gives = { λ _ refusal. refusal ≡ NoMemory };

    fn from(_: Memory) -> RuleRefusal {
        RuleRefusal::Memory
    }
}

/// A list of instances, no two of them under one rule.
pub trait RuleSource {
    ghost instances: { Self → List RuledClause };

    /// The clause of the instance that the rule names.
    ///
    /// # Errors
    /// `BadRule` exactly where the rule names no instance, but for want of memory.
    fn clause_of(&self, alloc: Global, rule: &Rule) -> Result<RuleClause, RuleRefusal>
        ensures { FindsClause (instances self.now) rule.now result };

    ghost apart: { (source : Self) → AllPairs (λ earlier later. earlier.rule ≢ later.rule) (instances source) };
}
