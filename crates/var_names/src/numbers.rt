ghost use Rattle.std.specs.Prelude.{◌++◌, ◌*◌, ◌+◌, ◌<◌, ◌≡◌, ◌^◌, List, [], ◌∷◌, IfOk, length, OnErr, OnOk, slice_get, Some};
ghost use Rattle.var_names.specs.LiteralNumbers.{AddsVariable, AddsVariables, AreNumbers, Grown, lit_of};

use crate::var::{Lit, Var};
use indexmap::IndexSet;
use ports::Memory;
use smallvec::SmallVec;
use std::alloc::Global;
use std::marker::Model;

/// The place of a variable among these, to which it is added where it is new.
fn place_of(variables: &mut IndexSet<Var>, var: Var) -> Result<usize, Memory>
    ensures added { OnOk result (AddsVariable variables.old.keys var variables.new.keys) }
    ensures place { IfOk result (λ place. slice_get variables.new.keys place ≡ Some var) }
    ensures within { IfOk result (λ place. place < length variables.new.keys) }
    ensures memory { OnErr result (variables.new.keys ≡ variables.old.keys) }
{
    match variables.insert_full(var) {
        Ok((place, _)) => Ok(place),
        Err(_) => Err(Memory),
    }
}

/// The number of a literal among these variables, to which its variable is added where it is new, on condition that they
/// are fewer than 2^31 - 1.
///
/// # Errors
/// `Memory` where there is no room. Then the variables are what they were.
pub fn number_of(variables: &mut IndexSet<Var>, lit: &Lit) -> Result<u32, Memory>
    requires { length variables.old.keys + 1 < 2 ^ 31 }
    ensures added { OnOk result (AddsVariable variables.old.keys lit.now.var variables.new.keys) }
    ensures number { IfOk result (λ n. lit_of variables.new.keys n ≡ lit.now) }
    ensures below { IfOk result (λ n. n < 2 * length variables.new.keys) }
    ensures memory { OnErr result (variables.new.keys ≡ variables.old.keys) }
{
    let place = place_of(variables, lit.var)? as u32;
    Ok(if lit.positive {
        2 * place
    } else {
        2 * place + 1
    })
}

/// The numbers of a clause's literals.
#[derive(Debug, Drop)]
pub(crate) struct Numbers {
    items: SmallVec<u32, 8>,
}

impl Model for Numbers {
    ghost use Rattle.std.specs.Prelude.{List, ℕ};

    ghost Value = { List ℕ };

    ghost view = { λ numbers. numbers.items.items };
}

impl Numbers {
    /// No number.
    fn new(alloc: Global) -> Numbers
        ensures { result ≡ [] }
    {
        Numbers {
            items: SmallVec::new(alloc),
        }
    }

    /// Adds a number at the end.
    fn push(&mut self, number: u32) -> Result<(), Memory>
        ensures ok { OnOk result (self.new ≡ self.old ++ number ∷ []) }
    {
        self.items.push(number).map_err(|_| Memory)
    }

    /// All of them.
    pub(crate) fn as_slice(&self) -> &[u32]
        ensures { result.now ≡ self.now }
    {
        self.items.as_slice()
    }
}

/// The numbers of literals among these variables, to which each variable is added where it is new.
pub(crate) fn numbers_of(
    variables: &mut IndexSet<Var>,
    alloc: Global,
    literals: &[Lit],
) -> Result<Numbers, Memory>
    requires { length variables.old.keys + length literals.now < 2 ^ 31 }
    ensures added { OnOk result (AddsVariables variables.old.keys literals.now variables.new.keys) }
    ensures numbers { IfOk result (AreNumbers variables.new.keys literals.now) }
    ensures grown { Grown variables.old.keys variables.new.keys }
{
    let mut numbers = Numbers::new(alloc);
    for lit in literals {
        let number = number_of(variables, lit)?;
        numbers.push(number)?;
    }
    Ok(numbers)
}
