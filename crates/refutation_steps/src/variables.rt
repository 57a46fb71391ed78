ghost use Rattle.std.specs.Prelude.{◌++◌, ◌*◌, ◌<◌, ◌≡◌, ◌⊎◌, [], ◌∷◌, length, Contains, false, IfErr, IfOk, OnErr, OnOk, true};
ghost use Rattle.var_names.specs.LiteralNumbers.{AddsVariable, lit_of};

use indexmap::IndexSet;
use ports::Memory;
use refutation_check::{HintRefusal, Marks};
use var_names::{Lit, Var, number_of};

/// The most variables that there is room for.
const MOST: usize = (1 << 31) - 2;

/// The number of a literal among these variables, to which its variable is added where it is new.
pub(crate) fn place(variables: &mut IndexSet<Var>, literal: &Lit) -> Result<u32, Memory>
    ensures added { OnOk result (AddsVariable variables.old.keys literal.now.var variables.new.keys) }
    ensures number { IfOk result (λ n. lit_of variables.new.keys n ≡ literal.now) }
    ensures below { IfOk result (λ n. n < 2 * length variables.new.keys) }
    ensures memory { OnErr result (variables.new.keys ≡ variables.old.keys) }
{
    if variables.len() > MOST {
        return Err(Memory);
    }
    number_of(variables, literal)
}

/// Whether there is a mark at one of two numbers.
pub(crate) fn is_either_marked(marks: &Marks, number: u32, other: u32) -> bool
    ensures marked { result ≡ true → Contains marks.now number ⊎ Contains marks.now other }
    ensures number { result ≡ false → ¬ (Contains marks.now number) }
    ensures other { result ≡ false → ¬ (Contains marks.now other) }
{
    if marks.is_marked(number) {
        return true;
    }
    marks.is_marked(other)
}

/// Makes a literal true.
pub(crate) fn make_true(marks: &mut Marks, literal: u32) -> Result<(), HintRefusal>
    ensures ok { OnOk result (marks.new ≡ marks.old ++ literal ∷ []) }
    ensures same { OnErr result (marks.new ≡ marks.old) }
    ensures memory { IfErr result (λ refusal. refusal ≡ HintRefusal.Memory) }
{
    match marks.mark(literal) {
        Ok(()) => Ok(()),
        Err(_) => Err(HintRefusal::Memory),
    }
}
