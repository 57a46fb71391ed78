//! Clauses, literal by literal.

ghost use Rattle.std.specs.Prelude.{◌≡◌, [], ◌∷◌, ◌++◌, OnOk, map};
ghost use Rattle.rule_base.specs.Domains.{domain, members};
ghost use Rattle.rule_base.specs.Literals as spec;

use crate::choices::Choices;
use crate::letter::Letter;
use crate::question::Question;
use crate::variables::{go, on};
use ports::Memory;
use var_names::{Lit, RuleClause, Var};

/// Adds a variable.
pub fn plus(out: &mut RuleClause, var: Var) -> Result<(), Memory>
    ensures { OnOk result (out.new ≡ out.old ++ spec.plus var ∷ []) }
{
    out.push(Lit {
        var,
        positive: true,
    })
}

/// Adds a variable's negation.
pub fn minus(out: &mut RuleClause, var: Var) -> Result<(), Memory>
    ensures { OnOk result (out.new ≡ out.old ++ spec.minus var ∷ []) }
{
    out.push(Lit {
        var,
        positive: false,
    })
}

/// Adds the literals that say, for both signs together, that two variables are equal.
pub fn equal(out: &mut RuleClause, u: Var, v: Var, sign: u32) -> Result<(), Memory>
    ensures { OnOk result (out.new ≡ out.old ++ spec.equal u v sign) }
{
    if sign == 1 {
        minus(out, u)?;
        return plus(out, v);
    }
    plus(out, u)?;
    minus(out, v)
}

/// Variables of a copy that differ in one number alone.
#[derive(Clone, Copy, Debug, PartialEq, Eq, Drop)]
pub enum Each {
    /// The nodes that are taken.
    EachNode(u32),
    /// The edges that are taken.
    EachEdge(u32),
}

impl Each {
    /// The variable at a number.
    pub fn at(self, x: u32) -> Var
        ensures { result ≡ spec.each_at self x }
    {
        match self {
            Each::EachNode(copy) => on(copy, x),
            Each::EachEdge(copy) => go(copy, x),
        }
    }
}

impl<'a> Question<'a> {
    /// Adds a literal, all of one sign, at each number of a letter after these choices.
    pub fn literals_at(
        &self,
        out: &mut RuleClause,
        letter: Letter,
        before: &Choices,
        each: Each,
        positive: bool,
    ) -> Result<(), Memory>
        ensures { OnOk result (out.new ≡ out.old ++ map (λ x. spec.literal positive (spec.each_at each x)) (members (domain self.now letter before.now))) }
    {
        for x in 0..self.size(letter, before) {
            let number = x as u32;
            if self.fits(letter, before, number) {
                out.push(Lit {
                    var: each.at(number),
                    positive,
                })?;
            }
        }
        Ok(())
    }
}
