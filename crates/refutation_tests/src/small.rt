//! A small source of instances: a literal under rule 1, its opposite under rule 2, and no literal under rule 14 of 5.

ghost use Rattle.std.specs.Prelude.{◌≡◌, ◌≢◌, [], ◌∷◌, IfOk, MatchOption};
ghost use Rattle.refutation_tests.specs.declared.small.Kind.{Kind};
ghost use Rattle.refutation_tests.specs.Small.{literal_of, literals_of, rule_of};

use ports::Memory;
use std::alloc::Global;
use var_names::{Arg, Args, Family, Lit, Rule, RuleClause, RuleRefusal, RuleSource, Var};

/// The instances.
#[derive(Clone, Copy, Debug, PartialEq, Eq, Drop)]
pub enum Kind {
    Holds,
    Fails,
    Empty,
}

/// The source.
#[derive(Clone, Copy, Debug, PartialEq, Eq, Drop)]
pub struct Small;

/// Which instance a rule without arguments names.
fn kind_of_number(number: u32) -> Option<Kind>
    ensures { MatchOption result ((kind : Kind) → record { number = number; args = [] } ≢ rule_of kind)
        (λ kind. record { number = number; args = [] } ≡ rule_of kind) }
{
    match number {
        1 => Some(Kind::Holds),
        2 => Some(Kind::Fails),
        _ => None,
    }
}

/// Which instance a rule with one argument names.
fn kind_of_argument(number: u32, argument: Arg) -> Option<Kind>
    ensures { MatchOption result ((kind : Kind) → record { number = number; args = argument ∷ [] } ≢ rule_of kind)
        (λ kind. record { number = number; args = argument ∷ [] } ≡ rule_of kind) }
{
    if number != 14 {
        return None;
    }
    match argument {
        Arg::Number(5) => Some(Kind::Empty),
        _ => None,
    }
}

/// Which instance a rule names.
fn kind_of(rule: &Rule) -> Option<Kind>
    ensures { MatchOption result ((kind : Kind) → rule.now ≢ rule_of kind) (λ kind. rule.now ≡ rule_of kind) }
{
    match rule.args.as_slice() {
        [] => kind_of_number(rule.number),
        [argument] => kind_of_argument(rule.number, *argument),
        _ => None,
    }
}

/// The literal, or its opposite.
fn literal(positive: bool) -> Lit
    ensures { result ≡ literal_of positive }
{
    let mut args = Args::new();
    args.push(Arg::Number(0));
    args.push(Arg::Number(0));
    Lit {
        var: Var::new(Family::On, args),
        positive,
    }
}

/// The clause of an instance.
fn clause_of_kind(alloc: Global, kind: Kind) -> Result<RuleClause, Memory>
    ensures { IfOk result (λ clause. clause ≡ literals_of kind) }
{
    let mut clause = RuleClause::new(alloc);
    match kind {
        Kind::Holds => clause.push(literal(true))?,
        Kind::Fails => clause.push(literal(false))?,
        Kind::Empty => {}
    }
    Ok(clause)
}

impl RuleSource for Small {
    ghost use Rattle.refutation_tests.specs.Small.{small_instances, small_apart};

    ghost instances = { λ _. small_instances };

    ghost apart = { λ _. small_apart };

    fn clause_of(&self, alloc: Global, rule: &Rule) -> Result<RuleClause, RuleRefusal> {
        let Some(kind) = kind_of(rule) else {
            return Err(RuleRefusal::BadRule);
        };
        let clause = clause_of_kind(alloc, kind)?;
        Ok(clause)
    }
}
