//! Formulas whose clauses are numbered by their rules, which are a source of instances.

ghost use Rattle.std.specs.Prelude.{◌≡◌, ◌≢◌, ◌<◌, AllPairs, List, IfOk, MatchOption, OnOk, Some, slice_get, length};
ghost use Rattle.var_names.specs.declared.var.Lit.{Lit};
ghost use Rattle.var_names.specs.Formulas.{RuledClause};
ghost use Rattle.var_names.specs.Instances.{IsInstance};
ghost use Rattle.solver_tests.specs.Numbers.{HaveNumbersUpto, number_of};
ghost use Rattle.solver_tests.specs.Ruled.{HaveTheirNumbers, HasRule};

use ports::Memory;
use std::alloc::Global;
use var_names::{Arg, Args, Family, Formula, Lit, Rule, RuleClause, RuleRefusal, RuleSource, Var};

/// A formula whose clauses have the rules 1, 2 and so on, in their order.
#[derive(Drop)]
pub struct RuledFormula {
    formula: Formula,
    ghost numbered: { HaveTheirNumbers formula.clauses },
}

/// A literal of a variable.
fn literal(variable: u32, positive: bool) -> Lit
    ensures { number_of result.var.args ≡ variable }
{
    let mut args = Args::new();
    args.push(Arg::Number(0));
    args.push(Arg::Number(variable));
    Lit {
        var: Var::new(Family::On, args),
        positive,
    }
}

/// Adds a literal of a variable with a higher number than all that are there.
fn push_higher(clause: &mut RuleClause, last: u32, lit: Lit) -> Result<(), Memory>
    requires apart { AllPairs ◌≢◌ clause.old }
    requires upto { HaveNumbersUpto clause.old last }
    requires higher { last < number_of lit.var.args }
    ensures apart { OnOk result (AllPairs ◌≢◌ clause.new) }
    ensures upto { OnOk result (HaveNumbersUpto clause.new (number_of lit.var.args)) }
{
    clause.push(lit)
}

/// The clause of these literals; those that come behind a higher variable are left out.
fn clause_of(alloc: Global, literals: &[i32]) -> Result<RuleClause, Memory>
    ensures { IfOk result (λ clause. AllPairs ◌≢◌ clause) }
{
    let mut clause = RuleClause::new(alloc);
    let mut last = 0;
    for number in literals {
        let variable = number.unsigned_abs();
        if variable > last {
            push_higher(&mut clause, last, literal(variable, *number > 0))?;
            last = variable;
        }
    }
    Ok(clause)
}

impl RuledFormula {
    /// A formula without clauses.
    pub fn new(alloc: Global) -> RuledFormula {
        RuledFormula {
            formula: Formula::new(alloc, 1),
        }
    }

    /// The formula alone.
    pub fn formula(&self) -> &Formula {
        &self.formula
    }

    /// Adds the clause of these literals: numbers of variables from 1 on, or with a minus their negations. One that comes
    /// behind a higher variable is left out.
    ///
    /// # Errors
    /// `Memory` where there is no room.
    pub fn push(&mut self, alloc: Global, literals: &[i32]) -> Result<(), Memory> {
        let clause = clause_of(alloc, literals)?;
        let before = self.formula.clauses();
        if before >= 1 << 31 || self.formula.variables() >= 1 << 30 || clause.len() >= 1 << 30 {
            return Err(Memory);
        }
        let rule = Rule {
            number: before as u32 + 1,
            args: Args::new(),
        };
        self.formula.push(clause, rule)
    }

    /// The place of the clause that has this rule.
    fn place_of(&self, rule: &Rule) -> Option<usize>
        ensures { MatchOption result ((literals : List Lit) → ¬ (IsInstance self.now.formula.clauses rule.now literals))
            (HasRule self.now.formula.clauses rule.now) }
    {
        if rule.number == 0 || rule.args.len() > 0 {
            return None;
        }
        let place = rule.number as usize - 1;
        if place < self.formula.clauses() {
            Some(place)
        } else {
            None
        }
    }

    /// The literals of the clause at this place.
    fn clause_at(&self, alloc: Global, place: usize) -> Result<RuleClause, Memory>
        requires { place < length self.now.formula.clauses }
        ensures { IfOk result (λ literals. (clause : RuledClause) → slice_get self.now.formula.clauses place ≡ Some clause → literals ≡ clause.literals) }
    {
        let Some(numbers) = self.formula.clause(place) else {
            unreachable!()
        };
        let mut clause = RuleClause::new(alloc);
        for number in numbers {
            clause.push(self.formula.lit(*number))?;
        }
        Ok(clause)
    }
}

impl RuleSource for RuledFormula {
    ghost use Rattle.solver_tests.specs.Ruled.{rules_apart};

    ghost instances = { λ source. source.formula.clauses };

    ghost apart = { λ source. rules_apart source.formula.clauses source.numbered };

    fn clause_of(&self, alloc: Global, rule: &Rule) -> Result<RuleClause, RuleRefusal> {
        let Some(place) = self.place_of(rule) else {
            return Err(RuleRefusal::BadRule);
        };
        let clause = self.clause_at(alloc, place)?;
        Ok(clause)
    }
}
