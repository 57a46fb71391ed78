ghost use Rattle.std.specs.Prelude.{◌++◌, ◌*◌, ◌+◌, ◌<◌, ◌≡◌, ◌≢◌, ◌≤◌, ◌↔◌, ◌^◌, [], ◌∷◌, AllPairs, IfOk, IfSome, IsSome, length, OnErr, OnOk, slice_get};
ghost use Rattle.std.specs.Option.{option_copied, option_map};
ghost use Rattle.var_names.specs.LiteralNumbers.{AddsVariables, AreNumbers, Grown, lit_of};
ghost use Rattle.var_names.specs.NumberedClauses.{AppendsNumbered};

use crate::numbers::{Numbers, numbers_of};
use crate::rule::{Rule, RuleClause};
use crate::var::{Lit, Var};
use indexmap::IndexSet;
use ports::Memory;
use std::alloc::Global;
use std::marker::Model;

/// A clause under its rule, its literals by number.
#[derive(Debug, Drop)]
pub(crate) struct NumberedClause {
    rule: Rule,
    numbers: Numbers,
}

/// A list of clauses, each under its rule, and the number of steps that they speak of. Its variables are those of its
/// literals, each where it first appears. The variable at place v is the literal number 2v, its negation 2v + 1.
#[derive(Drop)]
pub struct Formula {
    steps: u32,
    variables: IndexSet<Var>,
    clauses: Vec<NumberedClause>,
}

impl Model for Formula {
    ghost use Rattle.var_names.specs.Formulas.{FormulaValue};

    ghost Value = { FormulaValue };

    ghost use Rattle.var_names.specs.NumberedClauses.{IsNumbered, ruled_clauses};

    ghost view = { λ formula. record {
      steps = formula.steps;
      variables = formula.variables.keys;
      clauses = ruled_clauses formula.variables.keys formula.clauses.items;
    } };

    ghost invariant = { λ formula. IsNumbered formula.variables.keys formula.clauses.items };
}

/// Adds a clause at the end. Where there is no room for it, the variables go on as they began.
fn try_append(
    variables: &mut IndexSet<Var>,
    clauses: &mut Vec<NumberedClause>,
    clause: &RuleClause,
    rule: Rule,
) -> Result<(), Memory>
    requires { length variables.old.keys + length clause.now < 2 ^ 31 }
    ensures ok { OnOk result (AppendsNumbered variables.old.keys clauses.old.items clause.now rule variables.new.keys clauses.new.items) }
    ensures grown { Grown variables.old.keys variables.new.keys }
    ensures memory { OnErr result (clauses.new.items ≡ clauses.old.items) }
{
    let numbers = numbers_of(variables, clause.alloc(), clause.as_slice())?;
    clauses
        .push(NumberedClause { rule, numbers })
        .map_err(|_| Memory)
}

/// Adds a clause at the end. Where there is no room for it, nothing changes.
fn append(
    variables: &mut IndexSet<Var>,
    clauses: &mut Vec<NumberedClause>,
    clause: &RuleClause,
    rule: Rule,
) -> Result<(), Memory>
    requires { length variables.old.keys + length clause.now < 2 ^ 31 }
    ensures ok { OnOk result (AppendsNumbered variables.old.keys clauses.old.items clause.now rule variables.new.keys clauses.new.items) }
    ensures variables { OnErr result (variables.new.keys ≡ variables.old.keys) }
    ensures clauses { OnErr result (clauses.new.items ≡ clauses.old.items) }
{
    let known = variables.len();
    match try_append(variables, clauses, clause, rule) {
        Ok(()) => Ok(()),
        Err(memory) => {
            variables.truncate(known);
            Err(memory)
        }
    }
}

impl Formula {
    ghost use Rattle.var_names.specs.Formulas.{AppendsClause, literals_of, NamesClause};

    /// A formula without clauses, of this number of steps.
    pub fn new(alloc: Global, steps: u32) -> Formula
        ensures { result ≡ record { steps = steps; variables = []; clauses = [] } }
    {
        Formula {
            steps,
            variables: IndexSet::new(alloc),
            clauses: Vec::new(alloc),
        }
    }

    /// Adds a clause under its rule, on condition that no literal stands in it twice, and that the formula's variables
    /// and its literals together number less than 2^31.
    ///
    /// # Errors
    /// `Memory` where there is no room. Then nothing changed.
    pub fn push(&mut self, clause: RuleClause, rule: Rule) -> Result<(), Memory>
        requires once { AllPairs ◌≢◌ clause }
        requires few { length self.old.variables + length clause < 2 ^ 31 }
        ensures ok { OnOk result (AppendsClause self.old clause rule self.new) }
        ensures memory { OnErr result (self.new ≡ self.old) }
    {
        append(&mut self.variables, &mut self.clauses, &clause, rule)
    }

    /// The number of steps.
    pub fn steps(&self) -> u32
        ensures { result ≡ self.now.steps }
    {
        self.steps
    }

    /// How many variables there are.
    pub fn variables(&self) -> usize
        ensures variables { result ≡ length self.now.variables }
        ensures first { AddsVariables [] (literals_of self.now.clauses) self.now.variables }
    {
        self.variables.len()
    }

    /// The variable at a place, or `None` exactly at or past their number.
    pub fn variable(&self, at: usize) -> Option<&Var>
        ensures value { option_copied result ≡ slice_get self.now.variables at }
        ensures within { IsSome result ↔ (at < length self.now.variables) }
    {
        self.variables.get_index(at)
    }

    /// The literal of a number, on condition that it is one of a variable.
    pub fn lit(&self, number: u32) -> Lit
        requires { number < 2 * length self.now.variables }
        ensures { result ≡ lit_of self.now.variables number }
    {
        let place = (number / 2) as usize;
        Lit {
            var: self.variables.as_slice()[place],
            positive: number % 2 == 0,
        }
    }

    /// How many clauses there are.
    pub fn clauses(&self) -> usize
        ensures { result ≡ length self.now.clauses }
    {
        self.clauses.len()
    }

    /// The numbers of the literals of the clause at a place, or `None` exactly at or past their number.
    pub fn clause(&self, at: usize) -> Option<&[u32]>
        ensures numbers { IfSome result (λ numbers. NamesClause self.now at numbers.now) }
        ensures within { IsSome result ↔ (at < length self.now.clauses) }
    {
        Some(self.clauses.get(at)?.numbers.as_slice())
    }

    /// The rule of the clause at a place, or `None` exactly at or past their number.
    pub fn rule(&self, at: usize) -> Option<&Rule>
        ensures value { option_copied result ≡ option_map (λ clause. clause.rule) (slice_get self.now.clauses at) }
        ensures within { IsSome result ↔ (at < length self.now.clauses) }
    {
        Some(&self.clauses.get(at)?.rule)
    }
}
