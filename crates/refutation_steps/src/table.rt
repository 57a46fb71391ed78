ghost use Rattle.std.specs.Prelude.{◌++◌, ◌-◌, ◌≡◌, ◌≢◌, ◌↔◌, List, [], ◌∷◌, All, Any, false, true, IfErr, IfOk, IsTrue, map, MatchBool, MatchResult, None, OnOk, slice_set, Some};
ghost use Rattle.var_names.specs.declared.var.Lit.{Lit};
ghost use Rattle.refutation_lines.specs.Propagation.{IsLive, negation};
ghost use Rattle.refutation_steps.specs.HintSteps.{Follows, IsFalsified, IsWrongHint};
ghost use Rattle.refutation_steps.specs.Tables.{ready, TakesOne};

use crate::variables::{is_either_marked, make_true, place};
use indexmap::IndexSet;
use ports::Memory;
use refutation_check::{
    HintRefusal, LiteralNumbers, LiveClauses, Marks, last_hint, negation, unit_of_hint,
};
use std::alloc::Global;
use std::marker::Model;
use std::mem;
use var_names::{Lit, Var};

/// The clauses of a refutation up to a line, and of the line that is read the literals so far and what was made true. The
/// variables of all literals that were read are kept, and the clauses that are live.
#[derive(Drop)]
pub struct ClauseTable {
    variables: IndexSet<Var>,
    live: LiveClauses,
    clause: LiteralNumbers,
    marks: Marks,
}

impl Model for ClauseTable {
    ghost use Rattle.std.specs.Prelude.{map};
    ghost use Rattle.var_names.specs.LiteralNumbers.{lit_of};
    ghost use Rattle.numbered_hints.specs.ByLiteral.{literals_of};
    ghost use Rattle.refutation_steps.specs.Tables.{IsTable, TableValue};

    ghost Value = { TableValue };

    ghost view = { λ table. record {
      clauses = literals_of table.variables.keys table.live;
      literals = map (lit_of table.variables.keys) table.clause;
      trues = map (lit_of table.variables.keys) table.marks;
    } };

    ghost invariant = { λ table. IsTable table.variables.keys table.live table.clause table.marks };
}

impl ClauseTable {
    /// No clause.
    pub fn new(alloc: Global) -> ClauseTable
        ensures { result ≡ ready [] }
    {
        ClauseTable {
            variables: IndexSet::new(alloc),
            live: LiveClauses::new(alloc),
            clause: LiteralNumbers::new(alloc),
            marks: Marks::new(alloc),
        }
    }

    /// Reads the next literal of an instance.
    ///
    /// # Errors
    /// `Memory` where there is no room.
    fn add(&mut self, literal: &Lit) -> Result<(), Memory>
        ensures ok { OnOk result (self.new ≡ record self.old { literals = self.old.literals ++ literal.now ∷ [] }) }
    {
        let number = place(&mut self.variables, literal)?;
        self.clause.push(number)
    }

    /// Reads the next literal of a derived clause, and makes it false; or answers that a literal of its variable was read
    /// before.
    ///
    /// # Errors
    /// `Memory` where there is no room.
    pub fn read_literal(&mut self, literal: &Lit) -> Result<bool, Memory>
        requires { self.old.trues ≡ map negation self.old.literals }
        ensures new { IfOk result (λ new. MatchBool new (All (λ (earlier : Lit). earlier.var ≢ literal.now.var) self.old.literals)
            (Any (λ (earlier : Lit). earlier.var ≡ literal.now.var) self.old.literals)) }
        ensures clauses { OnOk result (self.new.clauses ≡ self.old.clauses) }
        ensures literals { IfOk result (λ new. new ≡ true → self.new.literals ≡ self.old.literals ++ literal.now ∷ []) }
        ensures trues { IfOk result (λ new. new ≡ true → self.new.trues ≡ self.old.trues ++ negation literal.now ∷ []) }
    {
        let number = place(&mut self.variables, literal)?;
        let opposite = negation(number);
        if is_either_marked(&self.marks, number, opposite) {
            return Ok(false);
        }
        self.clause.push(number)?;
        self.marks.mark(opposite)?;
        Ok(true)
    }

    /// The number of a clause in 64 bits; there is no clause of a larger one.
    fn number(&self, number: u128) -> Result<u64, HintRefusal>
        ensures number { IfOk result (λ small. small ≡ number) }
        ensures unknown { IfErr result (λ refusal. (refusal ≡ HintRefusal.Unknown)
            × ((literals : List Lit) → ¬ (IsLive self.now.clauses number literals))) }
    {
        let _few = self.live.count();
        match u64::try_from(number) {
            Ok(number) => Ok(number),
            Err(_) => Err(HintRefusal::Unknown),
        }
    }

    /// Follows a hint that is not the last: makes the one literal of its clause true that is not false.
    ///
    /// # Errors
    /// The fault of the hint; `Memory` where there is no room.
    pub fn follow_hint(&mut self, hint: u128) -> Result<(), HintRefusal>
        ensures followed { OnOk result (Follows self.old.clauses self.old.trues hint self.new.trues) }
        ensures clauses { OnOk result (self.new.clauses ≡ self.old.clauses) }
        ensures literals { OnOk result (self.new.literals ≡ self.old.literals) }
        ensures wrong { IfErr result (IsWrongHint self.old.clauses self.old.trues false hint) }
    {
        let hint = self.number(hint)?;
        let unit = match unit_of_hint(&self.live, &self.marks, hint) {
            Ok(unit) => unit,
            Err(refusal) => return Err(refusal),
        };
        make_true(&mut self.marks, unit)?;
        Ok(())
    }

    /// Follows the last hint: all literals of its clause are to be false.
    ///
    /// # Errors
    /// The fault of the hint.
    pub fn end_hints(&self, hint: u128) -> Result<(), HintRefusal>
        ensures { MatchResult result (λ _. IsFalsified self.now.clauses self.now.trues hint)
            (IsWrongHint self.now.clauses self.now.trues true hint) }
    {
        let hint = self.number(hint)?;
        last_hint(&self.live, &self.marks, hint)
    }

    /// Adds the clause of the literals that were read, and answers whether it has none.
    ///
    /// # Errors
    /// `Memory` where there is no room.
    pub fn finish_clause(&mut self, alloc: Global) -> Result<bool, Memory>
        ensures ok { OnOk result (self.new ≡ ready (self.old.clauses ++ Some self.old.literals ∷ [])) }
        ensures empty { IfOk result (λ empty. IsTrue empty ↔ (self.old.literals ≡ [])) }
    {
        if self.live.count() > u64::MAX - 2 {
            return Err(Memory);
        }
        let clause = mem::replace(&mut self.clause, LiteralNumbers::new(alloc));
        let empty = clause.as_slice().is_empty();
        self.marks.clear();
        self.live.push(clause)?;
        Ok(empty)
    }

    /// Adds the clause of an instance.
    ///
    /// # Errors
    /// `Memory` where there is no room.
    pub fn add_instance(&mut self, alloc: Global, literals: &[Lit]) -> Result<(), Memory>
        requires { self.old ≡ ready self.old.clauses }
        ensures ok { OnOk result (self.new ≡ ready (self.old.clauses ++ Some literals.now ∷ [])) }
    {
        for literal in literals {
            self.add(literal)?;
        }
        self.finish_clause(alloc)?;
        Ok(())
    }

    /// Takes the clause of a number out, where it is live.
    pub fn take_out(&mut self, number: u128) -> bool
        ensures { MatchBool result (TakesOne self.old number self.new)
            ((literals : List Lit) → ¬ (IsLive self.old.clauses number literals)) }
    {
        match self.number(number) {
            Ok(number) => self.live.take_out(number),
            Err(_) => false,
        }
    }
}
