//! The log, in a table that is taken once.

use crate::name::Name;
use crate::number::{ClauseNumber, put_number};
use clause_pool::ClauseRef;
use conflict_analysis::Hint;
use literals::variable;
use ports::{Failed, Sink, put_all};
use refutation_lines::{NumberedLiterals, put_counted, put_instance};
use std::alloc::{AllocError, Global};
use std::marker::Model;
use texts::Spelling;
use var_names::Formula;

/// There was no memory for the log.
#[derive(Clone, Copy, Debug, PartialEq, Eq)]
pub struct Memory;

impl From<AllocError> for Memory {
    fn from(_error: AllocError) -> Memory {
        Memory
    }
}

/// The names of the clauses that hints may name, and how many clauses have their line.
#[derive(Debug, Drop)]
pub struct Log {
    /// By handle, and behind the handles by variable.
    names: Vec<Name>,
    handles: usize,
    /// How many clause lines were put.
    derived: u64,
    /// How many rule lines were put.
    instances: u64,
}

impl Model for Log {
    ghost use Rattle.search_log.specs.Names.{LogValue, IsSoundLog, log_value};

    ghost Value = { LogValue };

    ghost view = { λ log. log_value log.names.items log.handles log.derived log.instances };

    ghost invariant = { λ log. IsSoundLog (log_value log.names.items log.handles log.derived log.instances) };
}

/// The numbers of hints, by the names of their clauses.
#[derive(Clone, Copy)]
pub struct HintNumbers<'a> {
    log: &'a Log,
}

impl Spelling<Hint> for HintNumbers<'_> {
    ghost use Rattle.texts.specs.SevenBits.{seven_bits};
    ghost use Rattle.search_log.specs.Names.{hint_name, hint_number, IsNumberedName};

    ghost text = { λ spelling hint. seven_bits (hint_number spelling.log.now hint) };

    ghost fits = { λ spelling hint. IsNumberedName (hint_name spelling.log.now hint) };

    fn put<S: Sink>(&self, out: &mut S, item: &Hint) -> Result<(), Failed> {
        put_number(out, self.log.number_of(item))
    }
}

impl Log {
    ghost use Rattle.std.specs.Prelude.{◌+◌, ◌*◌, ◌<◌, ◌≡◌, ◌^◌, ℕ, All, IfOk, length, List, Option, MatchResult, OnOk, replicate};
    ghost use Rattle.ports.specs.Faults.{HasCause};
    ghost use Rattle.ports.specs.Growth.{PutsAll};
    ghost use Rattle.var_names.specs.Formulas.{FormulaValue};
    ghost use Rattle.refutation_lines.specs.LineText.{line_bytes};
    ghost use Rattle.search_log.specs.Names.{clauses_of, hint_name, hint_number, slot_of, name_at, number_in, with_name, IsKnownName, IsNumberedName, IsLastUnnamed, IsSoundLog};
    ghost use Rattle.search_log.specs.Lines.{PutsRules, BreaksOff, PutsClause, BreaksOffAt, TakesOutName, IsCurrent, IsLiveNumber, AreApart, clause_line, deletion_line};

    /// A log without lines, with so many handles and variables, and no clause under any. It takes all its memory here.
    ///
    /// # Errors
    ///
    /// `Memory` where an allocation fails.
    pub fn open(alloc: Global, handles: u32, variables: u32) -> Result<Log, Memory>
        ensures names { IfOk result (λ log. log.names ≡ replicate (handles + variables) Name.Unnamed) }
        ensures handles { IfOk result (λ log. log.handles ≡ handles) }
        ensures derived { IfOk result (λ log. log.derived ≡ 0) }
        ensures instances { IfOk result (λ log. log.instances ≡ 0) }
    {
        let slots = handles as usize + variables as usize;
        Ok(Log {
            names: vec![in alloc; Name::Unnamed; slots]?,
            handles: handles as usize,
            derived: 0,
            instances: 0,
        })
    }

    /// How many clause lines were put.
    pub fn derived(&self) -> u64
        ensures derived { result ≡ self.now.derived }
        ensures sound { IsSoundLog self.now }
    {
        self.derived
    }

    /// How many handles it names.
    pub fn handles(&self) -> usize
        ensures { result ≡ self.now.handles }
    {
        self.handles
    }

    /// How many clauses have their number.
    fn clauses(&self) -> u128
        ensures { result ≡ clauses_of self.now }
    {
        self.derived as u128 + self.instances as u128
    }

    /// Where the name of a hint's clause stands.
    fn slot(&self, hint: &Hint) -> usize
        requires { slot_of self.now.handles hint.now < length self.now.names }
        ensures { result ≡ slot_of self.now.handles hint.now }
    {
        match hint {
            Hint::Stored(clause) => clause.index(),
            Hint::Excluded(literal) => self.handles + variable(*literal) as usize,
        }
    }

    /// The number of a hint's clause.
    fn number_of(&self, hint: &Hint) -> u128
        requires { IsNumberedName (hint_name self.now hint.now) }
        ensures number { result ≡ hint_number self.now hint.now }
        ensures few { result < 2 ^ 70 }
        ensures sound { IsSoundLog self.now }
    {
        match self.names[self.slot(hint)] {
            Name::Numbered(number) => number,
            Name::Unnamed | Name::Ruled(_) => unreachable!(),
        }
    }

    /// Lets a handle name the clause of the formula at this place, before any line.
    pub fn name_rule(&mut self, clause: ClauseRef, place: u32)
        requires within { clause < length self.old.names }
        requires unnamed { name_at self.old.names clause ≡ Name.Unnamed }
        requires first { self.old.instances ≡ 0 }
        ensures { self.new ≡ with_name self.old clause (Name.Ruled place) }
    {
        self.names[clause.index()] = Name::Ruled(place);
    }

    /// Lets a hint name the clause that was put last.
    pub fn name_last(&mut self, hint: &Hint)
        requires within { slot_of self.old.handles hint.now < length self.old.names }
        requires unnamed { hint_name self.old hint.now ≡ Name.Unnamed }
        requires last { IsLastUnnamed self.old }
        ensures { self.new ≡ with_name self.old (slot_of self.old.handles hint.now) (Name.Numbered (clauses_of self.old)) }
    {
        let slot = self.slot(hint);
        self.names[slot] = Name::Numbered(self.clauses());
    }

    /// Puts the rule line of the clause of the formula at this place, which gives the name in this slot its number.
    fn put_rule<S: Sink>(
        &mut self,
        formula: &Formula,
        out: &mut S,
        slot: usize,
        place: u32,
    ) -> Result<(), Failed>
        requires named { name_at self.old.names slot ≡ Name.Ruled place }
        requires known { IsKnownName formula.now (Name.Ruled place) }
        ensures put { MatchResult result
            (λ _. PutsRules formula.now self.old self.new (S.held out.old) (S.held out.new) × IsNumberedName (name_at self.new.names slot))
            (λ _. BreaksOff formula.now self.old (S.held out.old) (S.held out.new)) }
        ensures cause { HasCause (S.faults out.old) (S.faults out.new) result }
        ensures rest { S.same_rest out.old out.new }
    {
        let Some(rule) = formula.rule(place as usize) else {
            unreachable!()
        };
        put_instance(out, rule)?;
        let number = self.clauses() + 1;
        self.instances += 1;
        self.names[slot] = Name::Numbered(number);
        Ok(())
    }

    /// Lets the clause of a hint have its number. Where it is one of the formula without a line, its rule line is put.
    fn number<S: Sink>(&mut self, formula: &Formula, out: &mut S, hint: &Hint) -> Result<(), Failed>
        requires { IsKnownName formula.now (hint_name self.old hint.now) }
        ensures put { MatchResult result
            (λ _. PutsRules formula.now self.old self.new (S.held out.old) (S.held out.new) × IsNumberedName (hint_name self.new hint.now))
            (λ _. BreaksOff formula.now self.old (S.held out.old) (S.held out.new)) }
        ensures cause { HasCause (S.faults out.old) (S.faults out.new) result }
        ensures rest { S.same_rest out.old out.new }
    {
        let slot = self.slot(hint);
        match self.names[slot] {
            Name::Ruled(place) => self.put_rule(formula, out, slot, place),
            Name::Numbered(_) => Ok(()),
            Name::Unnamed => unreachable!(),
        }
    }

    /// Lets the clauses of hints have their numbers, and puts the rule lines that this needs.
    fn number_all<S: Sink>(
        &mut self,
        formula: &Formula,
        out: &mut S,
        hints: &[Hint],
    ) -> Result<(), Failed>
        requires { All (λ hint. IsKnownName formula.now (hint_name self.old hint)) hints.now }
        ensures put { MatchResult result
            (λ _. PutsRules formula.now self.old self.new (S.held out.old) (S.held out.new) × All (λ hint. IsNumberedName (hint_name self.new hint)) hints.now)
            (λ _. BreaksOff formula.now self.old (S.held out.old) (S.held out.new)) }
        ensures cause { HasCause (S.faults out.old) (S.faults out.new) result }
        ensures rest { S.same_rest out.old out.new }
    {
        for hint in hints {
            self.number(formula, out, hint)?;
        }
        Ok(())
    }

    /// Puts the line of a clause whose hints have numbers.
    fn put_line<S: Sink>(
        &self,
        formula: &Formula,
        out: &mut S,
        literals: &[u32],
        hints: &[Hint],
    ) -> Result<(), Failed>
        requires below { All (λ n. n < 2 * length formula.now.variables) literals.now }
        requires numbered { All (λ hint. IsNumberedName (hint_name self.now hint)) hints.now }
        ensures bytes { PutsAll (S.held out.old) (S.held out.new) result (line_bytes (clause_line formula.now self.now literals.now hints.now)) }
        ensures cause { HasCause (S.faults out.old) (S.faults out.new) result }
        ensures rest { S.same_rest out.old out.new }
    {
        put_all(out, &[2])?;
        put_counted(&NumberedLiterals { formula }, out, literals)?;
        put_counted(&HintNumbers { log: self }, out, hints)
    }

    /// Puts the line of a clause with its hints, and before it the rule lines of the formula's clauses that are used for
    /// the first time.
    ///
    /// # Errors
    /// `Failed` only where the sink's count of faults rose.
    pub fn put_clause<S: Sink>(
        &mut self,
        formula: &Formula,
        out: &mut S,
        literals: &[u32],
        hints: &[Hint],
    ) -> Result<(), Failed>
        requires below { All (λ n. n < 2 * length formula.now.variables) literals.now }
        requires apart { AreApart literals.now }
        requires known { All (λ hint. IsKnownName formula.now (hint_name self.old hint)) hints.now }
        requires few { self.old.derived + 1 < 2 ^ 64 }
        ensures put { MatchResult result
            (λ _. PutsClause formula.now self.old self.new (S.held out.old) (S.held out.new) literals.now hints.now × IsLastUnnamed self.new)
            (λ _. BreaksOffAt formula.now self.old (S.held out.old) (S.held out.new) literals.now hints.now) }
        ensures cause { HasCause (S.faults out.old) (S.faults out.new) result }
        ensures rest { S.same_rest out.old out.new }
    {
        self.number_all(formula, out, hints)?;
        self.put_line(formula, out, literals, hints)?;
        self.derived += 1;
        Ok(())
    }

    /// Puts the line that takes the clause of a hint out, which then has no name.
    ///
    /// # Errors
    /// `Failed` only where the sink's count of faults rose.
    pub fn delete<S: Sink>(&mut self, out: &mut S, hint: &Hint) -> Result<(), Failed>
        requires { IsNumberedName (hint_name self.old hint.now) }
        ensures names { OnOk result (self.new ≡ with_name self.old (slot_of self.old.handles hint.now) Name.Unnamed) }
        ensures bytes { PutsAll (S.held out.old) (S.held out.new) result (line_bytes (deletion_line self.old (slot_of self.old.handles hint.now))) }
        ensures taken { (formula : FormulaValue) (clauses : List (Option (List ℕ))) → IsCurrent formula self.old clauses
            → IsLiveNumber clauses (hint_number self.old hint.now) → TakesOutName formula self.old clauses (slot_of self.old.handles hint.now) }
        ensures cause { HasCause (S.faults out.old) (S.faults out.new) result }
        ensures rest { S.same_rest out.old out.new }
    {
        let number = self.number_of(hint);
        put_all(out, &[3])?;
        put_counted(&ClauseNumber, out, &[number])?;
        let slot = self.slot(hint);
        self.names[slot] = Name::Unnamed;
        Ok(())
    }
}
