//! The analysis of a conflict, in memory that is taken once.

use crate::exclusion::{put_decisions, put_reasons};
use crate::hint::Hint;
use crate::resolvent::Resolvent;
use crate::walk::walk_back;
use clause_pool::{ClauseRef, Pool};
use std::alloc::{AllocError, Global};
use std::marker::Model;
use trail::Trail;

/// There was no memory for the analysis.
#[derive(Clone, Copy, Debug, PartialEq, Eq)]
pub struct Memory;

impl From<AllocError> for Memory {
    fn from(_error: AllocError) -> Memory {
        Memory
    }
}

/// The clause that was learned last, and the clauses that it follows from. No call after
/// [`open`](Analysis::open) takes memory.
#[derive(Debug, Drop)]
pub struct Analysis {
    resolvent: Resolvent,
    hints: Vec<Hint>,
}

impl Model for Analysis {
    ghost use Rattle.std.specs.Prelude.{vec_len, vec_capacity};
    ghost use Rattle.conflict_analysis.specs.Analyses.{AnalysisValue, IsAnalysis};

    ghost Value = { AnalysisValue };

    ghost view = { λ a. record { learned = a.resolvent.learned.items; hints = a.hints.items; literals = vec_len a.resolvent.marks } };

    ghost invariant = { λ a. IsAnalysis a.resolvent (vec_capacity a.hints) };
}

impl Analysis {
    ghost use Rattle.std.specs.Prelude.{◌≡◌, ◌*◌, ◌<◌, ◌^◌, IfOk};
    ghost use Rattle.clause_pool.specs.PoolValue.{PoolValue};
    ghost use Rattle.trail.specs.Steps.{IsSoundTrail};
    ghost use Rattle.propagation.specs.Ready.{IsFit, IsConflict};
    ghost use Rattle.conflict_analysis.specs.Learned.{IsLearned};
    ghost use Rattle.conflict_analysis.specs.Exclusions.{IsExclusion};
    ghost use Rattle.conflict_analysis.specs.Analyses.{empty_analysis};

    /// An analysis for trails of so many variables. It takes all its memory here.
    ///
    /// # Errors
    ///
    /// `Memory` where an allocation fails.
    pub fn open(alloc: Global, variables: u32) -> Result<Analysis, Memory>
        requires { variables < 2 ^ 31 }
        ensures { IfOk result (λ analysis. analysis ≡ empty_analysis variables) }
    {
        let literals = 2 * variables as usize;
        let marks = vec![in alloc; false; literals]?;
        let learned = Vec::with_capacity(alloc, literals + 1)?;
        let hints = Vec::with_capacity(alloc, literals + 1)?;
        Ok(Analysis {
            resolvent: Resolvent {
                marks,
                learned,
                pending: 0,
                place: 0,
            },
            hints,
        })
    }

    /// Learns from a conflict, and says up to which level all literals of the learned clause but the first
    /// are false. Its second literal is one of that level.
    pub fn analyze(&mut self, pool: &Pool, trail: &Trail, conflict: ClauseRef) -> u32
        requires fit { IsFit pool.now trail.now }
        requires literals { self.old.literals ≡ 2 * trail.now.variables }
        requires conflict { IsConflict pool.now trail.now conflict }
        ensures learned { IsLearned pool.now trail.now self.new.learned self.new.hints result }
        ensures literals { self.new.literals ≡ self.old.literals }
    {
        self.hints.clear();
        self.hints.push_reserved(Hint::Stored(conflict));
        self.resolvent.start(trail, pool.lits(conflict));
        walk_back(&mut self.resolvent, &mut self.hints, pool, trail);
        self.hints.reverse();
        self.resolvent.finish(trail)
    }

    /// Learns from a conflict that not all decisions are true.
    pub fn exclude(&mut self, trail: &Trail, conflict: ClauseRef)
        requires sound { IsSoundTrail trail.now }
        requires literals { self.old.literals ≡ 2 * trail.now.variables }
        ensures excluded { (pool : PoolValue) → IsFit pool trail.now → IsConflict pool trail.now conflict → IsExclusion pool trail.now self.new.learned self.new.hints }
        ensures literals { self.new.literals ≡ self.old.literals }
    {
        put_decisions(&mut self.resolvent.learned, trail);
        put_reasons(&mut self.hints, trail);
        self.hints.push_reserved(Hint::Stored(conflict));
    }

    /// The literals of the clause that was learned last.
    pub fn learned(&self) -> &[u32]
        ensures { result.now ≡ self.now.learned }
    {
        &self.resolvent.learned
    }

    /// The clauses that it follows from, in the order in which they are used.
    pub fn hints(&self) -> &[Hint]
        ensures { result.now ≡ self.now.hints }
    {
        &self.hints
    }
}
