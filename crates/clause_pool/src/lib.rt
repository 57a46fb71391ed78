//! Clauses of literal numbers in one region of words, with watch lists, in memory that is taken once.
//!
//! A [`Pool`] holds clauses, each a list of literal numbers, under handles. A clause of two or more
//! literals is watched at its first two: each literal has a list of the handles that watch it. All
//! memory is taken by [`Pool::open`], and no call after it allocates.
#![tactic(auto)]

ghost use Rattle.std.specs.Prelude.{◌≡◌, ℕ, ◌<◌, ◌≤◌, ◌↔◌, Some, length, slice_get, All, IsErr, IsSome, IfOk, OnErr};
ghost use Rattle.clause_pool.specs.PoolValue.{NoneTwice, IsWatching, IsSound, IsFree, IsFull, clause_at, literals_at, list_at, empty_pool, put_clause, forget_clause, compact_pool, swap_watched, following};

mod handle;
mod lists;
mod region;

pub use handle::ClauseRef;
use lists::WatchLists;
use std::alloc::Global;
use std::marker::Model;

/// There was no memory for the pool.
#[derive(Clone, Copy, Debug, PartialEq, Eq)]
pub struct Memory;

/// There was no room for the clause, or no free handle.
#[derive(Clone, Copy, Debug, PartialEq, Eq)]
pub struct Full;

/// Clauses under handles, with the list of handles that watch each literal.
///
/// A clause of n literals takes n + 3 words. Those of a clause that was forgotten stay used until
/// [`compact`](Pool::compact). A handle stays valid until its clause is forgotten.
#[derive(Debug, Drop)]
pub struct Pool {
    lists: WatchLists,
}

impl Model for Pool {
    ghost use Rattle.clause_pool.specs.PoolValue.{PoolValue};

    ghost Value = { PoolValue };

    ghost use Rattle.clause_pool.specs.WatchLists.{pool_value, IsPool};

    ghost view = { λ p. pool_value p.lists };

    ghost invariant = { λ p. IsPool p.lists };
}

impl Pool {
    /// A pool with no clause, of so many words, handles and literals. It takes all its memory here.
    ///
    /// # Errors
    ///
    /// `Memory` where an allocation fails.
    pub fn open(alloc: Global, words: u32, handles: u32, literals: u32) -> Result<Pool, Memory>
        ensures { IfOk result (λ p. p ≡ empty_pool words handles literals) }
    {
        match WatchLists::open(alloc, words, handles, literals) {
            Ok(lists) => Ok(Pool { lists }),
            Err(_) => Err(Memory),
        }
    }

    /// Puts a clause into the pool, and a clause of two or more literals first in the watch lists of
    /// its first two. It takes time in proportion to its literals.
    ///
    /// # Errors
    ///
    /// `Full` exactly where the used words and the clause's pass the pool's words, or where all
    /// handles are in use. Then nothing changed.
    pub fn put(&mut self, clause: &[u32]) -> Result<ClauseRef, Full>
        requires below { All (λ x. x < length self.old.watches) clause.now }
        requires different { NoneTwice clause.now }
        ensures full { IsErr result ↔ IsFull self.old (length clause.now) }
        ensures unchanged { OnErr result (self.new ≡ self.old) }
        ensures fresh { IfOk result (IsFree self.old) }
        ensures put { IfOk result (λ c. self.new ≡ put_clause self.old c clause.now) }
    {
        self.lists.put(clause).ok_or(Full)
    }

    /// Takes a clause out of the pool and out of its watch lists, in constant time. Its words stay
    /// used.
    pub fn forget(&mut self, clause: ClauseRef)
        requires { IsSome (clause_at self.old.clauses clause) }
        ensures { self.new ≡ forget_clause self.old clause }
    {
        self.lists.forget(clause);
    }

    /// Moves the clauses together, so that only their words are used, in one pass over the used
    /// words.
    pub fn compact(&mut self)
        ensures { self.new ≡ compact_pool self.old }
    {
        self.lists.compact();
    }

    /// The literals of a clause, in constant time.
    pub fn lits(&self, clause: ClauseRef) -> &[u32]
        requires { IsSome (clause_at self.now.clauses clause) }
        ensures clause { clause_at self.now.clauses clause ≡ Some result.now }
        ensures sound { IsSound self.now }
    {
        self.lists.region.literals(clause)
    }

    /// The first clause in the watch list of a literal, in constant time.
    pub fn first_watch(&self, literal: u32) -> Option<ClauseRef>
        requires { literal < length self.now.watches }
        ensures first { result ≡ slice_get (list_at self.now.watches literal) 0 }
        ensures sound { IsSound self.now }
    {
        self.lists.first(literal)
    }

    /// The clause after a clause in the watch list of a literal, in constant time.
    pub fn next_watch(&self, clause: ClauseRef, literal: u32) -> Option<ClauseRef>
        requires { IsWatching self.now.clauses literal clause }
        ensures next { result ≡ following clause (list_at self.now.watches literal) }
        ensures sound { IsSound self.now }
    {
        self.lists.next(clause, literal)
    }

    /// Lets a clause be watched at its literal in place `at` instead of at `watched`: the two literals
    /// change places, and the clause leaves the list of the one and comes first in that of the other.
    /// It takes constant time.
    pub fn swap_watch(&mut self, clause: ClauseRef, watched: u32, at: usize)
        requires watching { IsWatching self.old.clauses watched clause }
        requires behind { 2 ≤ at }
        requires in_range { at < length (literals_at self.old.clauses clause) }
        ensures { self.new ≡ swap_watched self.old clause watched at }
    {
        self.lists.swap_watch(clause, watched, at);
    }

    /// The words that are used, with those of clauses that were forgotten since the last compaction.
    pub fn used(&self) -> u32
        ensures used { result ≡ self.now.used }
        ensures sound { IsSound self.now }
    {
        self.lists.region.used()
    }
}
