//! The watch lists: each clause of two or more literals is in the lists of its first two. The links
//! forward lie in the clauses, those back in a table by handle.

ghost use Rattle.std.specs.Prelude.{◌≡◌, ℕ, ◌<◌, ◌≤◌, None, Some, length, map, slice_index_or, All, IsSome, IfNone, IfSome, IfOk};
ghost use Rattle.clause_pool.specs.PoolValue.{IsIn, IsInNone, IsFree, IsFull, NoneTwice, IsWatching, clause_at, literals_at, list_at, without, with_first, without_in, with_watches, empty_pool, put_clause, forget_clause, compact_pool, swap_watched};
ghost use Rattle.clause_pool.specs.WatchLists.{clauses_of, side_of, next_of, before_of, watch_lists, pool_value, IsPool, IsLinkedAs, KeepsClauses, SetsAfter, SetsBefore, with_before, LeadsToWatching, place_on};

use crate::handle::ClauseRef;
use crate::region::{Region, Side};
use std::alloc::{AllocError, Global};

/// The clauses before a clause in the lists of its first and of its second literal.
#[derive(Clone, Copy, Debug)]
pub struct Previous {
    pub first: Option<ClauseRef>,
    pub second: Option<ClauseRef>,
}

#[derive(Debug, Drop)]
pub struct WatchLists {
    pub region: Region,
    /// The first clause in the list of each literal.
    pub heads: Vec<Option<ClauseRef>>,
    /// For each handle.
    pub previous: Vec<Previous>,
}

impl WatchLists {
    fn side(&self, clause: ClauseRef, literal: u32) -> Side
        requires { IsWatching (clauses_of self.now.region.blocks) literal clause }
        ensures { side_of (clauses_of self.now.region.blocks) literal clause ≡ Some result }
    {
        if self.region.literals(clause)[0] == literal {
            Side::First
        } else {
            Side::Second
        }
    }

    /// The first clause in the list of a literal.
    pub fn first(&self, literal: u32) -> Option<ClauseRef>
        requires { literal < length self.now.heads.items }
        ensures { result ≡ slice_index_or self.now.heads.items literal None }
    {
        self.heads[literal as usize]
    }

    /// The clause after a clause in the list of a literal.
    pub fn next(&self, clause: ClauseRef, literal: u32) -> Option<ClauseRef>
        requires { IsWatching (clauses_of self.now.region.blocks) literal clause }
        ensures { result ≡ next_of self.now.region.blocks literal clause }
    {
        self.region.next(clause, self.side(clause, literal))
    }

    fn before(&self, clause: ClauseRef, literal: u32) -> Option<ClauseRef>
        requires watched { IsWatching (clauses_of self.now.region.blocks) literal clause }
        requires in_range { clause < length self.now.previous.items }
        ensures { result
            ≡ before_of (clauses_of self.now.region.blocks) self.now.previous.items literal clause }
    {
        let previous = self.previous[clause.index()];
        match self.side(clause, literal) {
            Side::First => previous.first,
            Side::Second => previous.second,
        }
    }

    /// Sets what comes in the list of a literal after a clause, or at its head.
    fn set_after(&mut self, before: Option<ClauseRef>, literal: u32, next: Option<ClauseRef>)
        requires watching { LeadsToWatching (clauses_of self.old.region.blocks) literal before }
        requires in_range { literal < length self.old.heads.items }
        ensures { SetsAfter self.old self.new literal before next }
    {
        match before {
            None => self.heads[literal as usize] = next,
            Some(clause) => {
                let side = self.side(clause, literal);
                self.region.set_next(clause, side, next);
            }
        }
    }

    /// Sets what comes before a clause, where there is one.
    fn set_before(&mut self, link: Option<ClauseRef>, literal: u32, before: Option<ClauseRef>)
        requires watching { LeadsToWatching (clauses_of self.old.region.blocks) literal link }
        requires previous_fit { length self.old.previous.items ≡ length self.old.region.blocks }
        ensures { SetsBefore self.old self.new literal link before }
    {
        let Some(clause) = link else {
            return;
        };
        let at = clause.index();
        let side = self.side(clause, literal);
        self.previous[at] = before_set(self.previous[at], side, before);
    }

    /// Puts a clause first in the list of one of its first two literals, in constant time.
    pub fn link_first(&mut self, clause: ClauseRef, literal: u32)
        requires linked { IsLinkedAs self.old (watch_lists self.old) }
        requires in_range { literal < length self.old.heads.items }
        requires watching { IsWatching (clauses_of self.old.region.blocks) literal clause }
        requires outside { IsIn clause (list_at (watch_lists self.old) literal) → ⊥ }
        ensures linked { IsLinkedAs self.new (with_first (watch_lists self.old) literal clause) }
        ensures keeps { KeepsClauses self.old self.new }
        ensures heads { length self.new.heads.items ≡ length self.old.heads.items }
    {
        // The link is set in two places.
        let next = self.heads[literal as usize];
        self.set_after(Some(clause), literal, next.as_ref().copied());
        self.set_before(Some(clause), literal, None);
        self.set_before(next, literal, Some(clause));
        self.heads[literal as usize] = Some(clause);
    }

    /// Takes a clause out of the list of a literal, in constant time.
    pub fn unlink(&mut self, clause: ClauseRef, literal: u32)
        requires linked { IsLinkedAs self.old (watch_lists self.old) }
        requires in_range { literal < length self.old.heads.items }
        requires inside { IsIn clause (list_at (watch_lists self.old) literal) }
        ensures linked { IsLinkedAs self.new (without_in (watch_lists self.old) literal clause) }
        ensures keeps { KeepsClauses self.old self.new }
        ensures heads { length self.new.heads.items ≡ length self.old.heads.items }
    {
        let next = self.next(clause, literal);
        let before = self.before(clause, literal);
        self.set_after(before.as_ref().copied(), literal, next.as_ref().copied());
        self.set_before(next, literal, before);
    }

    /// Puts a clause of two or more literals first in the lists of its first two.
    fn watch(&mut self, clause: ClauseRef, literals: &[u32])
        requires linked { IsLinkedAs self.old (watch_lists self.old) }
        requires found { clause_at (clauses_of self.old.region.blocks) clause ≡ Some literals.now }
        requires below { All (λ x. x < length self.old.heads.items) literals.now }
        requires different { NoneTwice literals.now }
        requires outside { IsInNone clause (watch_lists self.old) }
        ensures linked { IsLinkedAs
            self.new
            (with_watches (watch_lists self.old) clause literals.now) }
        ensures keeps { KeepsClauses self.old self.new }
    {
        if literals.len() < 2 {
            return;
        }
        self.link_first(clause, literals[1]);
        self.link_first(clause, literals[0]);
    }

    /// Takes a clause out of the lists of its first two literals.
    fn unwatch(&mut self, clause: ClauseRef)
        requires pool { IsPool self.old }
        requires in_use { IsSome (clause_at (clauses_of self.old.region.blocks) clause) }
        ensures linked { IsLinkedAs self.new (map (without clause) (watch_lists self.old)) }
        ensures keeps { KeepsClauses self.old self.new }
    {
        let literals = self.region.literals(clause);
        if literals.len() < 2 {
            return;
        }
        let first = literals[0];
        let second = literals[1];
        self.unlink(clause, first);
        self.unlink(clause, second);
    }

    /// No clause, and an empty list for each literal.
    pub fn open(
        alloc: Global,
        words: u32,
        handles: u32,
        literals: u32,
    ) -> Result<WatchLists, AllocError>
        ensures pool { IfOk result IsPool }
        ensures empty { IfOk result (λ l. pool_value l ≡ empty_pool words handles literals) }
    {
        let region = Region::open(alloc, words, handles)?;
        let heads = vec![in alloc; None; literals as usize]?;
        let none = Previous {
            first: None,
            second: None,
        };
        let previous = vec![in alloc; none; handles as usize]?;
        Ok(WatchLists {
            region,
            heads,
            previous,
        })
    }

    /// Puts a clause behind the others, and first in the lists of its first two literals.
    pub fn put(&mut self, literals: &[u32]) -> Option<ClauseRef>
        requires pool { IsPool self.old }
        requires below { All (λ x. x < length (watch_lists self.old)) literals.now }
        requires different { NoneTwice literals.now }
        ensures full { IfNone result (IsFull (pool_value self.old) (length literals.now)) }
        ensures unchanged { IfNone result (pool_value self.new ≡ pool_value self.old) }
        ensures fits { IfSome result
            (λ c. IsFull (pool_value self.old) (length literals.now) → ⊥) }
        ensures fresh { IfSome result (IsFree (pool_value self.old)) }
        ensures put { IfSome result
            (λ c. pool_value self.new ≡ put_clause (pool_value self.old) c literals.now) }
        ensures pool { IsPool self.new }
    {
        let clause = self.region.put(literals)?;
        self.watch(clause, literals);
        Some(clause)
    }

    /// Takes a clause out of its lists and out of the region.
    pub fn forget(&mut self, clause: ClauseRef)
        requires pool { IsPool self.old }
        requires in_use { IsSome (clause_at (clauses_of self.old.region.blocks) clause) }
        ensures forgotten { pool_value self.new ≡ forget_clause (pool_value self.old) clause }
        ensures pool { IsPool self.new }
    {
        self.unwatch(clause);
        self.region.forget(clause);
    }

    /// Moves the clauses of the region together.
    pub fn compact(&mut self)
        requires pool { IsPool self.old }
        ensures compact { pool_value self.new ≡ compact_pool (pool_value self.old) }
        ensures pool { IsPool self.new }
    {
        self.region.compact();
    }

    /// Lets the literal at `at` be watched in place of `watched`.
    pub fn swap_watch(&mut self, clause: ClauseRef, watched: u32, at: usize)
        requires pool { IsPool self.old }
        requires watching { IsWatching (clauses_of self.old.region.blocks) watched clause }
        requires behind { 2 ≤ at }
        requires in_range { at < length (literals_at (clauses_of self.old.region.blocks) clause) }
        ensures swapped { pool_value self.new
            ≡ swap_watched (pool_value self.old) clause watched at }
        ensures pool { IsPool self.new }
    {
        let place = place(self.side(clause, watched));
        let joined = self.region.literals(clause)[at];
        self.unlink(clause, watched);
        self.region.swap_literals(clause, place, at);
        self.link_first(clause, joined);
    }
}

/// Where in a clause the literal of a side stands.
fn place(side: Side) -> usize
    ensures { result ≡ place_on side }
{
    match side {
        Side::First => 0,
        Side::Second => 1,
    }
}

fn before_set(previous: Previous, side: Side, before: Option<ClauseRef>) -> Previous
    ensures { result ≡ with_before side before previous }
{
    match side {
        Side::First => Previous {
            first: before,
            second: previous.second,
        },
        Side::Second => Previous {
            first: previous.first,
            second: before,
        },
    }
}
