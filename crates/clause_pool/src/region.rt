//! The region of words that the clauses lie in, and the table that leads from a handle to its clause.
//!
//! A clause of n literals takes n + 3 words: its handle, the next clause in the watch list of its first
//! literal, the next one in that of its second literal, and the literals. Links are handles, so that a
//! clause that moves leaves them as they are. A clause that was forgotten keeps its words, with
//! `NO_LINK` for the handle and the number of its literals after it, until the region is compacted.

ghost use Rattle.std.specs.Prelude.{◌≡◌, ℕ, ◌+◌, ◌<◌, ◌≤◌, ◌⊎◌, None, length, replicate, All, IsSome, IsNone, IfNone, IfSome, IfOk, vec_len, slice_index, sum_by};
ghost use Rattle.clause_pool.specs.Blocks.{block_in, literals_of, next_at, with_next, with_swapped, words_for, block_words, put_block, replaced, entry_at, IsTaken, WritesBlock, IsFreeEntry, compacted, empty_region, entry_words, IsTiled, IsHalfCompacted, SameBlocks};

use crate::handle::{ClauseRef, NO_LINK, link_of_word, word_of_link};
use std::alloc::{AllocError, Global};
use std::marker::Model;

/// The words of a clause before its literals.
const HEADER: usize = 3;

/// Which of a clause's first two literals.
#[derive(Clone, Copy, Debug, PartialEq, Eq)]
pub enum Side {
    First,
    Second,
}

/// What the table says of a handle.
#[derive(Clone, Copy, Debug)]
pub enum Entry {
    /// It is not in use; the next free handle.
    Free { next: Option<ClauseRef> },
    /// The place of its clause's first word, and the number of literals.
    Taken { place: u32, count: u32 },
}

#[derive(Debug, Drop)]
pub struct Region {
    words: Vec<u32>,
    entries: Vec<Entry>,
    used: u32,
    free: Option<ClauseRef>,
}

impl Model for Region {
    ghost use Rattle.std.specs.Prelude.{map, vec_len};
    ghost use Rattle.clause_pool.specs.Blocks.{RegionValue, block_of, IsRegion};

    ghost Value = { RegionValue };

    ghost view = { λ r. record {
      blocks = map (block_of r.words.items) r.entries.items;
      used = r.used;
      words = vec_len r.words;
    } };

    ghost invariant = { λ r. IsRegion r.words.items r.entries.items r.used r.free };
}

/// Where a clause lies.
#[derive(Clone, Copy, Debug)]
struct Span {
    place: u32,
    count: u32,
}

fn span_of(entries: &[Entry], clause: ClauseRef) -> Span
    requires in_range { clause < length entries.now }
    requires taken { IsTaken (entry_at entries.now clause) }
    ensures { entry_at entries.now clause ≡ Entry.Taken result.place result.count }
{
    match entries[clause.index()] {
        Entry::Taken { place, count } => Span { place, count },
        Entry::Free { .. } => unreachable!(),
    }
}

fn next_free(entries: &[Entry], clause: ClauseRef) -> Option<ClauseRef>
    requires in_range { clause < length entries.now }
    requires free { IsFreeEntry (entry_at entries.now clause) }
    ensures { entry_at entries.now clause ≡ Entry.Free result }
{
    match entries[clause.index()] {
        Entry::Free { next } => next,
        Entry::Taken { .. } => unreachable!(),
    }
}

/// Writes a clause that is in no watch list.
fn write_block(words: &mut [u32], place: usize, clause: ClauseRef, literals: &[u32])
    requires { place + words_for (length literals.now) ≤ length words.old }
    ensures { WritesBlock words.old words.new place clause literals.now }
{
    words[place] = clause.word();
    words[place + 1] = NO_LINK;
    words[place + 2] = NO_LINK;
    let start = place + HEADER;
    words[start..start + literals.len()].copy_from_slice(literals);
}

/// How far a compaction is: where the next piece lies, where the next clause goes, and where the
/// used words end.
#[derive(Clone, Copy, Debug)]
struct Pass {
    from: u32,
    to: u32,
    end: u32,
}

/// Moves the clause that lies at `from`.
fn move_clause(words: &mut Vec<u32>, entries: &mut [Entry], pass: Pass, clause: ClauseRef) -> Pass
    requires half { IsHalfCompacted words.old.items entries.old pass.from pass.to pass.end }
    requires more { pass.from < pass.end }
    requires here { slice_index words.old.items pass.from ≡ clause }
    ensures half { IsHalfCompacted words.new.items entries.new result.from result.to result.end }
    ensures same { SameBlocks words.old.items words.new.items entries.old entries.new }
    ensures further { pass.from < result.from }
    ensures end { result.end ≡ pass.end }
{
    let at = clause.index();
    let count = span_of(entries, clause).count;
    let size = count + HEADER as u32;
    let from = pass.from + size;
    words.copy_within(pass.from as usize..from as usize, pass.to as usize);
    entries[at] = Entry::Taken {
        place: pass.to,
        count,
    };
    Pass {
        from,
        to: pass.to + size,
        end: pass.end,
    }
}

/// Moves the piece that lies at `from`, or skips it where its clause was forgotten.
fn move_piece(words: &mut Vec<u32>, entries: &mut [Entry], pass: Pass) -> Pass
    requires half { IsHalfCompacted words.old.items entries.old pass.from pass.to pass.end }
    requires more { pass.from < pass.end }
    ensures half { IsHalfCompacted words.new.items entries.new result.from result.to result.end }
    ensures same { SameBlocks words.old.items words.new.items entries.old entries.new }
    ensures further { pass.from < result.from }
    ensures end { result.end ≡ pass.end }
{
    let place = pass.from as usize;
    let first = words[place];
    if first == NO_LINK {
        return Pass {
            from: pass.from + (words[place + 1] + HEADER as u32),
            to: pass.to,
            end: pass.end,
        };
    }
    move_clause(words, entries, pass, ClauseRef::new(first))
}

/// Moves the clauses together, and says where they end.
fn compact_words(words: &mut Vec<u32>, entries: &mut [Entry], used: u32) -> u32
    requires { IsHalfCompacted words.old.items entries.old 0 0 used }
    ensures tiled { IsTiled words.new.items entries.new result }
    ensures same { SameBlocks words.old.items words.new.items entries.old entries.new }
    ensures total { result ≡ sum_by entry_words entries.new }
    ensures within { result ≤ length words.new.items }
{
    let mut pass = Pass {
        from: 0,
        to: 0,
        end: used,
    };
    while pass.from < pass.end {
        pass = move_piece(words, entries, pass);
    }
    pass.to
}

impl Region {
    /// A region with no clause.
    pub fn open(alloc: Global, words: u32, handles: u32) -> Result<Region, AllocError>
        ensures { IfOk result (λ r. r ≡ empty_region words handles) }
    {
        let words = vec![in alloc; 0u32; words as usize]?;
        let mut entries = Vec::with_capacity(alloc, handles as usize)?;
        let mut free = None;
        for number in 0..handles {
            entries.push(Entry::Free { next: free })?;
            free = Some(ClauseRef::new(number));
        }
        Ok(Region {
            words,
            entries,
            used: 0,
            free,
        })
    }

    pub fn used(&self) -> u32
        ensures { result ≡ self.now.used }
    {
        self.used
    }

    pub fn literals(&self, clause: ClauseRef) -> &[u32]
        requires { IsSome (block_in self.now.blocks clause) }
        ensures { result.now ≡ literals_of self.now.blocks clause }
    {
        let span = span_of(&self.entries, clause);
        let start = span.place as usize + HEADER;
        &self.words[start..start + span.count as usize]
    }

    pub fn next(&self, clause: ClauseRef, side: Side) -> Option<ClauseRef>
        requires { IsSome (block_in self.now.blocks clause) }
        ensures { result ≡ next_at side (block_in self.now.blocks clause) }
    {
        let place = span_of(&self.entries, clause).place as usize;
        match side {
            Side::First => link_of_word(self.words[place + 1]),
            Side::Second => link_of_word(self.words[place + 2]),
        }
    }

    pub fn set_next(&mut self, clause: ClauseRef, side: Side, next: Option<ClauseRef>)
        requires { IsSome (block_in self.old.blocks clause) }
        ensures { self.new
            ≡ replaced self.old clause (with_next side next (block_in self.old.blocks clause)) }
    {
        let place = span_of(&self.entries, clause).place as usize;
        match side {
            Side::First => self.words[place + 1] = word_of_link(next),
            Side::Second => self.words[place + 2] = word_of_link(next),
        }
    }

    pub fn swap_literals(&mut self, clause: ClauseRef, i: usize, j: usize)
        requires in_use { IsSome (block_in self.old.blocks clause) }
        requires i_in_range { i < length (literals_of self.old.blocks clause) }
        requires j_in_range { j < length (literals_of self.old.blocks clause) }
        ensures { self.new
            ≡ replaced self.old clause (with_swapped i j (block_in self.old.blocks clause)) }
    {
        let start = span_of(&self.entries, clause).place as usize + HEADER;
        self.words.swap(start + i, start + j);
    }

    /// Puts a clause behind the used words, in no watch list.
    pub fn put(&mut self, literals: &[u32]) -> Option<ClauseRef>
        ensures full { IfNone result
            ((self.old.words < self.old.used + words_for (length literals.now))
            ⊎ All IsSome self.old.blocks) }
        ensures unchanged { IfNone result (self.new ≡ self.old) }
        ensures fits { IfSome result
            (λ c. self.old.used + words_for (length literals.now) ≤ self.old.words) }
        ensures fresh { IfSome result
            (λ c. (c < length self.old.blocks) × (block_in self.old.blocks c ≡ None)) }
        ensures put { IfSome result (λ c. self.new ≡ put_block self.old c literals.now) }
    {
        let count = literals.len();
        let place = self.used as usize;
        if self.words.len() - place < count + HEADER {
            return None;
        }
        let clause = self.free?;
        let next = next_free(&self.entries, clause);
        write_block(&mut self.words, place, clause, literals);
        self.entries[clause.index()] = Entry::Taken {
            place: self.used,
            count: count as u32,
        };
        self.free = next;
        self.used += (count + HEADER) as u32;
        Some(clause)
    }

    /// Takes a clause out; its words stay used.
    pub fn forget(&mut self, clause: ClauseRef)
        requires { IsSome (block_in self.old.blocks clause) }
        ensures { self.new ≡ replaced self.old clause None }
    {
        let span = span_of(&self.entries, clause);
        let place = span.place as usize;
        self.words[place] = NO_LINK;
        self.words[place + 1] = span.count;
        self.entries[clause.index()] = Entry::Free { next: self.free };
        self.free = Some(clause);
    }

    /// Moves the clauses together, in one pass over the used words.
    pub fn compact(&mut self)
        ensures { self.new ≡ compacted self.old }
    {
        self.used = compact_words(&mut self.words, &mut self.entries, self.used);
    }
}
