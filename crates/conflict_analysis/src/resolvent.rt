//! The clause that was resolved so far, by marks.

ghost use Rattle.std.specs.Prelude.{◌≡◌, ◌+◌, ◌-◌, ◌<◌, ◌≤◌, ℕ, false, length, IfNone, IfSome, ◌⊎◌, slice_index};
ghost use Rattle.std.specs.List.Sorted.{IsPermutation};
ghost use Rattle.clause_pool.specs.PoolValue.{PoolValue, IsIn};
ghost use Rattle.literals.specs.Literal.{opposite_of, variable_of};
ghost use Rattle.literals.specs.Propagation.{IsFalseIn, IsFalseClause};
ghost use Rattle.trail.specs.Steps.{literals_of, decisions_of, level_of, level_at, is_decision, IsStepAt, HasSomeValueIn};
ghost use Rattle.propagation.specs.Watches.{IsReasonFor, HasReason, HaveReasons};
ghost use Rattle.conflict_analysis.specs.Marks.{IsMarked, newest_of};
ghost use Rattle.conflict_analysis.specs.Resolvents.{left_of, IsIdle, IsLastPending, IsFinished, IsHighestBehind, IsResolvent, KeepsMarks, OthersFalse, OthersMarked, MarksDecision, MarksReason, IsMorePending, KeepsEnd, AddsHint};

use crate::hint::Hint;
use clause_pool::{ClauseRef, Pool};
use literals::opposite;
use trail::{Reason, Step, Trail};

/// The clause that was resolved so far: its literals are those that are marked.
#[derive(Debug, Drop)]
pub struct Resolvent {
    /// For each literal.
    pub marks: Vec<bool>,
    /// Behind a place that is kept free: the marked literals that were false before the last decision.
    pub learned: Vec<u32>,
    /// How many other literals are marked.
    pub pending: usize,
    /// How many of the oldest steps are left to look at.
    pub place: usize,
}

impl Resolvent {
    /// Begins with the clause of these literals, which are all false.
    pub fn start(&mut self, trail: &Trail, literals: &[u32])
        requires idle { IsIdle self.old trail.now }
        requires all_false { IsFalseClause (literals_of trail.now.steps) literals.now }
        ensures resolvent { IsResolvent self.new trail.now }
        ensures marked { (x : ℕ) → IsIn x literals.now → IsMarked self.new.marks.items x }
        ensures place { self.new.place ≡ length trail.now.steps }
    {
        self.learned.clear();
        self.learned.push_reserved(0);
        self.pending = 0;
        self.place = trail.len();
        self.mark_all(trail, literals);
    }

    /// Marks a literal.
    fn mark(&mut self, trail: &Trail, literal: u32)
        requires resolvent { IsResolvent self.old trail.now }
        requires is_false { IsFalseIn (literals_of (left_of self.old trail.now)) literal }
        ensures resolvent { IsResolvent self.new trail.now }
        ensures marked { IsMarked self.new.marks.items literal }
        ensures kept { KeepsMarks self.old self.new }
        ensures place { self.new.place ≡ self.old.place }
    {
        if self.marks[literal as usize] {
            return;
        }
        self.marks[literal as usize] = true;
        if trail.level_of(literal) == trail.level() {
            self.pending += 1;
        } else {
            self.learned.push_reserved(literal);
        }
    }

    /// Marks all literals of a clause.
    pub fn mark_all(&mut self, trail: &Trail, literals: &[u32])
        requires resolvent { IsResolvent self.old trail.now }
        requires all_false { IsFalseClause (literals_of (left_of self.old trail.now)) literals.now }
        ensures resolvent { IsResolvent self.new trail.now }
        ensures marked { (x : ℕ) → IsIn x literals.now → IsMarked self.new.marks.items x }
        ensures place { self.new.place ≡ self.old.place }
    {
        for literal in literals {
            self.mark(trail, *literal);
        }
    }

    /// Marks all literals of a clause but one.
    fn mark_others(&mut self, trail: &Trail, literals: &[u32], but: u32)
        requires resolvent { IsResolvent self.old trail.now }
        requires others_false { OthersFalse self.old trail.now literals.now but }
        ensures resolvent { IsResolvent self.new trail.now }
        ensures marked { OthersMarked self.new literals.now but }
        ensures kept { KeepsMarks self.old self.new }
        ensures place { self.new.place ≡ self.old.place }
    {
        for literal in literals {
            if *literal != but {
                self.mark(trail, *literal);
            }
        }
    }

    /// Marks the opposite of the step in this place, where it was decided.
    fn mark_decision(&mut self, trail: &Trail, at: usize)
        requires resolvent { IsResolvent self.old trail.now }
        requires left { at < self.old.place }
        ensures resolvent { IsResolvent self.new trail.now }
        ensures marked { MarksDecision self.new trail.now at }
        ensures kept { KeepsMarks self.old self.new }
        ensures place { self.new.place ≡ self.old.place }
    {
        let step = trail.step(at);
        if let Reason::Decision = step.reason {
            self.mark(trail, opposite(step.literal));
        }
    }

    /// Marks the opposites of all decisions among the steps that are left.
    fn mark_decisions(&mut self, trail: &Trail)
        requires resolvent { IsResolvent self.old trail.now }
        ensures resolvent { IsResolvent self.new trail.now }
        ensures marked { (x : ℕ) → IsIn x (decisions_of (left_of self.old trail.now)) → IsMarked self.new.marks.items (opposite_of x) }
        ensures kept { KeepsMarks self.old self.new }
        ensures place { self.new.place ≡ self.old.place }
    {
        for at in 0..self.place {
            self.mark_decision(trail, at);
        }
    }

    /// Marks the other literals of a clause that is the reason of a literal.
    fn mark_clause(&mut self, pool: &Pool, trail: &Trail, clause: ClauseRef, literal: u32) -> Hint
        requires resolvent { IsResolvent self.old trail.now }
        requires reason { IsReasonFor pool.now.clauses (literals_of (left_of self.old trail.now)) literal clause }
        ensures resolvent { IsResolvent self.new trail.now }
        ensures reason { MarksReason self.old self.new pool.now trail.now literal result }
        ensures place { self.new.place ≡ self.old.place }
    {
        self.mark_others(trail, pool.lits(clause), literal);
        Hint::Stored(clause)
    }

    /// Marks the opposites of the decisions that are the reason of a literal.
    fn mark_excluding(&mut self, trail: &Trail, literal: u32) -> Hint
        requires resolvent { IsResolvent self.old trail.now }
        requires step { IsStepAt trail.now.steps self.old.place (record { literal = literal; reason = Reason.Decisions }) }
        ensures resolvent { IsResolvent self.new trail.now }
        ensures reason { (pool : PoolValue) → MarksReason self.old self.new pool trail.now literal result }
        ensures place { self.new.place ≡ self.old.place }
    {
        self.mark_decisions(trail);
        Hint::Excluded(literal)
    }

    /// Marks the other literals of a step's reason.
    fn mark_reason(&mut self, pool: &Pool, trail: &Trail, step: &Step) -> Hint
        requires resolvent { IsResolvent self.old trail.now }
        requires step { IsStepAt trail.now.steps self.old.place step.now }
        requires not_decided { is_decision step.now.reason ≡ false }
        requires reason { HasReason pool.now.clauses (literals_of (left_of self.old trail.now)) step.now.literal step.now.reason }
        ensures resolvent { IsResolvent self.new trail.now }
        ensures reason { MarksReason self.old self.new pool.now trail.now step.now.literal result }
        ensures place { self.new.place ≡ self.old.place }
        ensures pending { self.old.pending ≤ self.new.pending }
    {
        match &step.reason {
            Reason::Clause(clause) => self.mark_clause(pool, trail, *clause, step.literal),
            Reason::Decisions => self.mark_excluding(trail, step.literal),
            Reason::Decision => unreachable!(),
        }
    }

    /// Looks at the newest step that is left. Where its opposite is marked, it is resolved with the step's
    /// reason, which is the answer.
    pub fn step_back(&mut self, pool: &Pool, trail: &Trail) -> Option<Hint>
        requires resolvent { IsResolvent self.old trail.now }
        requires more { IsMorePending self.old trail.now }
        requires reasons { HaveReasons pool.now.clauses trail.now.steps }
        ensures resolvent { IsResolvent self.new trail.now }
        ensures skipped { IfNone result (KeepsEnd self.old self.new trail.now) }
        ensures resolved { IfSome result (AddsHint self.old self.new pool.now trail.now) }
        ensures place { self.new.place + 1 ≡ self.old.place }
        ensures pending { self.old.pending ≤ self.new.pending + 1 }
    {
        self.place -= 1;
        let step = trail.step(self.place);
        let literal = opposite(step.literal) as usize;
        if !self.marks[literal] {
            return None;
        }
        self.marks[literal] = false;
        self.pending -= 1;
        Some(self.mark_reason(pool, trail, &step))
    }

    /// The literal of the last decision that is left, where only one is.
    fn newest_marked(&mut self, trail: &Trail) -> u32
        requires resolvent { IsResolvent self.old trail.now }
        requires one { self.old.pending ≡ 1 }
        ensures resolvent { IsResolvent self.new trail.now }
        ensures marked { IsMarked self.new.marks.items result }
        ensures newest { IsIn (opposite_of result) (newest_of (left_of self.new trail.now)) }
        ensures one { self.new.pending ≡ 1 }
        ensures ends { KeepsEnd self.old self.new trail.now }
    {
        loop {
            let step = trail.step(self.place - 1);
            let literal = opposite(step.literal);
            if self.marks[literal as usize] {
                return literal;
            }
            self.place -= 1;
        }
    }

    /// Ends with the clause that is learned, and says up to which level all its literals but the first are
    /// false. The clause's second literal is one of that level.
    pub fn finish(&mut self, trail: &Trail) -> u32
        requires resolvent { IsResolvent self.old trail.now }
        requires last { IsLastPending self.old trail.now }
        ensures idle { IsIdle self.new trail.now }
        ensures finished { IsFinished self.old self.new.learned.items trail.now result }
    {
        if trail.level() == 0 {
            self.learned.clear();
            return 0;
        }
        self.learned[0] = self.newest_marked(trail);
        clear_marks(&mut self.marks, &self.learned);
        order_watches(trail, &mut self.learned)
    }
}

/// Puts a literal of the highest level behind the first, and answers its level, or 0 where there is none.
fn order_watches(trail: &Trail, learned: &mut [u32]) -> u32
    requires some { 1 ≤ length learned.old }
    requires values { (x : ℕ) → IsIn x learned.old → HasSomeValueIn (literals_of trail.now.steps) x }
    ensures permuted { IsPermutation learned.old learned.new }
    ensures first { slice_index learned.new 0 ≡ slice_index learned.old 0 }
    ensures back { IsHighestBehind trail.now.steps learned.new result }
{
    if learned.len() < 2 {
        return 0;
    }
    let at = highest(trail, learned);
    learned.swap(1, at);
    trail.level_of(learned[1])
}

/// Takes the marks of these literals out.
fn clear_marks(marks: &mut [bool], literals: &[u32])
    requires { (x : ℕ) → IsIn x literals.now → x < length marks.old }
    ensures { (x : ℕ) → IsMarked marks.new x → IsMarked marks.old x × (IsIn x literals.now → ⊥) }
{
    for literal in literals {
        marks[*literal as usize] = false;
    }
}

/// The place of the literal with the highest level, behind the first.
fn highest(trail: &Trail, literals: &[u32]) -> usize
    requires two { 2 ≤ length literals.now }
    requires values { (x : ℕ) → IsIn x literals.now → HasSomeValueIn (literals_of trail.now.steps) x }
    ensures behind { 1 ≤ result }
    ensures within { result < length literals.now }
    ensures highest { (k : ℕ) → 1 ≤ k → k < length literals.now → level_at trail.now.steps (variable_of (slice_index literals.now k)) ≤ level_at trail.now.steps (variable_of (slice_index literals.now result)) }
{
    let mut best = 1;
    for at in 2..literals.len() {
        best = higher(trail, literals, best, at);
    }
    best
}

/// That one of two places whose literal has the higher level.
fn higher(trail: &Trail, literals: &[u32], one: usize, other: usize) -> usize
    requires values { (x : ℕ) → IsIn x literals.now → HasSomeValueIn (literals_of trail.now.steps) x }
    requires one { one < length literals.now }
    requires other { other < length literals.now }
    ensures choice { (result ≡ one) ⊎ (result ≡ other) }
    ensures one { level_at trail.now.steps (variable_of (slice_index literals.now one)) ≤ level_at trail.now.steps (variable_of (slice_index literals.now result)) }
    ensures other { level_at trail.now.steps (variable_of (slice_index literals.now other)) ≤ level_at trail.now.steps (variable_of (slice_index literals.now result)) }
{
    if trail.level_of(literals[one]) < trail.level_of(literals[other]) {
        other
    } else {
        one
    }
}
