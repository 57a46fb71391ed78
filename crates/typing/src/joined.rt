//! What is kept of the states of all paths that come to one place.

ghost use Rattle.std.specs.Prelude.{IfOk, ◌≡◌, true, false, ℕ, Some};
ghost use Rattle.typing.specs.Joining.{count_at};
ghost use Rattle.typing.specs.Ranks.{Differs, Sinks};
ghost use Rattle.typing.specs.Summaries.{summary_of, SummarizesEntry, JoinsSummaries, IsSameSummary, Merges};

use crate::maps::{
    Held, Locals, Threads, are_same_held, are_same_locals, are_same_threads, copied_held,
    copied_locals, copied_threads, join_locals, join_threads,
};
use crate::stack::TypeStack;
use std::alloc::{AllocError, Global};

/// What is kept of the states of all paths that come to one place: what is known of the locals and the threads, the stack
/// and the monitors that are held, and whether two paths differ in these.
#[derive(Debug, Drop)]
pub struct Joined {
    pub locals: Locals,
    pub stack: TypeStack,
    pub stacks_differ: bool,
    pub held: Held,
    pub held_differs: bool,
    pub threads: Threads,
}

impl Joined {
    /// What is kept of the paths of two kinds.
    pub fn joined(&self, alloc: Global, other: &Joined) -> Result<Joined, AllocError>
        ensures { IfOk result (λ r. JoinsSummaries (summary_of self.now) (summary_of other.now) (summary_of r)) }
    {
        let locals = join_locals(alloc, &self.locals, &other.locals)?;
        let threads = join_threads(alloc, &self.threads, &other.threads)?;
        let same_stack = self.stack.is_same(&other.stack);
        let same_held = are_same_held(alloc, &self.held, &other.held)?;
        Ok(Joined {
            locals,
            stack: self.stack.copied(alloc)?,
            stacks_differ: self.stacks_differ || other.stacks_differ || !same_stack,
            held: copied_held(&self.held)?,
            held_differs: self.held_differs || other.held_differs || !same_held,
            threads,
        })
    }

    /// What is kept of the paths of two kinds, where it is not the same as of the first.
    fn merged(&self, alloc: Global, other: &Joined) -> Result<Option<Joined>, AllocError>
        ensures merges { IfOk result (Merges (Some self.now) (summary_of other.now)) }
        ensures sinks { IfOk result (Sinks (Some self.now)) }
    {
        let joined = self.joined(alloc, other)?;
        if joined.is_same(alloc, self)? {
            return Ok(None);
        }
        Ok(Some(joined))
    }

    /// The same once more.
    pub fn copied(&self, alloc: Global) -> Result<Joined, AllocError>
        ensures { IfOk result (λ r. IsSameSummary (summary_of r) (summary_of self.now)) }
    {
        Ok(Joined {
            locals: copied_locals(&self.locals)?,
            stack: self.stack.copied(alloc)?,
            stacks_differ: self.stacks_differ,
            held: copied_held(&self.held)?,
            held_differs: self.held_differs,
            threads: copied_threads(&self.threads)?,
        })
    }

    /// Whether both say the same of the stack.
    fn has_same_stack(&self, other: &Joined) -> bool
        ensures same { result ≡ true → (self.now.stack ≡ other.now.stack) × (self.now.stacks_differ ≡ other.now.stacks_differ) }
        ensures differs { result ≡ false → Differs (summary_of self.now) (summary_of other.now) }
    {
        if !self.stack.is_same(&other.stack) {
            return false;
        }
        self.stacks_differ == other.stacks_differ
    }

    /// Whether both say the same of the monitors.
    fn holds_same(&self, alloc: Global, other: &Joined) -> Result<bool, AllocError>
        ensures same { IfOk result (λ yes_or_no. yes_or_no ≡ true → ((q : ℕ) → count_at self.now.held q ≡ count_at other.now.held q) × (self.now.held_differs ≡ other.now.held_differs)) }
        ensures differs { IfOk result (λ yes_or_no. yes_or_no ≡ false → Differs (summary_of self.now) (summary_of other.now)) }
    {
        if !are_same_held(alloc, &self.held, &other.held)? {
            return Ok(false);
        }
        Ok(self.held_differs == other.held_differs)
    }

    /// Whether both say the same.
    fn is_same(&self, alloc: Global, other: &Joined) -> Result<bool, AllocError>
        ensures same { IfOk result (λ yes_or_no. yes_or_no ≡ true → IsSameSummary (summary_of self.now) (summary_of other.now)) }
        ensures differs { IfOk result (λ yes_or_no. yes_or_no ≡ false → Differs (summary_of self.now) (summary_of other.now)) }
    {
        if !self.holds_same(alloc, other)? {
            return Ok(false);
        }
        if !are_same_threads(alloc, &self.threads, &other.threads)? {
            return Ok(false);
        }
        if !are_same_locals(alloc, &self.locals, &other.locals)? {
            return Ok(false);
        }
        Ok(self.has_same_stack(other))
    }
}

/// What a place keeps behind an arrival, where it changes.
pub fn merged(
    alloc: Global,
    old: &Option<Joined>,
    state: &Joined,
) -> Result<Option<Joined>, AllocError>
    ensures merges { IfOk result (Merges old.now (summary_of state.now)) }
    ensures sinks { IfOk result (Sinks old.now) }
{
    match old {
        None => Ok(Some(state.copied(alloc)?)),
        Some(old) => old.merged(alloc, state),
    }
}
