//! Calls that lead back to their callers.

ghost use Rattle.std.specs.Prelude.{◌≡◌, ◌<◌, ◌++◌, [], ◌∷◌, Contains, false, length, replicate, slice_get, IfOk, IsTrue, OnOk};
ghost use Rattle.relations.specs.Path.{Walk};
ghost use Rattle.program.specs.declared.method.MethodId.{MethodId};
ghost use Rattle.resolution.specs.declared.target.Target.TheVariants as named;
ghost use Rattle.reached_methods.specs.Cycles.{AreClosed, CallsBack, CallsIn, HasReturn, IsIdle, IsMarked, IsSearch, KeepsMarks, Marks, StandsIn, work_of};
ghost use Rattle.reached_methods.specs.Exploring.{AreByPlace, ids_of};
ghost use Rattle.reached_methods.specs.FirstFault.{IsFirstOrNone};

use crate::adding::push;
use crate::fault::Fault;
use crate::method::ReachedMethod;
use crate::places::place_of;
use crate::refusal::{CodeKind, Detail};
use crate::survey::{Surveyed, is_method};
use ports::Memory;
use program::MethodId;
use resolution::Target;
use std::alloc::Global;

/// The methods that calls lead to from those where the search began, and those of them whose calls were not looked at.
#[derive(Drop)]
struct Search {
    marked: Vec<bool>,
    waiting: Vec<usize>,
}

impl Search {
    /// A search among so many methods that has not begun.
    fn new(alloc: Global, count: usize) -> Result<Search, Memory>
        ensures { IfOk result (λ s. (s.marked.items ≡ replicate count false) × (s.waiting.items ≡ [])) }
    {
        let marked = vec![in alloc; false; count].map_err(|_| Memory)?;
        Ok(Search {
            marked,
            waiting: Vec::new(alloc),
        })
    }

    /// Marks a method. It waits where it was not marked before.
    fn mark(&mut self, surveys: &[Surveyed], id: MethodId) -> Result<(), Memory>
        requires by_place { AreByPlace surveys.now }
        requires known { Contains (ids_of surveys.now) id }
        requires same_length { length self.old.marked.items ≡ length surveys.now }
        ensures marks { OnOk result (Marks surveys.now id self.old.marked.items self.old.waiting.items self.new.marked.items self.new.waiting.items) }
        ensures work { OnOk result (work_of self.new.marked.items self.new.waiting.items ≡ work_of self.old.marked.items self.old.waiting.items) }
    {
        let to = place_of(surveys, id);
        if !self.marked[to] {
            push(&mut self.waiting, to)?;
            self.marked[to] = true;
        }
        Ok(())
    }

    /// Follows what an instruction of the method at `from` names, and answers whether that is a call of the sought method.
    fn follow(
        &mut self,
        surveys: &[Surveyed],
        sought: MethodId,
        start: MethodId,
        from: usize,
        target: Target,
    ) -> Result<bool, Memory>
        requires by_place { AreByPlace surveys.now }
        requires known { (called : MethodId) → target ≡ named.Call called → Contains (ids_of surveys.now) called }
        requires from_start { (called : MethodId) → target ≡ named.Call called → Walk (CallsIn surveys.now) start called }
        requires search { IsSearch surveys.now sought start self.old.marked.items (self.old.waiting.items ++ from ∷ []) }
        ensures found { IfOk result (λ found. IsTrue found → target ≡ named.Call sought) }
        ensures search { IfOk result (λ found. found ≡ false → IsSearch surveys.now sought start self.new.marked.items (self.new.waiting.items ++ from ∷ [])) }
        ensures marked { IfOk result (λ found. found ≡ false → (called : MethodId) → target ≡ named.Call called → IsMarked surveys.now self.new.marked.items called) }
        ensures kept { IfOk result (λ found. found ≡ false → KeepsMarks surveys.now self.old.marked.items self.new.marked.items) }
        ensures work { IfOk result (λ found. found ≡ false → work_of self.new.marked.items self.new.waiting.items ≡ work_of self.old.marked.items self.old.waiting.items) }
    {
        match target {
            Target::Call(called) => {
                if is_method(called, sought) {
                    return Ok(true);
                }
                self.mark(surveys, called)?;
                Ok(false)
            }
            _ => Ok(false),
        }
    }

    /// Follows the calls of the method at `from`, which waited, and answers whether one of them calls the sought method.
    fn step(
        &mut self,
        surveys: &[Surveyed],
        sought: MethodId,
        start: MethodId,
        from: usize,
    ) -> Result<bool, Memory>
        requires by_place { AreByPlace surveys.now }
        requires closed { AreClosed surveys.now }
        requires search { IsSearch surveys.now sought start self.old.marked.items (self.old.waiting.items ++ from ∷ []) }
        ensures found { IfOk result (λ found. IsTrue found → Walk (CallsIn surveys.now) start sought) }
        ensures search { IfOk result (λ found. found ≡ false → IsSearch surveys.now sought start self.new.marked.items self.new.waiting.items) }
        ensures kept { IfOk result (λ found. found ≡ false → KeepsMarks surveys.now self.old.marked.items self.new.marked.items) }
        ensures work { IfOk result (λ found. found ≡ false → work_of self.new.marked.items self.new.waiting.items ≡ work_of self.old.marked.items self.old.waiting.items) }
    {
        for target in surveys[from].method.targets.as_slice() {
            if self.follow(surveys, sought, start, from, *target)? {
                return Ok(true);
            }
        }
        Ok(false)
    }

    /// Whether calls lead from a method to the sought one. Methods that were marked before do not lead to it.
    fn leads_to(
        &mut self,
        surveys: &[Surveyed],
        sought: MethodId,
        start: MethodId,
    ) -> Result<bool, Memory>
        requires by_place { AreByPlace surveys.now }
        requires closed { AreClosed surveys.now }
        requires known { Contains (ids_of surveys.now) start }
        requires idle { IsIdle surveys.now sought self.old.marked.items self.old.waiting.items }
        ensures found { IfOk result (λ found. IsTrue found → Walk (CallsIn surveys.now) start sought) }
        ensures idle { IfOk result (λ found. found ≡ false → IsIdle surveys.now sought self.new.marked.items self.new.waiting.items) }
        ensures marked { IfOk result (λ found. found ≡ false → IsMarked surveys.now self.new.marked.items start) }
        ensures kept { IfOk result (λ found. found ≡ false → KeepsMarks surveys.now self.old.marked.items self.new.marked.items) }
    {
        if is_method(start, sought) {
            return Ok(true);
        }
        self.mark(surveys, start)?;
        while let Some(from) = self.waiting.pop() {
            if self.step(surveys, sought, start, from)? {
                return Ok(true);
            }
        }
        Ok(false)
    }

    /// Whether an instruction calls a method that leads to the sought one.
    fn returns(
        &mut self,
        surveys: &[Surveyed],
        sought: MethodId,
        target: Target,
    ) -> Result<bool, Memory>
        requires by_place { AreByPlace surveys.now }
        requires closed { AreClosed surveys.now }
        requires known { (called : MethodId) → target ≡ named.Call called → Contains (ids_of surveys.now) called }
        requires idle { IsIdle surveys.now sought self.old.marked.items self.old.waiting.items }
        ensures found { IfOk result (λ found. IsTrue found → CallsBack surveys.now sought target) }
        ensures idle { IfOk result (λ found. found ≡ false → IsIdle surveys.now sought self.new.marked.items self.new.waiting.items) }
        ensures marked { IfOk result (λ found. found ≡ false → (called : MethodId) → target ≡ named.Call called → IsMarked surveys.now self.new.marked.items called) }
        ensures kept { IfOk result (λ found. found ≡ false → KeepsMarks surveys.now self.old.marked.items self.new.marked.items) }
    {
        match target {
            Target::Call(called) => self.leads_to(surveys, sought, called),
            _ => Ok(false),
        }
    }
}

/// The first instruction of the method at this place that calls one from which calls lead back to it. This looks at each call
/// of each method once at most, since methods from which an earlier call did not lead back are not looked at again.
pub fn first_return(
    alloc: Global,
    surveys: &[Surveyed],
    method: &ReachedMethod,
) -> Result<Option<Fault>, Memory>
    requires by_place { AreByPlace surveys.now }
    requires closed { AreClosed surveys.now }
    requires known { (called : MethodId) → Contains method.now.targets (named.Call called) → Contains (ids_of surveys.now) called }
    requires same_length { length method.now.targets ≡ length method.now.listing }
    ensures { IfOk result (λ fault. IsFirstOrNone (HasReturn surveys.now method.now) fault) }
{
    let mut search = Search::new(alloc, surveys.len())?;
    let targets = method.targets.as_slice();
    for (at, item) in method.listing.as_slice().iter().enumerate() {
        if search.returns(surveys, method.id, targets[at])? {
            return Ok(Some(Fault {
                pc: item.pc,
                kind: CodeKind::Recursion,
                detail: Detail::Nothing,
            }));
        }
    }
    Ok(None)
}
