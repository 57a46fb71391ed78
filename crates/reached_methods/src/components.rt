//! The strongly connected components of the calls, numbered so that calls lead to no greater number.
//!
//! Of these numbers no more is promised than how many they are; they are tested in `ranks`. The walk is Tarjan's, with its
//! ways in lists.

ghost use Rattle.std.specs.Prelude.{◌≡◌, IfOk, length};

use crate::adding::push;
use crate::places::is_before;
use crate::survey::Surveyed;
use ports::Memory;
use program::MethodId;
use resolution::Target;
use std::alloc::Global;

/// What is known of a method that was visited: its number in the order of visits, the least number of a method without a
/// component to which it is known to lead, and its component.
#[derive(Clone, Copy, Drop)]
struct Visit {
    number: usize,
    low: usize,
    component: Option<usize>,
}

/// A method whose calls are being followed: its place, and its next instruction.
#[derive(Clone, Copy, Drop)]
struct Step {
    method: usize,
    next: usize,
}

/// A walk along calls, depth first.
#[derive(Drop)]
struct Walk {
    visits: Vec<Option<Visit>>,
    open: Vec<usize>,
    way: Vec<Step>,
    visited: usize,
    components: usize,
}

impl Walk {
    /// A walk among so many methods that has not begun.
    fn new(alloc: Global, count: usize) -> Result<Walk, Memory> {
        let none: Option<Visit> = None;
        let visits = vec![in alloc; none; count].map_err(|_| Memory)?;
        Ok(Walk {
            visits,
            open: Vec::new(alloc),
            way: Vec::new(alloc),
            visited: 0,
            components: 0,
        })
    }

    /// What is known of the method at this place.
    fn visit_of(&self, method: usize) -> Option<Visit> {
        match self.visits.get(method) {
            Some(visit) => *visit,
            None => None,
        }
    }

    /// Goes to a method for the first time.
    fn enter(&mut self, method: usize) -> Result<(), Memory> {
        if let Some(visit) = self.visits.get_mut(method) {
            *visit = Some(Visit {
                number: self.visited,
                low: self.visited,
                component: None,
            });
            self.visited = self.visited.saturating_add(1);
            push(&mut self.open, method)?;
            push(&mut self.way, Step { method, next: 0 })?;
        }
        Ok(())
    }

    /// Notes that a method leads to the one with this number.
    fn lower(&mut self, method: usize, low: usize) {
        if let Some(Some(visit)) = self.visits.get_mut(method) {
            visit.low = visit.low.min(low);
        }
    }

    /// Follows a call.
    fn meet(&mut self, from: usize, to: usize) -> Result<(), Memory> {
        match self.visit_of(to) {
            None => self.enter(to),
            Some(visit) => {
                if visit.component.is_none() {
                    self.lower(from, visit.number);
                }
                Ok(())
            }
        }
    }

    /// Makes a component of this method and the open ones that were visited behind it.
    fn close(&mut self, root: usize) {
        for _ in 0..self.open.len() {
            let Some(method) = self.open.pop() else {
                break;
            };
            if let Some(Some(visit)) = self.visits.get_mut(method) {
                visit.component = Some(self.components);
            }
            if method == root {
                break;
            }
        }
        self.components = self.components.saturating_add(1);
    }

    /// Leaves a method whose calls are all followed.
    fn leave(&mut self, method: usize) {
        let Some(visit) = self.visit_of(method) else {
            return;
        };
        if visit.low == visit.number {
            self.close(method);
        }
        if let Some(caller) = self.way.last().copied() {
            self.lower(caller.method, visit.low);
        }
    }

    /// Follows an instruction of a method.
    fn follow(&mut self, surveys: &[Surveyed], from: usize, target: Target) -> Result<(), Memory> {
        match target {
            Target::Call(called) => {
                let to = surveys.partition_point(|s| is_before(s.method.id, called));
                self.meet(from, to)
            }
            _ => Ok(()),
        }
    }

    /// Follows the next instruction of the last method of the way, or leaves it. Whether there was one.
    fn step(&mut self, surveys: &[Surveyed]) -> Result<bool, Memory> {
        let Some(last) = self.way.pop() else {
            return Ok(false);
        };
        let method = last.method;
        let Some(target) = target_at(surveys, last) else {
            self.leave(method);
            return Ok(true);
        };
        let next = last.next.saturating_add(1);
        push(&mut self.way, Step { method, next })?;
        self.follow(surveys, method, target)?;
        Ok(true)
    }

    /// Visits all methods to which this one leads, in this many steps at most.
    fn visit(&mut self, surveys: &[Surveyed], method: usize, most: usize) -> Result<(), Memory> {
        if self.visit_of(method).is_some() {
            return Ok(());
        }
        self.enter(method)?;
        for _ in 0..most {
            if !self.step(surveys)? {
                return Ok(());
            }
        }
        Ok(())
    }
}

/// What the next instruction of a method names, if there is one.
fn target_at(surveys: &[Surveyed], step: Step) -> Option<Target> {
    let surveyed = surveys.get(step.method)?;
    surveyed.method.targets.as_slice().get(step.next).copied()
}

/// More steps than a walk takes: each instruction is followed once, and each method is left once.
fn steps_of(surveys: &[Surveyed]) -> usize {
    let mut steps = surveys.len().saturating_add(1);
    for surveyed in surveys {
        steps = steps.saturating_add(surveyed.method.targets.len());
    }
    steps
}

/// The component of a visited method.
fn component_of(visit: Option<Visit>) -> usize {
    match visit {
        Some(visit) => visit.component.unwrap_or(0),
        None => 0,
    }
}

/// The number of each method's component.
pub fn components_of(alloc: Global, surveys: &[Surveyed]) -> Result<Vec<usize>, Memory>
    ensures { IfOk result (λ numbers. length numbers.items ≡ length surveys.now) }
{
    let most = steps_of(surveys);
    let mut walk = Walk::new(alloc, surveys.len())?;
    for method in 0..surveys.len() {
        walk.visit(surveys, method, most)?;
    }
    let mut numbers = Vec::new(alloc);
    for method in 0..surveys.len() {
        push(&mut numbers, component_of(walk.visit_of(method)))?;
    }
    Ok(numbers)
}
