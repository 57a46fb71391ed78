//! The order of decisions, in arrays that are taken once.

use crate::heap::{sift_down, sift_up, swap};
use std::alloc::{AllocError, Global};
use std::marker::Model;

/// There was no memory for the order.
#[derive(Clone, Copy, Debug, PartialEq, Eq)]
pub struct Memory;

impl From<AllocError> for Memory {
    fn from(_error: AllocError) -> Memory {
        Memory
    }
}

/// How much more a raise counts after each time that activities aged.
const GROWTH: f64 = 1.0526315789473684;

/// Past this gain all activities are made smaller.
const HIGH: f64 = 1e100;

/// By how much they are made smaller then.
const SMALLER: f64 = 1e-100;

/// The variables that wait for a decision, the most active first, each with the value that it had last. No
/// call after [`open`](DecisionOrder::open) takes memory.
#[derive(Debug, Drop)]
pub struct DecisionOrder {
    heap: Vec<u32>,
    /// Where each variable stands in the heap.
    places: Vec<Option<u32>>,
    activities: Vec<f64>,
    /// The value that each variable had last.
    phases: Vec<bool>,
    /// How much the activity of a variable that is raised grows.
    gain: f64,
}

impl Model for DecisionOrder {
    ghost use Rattle.std.specs.Prelude.{vec_len, vec_capacity};
    ghost use Rattle.decision_order.specs.Waiting.{OrderValue, IsOrder};

    ghost Value = { OrderValue };

    ghost view = { λ o. record { waiting = o.heap.items; variables = vec_len o.places; phases = o.phases.items } };

    ghost invariant = { λ o. IsOrder o.heap.items o.places.items (vec_capacity o.heap) (vec_len o.activities) (vec_len o.phases) };
}

impl DecisionOrder {
    ghost use Rattle.std.specs.Prelude.{◌≡◌, ◌+◌, ◌<◌, ◌^◌, ℕ, IfOk, IfNone, IfSome, [], length, slice_set};
    ghost use Rattle.clause_pool.specs.PoolValue.{IsIn};
    ghost use Rattle.decision_order.specs.Waiting.{Stay, StayBut, phase_at};

    /// An order of so many variables, none of which waits. It takes all its memory here.
    ///
    /// # Errors
    ///
    /// `Memory` where an allocation fails.
    pub fn open(alloc: Global, variables: u32) -> Result<DecisionOrder, Memory>
        ensures waiting { IfOk result (λ order. order.waiting ≡ []) }
        ensures variables { IfOk result (λ order. order.variables ≡ variables) }
    {
        let count = variables as usize;
        let heap = Vec::with_capacity(alloc, count)?;
        let places = vec![in alloc; None; count]?;
        let activities = vec![in alloc; 0.0f64; count]?;
        let phases = vec![in alloc; false; count]?;
        Ok(DecisionOrder {
            heap,
            places,
            activities,
            phases,
            gain: 1.0,
        })
    }

    /// Takes out the most active variable that waits.
    pub fn next(&mut self) -> Option<u32>
        ensures none { IfNone result (self.old.waiting ≡ []) }
        ensures waited { IfSome result (λ variable. IsIn variable self.old.waiting) }
        ensures below { IfSome result (λ variable. variable < self.old.variables) }
        ensures others { IfSome result (StayBut self.old.waiting self.new.waiting) }
        ensures fewer { IfSome result (λ variable. length self.new.waiting + 1 ≡ length self.old.waiting) }
        ensures unchanged { IfNone result (self.new ≡ self.old) }
        ensures variables { self.new.variables ≡ self.old.variables }
        ensures phases { self.new.phases ≡ self.old.phases }
    {
        if self.heap.is_empty() {
            return None;
        }
        let last = self.heap.len() - 1;
        swap(&mut self.heap, &mut self.places, 0, last);
        let top = self.heap.pop()?;
        self.places[top as usize] = None;
        sift_down(&mut self.heap, &mut self.places, &self.activities);
        Some(top)
    }

    /// Lets a variable wait again, with the value that it had.
    pub fn put_back(&mut self, variable: u32, value: bool)
        requires { variable < self.old.variables }
        ensures waits { IsIn variable self.new.waiting }
        ensures others { Stay self.old.waiting self.new.waiting }
        ensures variables { self.new.variables ≡ self.old.variables }
        ensures phases { self.new.phases ≡ slice_set self.old.phases variable value }
    {
        self.phases[variable as usize] = value;
        if self.places[variable as usize].is_some() {
            return;
        }
        let place = self.heap.len();
        self.places[variable as usize] = Some(place as u32);
        self.heap.push_reserved(variable);
        sift_up(&mut self.heap, &mut self.places, &self.activities, place);
    }

    /// The value that a variable had last.
    pub fn phase(&self, variable: u32) -> bool
        requires { variable < self.now.variables }
        ensures { result ≡ phase_at self.now.phases variable }
    {
        self.phases[variable as usize]
    }

    /// Makes a variable more active.
    pub fn raise(&mut self, variable: u32)
        requires { variable < self.old.variables }
        ensures others { Stay self.old.waiting self.new.waiting }
        ensures variables { self.new.variables ≡ self.old.variables }
        ensures phases { self.new.phases ≡ self.old.phases }
    {
        self.activities[variable as usize] += self.gain;
        if let Some(place) = self.places[variable as usize] {
            sift_up(
                &mut self.heap,
                &mut self.places,
                &self.activities,
                place as usize,
            );
        }
    }

    /// Lets activities age: the raises from now on count for more than those before.
    pub fn age(&mut self)
        ensures { self.new ≡ self.old }
    {
        self.gain *= GROWTH;
        if self.gain > HIGH {
            self.gain *= SMALLER;
            for activity in self.activities.iter_mut() {
                *activity *= SMALLER;
            }
        }
    }
}
