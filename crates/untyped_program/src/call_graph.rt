//! The greatest sums of slots along chains of calls.

ghost use Rattle.std.specs.Prelude.{◌≡◌, ◌<◌, ◌≤◌, ℕ, List, All, IfOk, length, map};
ghost use Rattle.std.specs.Bool.{OnFalse, OnTrue};
ghost use Rattle.untyped_program.specs.Edges.{IsAmong, AreRaised, AreSteady, cut, is_less, raised, total};
ghost use Rattle.untyped_program.specs.Limits.{slots_of};

use crate::edges::Edge;
use ports::Memory;
use std::alloc::Global;
use std::cmp;
use typing::UntypedMethod;

/// Where sums are cut off: the least that passes the limit.
pub const CUT: u32 = 17;

/// The slots of each frame, cut off.
pub fn slots_of(alloc: Global, methods: &[UntypedMethod]) -> Result<Vec<u32>, Memory>
    ensures { IfOk result (λ slots. slots.items ≡ map (λ m. cut (slots_of m)) methods.now) }
{
    let mut slots = Vec::new(alloc);
    for method in methods {
        let sum = u64::from(method.frame.max_locals) + u64::from(method.frame.max_stack);
        slots
            .push(cmp::min(u64::from(CUT), sum) as u32)
            .map_err(|_| Memory)?;
    }
    Ok(slots)
}

/// Raises the sum of a caller to that through a call, and says whether it was less.
fn raise(slots: &[u32], edge: Edge, sums: &mut [u32]) -> bool
    requires among { IsAmong (length slots.now) edge }
    requires size { length sums.old ≡ length slots.now }
    requires slots { All (λ n. n ≤ 17) slots.now }
    requires sums { All (λ n. n ≤ 17) sums.old }
    ensures sums { sums.new ≡ raised slots.now edge sums.old }
    ensures less { result ≡ is_less slots.now edge sums.old }
{
    let through = cmp::min(CUT, slots[edge.caller] + sums[edge.called]);
    if sums[edge.caller] < through {
        sums[edge.caller] = through;
        true
    } else {
        false
    }
}

/// Raises sums by each call once, and says whether one was less.
fn raise_all(slots: &[u32], edges: &[Edge], sums: &mut [u32]) -> bool
    requires among { All (IsAmong (length slots.now)) edges.now }
    requires size { length sums.old ≡ length slots.now }
    requires slots { All (λ n. n ≤ 17) slots.now }
    requires sums { All (λ n. n ≤ 17) sums.old }
    ensures size { length sums.new ≡ length sums.old }
    ensures sums { All (λ n. n ≤ 17) sums.new }
    ensures raised { (from : List ℕ) → AreRaised slots.now edges.now from sums.old → AreRaised slots.now edges.now from sums.new }
    ensures steady { OnFalse result (AreSteady slots.now edges.now sums.old × (sums.new ≡ sums.old)) }
    ensures more { OnTrue result (total sums.old < total sums.new) }
{
    let mut changed = false;
    for edge in edges {
        if raise(slots, *edge, sums) {
            changed = true;
        }
    }
    changed
}

/// The same numbers once more.
fn copied(alloc: Global, numbers: &[u32]) -> Result<Vec<u32>, Memory>
    ensures { IfOk result (λ copy. copy.items ≡ numbers.now) }
{
    match Vec::from_slice(alloc, numbers) {
        Ok(copy) => Ok(copy),
        Err(_) => Err(Memory),
    }
}

/// The greatest sums from each method on, cut off.
pub fn greatest_sums(alloc: Global, slots: &[u32], edges: &[Edge]) -> Result<Vec<u32>, Memory>
    requires among { All (IsAmong (length slots.now)) edges.now }
    requires slots { All (λ n. n ≤ 17) slots.now }
    ensures raised { IfOk result (λ sums. AreRaised slots.now edges.now slots.now sums.items) }
    ensures steady { IfOk result (λ sums. AreSteady slots.now edges.now sums.items) }
{
    let mut sums = copied(alloc, slots)?;
    let mut changed = true;
    while changed {
        changed = raise_all(slots, edges, &mut sums);
    }
    Ok(sums)
}
