//! Maps from the numbers of locals, monitors and threads to what is known of them.

ghost use Rattle.std.specs.Prelude.{◌≡◌, ◌≢◌, ◌⊎◌, true, false, ℕ, AllPairs, Some, None, IfOk, OnOk, IsTrue, ◌↔◌, ◌+◌, ◌-◌, ◌<◌, ◌^◌, nat_eq, if◌then◌else◌};
ghost use Rattle.std.specs.Option.{is_some, option_or, option_map, unwrap_or};
ghost use Rattle.std.specs.List.{list_any};
ghost use Rattle.std.specs.Ordering.{nat_cmp};
ghost use Rattle.std.specs.BTreeMap.{get};
ghost use Rattle.typing.specs.States.{with_value};
ghost use Rattle.typing.specs.Changes.{held_behind};
ghost use Rattle.typing.specs.Joining.{JoinsLocal, either_stage, local_at, count_at, stage_at, joined_locals_behind, stages_behind, constructed_local};

use crate::change::{HeldChange, LocalChange, ThreadChange};
use crate::joined_type::{JoinedType, constructed_local, join_local};
use crate::object::Object;
use crate::stage::{APART, JOINED, READY, STARTED, Stage};
use std::alloc::{AllocError, Global};
use std::collections::BTreeMap;

/// What is known of the locals. A local that is nothing on some path, or has two types, is not there.
pub type Locals = BTreeMap<u32, JoinedType>;

/// How often monitors are held. One that isn't held is not there.
pub type Held = BTreeMap<u32, u32>;

/// What is known of threads. One that is made on no path is not there.
pub type Threads = BTreeMap<u32, Stage>;

/// The numbers that a map has something for.
pub fn keys_of<V>(alloc: Global, map: &BTreeMap<u32, V>) -> Result<Vec<u32>, AllocError>
    ensures by_number { IfOk result (λ keys. AllPairs (λ a b. a < b) keys.items) }
    ensures has { IfOk result (λ keys. (q : ℕ) → list_any (nat_eq q) keys.items ≡ is_some (get nat_cmp map.now q)) }
{
    map.keys().copied().collect(alloc)
}

/// What is known of a local.
pub fn local_of(locals: &Locals, slot: u32) -> Option<JoinedType>
    ensures { result ≡ local_at locals.now slot }
{
    locals.get(&slot).copied()
}

/// How often a monitor is held.
pub fn count_of(held: &Held, monitor: u32) -> u32
    ensures { result ≡ count_at held.now monitor }
{
    held.get(&monitor).copied().unwrap_or(0)
}

/// Something for a number, if there is anything.
fn put_local(locals: &mut Locals, slot: u32, holds: Option<JoinedType>) -> Result<(), AllocError>
    ensures here { OnOk result (local_at locals.new slot ≡ option_or holds (local_at locals.old slot)) }
    ensures apart { OnOk result ((q : ℕ) → q ≢ slot → local_at locals.new q ≡ local_at locals.old q) }
{
    if let Some(holds) = holds {
        locals.insert(slot, holds)?;
    }
    Ok(())
}

/// What is known of a local on the paths of two kinds.
fn joined_local(a: &Locals, b: &Locals, slot: u32) -> Option<JoinedType>
    ensures { JoinsLocal (local_at a.now slot) (local_at b.now slot) result }
{
    join_local(local_of(a, slot), local_of(b, slot))
}

/// What is known of the locals on the paths of two kinds.
pub fn join_locals(alloc: Global, a: &Locals, b: &Locals) -> Result<Locals, AllocError>
    ensures { IfOk result (λ r. (q : ℕ) → JoinsLocal (local_at a.now q) (local_at b.now q) (local_at r q)) }
{
    let mut joined = BTreeMap::new(alloc);
    let slots = keys_of(alloc, a)?;
    for slot in &slots {
        let holds = joined_local(a, b, *slot);
        put_local(&mut joined, *slot, holds)?;
    }
    Ok(joined)
}

/// What is known of a thread.
pub fn stage_of(threads: &Threads, thread: u32) -> Stage
    ensures { result ≡ stage_at threads.now thread }
{
    threads.get(&thread).copied().unwrap_or(APART)
}

/// What is known of a thread on the paths of two kinds.
fn joined_stage(a: &Threads, b: &Threads, thread: u32) -> Stage
    ensures { result ≡ either_stage (stage_at a.now thread) (stage_at b.now thread) }
{
    stage_of(a, thread).either(stage_of(b, thread))
}

/// What is known of a thread.
fn put_stage(threads: &mut Threads, thread: u32, stage: Stage) -> Result<(), AllocError>
    ensures here { OnOk result (stage_at threads.new thread ≡ stage) }
    ensures apart { OnOk result ((q : ℕ) → q ≢ thread → stage_at threads.new q ≡ stage_at threads.old q) }
{
    threads.insert(thread, stage)?;
    Ok(())
}

/// Adds what is known of the threads of this list on the paths of two kinds.
fn join_stages(
    joined: &mut Threads,
    listed: &[u32],
    a: &Threads,
    b: &Threads,
) -> Result<(), AllocError>
    ensures listed { OnOk result ((q : ℕ) → list_any (nat_eq q) listed.now ≡ true → stage_at joined.new q ≡ either_stage (stage_at a.now q) (stage_at b.now q)) }
    ensures others { OnOk result ((q : ℕ) → list_any (nat_eq q) listed.now ≡ false → stage_at joined.new q ≡ stage_at joined.old q) }
{
    for thread in listed {
        let stage = joined_stage(a, b, *thread);
        put_stage(joined, *thread, stage)?;
    }
    Ok(())
}

/// What is known of the threads on the paths of two kinds.
pub fn join_threads(alloc: Global, a: &Threads, b: &Threads) -> Result<Threads, AllocError>
    ensures { IfOk result (λ r. (q : ℕ) → stage_at r q ≡ either_stage (stage_at a.now q) (stage_at b.now q)) }
{
    let mut joined = BTreeMap::new(alloc);
    let first = keys_of(alloc, a)?;
    let second = keys_of(alloc, b)?;
    join_stages(&mut joined, &first, a, b)?;
    join_stages(&mut joined, &second, a, b)?;
    Ok(joined)
}

/// Whether the same is known of a local.
fn is_same_local(a: &Locals, b: &Locals, slot: u32) -> bool
    ensures same { IsTrue result ↔ (local_at a.now slot ≡ local_at b.now slot) }
    ensures small { slot < 2 ^ 32 }
{
    local_of(a, slot) == local_of(b, slot)
}

/// Whether the same is known of a thread.
fn is_same_stage(a: &Threads, b: &Threads, thread: u32) -> bool
    ensures same { IsTrue result ↔ (stage_at a.now thread ≡ stage_at b.now thread) }
    ensures small { thread < 2 ^ 32 }
{
    stage_of(a, thread) == stage_of(b, thread)
}

/// Whether a monitor is held equally often.
fn is_same_count(a: &Held, b: &Held, monitor: u32) -> bool
    ensures { IsTrue result ↔ (count_at a.now monitor ≡ count_at b.now monitor) }
{
    count_of(a, monitor) == count_of(b, monitor)
}

/// Whether the same is known of the locals of this list.
fn agree_on_locals(listed: &[u32], a: &Locals, b: &Locals) -> bool
    ensures agrees { IsTrue result ↔ ((q : ℕ) → list_any (nat_eq q) listed.now ≡ true → local_at a.now q ≡ local_at b.now q) }
    ensures differs { result ≡ false → (q : ℕ) × (q < 2 ^ 32) × (local_at a.now q ≢ local_at b.now q) }
{
    for slot in listed {
        if !is_same_local(a, b, *slot) {
            return false;
        }
    }
    true
}

/// Whether the same is known of the threads of this list.
fn agree_on_threads(listed: &[u32], a: &Threads, b: &Threads) -> bool
    ensures agrees { IsTrue result ↔ ((q : ℕ) → list_any (nat_eq q) listed.now ≡ true → stage_at a.now q ≡ stage_at b.now q) }
    ensures differs { result ≡ false → (q : ℕ) × (q < 2 ^ 32) × (stage_at a.now q ≢ stage_at b.now q) }
{
    for thread in listed {
        if !is_same_stage(a, b, *thread) {
            return false;
        }
    }
    true
}

/// Whether the monitors of this list are held equally often.
fn agree_on_held(listed: &[u32], a: &Held, b: &Held) -> bool
    ensures agrees { IsTrue result ↔ ((q : ℕ) → list_any (nat_eq q) listed.now ≡ true → count_at a.now q ≡ count_at b.now q) }
    ensures differs { result ≡ false → (q : ℕ) × (count_at a.now q ≢ count_at b.now q) }
{
    for monitor in listed {
        if !is_same_count(a, b, *monitor) {
            return false;
        }
    }
    true
}

/// Whether the same is known of the locals.
pub fn are_same_locals(alloc: Global, a: &Locals, b: &Locals) -> Result<bool, AllocError>
    ensures same { IfOk result (λ yes_or_no. IsTrue yes_or_no ↔ ((q : ℕ) → local_at a.now q ≡ local_at b.now q)) }
    ensures differ { IfOk result (λ yes_or_no. yes_or_no ≡ false → (q : ℕ) × (q < 2 ^ 32) × (local_at a.now q ≢ local_at b.now q)) }
{
    let first = keys_of(alloc, a)?;
    let second = keys_of(alloc, b)?;
    Ok(agree_on_locals(&first, a, b) && agree_on_locals(&second, a, b))
}

/// Whether the same is known of the threads.
pub fn are_same_threads(alloc: Global, a: &Threads, b: &Threads) -> Result<bool, AllocError>
    ensures same { IfOk result (λ yes_or_no. IsTrue yes_or_no ↔ ((q : ℕ) → stage_at a.now q ≡ stage_at b.now q)) }
    ensures differ { IfOk result (λ yes_or_no. yes_or_no ≡ false → (q : ℕ) × (q < 2 ^ 32) × (stage_at a.now q ≢ stage_at b.now q)) }
{
    let first = keys_of(alloc, a)?;
    let second = keys_of(alloc, b)?;
    Ok(agree_on_threads(&first, a, b) && agree_on_threads(&second, a, b))
}

/// Whether the monitors are held equally often.
pub fn are_same_held(alloc: Global, a: &Held, b: &Held) -> Result<bool, AllocError>
    ensures same { IfOk result (λ yes_or_no. IsTrue yes_or_no ↔ ((q : ℕ) → count_at a.now q ≡ count_at b.now q)) }
    ensures differ { IfOk result (λ yes_or_no. yes_or_no ≡ false → (q : ℕ) × (count_at a.now q ≢ count_at b.now q)) }
{
    let first = keys_of(alloc, a)?;
    let second = keys_of(alloc, b)?;
    Ok(agree_on_held(&first, a, b) && agree_on_held(&second, a, b))
}

/// The constructor of an object was called: it is constructed in a local.
fn construct_at(locals: &mut Locals, slot: u32, object: Object) -> Result<(), AllocError>
    ensures here { OnOk result (local_at locals.new slot ≡ option_map (constructed_local object) (local_at locals.old slot)) }
    ensures apart { OnOk result ((q : ℕ) → q ≢ slot → local_at locals.new q ≡ local_at locals.old q) }
{
    match local_of(locals, slot) {
        Some(holds) => put_local(locals, slot, Some(constructed_local(object, holds))),
        None => Ok(()),
    }
}

/// The constructor of an object was called: it is constructed in each of the locals of this list.
fn construct_locals(locals: &mut Locals, listed: &[u32], object: Object) -> Result<(), AllocError>
    ensures listed { OnOk result ((q : ℕ) → list_any (nat_eq q) listed.now ≡ true → local_at locals.new q ≡ option_map (constructed_local object) (local_at locals.old q)) }
    ensures others { OnOk result ((q : ℕ) → list_any (nat_eq q) listed.now ≡ false → local_at locals.new q ≡ local_at locals.old q) }
{
    for slot in listed {
        construct_at(locals, *slot, object)?;
    }
    Ok(())
}

/// What becomes of the locals behind an instruction.
pub fn change_locals(
    alloc: Global,
    locals: &mut Locals,
    change: LocalChange,
) -> Result<(), AllocError>
    ensures { OnOk result ((q : ℕ) → local_at locals.new q ≡ joined_locals_behind change (local_at locals.old) q) }
{
    match change {
        LocalChange::Stays => Ok(()),
        LocalChange::Stores { slot, holds } => put_local(
            locals,
            slot,
            Some(JoinedType::Known(holds)),
        ),
        LocalChange::Constructs(object) => {
            let listed = keys_of(alloc, locals)?;
            construct_locals(locals, &listed, object)
        }
    }
}

/// What becomes of the threads behind an instruction.
pub fn change_threads(threads: &mut Threads, change: ThreadChange) -> Result<(), AllocError>
    ensures { OnOk result ((q : ℕ) → stage_at threads.new q ≡ stages_behind change (stage_at threads.old) q) }
{
    match change {
        ThreadChange::Stays => Ok(()),
        ThreadChange::Makes(thread) | ThreadChange::Asks(thread) => {
            put_stage(threads, thread, APART)
        }
        ThreadChange::Readies(thread) => put_stage(threads, thread, READY),
        ThreadChange::Starts(thread) => put_stage(threads, thread, STARTED),
        ThreadChange::Joins(thread) => put_stage(threads, thread, JOINED),
    }
}

/// A monitor is held so often. One that isn't held takes no memory.
fn put_count(held: &mut Held, monitor: u32, count: u32) -> Result<(), AllocError>
    ensures here { OnOk result (count_at held.new monitor ≡ count) }
    ensures apart { OnOk result ((q : ℕ) → q ≢ monitor → count_at held.new q ≡ count_at held.old q) }
{
    if count == 0 {
        let _ = held.remove(&monitor);
        return Ok(());
    }
    held.insert(monitor, count)?;
    Ok(())
}

/// What becomes of the monitors behind an instruction. A count that doesn't fit is want of memory.
pub fn change_held(held: &mut Held, change: HeldChange) -> Result<(), AllocError>
    ensures { OnOk result ((q : ℕ) → count_at held.new q ≡ held_behind change (count_at held.old) q) }
{
    match change {
        HeldChange::Stays => Ok(()),
        HeldChange::Enters(monitor) => match count_of(held, monitor).checked_add(1) {
            Some(count) => put_count(held, monitor, count),
            None => Err(AllocError),
        },
        HeldChange::Leaves(monitor) => {
            let count = count_of(held, monitor).saturating_sub(1);
            put_count(held, monitor, count)
        }
    }
}

/// The same of each local.
pub fn copied_locals(locals: &Locals) -> Result<Locals, AllocError>
    ensures { IfOk result (λ r. (q : ℕ) → local_at r q ≡ local_at locals.now q) }
{
    locals.clone()
}

/// The same of each monitor.
pub fn copied_held(held: &Held) -> Result<Held, AllocError>
    ensures { IfOk result (λ r. (q : ℕ) → count_at r q ≡ count_at held.now q) }
{
    held.clone()
}

/// The same of each thread.
pub fn copied_threads(threads: &Threads) -> Result<Threads, AllocError>
    ensures { IfOk result (λ r. (q : ℕ) → stage_at r q ≡ stage_at threads.now q) }
{
    threads.clone()
}

/// Whether a monitor of this list is held.
fn is_one_held(listed: &[u32], held: &Held) -> bool
    ensures some { result ≡ true → (q : ℕ) × (0 < count_at held.now q) }
    ensures none { result ≡ false → (q : ℕ) → list_any (nat_eq q) listed.now ≡ true → count_at held.now q ≡ 0 }
{
    for monitor in listed {
        if count_of(held, *monitor) != 0 {
            return true;
        }
    }
    false
}

/// Whether a monitor is held.
pub fn is_any_held(alloc: Global, held: &Held) -> Result<bool, AllocError>
    ensures { IfOk result (λ yes_or_no. IsTrue yes_or_no ↔ ((q : ℕ) × (0 < count_at held.now q))) }
{
    let listed = keys_of(alloc, held)?;
    Ok(is_one_held(&listed, held))
}
