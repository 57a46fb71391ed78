//! The entry of a method.

ghost use Rattle.std.specs.Prelude.{◌≡◌, ◌≢◌, ◌<◌, ◌≤◌, ℕ, length, Some, None, IfOk, OnOk, slice_get, replicate, ◌∷◌, []};
ghost use Rattle.std.specs.Option.{option_map};
ghost use Rattle.typing.specs.Joining.{local_at};
ghost use Rattle.typing.specs.Levels.{kept_at};
ghost use Rattle.typing.specs.States.{entry_types};
ghost use Rattle.typing.specs.Summaries.{summary_of, SummarizesEntry};

use crate::joined::Joined;
use crate::joined_type::JoinedType;
use crate::maps::Locals;
use crate::stack::TypeStack;
use crate::untyped::{Entry, UntypedMethod};
use program::ValueType;
use std::alloc::{AllocError, Global};
use std::collections::BTreeMap;

/// How many locals are filled at the entry.
pub fn filled(entry: Entry, parameters: u32) -> u32
    ensures { result ≡ length (entry_types entry parameters) }
{
    match entry {
        Entry::Main | Entry::Run => 1,
        Entry::Static => parameters,
    }
}

/// One local with a type.
fn one_local(alloc: Global, holds: ValueType) -> Result<Locals, AllocError>
    ensures { IfOk result (λ r. (q : ℕ) → local_at r q ≡ option_map JoinedType.Known (slice_get (holds ∷ []) q)) }
{
    let mut locals = BTreeMap::new(alloc);
    locals.insert(0, JoinedType::Known(holds))?;
    Ok(locals)
}

/// Ints in the first locals.
fn ints(alloc: Global, count: u32) -> Result<Locals, AllocError>
    ensures { IfOk result (λ r. (q : ℕ) → local_at r q ≡ option_map JoinedType.Known (slice_get (replicate count ValueType.Int) q)) }
{
    let mut locals = BTreeMap::new(alloc);
    for slot in 0..count {
        locals.insert(slot, JoinedType::Known(ValueType::Int))?;
    }
    Ok(locals)
}

/// The locals at the entry.
fn entry_locals(alloc: Global, entry: Entry, parameters: u32) -> Result<Locals, AllocError>
    ensures { IfOk result (λ r. (q : ℕ) → local_at r q ≡ option_map JoinedType.Known (slice_get (entry_types entry parameters) q)) }
{
    match entry {
        Entry::Main => one_local(alloc, ValueType::Args),
        Entry::Run => one_local(alloc, ValueType::This),
        Entry::Static => ints(alloc, parameters),
    }
}

/// What is kept of the state of the entry.
fn entry_joined(alloc: Global, method: &UntypedMethod) -> Result<Joined, AllocError>
    ensures { IfOk result (λ r. SummarizesEntry method.now (summary_of r)) }
{
    Ok(Joined {
        locals: entry_locals(alloc, method.entry, method.frame.parameters)?,
        stack: TypeStack::new(alloc),
        stacks_differ: false,
        held: BTreeMap::new(alloc),
        held_differs: false,
        threads: BTreeMap::new(alloc),
    })
}

/// What is kept at each place before the first step.
pub fn entered(alloc: Global, method: &UntypedMethod) -> Result<Vec<Option<Joined>>, AllocError>
    requires { 0 < length method.now.listing }
    ensures long { IfOk result (λ v. length v.items ≡ length method.now.listing) }
    ensures first { IfOk result (λ v. (x : Joined) × (kept_at v.items 0 ≡ Some x) × SummarizesEntry method.now (summary_of x)) }
    ensures others { IfOk result (λ v. (q : ℕ) → q ≢ 0 → kept_at v.items q ≡ None) }
{
    let mut states = Vec::new(alloc);
    states.push(Some(entry_joined(alloc, method)?))?;
    for place in 1..method.listing.len() {
        states.push(None)?;
    }
    Ok(states)
}
