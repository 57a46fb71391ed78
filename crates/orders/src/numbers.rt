//! Numbers of identifiers.

ghost use Rattle.std.specs.Prelude.{◌≡◌, ◌≢◌, ◌<◌, ◌↔◌, ℕ, Some, slice_get, length, Contains, AllPairs, IsSome, IfOk, IfSome, OnOk, nat_eq};
ghost use Rattle.indexmap.specs.IndexSet.{insert_key};

use indexmap::IndexSet;
use ports::Memory;
use std::alloc::Global;

/// Adds an identifier, where it is not there.
fn add(set: &mut IndexSet<u64>, id: u64) -> Result<(), Memory>
    ensures { OnOk result (set.new.keys ≡ insert_key nat_eq set.old.keys id) }
{
    match set.insert_full(id) {
        Ok(_) => Ok(()),
        Err(_) => Err(Memory),
    }
}

/// A table from distinct identifiers to their places in the list.
pub fn numbers(alloc: Global, ids: &[u64]) -> Result<IndexSet<u64>, Memory>
    requires { AllPairs (λ m n. m ≢ n) ids.now }
    ensures { IfOk result (λ set. set.keys ≡ ids.now) }
{
    let mut set = IndexSet::with_capacity(alloc, ids.len()).map_err(|_| Memory)?;
    for id in ids {
        add(&mut set, *id)?;
    }
    Ok(set)
}

/// The place of an identifier.
pub fn number_of(set: &IndexSet<u64>, id: u64) -> Option<usize>
    ensures found { IfSome result (λ n. slice_get set.now.keys n ≡ Some id) }
    ensures there { IsSome result ↔ Contains set.now.keys id }
{
    set.get_index_of(&id)
}
