//! Whether two items of a list are alike.

ghost use Rattle.std.specs.Prelude.{◌≡◌, ◌↔◌, Err, false, IfOk, OnErr, IsTrue, AllPairs};

use crate::refusal::ProfileRefusal;
use indexmap::IndexSet;
use std::alloc::Global;
use std::hash::Hash;

/// Whether no two of these keys are equal.
pub fn are_distinct<K: Copy + Eq + Hash + Drop>(
    alloc: Global,
    keys: &[K],
) -> Result<bool, ProfileRefusal>
    ensures told { IfOk result (λ distinct. IsTrue distinct ↔ AllPairs (λ a b. K.eq b a ≡ false) keys.now) }
    ensures memory { OnErr result (result ≡ Err ProfileRefusal.Memory) }
{
    let mut seen = IndexSet::new(alloc);
    for key in keys {
        match seen.insert_full(*key) {
            Ok((_, true)) => {}
            Ok((_, false)) => return Ok(false),
            Err(_) => return Err(ProfileRefusal::Memory),
        }
    }
    Ok(true)
}
