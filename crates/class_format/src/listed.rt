ghost use Rattle.std.specs.Prelude.{◌≡◌, [], ◌∷◌, ◌++◌, ◌<◌, ◌^◌, ◌↔◌, length, slice_get, IsSome, OnOk, OnErr};
ghost use Rattle.std.specs.Option.{option_copied};
ghost use Rattle.class_format.specs.declared.refusal.FormatRefusal.TheVariants.{Memory};

use crate::refusal::FormatRefusal;
use std::alloc::Global;
use std::marker::Model;

/// The entries, members, attributes or handlers of a class file, in order. Contracts see the list of the items.
#[derive(Debug, Drop)]
pub struct Listed<T> {
    items: Vec<T>,
}

impl<T> Model for Listed<T> {
    ghost use Rattle.std.specs.Prelude.{List};
    ghost use Rattle.std.specs.Coded.{coded_list};

    ghost Value = { List T };

    ghost coded = { coded_list T.code };

    ghost view = { λ list. list.items.items };
}

impl<T> Listed<T> {
    /// The empty list. It takes no memory.
    pub fn new(alloc: Global) -> Listed<T>
        ensures { result ≡ [] }
    {
        Listed {
            items: Vec::new(alloc),
        }
    }

    /// How many items there are.
    pub fn len(&self) -> usize
        ensures value { result ≡ length self.now }
        ensures small { result < 2 ^ 63 }
    {
        self.items.len()
    }

    /// The item at a place, from 0.
    pub fn get(&self, at: usize) -> Option<&T>
        ensures value { option_copied result ≡ slice_get self.now at }
        ensures within { IsSome result ↔ (at < length self.now) }
    {
        self.items.get(at)
    }

    /// The items as a slice.
    pub fn as_slice(&self) -> &[T]
        ensures { result.now ≡ self.now }
    {
        self.items.as_slice()
    }
}

/// Room for one item where there is none yet: most lists of a class file have one.
fn make_room<T>(items: &mut Vec<T>) -> Result<(), FormatRefusal>
    ensures same { items.new.items ≡ items.old.items }
    ensures memory { OnErr result (result ≡ Err FormatRefusal.Memory) }
{
    if !items.is_empty() {
        return Ok(());
    }
    items.reserve_exact(1).map_err(|_| FormatRefusal::Memory)
}

impl<T: Drop> Listed<T> {
    /// Adds the item at the end. The one refusal is want of memory.
    pub fn push(&mut self, item: T) -> Result<(), FormatRefusal>
        ensures ok { OnOk result (self.new ≡ self.old ++ item ∷ []) }
        ensures err { OnErr result (self.new ≡ self.old) }
        ensures memory { OnErr result (result ≡ Err FormatRefusal.Memory) }
    {
        make_room(&mut self.items)?;
        self.items.push(item).map_err(|_| FormatRefusal::Memory)
    }
}
