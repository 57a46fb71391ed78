//! What has a text, and lists of such items.

ghost use Rattle.std.specs.Prelude.{List, ℕ};
ghost use Rattle.std.specs.List.{flat_map};
ghost use Rattle.ports.specs.Faults.{HasCause};
ghost use Rattle.ports.specs.Growth.{PutsAll};

use ports::{Failed, Sink};

/// An item that can be written. `text` is its bytes.
pub trait Text {
    ghost text: { Self → List ℕ };

    /// Puts the text. Where it failed, a prefix of it was put.
    ///
    /// # Errors
    /// `Failed` only where the sink's count of faults rose.
    fn put<S: Sink>(&self, out: &mut S) -> Result<(), Failed>
        ensures bytes { PutsAll (S.held out.old) (S.held out.new) result (text self.now) }
        ensures cause { HasCause (S.faults out.old) (S.faults out.new) result }
        ensures rest { S.same_rest out.old out.new };
}

/// Puts the texts of all items, one after another. Where it failed, a prefix of that was put.
///
/// # Errors
/// `Failed` only where the sink's count of faults rose.
pub fn put_each<T: Text, S: Sink>(out: &mut S, items: &[T]) -> Result<(), Failed>
    ensures bytes { PutsAll (S.held out.old) (S.held out.new) result (flat_map T.text items.now) }
    ensures cause { HasCause (S.faults out.old) (S.faults out.new) result }
    ensures rest { S.same_rest out.old out.new }
{
    for item in items {
        item.put(out)?;
    }
    Ok(())
}
