//! Texts of items that are put into a sink one after another.
#![tactic(auto)]

ghost use Rattle.std.specs.Prelude.{All, List, ℕ};
ghost use Rattle.std.specs.List.{flat_map};
ghost use Rattle.ports.specs.Faults.{HasCause};
ghost use Rattle.ports.specs.Growth.{PutsAll};

pub mod seven_bits;

use ports::{Failed, Sink};
pub use seven_bits::{SevenBits, put_seven_bits, read_seven_bits};

/// A way to write items of a type. `text` is the bytes of an item, and `fits` says which items have one.
pub trait Spelling<X> {
    ghost text: { Self → X → List ℕ };

    ghost fits: { Self → X → Type 0 } = { λ _ _. Unit {0} };

    /// Puts the text of an item. Where it failed, a prefix of that was put.
    ///
    /// # Errors
    /// `Failed` only where the sink's count of faults rose.
    fn put<S: Sink>(&self, out: &mut S, item: &X) -> Result<(), Failed>
        requires { fits self.now item.now }
        ensures bytes { PutsAll (S.held out.old) (S.held out.new) result (text self.now item.now) }
        ensures cause { HasCause (S.faults out.old) (S.faults out.new) result }
        ensures rest { S.same_rest out.old out.new };
}

/// Puts the texts of all items, one after another. Where it failed, a prefix of that was put.
///
/// # Errors
/// `Failed` only where the sink's count of faults rose.
pub fn put_each<X, W: Spelling<X>, S: Sink>(
    spelling: &W,
    out: &mut S,
    items: &[X],
) -> Result<(), Failed>
    requires { All (W.fits spelling.now) items.now }
    ensures bytes { PutsAll (S.held out.old) (S.held out.new) result (flat_map (W.text spelling.now) items.now) }
    ensures cause { HasCause (S.faults out.old) (S.faults out.new) result }
    ensures rest { S.same_rest out.old out.new }
{
    for item in items {
        spelling.put(out, item)?;
    }
    Ok(())
}
