ghost use Rattle.std.specs.Prelude.{};
ghost use Rattle.ports.specs.Faults.{HasCause};
ghost use Rattle.ports.specs.Growth.{PutsAll};

use crate::{Failed, Sink};

/// Puts all bytes, in as many pieces as the sink takes. Where it failed, a prefix of them was put.
///
/// # Errors
/// `Failed` only where the sink's count of faults rose.
pub fn put_all<S: Sink>(out: &mut S, bytes: &[u8]) -> Result<(), Failed>
    ensures bytes { PutsAll (S.held out.old) (S.held out.new) result bytes.now }
    ensures cause { HasCause (S.faults out.old) (S.faults out.new) result }
    ensures rest { S.same_rest out.old out.new }
{
    let mut place = 0;
    while place < bytes.len() {
        place += out.put(&bytes[place..])?;
    }
    Ok(())
}
