ghost use Rattle.std.specs.Prelude.{◌≡◌, ℕ, List, Option, refl};
ghost use Rattle.std.proofs.Common.{◌∙◌};
ghost use Rattle.std.specs.Io.{ReadsAtMost};
ghost use Rattle.ports.specs.Faults.{HasCause};
ghost use Rattle.sources.specs.Leaving.{EndsOnly, TakesSome};

use ports::Failed;

/// Gives bytes. `left` is the bytes that are left, or `None` where the object does not tell them. `faults` counts the
/// faults, and never falls; a count that stands at 2^64 - 1 counts as risen in every call. `same_rest` says that two
/// states are the same but for what is left and the count.
pub trait Source {
    ghost left: { Self → Option (List ℕ) };

    ghost faults: { Self → ℕ };

    ghost same_rest: { Self → Self → Type 0 };

    /// Takes bytes from the front of what is left, puts them at the buffer's front, and answers how many: 0 only at their
    /// end, or for an empty buffer. Where it failed, it took none.
    ///
    /// # Errors
    /// `Failed` only where `faults` rose.
    fn read(&mut self, buf: &mut [u8]) -> Result<usize, Failed>
        ensures bound { ReadsAtMost result buf.new }
        ensures bytes { TakesSome (left self.old) (left self.new) result buf.new }
        ensures end { EndsOnly (left self.old) result buf.new }
        ensures cause { HasCause (faults self.old) (faults self.new) result }
        ensures rest { same_rest self.old self.new };

    ghost rest_refl: { (source : Self) → same_rest source source };

    ghost rest_trans: { (first second third : Self) → same_rest first second → same_rest second third → same_rest first third };
}

/// A source that is lent. Its rest is besides which source it is.
impl<R: Source> Source for &mut R {
    ghost left = { λ s. R.left s.now };

    ghost faults = { λ s. R.faults s.now };

    ghost same_rest = { λ s t. (t.ghost_name ≡ s.ghost_name) × R.same_rest s.now t.now };

    ghost rest_refl = { λ s. (refl, R.rest_refl s.now) };

    ghost rest_trans = { λ s t u p q. (q.0 ∙ p.0, R.rest_trans s.now t.now u.now p.1 q.1) };

    fn read(&mut self, buf: &mut [u8]) -> Result<usize, Failed> {
        (**self).read(buf)
    }
}
