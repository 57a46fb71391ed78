ghost use Rattle.std.specs.Prelude.{◌<◌, ◌≡◌, ◌≤◌, ◌^◌, ℕ, IfOk, length, List, Option, Some};
ghost use Rattle.std.specs.Io.{ReadsAtMost, WritesAtMost};
ghost use Rattle.ports.specs.Faults.{HasCause};
ghost use Rattle.ports.specs.Growth.{Empties, PutsSome, SameContents, SameElsewhere};
ghost use Rattle.ports.specs.Reading.{ReadsAt};

use crate::Failed;

/// Files by name. `content` is the bytes of a name, fewer than 2^64, or `None` where the object does not tell them.
/// `read_faults` counts the faults of `read_at`, `write_faults` those of `start` and `append`; neither ever falls. A
/// count that stands at 2^64 - 1 counts as risen in every call.
pub trait Files {
    ghost content: { Self → List ℕ → Option (List ℕ) };

    ghost read_faults: { Self → ℕ };

    ghost write_faults: { Self → ℕ };

    /// Puts bytes of the name's content, from a place on, at the buffer's front, and answers how many: 0 only at or past
    /// the content's end, or for an empty buffer. No content changes, also where it failed.
    ///
    /// # Errors
    /// `Failed` only where `read_faults` rose.
    fn read_at(&mut self, name: &str, place: u64, buf: &mut [u8]) -> Result<usize, Failed>
        ensures bound { ReadsAtMost result buf.new }
        ensures bytes { ReadsAt place (content self.old name.now) result buf.new }
        ensures contents { SameContents (content self.old) (content self.new) }
        ensures cause { HasCause (read_faults self.old) (read_faults self.new) result }
        ensures writes { write_faults self.new ≡ write_faults self.old };

    /// Makes the file empty. Where it failed, the file is as it was, or empty. Other names stay.
    ///
    /// # Errors
    /// `Failed` only where `write_faults` rose.
    fn start(&mut self, name: &str) -> Result<(), Failed>
        ensures content { Empties (content self.old name.now) (content self.new name.now) result }
        ensures others { SameElsewhere name.now (content self.old) (content self.new) }
        ensures cause { HasCause (write_faults self.old) (write_faults self.new) result }
        ensures reads { read_faults self.new ≡ read_faults self.old };

    /// Adds bytes from the front of a piece to the file's end, and answers how many: at least one of a piece that is not
    /// empty. Where it failed, the file is as it was. Other names stay.
    ///
    /// # Errors
    /// `Failed` only where `write_faults` rose.
    fn append(&mut self, name: &str, bytes: &[u8]) -> Result<usize, Failed>
        ensures bound { WritesAtMost result bytes.now }
        ensures some { IfOk result (λ n. 0 < length bytes.now → 0 < n) }
        ensures bytes { PutsSome (content self.old name.now) (content self.new name.now) result bytes.now }
        ensures others { SameElsewhere name.now (content self.old) (content self.new) }
        ensures cause { HasCause (write_faults self.old) (write_faults self.new) result }
        ensures reads { read_faults self.new ≡ read_faults self.old };

    ghost short: { (files : Self) (name bytes : List ℕ) → content files name ≡ Some bytes → length bytes < 2 ^ 64 };
}

/// Takes bytes. `held` is the bytes that were put, or `None` where the object does not tell them. `faults` counts the
/// faults, and never falls; a count that stands at 2^64 - 1 counts as risen in every call. `same_rest` says that two
/// states are the same but for what is held and the count.
pub trait Sink {
    ghost held: { Self → Option (List ℕ) };

    ghost faults: { Self → ℕ };

    ghost same_rest: { Self → Self → Type 0 };

    /// Adds bytes from the front of a piece, and answers how many: at least one of a piece that is not empty. Where it
    /// failed, none was added.
    ///
    /// # Errors
    /// `Failed` only where `faults` rose.
    fn put(&mut self, bytes: &[u8]) -> Result<usize, Failed>
        ensures bound { WritesAtMost result bytes.now }
        ensures some { IfOk result (λ n. 0 < length bytes.now → 0 < n) }
        ensures bytes { PutsSome (held self.old) (held self.new) result bytes.now }
        ensures cause { HasCause (faults self.old) (faults self.new) result }
        ensures rest { same_rest self.old self.new };

    ghost rest_refl: { (sink : Self) → same_rest sink sink };

    ghost rest_trans: { (first second third : Self) → same_rest first second → same_rest second third → same_rest first third };
}
