//! One clock.

ghost use Rattle.std.specs.Prelude.{◌≡◌, ◌≢◌, ◌<◌, ℕ, slice_index};
ghost use Rattle.std.specs.Prelude.{max};

/// How many threads there may be.
pub const THREADS: usize = 8;

/// For each thread, one more than the place of its last event that is known, or 0 where none is.
#[derive(Clone, Copy, Debug, PartialEq, Eq)]
pub struct Clock {
    pub known: [usize; THREADS],
}

impl Clock {
    /// A clock that knows no event.
    pub fn empty() -> Clock
        ensures { (t : ℕ) → slice_index result.known t ≡ 0 }
    {
        Clock {
            known: [0; THREADS],
        }
    }

    /// What either clock knows.
    pub fn joined(&self, other: &Clock) -> Clock
        ensures { (t : ℕ) → slice_index result.known t ≡ max (slice_index self.now.known t) (slice_index other.now.known t) }
    {
        let mut known = self.known;
        for t in 0..THREADS {
            known[t] = known[t].max(other.known[t]);
        }
        Clock { known }
    }

    /// The clock with another count for one thread.
    pub fn with(&self, thread: usize, count: usize) -> Clock
        requires { thread < 8 }
        ensures own { slice_index result.known thread ≡ count }
        ensures others { (t : ℕ) → t ≢ thread → slice_index result.known t ≡ slice_index self.now.known t }
    {
        let mut known = self.known;
        known[thread] = count;
        Clock { known }
    }
}
