//! Counts by thread.

ghost use Rattle.std.specs.Prelude.{◌≡◌, ◌≢◌, ◌<◌, ◌+◌, ◌^◌, ◌↔◌, ℕ, length, slice_index, IfOk, IfSome, IsTrue};
ghost use Rattle.mutual_exclusion.specs.Counts.{IsBumped, count_at};

use clocks::THREADS;
use ports::Memory;
use std::alloc::Global;

/// How often something was done, for each thread.
#[derive(Clone, Copy, Debug, PartialEq, Eq)]
pub struct Counts {
    pub of: [usize; THREADS],
}

impl Counts {
    /// Nothing was done.
    pub fn none() -> Counts
        ensures { (t : ℕ) → slice_index result.of t ≡ 0 }
    {
        Counts { of: [0; THREADS] }
    }

    /// The counts with one more for a thread.
    fn with(&self, thread: usize) -> Counts
        requires few { thread < 8 }
        requires small { slice_index self.now.of thread < 2 ^ 63 }
        ensures own { slice_index result.of thread ≡ slice_index self.now.of thread + 1 }
        ensures others { (t : ℕ) → t ≢ thread → slice_index result.of t ≡ slice_index self.now.of t }
    {
        let mut of = self.of;
        of[thread] += 1;
        Counts { of }
    }

    /// Whether the counts of all threads but one are those of the other counts.
    pub fn agree_but_at(&self, other: &Counts, thread: usize) -> bool
        ensures { IsTrue result ↔ ((t : ℕ) → t ≢ thread → slice_index self.now.of t ≡ slice_index other.now.of t) }
    {
        for t in 0..THREADS {
            if t != thread && self.of[t] != other.of[t] {
                return false;
            }
        }
        true
    }
}

/// Counts one more for a channel, if any, and a thread.
pub fn bump(counts: &mut [Counts], channel: Option<usize>, thread: usize)
    requires few { thread < 8 }
    requires inside { IfSome channel (λ c. c < length counts.old) }
    requires small { IfSome channel (λ c. count_at counts.old c thread < 2 ^ 63) }
    ensures { IsBumped channel thread counts.old counts.new }
{
    if let Some(channel) = channel {
        counts[channel] = counts[channel].with(thread);
    }
}

/// No count yet, for each channel.
pub fn all_none(alloc: Global, channels: usize) -> Result<Vec<Counts>, Memory>
    ensures size { IfOk result (λ counts. length counts.items ≡ channels) }
    ensures zero { IfOk result (λ counts. (c t : ℕ) → count_at counts.items c t ≡ 0) }
{
    let counts = vec![in alloc; Counts::none(); channels].map_err(|_| Memory)?;
    Ok(counts)
}

/// The counts of a channel.
pub fn counts_of(counts: &[Counts], channel: usize) -> Counts
    requires { channel < length counts.now }
    ensures { (t : ℕ) → slice_index result.of t ≡ count_at counts.now channel t }
{
    counts[channel]
}
