//! The last places so far, by thread.

ghost use Rattle.std.specs.Prelude.{◌<◌, ◌↔◌, ℕ, None, length, slice_index_or, IfSome, IsTrue};
ghost use Rattle.sync_agreement.specs.Latest.{IsBehind, IsRaised};

/// The later of two places, of which the first may be none.
fn later(last: Option<usize>, place: usize) -> usize
    ensures { (n : ℕ) → (result < n) ↔ (IsBehind last n × (place < n)) }
{
    match last {
        Some(last) => last.max(place),
        None => place,
    }
}

/// Notes a place for a thread, if there is one.
pub fn raise(latest: &mut [Option<usize>], thread: Option<usize>, place: usize)
    requires { IfSome thread (λ t. t < length latest.old) }
    ensures { IsRaised thread place latest.old latest.new }
{
    if let Some(thread) = thread {
        latest[thread] = Some(later(latest[thread], place));
    }
}

/// Whether a place lies behind the last one of a thread, if there is one.
pub fn is_behind(latest: &[Option<usize>], thread: Option<usize>, place: usize) -> bool
    requires { IfSome thread (λ t. t < length latest.now) }
    ensures { IsTrue result ↔ IfSome thread (λ t. IsBehind (slice_index_or latest.now t None) place) }
{
    let Some(thread) = thread else {
        return true;
    };
    match latest[thread] {
        Some(last) => last < place,
        None => true,
    }
}
