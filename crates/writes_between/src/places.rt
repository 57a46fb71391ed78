//! Lists of places.

ghost use Rattle.std.specs.Prelude.{IfNone, IfSome};
ghost use Rattle.std.specs.List.Sorted.{IsNonDecreasingBy};
ghost use Rattle.writes_between.specs.Places.{IsLastBelow, NoneBelow};

/// The last place below a bound, of places in order.
pub fn last_below(places: &[usize], bound: usize) -> Option<usize>
    requires { IsNonDecreasingBy (λ k. k) places.now }
    ensures found { IfSome result (IsLastBelow places.now bound) }
    ensures none { IfNone result (NoneBelow places.now bound) }
{
    let count = places.partition_point(|place| *place < bound);
    if count == 0 {
        return None;
    }
    Some(places[count - 1])
}
