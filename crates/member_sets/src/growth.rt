//! One set within another.

ghost use Rattle.std.specs.Prelude.{◌↔◌, IsTrue};
ghost use Rattle.action_orders.specs.Causality.{IsProperSubset};
ghost use Rattle.action_orders.specs.Sequence.{Ascends};

use crate::member::stands_at;
use action_orders::ActionRef;

/// Whether the second set has every member of the first, and another besides. Both increase. It takes time in proportion to
/// the second set.
pub fn grows(small: &[ActionRef], large: &[ActionRef]) -> bool
    requires small { Ascends small.now }
    requires large { Ascends large.now }
    ensures { IsTrue result ↔ IsProperSubset small.now large.now }
{
    let mut found = 0;
    let mut new = false;
    for member in large {
        if stands_at(small, found, member) {
            found += 1;
        } else {
            new = true;
        }
    }
    found == small.len() && new
}
