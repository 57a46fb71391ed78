//! The sets of a sequence, one after another.

ghost use Rattle.std.specs.Prelude.{IfNone, IfSome};
ghost use Rattle.action_orders.specs.Sequence.{Ascends, IsSequence};
ghost use Rattle.std.specs.Prelude.{◌≡◌, ◌<◌, length};
ghost use Rattle.member_sets.specs.Growth.{GrowsBelow, IsFirstWithoutGrowth, set_before};

use crate::growth::grows;
use action_orders::{ActionRef, Sequence, SequenceStep};

/// The set before the step at a place: that of the step before it, or none of no members.
pub fn set_before(steps: &[SequenceStep], place: usize) -> &[ActionRef]
    requires { place < length steps.now }
    ensures { result.now ≡ set_before steps.now place }
{
    if place == 0 {
        return &[];
    }
    steps[place - 1].set.as_slice()
}

/// The place of the first step whose set is no proper superset of the set before it, or none where every set grows
/// (JLS 17.4.8). It takes time in proportion to the members of all sets.
pub fn first_without_growth(sequence: &Sequence) -> Option<usize>
    ensures found { IfSome result (IsFirstWithoutGrowth sequence.now) }
    ensures none { IfNone result (GrowsBelow sequence.now (length sequence.now)) }
{
    let steps = sequence.steps();
    for place in 0..steps.len() {
        if !grows(set_before(steps, place), steps[place].set.as_slice()) {
            return Some(place);
        }
    }
    None
}
