//! Places in lists.

ghost use Rattle.std.specs.Prelude.{◌≡◌, ◌≢◌, ◌<◌, ◌≤◌, ◌↔◌, ℕ, length, slice_index, IsTrue};
ghost use Rattle.relations.specs.Places.{StandsBefore};

/// The first place of `item` in the list from the place `from` on, or the list's length where it stands at none.
pub fn place_from(list: &[u64], from: usize, item: u64) -> usize
    requires { from ≤ length list.now }
    ensures within { result ≤ length list.now }
    ensures from_there { from ≤ result }
    ensures before { (k : ℕ) → from ≤ k → k < result → slice_index list.now k ≢ item }
    ensures found { result < length list.now → slice_index list.now result ≡ item }
{
    for i in from..list.len() {
        if list[i] == item {
            return i;
        }
    }
    list.len()
}

/// Whether `earlier` stands at some place of the list before a place of `later`.
pub fn stands_before(list: &[u64], earlier: u64, later: u64) -> bool
    ensures { IsTrue result ↔ StandsBefore list.now earlier later }
{
    let first = place_from(list, 0, earlier);
    if first == list.len() {
        return false;
    }
    place_from(list, first + 1, later) < list.len()
}
