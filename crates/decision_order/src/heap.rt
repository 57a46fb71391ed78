//! The heap of the waiting variables.

ghost use Rattle.std.specs.Prelude.{◌≡◌, ◌^◌, ◌<◌, ℕ, length, slice_index, IfSome};
ghost use Rattle.std.specs.List.Sorted.{IsPermutation};
ghost use Rattle.decision_order.specs.Waiting.{IsPlaced};

/// Lets the variables in two places of the heap change places.
pub fn swap(heap: &mut [u32], places: &mut [Option<u32>], i: usize, j: usize)
    requires placed { IsPlaced heap.old places.old }
    requires i { i < length heap.old }
    requires j { j < length heap.old }
    requires small { length heap.old < 2 ^ 32 }
    ensures placed { IsPlaced heap.new places.new }
    ensures permuted { IsPermutation heap.old heap.new }
{
    heap.swap(i, j);
    places[heap[i] as usize] = Some(i as u32);
    places[heap[j] as usize] = Some(j as u32);
}

/// Whether one variable is more active than another.
fn is_higher(activities: &[f64], one: u32, other: u32) -> bool
    requires one { one < length activities.now }
    requires other { other < length activities.now }
{
    activities[one as usize] > activities[other as usize]
}

/// Moves the variable in this place up, as far as it is more active.
pub fn sift_up(heap: &mut [u32], places: &mut [Option<u32>], activities: &[f64], from: usize)
    requires placed { IsPlaced heap.old places.old }
    requires from { from < length heap.old }
    requires activities { length activities.now ≡ length places.old }
    requires small { length heap.old < 2 ^ 32 }
    ensures placed { IsPlaced heap.new places.new }
    ensures permuted { IsPermutation heap.old heap.new }
{
    let mut at = from;
    while at > 0 {
        let parent = (at - 1) / 2;
        if !is_higher(activities, heap[at], heap[parent]) {
            return;
        }
        swap(heap, places, at, parent);
        at = parent;
    }
}

/// That child of a place whose variable is more active.
fn higher_child(heap: &[u32], activities: &[f64], at: usize) -> Option<usize>
    requires below { (i : ℕ) → i < length heap.now → slice_index heap.now i < length activities.now }
    requires small { length heap.now < 2 ^ 32 }
    requires at { at < 2 ^ 32 }
    ensures { IfSome result (λ child. (at < child) × (child < length heap.now)) }
{
    let left = 2 * at + 1;
    if left >= heap.len() {
        return None;
    }
    if left + 1 < heap.len() && is_higher(activities, heap[left + 1], heap[left]) {
        return Some(left + 1);
    }
    Some(left)
}

/// Moves the first variable down, as far as one below it is more active.
pub fn sift_down(heap: &mut [u32], places: &mut [Option<u32>], activities: &[f64])
    requires placed { IsPlaced heap.old places.old }
    requires activities { length activities.now ≡ length places.old }
    requires small { length heap.old < 2 ^ 32 }
    ensures placed { IsPlaced heap.new places.new }
    ensures permuted { IsPermutation heap.old heap.new }
{
    let mut at = 0;
    while let Some(child) = higher_child(heap, activities, at) {
        if !is_higher(activities, heap[child], heap[at]) {
            return;
        }
        swap(heap, places, at, child);
        at = child;
    }
}
