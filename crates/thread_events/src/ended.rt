//! The threads whose end is detected.

ghost use Rattle.std.specs.Prelude.{◌≡◌, ◌||◌, ℕ, All};
ghost use Rattle.action_orders.specs.Runs.{detects, is_detection};
ghost use Rattle.action_orders.specs.Spelling.{IsSpeltEntry};
ghost use Rattle.thread_meaning.specs.Tracing.{has_ended};

use action_orders::{ActionOperand, Entry};
use program::Kind;

/// The set with the thread whose end an action detects, if it does.
fn with_detected(ended: u8, entry: &Entry) -> u8
    requires { IsSpeltEntry entry.now }
    ensures { (k : ℕ) → has_ended result k ≡ (has_ended ended k || is_detection k entry.now) }
{
    match (entry.action.kind, &entry.action.operand) {
        (Kind::Detect, ActionOperand::Thread(thread)) => ended | 1 << *thread,
        _ => ended,
    }
}

/// The set of the threads of which a thread with these actions has a detection, as bits: bit k stands for thread k. Its isAlive
/// calls find these ended, and its joins detect them. It takes time in proportion to the actions.
pub fn ended_threads(part: &[Entry]) -> u8
    requires { All IsSpeltEntry part.now }
    ensures { (k : ℕ) → has_ended result k ≡ detects part.now k }
{
    let mut ended = 0;
    for entry in part {
        ended = with_detected(ended, entry);
    }
    ended
}
